//! A session that was not opened.

ghost use Rattle.std.specs.Prelude.{◌≡◌};
ghost use Rattle.events.specs.Stop.{stopped};

use events::fault::SessionFault;
use parting::accepted::Accepted;
use stops::stop::Stop;

/// The accepted sheet and the book that a stopped opening gives back, and why it was stopped.
/// Sheet and book stand first, as they do in a session: then no copy of them has to be moved to another place.
#[derive(Drop)]
pub struct Unopened<B> {
    pub accepted: Accepted,
    pub book: B,
    pub fault: SessionFault,
}

impl<B: Drop> From<Unopened<B>> for Stop {
    ghost from_gives = { λ unopened stop. stop ≡ stopped unopened.fault };

    fn from(unopened: Unopened<B>) -> Stop {
        Stop::from(unopened.fault)
    }
}
