//! Closing a session too early.

ghost use Rattle.std.specs.Prelude.{◌≡◌};
ghost use Rattle.events.specs.Closing.{early_stop};

use stops::stop::Stop;

/// 51: this role is not finished when the session is closed, and every lower one is.
#[derive(Clone, Copy, PartialEq, Eq, Debug)]
pub struct Early {
    pub role: u8,
}

impl From<Early> for Stop {
    ghost from_gives = { λ early stop. stop ≡ early_stop early };

    fn from(early: Early) -> Stop {
        Stop::new(51, early.role as usize, 0)
    }
}
