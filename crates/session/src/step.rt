//! What a passed event does to its role.

use parting::local::Move;

/// Which way a message goes.
// As `Way` of `parting`, which is private there: it would be made public for two words.
#[derive(Clone, Copy)]
pub(crate) enum Direction {
    Sends,
    Takes,
}

/// The step that an event is: which way, and how the role goes on.
#[derive(Clone, Copy)]
pub(crate) struct Step {
    pub(crate) direction: Direction,
    pub(crate) to: Move,
}
