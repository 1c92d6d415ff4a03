//! A role's local protocol: its sets of states, and what it does in each.

/// What a role does in a set: nothing more, or send to one partner, or receive from one.
#[derive(Clone, Copy, Default)]
pub enum LocalKind {
    #[default]
    Finished,
    Sending { partner: u8 },
    Receiving { partner: u8 },
}

/// What an action with a label asks of the role's clock, and the number of the set that follows.
#[derive(Clone, Copy)]
pub struct Move {
    // The sheet's number of a row, 255 for any time: time books are asked by it.
    pub row: u8,
    pub reset: bool,
    pub next: usize,
}

/// A set of states that the role cannot tell apart, what it does there, and by label how it goes on.
#[derive(Clone, Copy, Default)]
pub struct LocalSet {
    pub states: u64,
    pub kind: LocalKind,
    // One entry for each label that a sheet can have: there is no length to keep.
    pub moves: [Option<Move>; 32],
}

/// A role's local protocol: its sets, in the order in which they are found; the first is the one in which it starts.
// An array with its length beside it: a `Part` is `Copy` for its users, and an `ArrayVec` is not.
#[derive(Clone, Copy, Default)]
pub struct Part {
    pub sets: [LocalSet; 32],
    pub count: usize,
}
