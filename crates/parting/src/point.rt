//! The points of soundness.

/// A point of soundness that fails.
#[derive(Clone, Copy)]
pub enum Point {
    /// The role is not on the same side, with the same partner, wherever it acts.
    Crossed,
    /// As sender it has not the same labels, with the same rows and resets, wherever it acts.
    Offer,
    /// As receiver it finds a label in two states with different rows or resets.
    Clash,
    /// From some state of the set no state in which it acts can be reached.
    Untold,
}
