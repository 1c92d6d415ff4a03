//! The queue: where its elements stand in the slots.

ghost use Rattle.std.specs.Prelude.{◌-◌, ◌≤◌, length};

/// A ring over lent slots: `count` elements, the oldest in slot `first`, each newer one in the slot after
/// it, and slot 0 after the last. The slots belong to its user, who can resume a queue over them.
// Fixed memory: slots are handed to it, so a ring and no list that grows.
#[derive(Drop)]
pub struct Queue<'a, T> {
    pub(crate) slots: &'a mut [T],
    pub(crate) first: usize,
    pub(crate) count: usize,
    ghost begins: { first ≤ length slots.now - 1 },
    ghost fits: { count ≤ length slots.now },
}
