//! Where a channel's queue stands in its slots.

ghost use Rattle.std.specs.Prelude.{◌≡◌};

use events::message::Message;
use queue::queue::Queue;

/// Where a queue stands in its slots: the oldest message in slot `first`, and how many there are.
// Fixed memory: an `ArrayVec` would move every message at each taking, so a channel keeps its slots and the place of a
// queue in them.
#[derive(Clone, Copy)]
pub(crate) struct Place {
    pub(crate) first: usize,
    pub(crate) count: usize,
}

impl Place {
    /// Where this queue stands.
    pub(crate) fn of(queue: &Queue<'_, Message>) -> Place
        ensures { (result.first ≡ queue.now.first) × (result.count ≡ queue.now.count) }
    {
        Place {
            first: queue.first(),
            count: queue.len(),
        }
    }
}
