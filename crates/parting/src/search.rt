//! The search for a role's sets.

ghost use Rattle.std.specs.Prelude.{◌≡◌, ◌+◌, ◌<◌, ◌≤◌, [], length, drop, MatchOption, slice_index};
ghost use Rattle.queue.specs.Held.{inside, slots_of};
ghost use Rattle.parting.specs.Family.{outcome, entered};

use arrayvec::ArrayVec;
use queue::queue::Queue;

/// The sets of a role that have been found, as masks, in the order in which they were found. The first ones
/// have been judged; the others wait for that in a queue.
// The queue holds again what `found` has from `judged` on: it is agreed that a worklist stands in a queue over handed
// slots. That `judged` stays is a clause of each function that enters sets: only `next` moves it.
#[derive(Drop)]
pub(crate) struct Search<'a> {
    pub found: ArrayVec<u64, 32>,
    pub judged: usize,
    waiting: Queue<'a, u64>,
    ghost few: { length found.items ≤ 32 },
    ghost reached: { judged ≤ length found.items },
    ghost slots: { length (slots_of waiting) ≡ 32 },
    ghost waits: { inside waiting ≡ drop judged found.items },
}

/// There is no room for one more set.
#[derive(Clone, Copy)]
pub(crate) struct NoRoom;

impl<'a> Search<'a> {
    // A search that has found nothing, over slots for the sets that wait.
    pub(crate) fn new(slots: &'a mut [u64]) -> Search<'a>
        requires { length slots.old ≡ 32 }
        ensures { (result.found.items ≡ []) × (result.judged ≡ 0) }
    {
        Search {
            found: ArrayVec::new(),
            judged: 0,
            waiting: Queue::new(slots),
        }
    }

    // Puts a set last among those found, where it waits to be judged, unless it was found before.
    pub(crate) fn enter(&mut self, set: u64) -> Result<(), NoRoom>
        ensures value { outcome result self.new.found.items ≡ entered self.old.found.items set }
        ensures judged { self.new.judged ≡ self.old.judged }
    {
        if self.found.as_slice().contains(&set) {
            return Ok(());
        }
        if self.found.is_full() {
            return Err(NoRoom);
        }
        self.found.push(set);
        self.waiting.push(set).map_err(|_| NoRoom)
    }

    // The set that has waited longest, after its number.
    pub(crate) fn next(&mut self) -> Option<(usize, u64)>
        ensures found { self.new.found.items ≡ self.old.found.items }
        ensures turn { MatchOption result (length self.old.found.items ≤ self.old.judged) (λ p. (p.0 ≡ self.old.judged) × (p.0 < length self.old.found.items) × (slice_index self.old.found.items p.0 ≡ p.1) × (self.new.judged ≡ self.old.judged + 1)) }
    {
        let set = self.waiting.pop()?;
        let number = self.judged;
        self.judged += 1;
        Some((number, set))
    }
}
