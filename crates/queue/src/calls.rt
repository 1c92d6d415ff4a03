//! What a queue does.

ghost use Rattle.std.specs.Prelude.{◌≡◌, ◌+◌, ◌<◌, [], ◌∷◌, ◌++◌, length, drop, if◌then◌else◌, MatchOption, MatchResult, OnOk};
ghost use Rattle.queue.specs.Held.{inside, slots_of};
ghost use Rattle.queue.specs.Ring.{within};

use crate::queue::Queue;

impl<'a, T: Copy> Queue<'a, T> {
    /// A queue that holds nothing, over these slots. It takes as many elements as there are slots.
    #[tactic(auto, unfolding(crate::specs::Ring::held))]
    pub fn new(slots: &'a mut [T]) -> Queue<'a, T>
        ensures slots { slots_of result ≡ slots.old }
        ensures lender { result.slots.ghost_name ≡ slots.entry.ghost_name }
        ensures held { inside result ≡ [] }
        ensures place { (result.first ≡ 0) × (result.count ≡ 0) }
    {
        Queue {
            slots,
            first: 0,
            count: 0,
        }
    }

    /// The queue that stood in these slots with its oldest element in slot `first` and `count` elements;
    /// or an empty one, where no queue can stand so in them.
    pub fn resume(slots: &'a mut [T], first: usize, count: usize) -> Queue<'a, T>
        ensures slots { slots_of result ≡ slots.old }
        ensures lender { result.slots.ghost_name ≡ slots.entry.ghost_name }
        ensures place { (result.first ≡ (if within (length slots.old) first count then first else 0)) × (result.count ≡ (if within (length slots.old) first count then count else 0)) }
    {
        let len = slots.len();
        let (first, count) = if first < len && count <= len {
            (first, count)
        } else {
            (0, 0)
        };
        Queue {
            slots,
            first,
            count,
        }
    }

    /// The oldest element, which stays where it is.
    #[tactic(auto, using(crate::proofs::Rings::held_oldest, crate::proofs::Rings::held_none))]
    pub fn oldest(&self) -> Option<T>
        ensures { MatchOption result (inside self.now ≡ []) (λ x. inside self.now ≡ x ∷ drop 1 (inside self.now)) }
    {
        // `then` was tried: the proof learns nothing of what a closure that copies a `T` answers.
        if self.count == 0 {
            return None;
        }
        let slots = &self.slots[..];
        Some(slots[self.first])
    }

    /// Puts an element last; or gives it back, with nothing changed, where every slot is taken.
    pub fn push(&mut self, x: T) -> Result<(), T>
        ensures held { MatchResult result (λ _. inside self.new ≡ inside self.old ++ x ∷ []) (λ y. (y ≡ x) × (self.old.count ≡ length (slots_of self.old)) × (slots_of self.new ≡ slots_of self.old) × (self.new.count ≡ self.old.count)) }
        ensures place { (self.new.first ≡ self.old.first) × OnOk result ((self.old.count < length (slots_of self.old)) × (self.new.count ≡ self.old.count + 1)) }
        ensures lender { self.new.slots.ghost_name ≡ self.old.slots.ghost_name }
        ensures room { length (slots_of self.new) ≡ length (slots_of self.old) }
    {
        let len = self.slots.len();
        if self.count >= len {
            return Err(x);
        }
        let at = if self.first < len - self.count {
            self.first + self.count
        } else {
            self.first - (len - self.count)
        };
        self.slots[at] = x;
        self.count += 1;
        Ok(())
    }

    /// Takes the oldest element out; none where it holds nothing.
    pub fn pop(&mut self) -> Option<T>
        ensures held { MatchOption result ((inside self.old ≡ []) × (self.new.first ≡ self.old.first) × (self.new.count ≡ self.old.count)) (λ x. inside self.old ≡ x ∷ inside self.new) }
        ensures slots { slots_of self.new ≡ slots_of self.old }
        ensures lender { self.new.slots.ghost_name ≡ self.old.slots.ghost_name }
    {
        let x = self.oldest()?;
        let next = self.first + 1;
        self.first = if next == self.slots.len() { 0 } else { next };
        self.count -= 1;
        Some(x)
    }
}
