//! Where a queue stands in its slots, for a user who keeps that and resumes it.

ghost use Rattle.std.specs.Prelude.{◌≡◌, length};
ghost use Rattle.queue.specs.Held.{inside};

use crate::queue::Queue;

impl<'a, T: Copy> Queue<'a, T> {
    /// The slot in which the oldest element stands, or the next one will.
    pub fn first(&self) -> usize
        ensures { result ≡ self.now.first }
    {
        self.first
    }

    /// How many elements it holds.
    #[tactic(auto, using(crate::proofs::Rings::lengths))]
    pub fn len(&self) -> usize
        ensures place { result ≡ self.now.count }
        ensures held { result ≡ length (inside self.now) }
    {
        self.count
    }
}
