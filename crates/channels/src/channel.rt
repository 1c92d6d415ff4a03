//! One channel.

ghost use Rattle.std.specs.Prelude.{◌-◌, ◌≤◌, length};

use crate::place::Place;
use events::message::Message;
use queue::queue::Queue;

/// A line of at most 8 messages, first in, first out: a queue in slots of its own, and where it stands in them.
#[derive(Clone, Copy)]
pub(crate) struct Channel {
    pub(crate) slots: [Message; 8],
    pub(crate) place: Place,
    ghost begins: { place.first ≤ length slots - 1 },
    ghost fits: { place.count ≤ length slots },
}

impl Channel {
    ghost use Rattle.std.specs.Prelude.{◌≡◌, ◌<◌, [], ◌∷◌, ◌++◌, drop, IfNone, MatchResult};
    ghost use Rattle.channels.specs.Waiting.{waiting, first as oldest_of};

    /// A channel in which nothing waits.
    #[tactic(auto, unfolding(queue::specs::Ring::held))]
    pub(crate) fn empty() -> Channel
        ensures { waiting result ≡ [] }
    {
        Channel {
            slots: [Message { label: 0, tick: 0 }; 8],
            place: Place { first: 0, count: 0 },
        }
    }

    /// How many messages wait.
    #[tactic(auto, using(queue::proofs::Rings::lengths))]
    pub(crate) fn len(&self) -> usize
        ensures value { result ≡ length (waiting self.now) }
        ensures few { result ≤ 8 }
    {
        self.place.count
    }

    /// The oldest message, which stays where it is.
    pub(crate) fn oldest(&self) -> Option<Message>
        ensures { result ≡ oldest_of (waiting self.now) }
    {
        (self.place.count > 0).then(|| self.slots[self.place.first])
    }

    /// Puts a message last; or gives it back, with nothing changed, where 8 wait.
    // This and `pop` resume the queue and keep its place in the same two lines: a function that did so round a closure would have
    // to require of it that it keeps the slots which the queue was lent.
    pub(crate) fn push(&mut self, message: Message) -> Result<(), Message>
        ensures { MatchResult result (λ _. (length (waiting self.old) < 8) × (waiting self.new ≡ waiting self.old ++ message ∷ [])) (λ back. (back ≡ message) × (self.new ≡ self.old) × (8 ≤ length (waiting self.old))) }
    {
        let mut queue = Queue::resume(&mut self.slots, self.place.first, self.place.count);
        queue.push(message)?;
        self.place = Place::of(&queue);
        Ok(())
    }

    /// Takes the oldest message out; none, with nothing changed, where none waits.
    pub(crate) fn pop(&mut self) -> Option<Message>
        ensures answer { result ≡ oldest_of (waiting self.old) }
        ensures rest { waiting self.new ≡ drop 1 (waiting self.old) }
        ensures kept { IfNone result (self.new ≡ self.old) }
    {
        let mut queue = Queue::resume(&mut self.slots, self.place.first, self.place.count);
        let message = queue.pop()?;
        self.place = Place::of(&queue);
        Some(message)
    }
}
