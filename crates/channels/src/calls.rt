//! What the channels do.

ghost use Rattle.std.specs.Prelude.{◌≡◌, ℕ, ◌<◌, ◌≤◌, ◌&&◌, [], ◌∷◌, ◌++◌, length, drop, IfNone, if◌then◌else◌, MatchOption, MatchResult, ◌==◌};
ghost use Rattle.channels.specs.Waiting.{channel, waiting, first as oldest_of};

use crate::channel::Channel;
use crate::channels::Channels;
use crate::number::index;
use events::message::Message;

// A pair of roles is two numbers: a session has them as an event's role and partner, in either order, and `index`
// alone takes them together.
impl Channels {
    /// Nothing under way.
    pub fn empty() -> Channels
        ensures { (a b : ℕ) → channel result a b ≡ [] }
    {
        Channels {
            channels: [Channel::empty(); 36],
        }
    }

    // The channel from one role to another; none where a role has no such number.
    fn channel(&self, from: u8, to: u8) -> Option<&Channel>
        ensures { MatchOption result (channel self.now from to ≡ []) (λ line. channel self.now from to ≡ waiting line.now) }
    {
        self.channels.get(index(from, to)?)
    }

    /// How many messages wait from one role to another; none where there is no such channel.
    pub fn count(&self, from: u8, to: u8) -> usize
        ensures value { result ≡ length (channel self.now from to) }
        ensures few { result ≤ 8 }
    {
        self.channel(from, to).map_or(0, Channel::len)
    }

    /// The oldest message that waits from one role to another, which stays where it is.
    pub fn oldest(&self, from: u8, to: u8) -> Option<Message>
        ensures { result ≡ oldest_of (channel self.now from to) }
    {
        self.channel(from, to)?.oldest()
    }

    /// Puts a message last; or gives it back, with nothing changed, where there is no such channel or 8
    /// messages wait in it.
    pub fn send(&mut self, from: u8, to: u8, message: Message) -> Result<(), Message>
        ensures { MatchResult result (λ _. (from < 6) × (to < 6) × (length (channel self.old from to) < 8) × ((a b : ℕ) → channel self.new a b ≡ (if a == from && b == to then channel self.old a b ++ message ∷ [] else channel self.old a b))) (λ back. (back ≡ message) × (self.new ≡ self.old) × (from < 6 → to < 6 → 8 ≤ length (channel self.old from to))) }
    {
        let i = index(from, to).ok_or(message)?;
        self.channels[i].push(message)
    }

    /// Takes the oldest message out; none, with nothing changed, where none waits.
    pub fn take(&mut self, from: u8, to: u8) -> Option<Message>
        ensures answer { result ≡ oldest_of (channel self.old from to) }
        ensures rest { (a b : ℕ) → channel self.new a b ≡ (if a == from && b == to then drop 1 (channel self.old a b) else channel self.old a b) }
        ensures kept { IfNone result (self.new ≡ self.old) }
    {
        self.channels[index(from, to)?].pop()
    }
}
