//! What a pass changes.

ghost use Rattle.std.specs.Prelude.{◌≡◌, ◌<◌, ◌≤◌, length, set, if◌then◌else◌};
ghost use Rattle.session.specs.Kept.{record_of};
ghost use Rattle.session.specs.Delivered.{Delivered};

use crate::inner::Inner;
use crate::step::{Direction, Step};
use channels::channels::Channels;
use events::event::Event;
use events::message::Message;

impl Inner {
    /// The role goes on to its next set and its clock is reset where the step says so; the message is put or taken; and the
    /// tick is now the latest. Answers how many messages wait in a sending's channel, or the ticks that a taking's message
    /// was under way.
    pub(crate) fn pass(&mut self, event: Event, step: Step) -> u32
        requires { event.role < 6 }
        ensures records { self.new.records ≡ set self.old.records event.role (record { set = step.to.next; since = (if step.to.reset then event.tick else (record_of self.old event.role).since) }) }
        ensures six { 6 ≤ length self.old.records }
        ensures latest { self.new.latest ≡ event.tick }
        ensures depth { self.new.depth ≡ self.old.depth }
        ensures channels { Delivered step.direction self.old.channels event self.new.channels result }
    {
        let record = &mut self.records[event.role as usize];
        record.set = step.to.next;
        if step.to.reset {
            record.since = event.tick;
        }
        self.latest = event.tick;
        deliver(&mut self.channels, event, step.direction)
    }
}

fn deliver(channels: &mut Channels, event: Event, direction: Direction) -> u32
    ensures { Delivered direction channels.old event channels.new result }
{
    // A match on the enum: both arms change the channels, which two closures could not both hold.
    match direction {
        Direction::Sends => {
            let message = Message {
                label: event.label,
                tick: event.tick,
            };
            let _ = channels.send(event.role, event.partner, message);
            channels.count(event.role, event.partner) as u32
        }
        Direction::Takes => channels
            .take(event.partner, event.role)
            .map_or(0, |message| event.tick.saturating_sub(message.tick)),
    }
}
