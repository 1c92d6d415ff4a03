//! What a session finds of an event before it asks its book.

ghost use Rattle.std.specs.Prelude.{◌≡◌};
ghost use Rattle.session.specs.Prepared.{prepared, lined};

use crate::inner::Inner;
use crate::session::Session;
use crate::step::{Direction, Step};
use events::event::Event;
use events::fault::SessionFault;

impl<B> Session<B> {
    /// The step that the event is, or the first of the stops 41 to 46.
    pub(crate) fn prepare(&self, event: Event) -> Result<Step, SessionFault>
        ensures { result ≡ prepared self.now.accepted self.now.inner event }
    {
        let counts = self.accepted.counts();
        let role = event.role;
        let label = event.label;
        if role >= counts.roles || event.partner >= counts.roles || role == event.partner {
            return Err(SessionFault::Who { role, label });
        }
        if label >= counts.labels || event.direction > 1 {
            return Err(SessionFault::What { role, label });
        }
        if event.tick < self.inner.latest {
            return Err(SessionFault::Back { role, label });
        }
        let step = self
            .step_of(event)
            .ok_or(SessionFault::Turn { role, label })?;
        self.inner.line_up(event, step)
    }
}

impl Inner {
    /// A sending needs room in its channel, a taking its label as the oldest there.
    fn line_up(&self, event: Event, step: Step) -> Result<Step, SessionFault>
        ensures { result ≡ lined self.now event step }
    {
        let role = event.role;
        let label = event.label;
        // A match on the enum: each direction has its own test and its own stop.
        match step.direction {
            Direction::Sends => {
                if self.channels.count(role, event.partner) >= self.depth as usize {
                    return Err(SessionFault::Full { role, label });
                }
            }
            Direction::Takes => match self.channels.oldest(event.partner, role) {
                Some(message) if message.label == label => {}
                _ => return Err(SessionFault::Line { role, label }),
            },
        }
        Ok(step)
    }
}
