//! Whether an event passes.

ghost use Rattle.std.specs.Prelude.{◌≡◌};
ghost use Rattle.session.specs.Admitted.{Judged};

use crate::row::in_row;
use crate::session::Session;
use crate::step::Step;
use books::time_book::TimeBook;
use events::event::Event;
use events::fault::SessionFault;

impl<B: TimeBook> Session<B> {
    /// The step that the event is, or the first of the stops 41 to 47.
    pub(crate) fn judge(&self, event: Event) -> Result<Step, SessionFault>
        ensures { Judged (B.TimeBook.admits self.now.book) self.now.accepted self.now.inner event result }
    {
        let step = self.prepare(event)?;
        let since = self.inner.records[event.role as usize].since;
        if in_row(&self.book, step.to.row, event.tick.saturating_sub(since)) {
            Ok(step)
        } else {
            Err(SessionFault::Time {
                role: event.role,
                label: event.label,
            })
        }
    }
}
