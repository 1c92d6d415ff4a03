//! One call put to a session.

ghost use Rattle.std.specs.Prelude.{◌≡◌, ℕ, List, Some};
ghost use Rattle.sheet.specs.Model.{Sheet};
ghost use Rattle.events.specs.declared.event.Event.{Event};
ghost use Rattle.session.specs.Calls.{Right, after};
ghost use Rattle.session.specs.Watches.{SessionWatches};

use crate::session::Session;
use books::time_book::TimeBook;
use events::call::{Call, Reply};
use events::fault::SessionFault;

impl<B: TimeBook> Session<B> {
    /// Answers a call.
    pub fn ask(&mut self, call: Call) -> Result<Reply, SessionFault>
        ensures kept { (self.new.accepted ≡ self.old.accepted) × (self.new.book ≡ self.old.book) }
        ensures whole { (sh : Sheet) (opening depth : ℕ) (es : List Event) → SessionWatches B.TimeBook.admits sh opening depth es self.old → Right sh (B.TimeBook.admits self.old.book) opening depth es call (Some result) × SessionWatches B.TimeBook.admits sh opening depth (after es call (Some result)) self.new }
    {
        // A match on the enum: each call has a reply of its own case.
        match call {
            Call::Judge { event } => Ok(Reply::Passed {
                answer: self.event(event)?,
            }),
            Call::Forecast { role } => Ok(Reply::Next {
                tick: self.forecast(role)?,
            }),
        }
    }
}
