//! When a role can go on.

ghost use Rattle.std.specs.Prelude.{◌≡◌, ℕ, ◌<◌, ◌≤◌, List, MatchResult};
ghost use Rattle.sheet.specs.Model.{Sheet};
ghost use Rattle.events.specs.declared.event.Event.{Event};
ghost use Rattle.runs.specs.Laws.{Least};
ghost use Rattle.session.specs.Chances.{ActsAt};
ghost use Rattle.session.specs.Kept.{record_of};
ghost use Rattle.session.specs.Outcomes.{Forecasting, NoRole};
ghost use Rattle.session.specs.Watches.{SessionWatches};

use crate::earliest::earliest;
use crate::local::move_in;
use crate::row::next_tick;
use crate::session::Session;
use books::time_book::TimeBook;
use events::fault::SessionFault;
use parting::local::LocalKind;

impl<B: TimeBook> Session<B> {
    /// The least tick, from the latest to 4,294,967,295, at which some event of the role makes a run with the events that
    /// have passed; or none, and then there is no such tick. It is stopped for a role that the sheet does not have.
    pub fn forecast(&self, role: u8) -> Result<Option<u32>, SessionFault>
        ensures { (sh : Sheet) (opening depth : ℕ) (es : List Event) → SessionWatches B.TimeBook.admits sh opening depth es self.now → MatchResult result (Forecasting sh (B.TimeBook.admits self.now.book) opening depth es role) (NoRole sh role) }
    {
        if role >= self.accepted.counts().roles {
            return Err(SessionFault::Who { role, label: 0 });
        }
        Ok(self.next(role))
    }

    /// What the role does in its set decides what it waits for: nothing, room in its channel, or a message.
    fn next(&self, role: u8) -> Option<u32>
        requires { role < 6 }
        ensures { (record_of self.now.inner role).since ≤ self.now.inner.latest → Least (ActsAt (B.TimeBook.admits self.now.book) self.now.accepted self.now.inner role) self.now.inner.latest 4294967295 result }
    {
        let record = self.inner.records[role as usize];
        let latest = self.inner.latest;
        let channels = &self.inner.channels;
        let set = self.set_of(role)?;
        // A match on the enum: each arm borrows something else of the session, and closures in its place would say more.
        match set.kind {
            LocalKind::Finished => None,
            LocalKind::Sending { partner } => {
                if channels.count(role, partner) >= self.inner.depth as usize {
                    return None;
                }
                earliest(&self.book, set, record.since, latest)
            }
            LocalKind::Receiving { partner } => {
                let message = channels.oldest(partner, role)?;
                let to = move_in(set, message.label)?;
                next_tick(&self.book, to.row, record.since, latest)
            }
        }
    }
}
