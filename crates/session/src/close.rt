//! Closing a session.

ghost use Rattle.std.specs.Prelude.{◌≡◌, ℕ, List};
ghost use Rattle.sheet.specs.Model.{Sheet};
ghost use Rattle.events.specs.declared.event.Event.{Event};
ghost use Rattle.session.specs.Finishing.{Lowest, is_finished};
ghost use Rattle.session.specs.Outcomes.{Closes};
ghost use Rattle.session.specs.Watches.{SessionWatches};

use crate::closed::Closed;
use crate::session::Session;
use books::time_book::TimeBook;
use events::closing::Early;
use parting::local::LocalKind;

impl<B: TimeBook> Session<B> {
    /// Ends the session. It gives the accepted sheet and the book back, and answers whether every role is finished, which
    /// is when some path to an end has every role's events as its whole share; if not, the lowest role that is not.
    pub fn close(self) -> Closed<B>
        ensures back { (result.accepted ≡ self.accepted) × (result.book ≡ self.book) }
        ensures whole { (sh : Sheet) (opening depth : ℕ) (es : List Event) → SessionWatches B.TimeBook.admits sh opening depth es self → Closes sh es result.closing }
    {
        let closing = self.closing();
        let Session { accepted, book, .. } = self;
        Closed {
            accepted,
            book,
            closing,
        }
    }
    /// Whether every role is finished, else the lowest that is not.
    fn closing(&self) -> Result<(), Early>
        ensures { Lowest self.now.accepted self.now.inner result }
    {
        let early = (0..self.accepted.counts().roles).find(|role| !self.is_finished(*role));
        early.map_or(Ok(()), |role| Err(Early { role }))
    }

    /// Whether the role has nothing more to do.
    fn is_finished(&self, role: u8) -> bool
        ensures { result ≡ is_finished self.now.accepted self.now.inner role }
    {
        self.set_of(role)
            .is_some_and(|set| matches!(set.kind, LocalKind::Finished))
    }
}
