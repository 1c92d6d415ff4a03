//! An event put to a session.

ghost use Rattle.std.specs.Prelude.{◌≡◌, ℕ, List, [], ◌∷◌, ◌++◌, MatchResult, OnErr};
ghost use Rattle.sheet.specs.Model.{Sheet};
ghost use Rattle.events.specs.declared.event.Event.{Event as AnEvent};
ghost use Rattle.session.specs.Outcomes.{Passing, Stopping};
ghost use Rattle.session.specs.Watches.{SessionWatches};

use crate::session::Session;
use books::time_book::TimeBook;
use events::event::Event;
use events::fault::SessionFault;

impl<B: TimeBook> Session<B> {
    /// Judges an event. After the events that have passed, it passes exactly when with it they are a run of the sheet.
    ///
    /// A passed sending answers how many messages now wait in its channel, a passed taking for how many ticks its message
    /// was under way. An event that is stopped, by the first of 41 to 47 that applies, changes nothing.
    pub fn event(&mut self, event: Event) -> Result<u32, SessionFault>
        ensures kept { (self.new.accepted ≡ self.old.accepted) × (self.new.book ≡ self.old.book) }
        ensures stays { OnErr result (self.new ≡ self.old) }
        ensures whole { (sh : Sheet) (opening depth : ℕ) (es : List AnEvent) → SessionWatches B.TimeBook.admits sh opening depth es self.old → MatchResult result (λ n. Passing sh (B.TimeBook.admits self.old.book) opening depth es event n × SessionWatches B.TimeBook.admits sh opening depth (es ++ event ∷ []) self.new) (λ fault. Stopping sh (B.TimeBook.admits self.old.book) opening depth es event fault) }
    {
        let step = self.judge(event)?;
        Ok(self.inner.pass(event, step))
    }
}
