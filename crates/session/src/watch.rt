//! A whole session: opened, asked and closed.

ghost use Rattle.std.specs.Prelude.{◌≡◌, [], MatchResult};
ghost use Rattle.sheet.specs.Model.{Sheet};
ghost use Rattle.session.specs.Calls.{Prescribed, passed, calls};
ghost use Rattle.session.specs.Opening.{open_fault, fault_of};
ghost use Rattle.session.specs.Outcomes.{Closes};
ghost use Rattle.session.specs.Watches.{IsOf};

use crate::closed::Closed;
use crate::session::Session;
use crate::unopened::Unopened;
use books::time_book::TimeBook;
use events::call::Entry;
use parting::accepted::Accepted;

/// Opens a session, puts each call of the log to it, writes the answer beside it, and closes.
///
/// The answers are those that runs of the sheet prescribe, call by call: an event is passed exactly when the events passed
/// before it, followed by this one, are a run of the whole sheet; a forecast is the least tick at which some event of the
/// role would make them a run, and none exactly when there is no such tick. Where the session is not opened, sheet and book
/// are given back and the log stays as it is.
pub fn watch<B: TimeBook>(
    accepted: Accepted,
    book: B,
    tick: u32,
    depth: u8,
    log: &mut [Entry],
) -> Result<Closed<B>, Unopened<B>>
    ensures judged { fault_of result ≡ open_fault accepted.counts.rows (B.TimeBook.count book) depth }
    ensures asked { calls log.new ≡ calls log.old }
    ensures whole { MatchResult result (λ c. (c.accepted ≡ accepted) × (c.book ≡ book) × ((sh : Sheet) → IsOf sh accepted → Prescribed sh (B.TimeBook.admits book) tick depth [] log.new × Closes sh (passed [] log.new) c.closing)) (λ e. (e.accepted ≡ accepted) × (e.book ≡ book) × (log.new ≡ log.old)) }
{
    let mut session = Session::open(accepted, book, tick, depth)?;
    // By number: over `iter_mut` no must-fail edit that leaves out the last call is refused for what it does.
    let mut i = 0;
    while i < log.len() {
        log[i].answer = Some(session.ask(log[i].call));
        i += 1;
    }
    Ok(session.close())
}
