//! Watching the events of a script.

ghost use Rattle.std.specs.Prelude.{◌≡◌, ℕ, [], IfOk};
ghost use Rattle.std.specs.Result.{result_err};
ghost use Rattle.sheet.specs.Decode.{model};
ghost use Rattle.sheet.specs.Law.{Encodes};
ghost use Rattle.reading.specs.Handing.{counts_of};
ghost use Rattle.books.specs.Sets.{Same};
ghost use Rattle.protocol.specs.Accepted.{Accepted as CanBeParted};
ghost use Rattle.session.specs.Calls.{calls, passed, Prescribed};
ghost use Rattle.session.specs.Outcomes.{Closes};
ghost use Rattle.session.specs.Watches.{IsOf};
ghost use Rattle.console.specs.Faults.{accept_fault, watch_fault};

use crate::fault::ConsoleFault;
use crate::read_book::ReadBook;
use events::call::Entry;
use events::closing::Early;
use input::script::Script;
use parting::accepted::Accepted;
use parting::part::part;
use reading::read::read;
use session::watch::watch;
use sheet::counts::Counts;

/// How many messages may wait in a channel.
const DEPTH: u8 = 8;

/// The accepted sheet and the book that stand in bytes, or the first fault of the two.
fn accept<B: ReadBook + Drop>(sheet: &[u8], book: &[u8]) -> Result<(Accepted, B), ConsoleFault>
    ensures judged { result_err result ≡ accept_fault B.ReadBook.refusal sheet.now book.now }
    ensures whole { IfOk result (λ p. Encodes sheet.now (model sheet.now) × IsOf (model sheet.now) p.0 × (B.TimeBook.count p.1 ≡ B.ReadBook.rows_in book.now) × ((row v : ℕ) → Same (B.TimeBook.admits p.1 row v) (B.ReadBook.allows book.now row v))) }
{
    let sheet = read(sheet)?;
    let book = B::read_book(book)?;
    // A `match`, and below too: by `?` the accepted sheet would be moved once more.
    match part(sheet) {
        Ok(accepted) => Ok((accepted, book)),
        Err(refused) => Err(ConsoleFault::from(refused)),
    }
}

/// What a script's events are told with besides their answers.
#[derive(Clone, Copy)]
pub(crate) struct Seen {
    pub(crate) counts: Counts,
    pub(crate) closing: Result<(), Early>,
}

/// Puts each call of the log to a session on a script's sheet and book, and closes it; or the first fault that keeps it from being opened.
pub(crate) fn watch_script<B: ReadBook + Drop>(
    script: Script<'_>,
    log: &mut [Entry],
) -> Result<Seen, ConsoleFault>
    ensures judged { result_err result ≡ watch_fault B.ReadBook.refusal B.ReadBook.rows_in script.entry.sheet.now script.entry.book.now }
    ensures asked { calls log.new ≡ calls log.old }
    ensures whole { IfOk result (λ seen. Encodes script.entry.sheet.now (model script.entry.sheet.now) × CanBeParted (model script.entry.sheet.now) × (seen.counts ≡ counts_of (model script.entry.sheet.now)) × Prescribed (model script.entry.sheet.now) (B.ReadBook.allows script.entry.book.now) script.entry.tick 8 [] log.new × Closes (model script.entry.sheet.now) (passed [] log.new) seen.closing) }
{
    let (accepted, book) = accept::<B>(script.sheet, script.book)?;
    let counts = accepted.counts();
    match watch(accepted, book, script.tick, DEPTH, log) {
        Ok(closed) => Ok(Seen {
            counts,
            closing: closed.closing,
        }),
        Err(unopened) => Err(ConsoleFault::from(unopened)),
    }
}
