//! Putting the calls of a script to a session.

ghost use Rattle.std.specs.Prelude.{◌≡◌, ◌+◌, ◌*◌, MatchResult, nat_le};
ghost use Rattle.replay.specs.Written.{Kept};

use crate::answer::{answer_bytes, closing_bytes, opened_bytes};
use crate::call::Calls;
use crate::output::put;
use crate::script::Script;
use books::time_book::TimeBook;
use parting::accepted::Accepted;
use session::session::Session;
use sheet::counts::Counts;
use stops::stop::Stop;

/// The bytes before the answers.
const HEAD: usize = 5;

/// The bytes of one answer.
const ROW: usize = 8;

/// Opens a session on the sheet and the book, puts the script's calls to it, closes it and writes the answers.
pub(crate) fn play<B: TimeBook + Drop>(
    accepted: Accepted,
    book: B,
    script: Script<'_>,
    output: &mut [u8],
) -> Result<usize, Stop>
    ensures { MatchResult result (λ n. Kept n output.old output.new) (λ _. output.new ≡ output.old) }
{
    let counts = accepted.counts();
    // A `match`: by `?` the session would be moved once more.
    match Session::open(accepted, book, script.tick, script.depth) {
        Ok(session) => Ok(answer(session, counts, script, output)),
        Err(unopened) => Err(Stop::from(unopened)),
    }
}

// Writes nothing where there is no room for all answers.
fn answer<B: TimeBook + Drop>(
    session: Session<B>,
    counts: Counts,
    script: Script<'_>,
    output: &mut [u8],
) -> usize
    ensures { Kept result output.old output.new }
{
    if !has_room(output.len(), script.count) {
        return 0;
    }
    let mut session = session;
    put(output, 0, &opened_bytes(counts));
    let end = HEAD + ROW * script.count;
    put_answers(&mut session, script.calls, &mut output[HEAD..end]);
    put(output, end, &closing_bytes(session.close().closing));
    end + ROW
}

/// Whether an output of this length has room for the answers to so many calls.
fn has_room(length: usize, count: usize) -> bool
    ensures { result ≡ nat_le (13 + 8 * count) length }
{
    length >= HEAD + ROW && (length - HEAD - ROW) / ROW >= count
}

/// Puts the calls to the session, as many as there are rows for answers, and writes each answer in its row.
fn put_answers<B: TimeBook>(session: &mut Session<B>, calls: &[u8], rows: &mut [u8]) {
    let (rows, _) = rows.as_chunks_mut::<ROW>();
    for (row, call) in rows.iter_mut().zip(Calls::new(calls)) {
        *row = answer_bytes(session.ask(call));
    }
}
