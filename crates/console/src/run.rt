//! What is printed for an input.

ghost use Rattle.std.specs.Prelude.{◌≡◌, ℕ, List, ◌++◌, IfOk, OnOk};
ghost use Rattle.input.specs.Events.{events_in};
ghost use Rattle.text.specs.Growing.{said};
ghost use Rattle.console.specs.Told.{PartsTold, Told};

use crate::fault::ConsoleFault;
use crate::log::log_of;
use crate::read_book::ReadBook;
use crate::transcript::put_transcript;
use crate::watched::watch_script;
use input::script::Script;
use input::split::split;
use std::alloc::{AllocError, Global};
use stops::stop::Stop;
use text::growing::Text;
use text::stop_line::put_stop;

/// What is printed for an input, with a book of this kind: the transcript of a session on the sheet and the book in it, in which each of
/// its events is answered as runs of the sheet prescribe; or, where no session is opened, the stop of the first fault alone.
/// An error says that memory failed.
pub fn run<B: ReadBook + Drop>(heap: Global, input: &[u8]) -> Result<Vec<u8>, AllocError>
    ensures { IfOk result (λ text. Told B.ReadBook.refusal B.ReadBook.rows_in B.ReadBook.allows input.now text.items) }
{
    let mut text = Text::new(heap);
    match split(input) {
        Some(script) => put_script::<B>(heap, &mut text, script)?,
        None => put_stop(&mut text, Stop::from(ConsoleFault::Cut))?,
    }
    Ok(text.into_bytes())
}

// Puts what is printed for the parts of an input.
fn put_script<B: ReadBook + Drop>(
    heap: Global,
    text: &mut Text,
    script: Script<'_>,
) -> Result<(), AllocError>
    ensures { OnOk result ((shown : List ℕ) × (said text.new ≡ said text.old ++ shown) × PartsTold B.ReadBook.refusal B.ReadBook.rows_in B.ReadBook.allows script.entry.sheet.now script.entry.book.now script.entry.tick (events_in script.entry.events.now) shown) }
{
    let mut log = log_of(heap, script.events)?;
    match watch_script::<B>(script, log.as_mut_slice()) {
        Ok(seen) => put_transcript(text, seen.counts, log.as_slice(), seen.closing),
        Err(fault) => put_stop(text, Stop::from(fault)),
    }
}
