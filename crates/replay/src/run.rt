//! Running a script: reading, book, parting, session.

ghost use Rattle.std.specs.Prelude.{◌≡◌, MatchResult};
ghost use Rattle.replay.specs.Written.{Kept};

use crate::play::play;
use crate::script::{BookKind, Margins, Script};
use books::margin::Margin;
use books::slots::Slots;
use books::time_book::TimeBook;
use books::windows::Windows;
use parting::part::part;
use reading::read::read;
use reading::read_sheet::ReadSheet;
use stops::stop::Stop;

// The output stands beside the script: the one is written, the other lent and copied. That a stop leaves it as it
// was, `run`, `run_by` and `play` each say, since each hands on the next one's.

/// Writes the answers to a script, or answers the stop that comes before its calls.
pub(crate) fn run(script: Script<'_>, output: &mut [u8]) -> Result<usize, Stop>
    ensures { MatchResult result (λ n. Kept n output.old output.new) (λ _. output.new ≡ output.old) }
{
    let sheet = read(script.sheet)?;
    // Each arm calls the generic function at another type of book.
    match script.kind {
        BookKind::Windows => run_by(sheet, Windows::read(script.book)?, script, output),
        BookKind::Slots => run_by(sheet, Slots::read(script.book)?, script, output),
    }
}

fn run_by<B: TimeBook + Drop>(
    sheet: ReadSheet,
    book: B,
    script: Script<'_>,
    output: &mut [u8],
) -> Result<usize, Stop>
    ensures { MatchResult result (λ n. Kept n output.old output.new) (λ _. output.new ≡ output.old) }
{
    // A `match`: by `?` the accepted sheet would be moved once more.
    match part(sheet) {
        // Each arm calls the generic function at another type of book.
        Ok(accepted) => match script.margins {
            Margins::None => play(accepted, book, script, output),
            Margins::One(by) => play(accepted, Margin::over(book, by), script, output),
            Margins::Two(inner, outer) => {
                let book = Margin::over(Margin::over(book, inner), outer);
                play(accepted, book, script, output)
            }
        },
        Err(refused) => Err(Stop::from(refused)),
    }
}
