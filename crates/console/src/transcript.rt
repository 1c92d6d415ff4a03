//! The lines of a transcript.

ghost use Rattle.std.specs.Prelude.{Some, Err};
ghost use Rattle.console.specs.Transcript.{sheet_line, answer_line, entry_lines, early_line, end_line, transcript};
ghost use Rattle.text.specs.Growing.{Adds};

use events::call::{Entry, Reply};
use events::closing::Early;
use events::fault::SessionFault;
use sheet::counts::Counts;
use std::alloc::AllocError;
use stops::stop::Stop;
use text::growing::Text;
use text::stop_line::{put_named, word_for};

/// Puts the transcript of a session: the sheet's counts, a line for each answer, and what closing answered.
pub(crate) fn put_transcript(
    text: &mut Text,
    counts: Counts,
    log: &[Entry],
    closing: Result<(), Early>,
) -> Result<(), AllocError>
    ensures { Adds text.old text.new result (transcript counts log.now closing) }
{
    put_sheet(text, counts)?;
    put_entries(text, log)?;
    put_end(text, closing)
}

fn put_sheet(text: &mut Text, counts: Counts) -> Result<(), AllocError>
    ensures { Adds text.old text.new result (sheet_line counts) }
{
    let Counts {
        roles,
        labels,
        states,
        ..
    } = counts;
    writeln!(text, "SHEET {roles} {labels} {states}")
}

fn put_entries(text: &mut Text, log: &[Entry]) -> Result<(), AllocError>
    ensures { Adds text.old text.new result (entry_lines 1 log.now) }
{
    for (i, entry) in log.iter().enumerate() {
        put_answer(text, i + 1, entry.answer)?;
    }
    Ok(())
}

// Only answers to events are told, and each of them is a pass or a stop.
fn put_answer(
    text: &mut Text,
    number: usize,
    answer: Option<Result<Reply, SessionFault>>,
) -> Result<(), AllocError>
    ensures { Adds text.old text.new result (answer_line number answer) }
{
    match answer {
        Some(Ok(Reply::Passed { answer })) => writeln!(text, "{number} PASS {answer}"),
        Some(Err(fault)) => put_stopped(text, number, fault),
        Some(Ok(Reply::Next { .. })) | None => Ok(()),
    }
}

fn put_stopped(text: &mut Text, number: usize, fault: SessionFault) -> Result<(), AllocError>
    ensures { Adds text.old text.new result (answer_line number (Some (Err fault))) }
{
    // Not by `put_named`: each piece is formatted apart, and one line of it stands for each event that is stopped.
    let stop = Stop::from(fault).number;
    write!(text, "{number} STOP {stop} ")?;
    text.put(word_for(stop))?;
    writeln!(text)
}

fn put_end(text: &mut Text, closing: Result<(), Early>) -> Result<(), AllocError>
    ensures { Adds text.old text.new result (end_line closing) }
{
    match closing {
        Ok(()) => writeln!(text, "END 0"),
        Err(early) => put_early(text, Stop::from(early)),
    }
}

fn put_early(text: &mut Text, stop: Stop) -> Result<(), AllocError>
    ensures { Adds text.old text.new result (early_line stop) }
{
    let role = stop.first;
    write!(text, "END ")?;
    put_named(text, stop.number)?;
    writeln!(text, " {role}")
}
