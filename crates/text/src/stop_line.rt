//! The line that tells a stop.

ghost use Rattle.std.specs.Prelude.{◌≡◌};
ghost use Rattle.text.specs.StopLine.{word_of_number, named, line_of_stop};
ghost use Rattle.text.specs.Growing.{Adds};

use crate::growing::Text;
use std::alloc::AllocError;
use stops::stop::Stop;
use stops::table::word;

/// The word of a number in the table of stops; no bytes where the table has none.
pub fn word_for(number: u8) -> &'static [u8]
    ensures { result.now ≡ word_of_number number }
{
    word(number).unwrap_or(b"")
}

/// Puts the number of a stop and its word.
pub fn put_named(text: &mut Text, number: u8) -> Result<(), AllocError>
    ensures { Adds text.old text.new result (named number) }
{
    write!(text, "{number} ")?;
    text.put(word_for(number))
}

/// Puts a stop's line: its number, its word and its two places.
// No `Display` of a stop: the words are bytes, and a formatter takes text alone.
#[tactic(auto, unfolding(crate::specs::StopLine::line_of_stop))]
pub fn put_stop(text: &mut Text, stop: Stop) -> Result<(), AllocError>
    ensures { Adds text.old text.new result (line_of_stop stop) }
{
    let Stop {
        number,
        first,
        second,
        ..
    } = stop;
    write!(text, "STOP ")?;
    put_named(text, number)?;
    writeln!(text, " {first} {second}")
}
