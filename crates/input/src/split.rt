//! Splitting an input into its parts.

ghost use Rattle.std.specs.Prelude.{◌≡◌, ℕ, ◌^◌, ◌<◌, List, ◌++◌, length, MatchOption, ◌≢◌};
ghost use Rattle.input.specs.Bytes.{sized as sized_bytes};
ghost use Rattle.input.specs.Laid.{Broken};
ghost use Rattle.input.specs.Split.{Splits};

use crate::script::Script;
use book_rows::number::number;

/// The most bytes that an input may have.
pub const MOST_INPUT: usize = 65_536;

/// The parts of an input, which are the only ones that it is laid out of; none where it is broken: bytes are missing, the last event is not
/// whole, or there are too many bytes.
pub fn split(input: &[u8]) -> Option<Script<'_>>
    ensures { MatchOption result (Broken input.now) (Splits input.now) }
{
    if input.len() > MOST_INPUT {
        return None;
    }
    let (sheet, rest) = sized(input)?;
    let (book, rest) = sized(rest)?;
    let (tick, events) = number(rest)?;
    if events.len() % 8 != 0 {
        return None;
    }
    Some(Script {
        sheet,
        book,
        tick,
        events,
    })
}

/// The bytes whose length of 16 bits comes first, and the bytes after them; none where bytes are missing.
pub fn sized(bytes: &[u8]) -> Option<(&[u8], &[u8])>
    ensures { MatchOption result ((x rest : List ℕ) → length x < 2 ^ 16 → sized_bytes x ++ rest ≢ bytes.now) (λ p. (length p.0.now < 2 ^ 16) × (sized_bytes p.0.now ++ p.1.now ≡ bytes.now)) }
{
    let (size, rest) = bytes.split_first_chunk::<2>()?;
    rest.split_at_checked(u16::from_be_bytes(*size) as usize)
}
