//! Splitting a script into its parts.

use crate::call::count;
use crate::script::{BookKind, Margins, Script};
use book_rows::number::number;
use input::split::sized;

/// The parts of a script; none where it is malformed: bytes are missing, the kind of book or of a call is none, or there
/// are more than two margins.
pub(crate) fn split(script: &[u8]) -> Option<Script<'_>> {
    let (sheet, rest) = sized(script)?;
    let (kind, rest) = kind_of(rest)?;
    let (book, rest) = sized(rest)?;
    let (margins, rest) = margins_of(rest)?;
    let (tick, rest) = number(rest)?;
    let (depth, calls) = rest.split_first()?;
    let count = count(calls)?;
    Some(Script {
        sheet,
        kind,
        book,
        margins,
        tick,
        depth: *depth,
        calls,
        count,
    })
}

fn kind_of(bytes: &[u8]) -> Option<(BookKind, &[u8])> {
    match bytes {
        [0, rest @ ..] => Some((BookKind::Windows, rest)),
        [1, rest @ ..] => Some((BookKind::Slots, rest)),
        _ => None,
    }
}

fn margins_of(bytes: &[u8]) -> Option<(Margins, &[u8])> {
    match bytes {
        [0, rest @ ..] => Some((Margins::None, rest)),
        [1, rest @ ..] => {
            let (by, rest) = number(rest)?;
            Some((Margins::One(by), rest))
        }
        [2, rest @ ..] => {
            let (inner, rest) = number(rest)?;
            let (outer, rest) = number(rest)?;
            Some((Margins::Two(inner, outer), rest))
        }
        _ => None,
    }
}
