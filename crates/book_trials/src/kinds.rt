//! Each kind of book beside its plain meaning.

use crate::compare::{Tally, trial};
use crate::plain::{Plain, PlainNear, PlainReach};
use crate::tables::{ENDS, SLOTS, bytes_of, marks};
use books::fault::BookFault;
use books::margin::Margin;
use books::slots::Slots;
use books::time_book::TimeBook;
use mark_book::Marks;
use trials::counted::{Asked, Counted};

/// A book, where there is one, beside its plain meaning.
pub(crate) fn beside<B: TimeBook + Drop, P: Plain>(
    book: Result<B, BookFault>,
    plain: &P,
) -> Result<Tally, BookFault> {
    Ok(trial(&book?, plain, &ENDS))
}

/// A margin over a book, where there is one, beside the same margin over its plain meaning.
pub(crate) fn near<B: TimeBook + Drop, P: Plain + Drop>(
    below: Result<B, BookFault>,
    plain: P,
    by: u32,
) -> Result<Tally, BookFault> {
    let book = below.map(|below| Margin::over(below, by));
    beside(book, &PlainNear { below: plain, by })
}

/// How many rows another firm's book has.
const MARKED: usize = 3;

/// Another firm's book, or margins over it, beside its marks under two margins.
fn reached<B: TimeBook>(book: &B, inner: u32, outer: u32) -> Tally {
    let reach = PlainReach {
        rows: MARKED,
        marks: &marks(),
        inner,
        outer,
    };
    trial(book, &reach, &ENDS)
}

/// Another firm's book under two margins.
fn piled(inner: u32, outer: u32) -> Margin<Margin<Marks>> {
    Margin::over(Margin::over(Marks::new(MARKED, marks()), inner), outer)
}

/// Another firm's book.
pub(crate) fn marked() -> Tally {
    reached(&Marks::new(MARKED, marks()), 0, 0)
}

/// Another firm's book under two margins, of any width.
pub(crate) fn piled_marks(inner: u32, outer: u32) -> Tally {
    reached(&piled(inner, outer), inner, outer)
}

/// The same book under the one margin that is the two.
pub(crate) fn merged_marks(inner: u32, outer: u32) -> Tally {
    reached(&piled(inner, outer).merged(), inner, outer)
}

/// How many questions a margin, and one over it, ask the book at the bottom for two of their own.
pub(crate) fn questions(by: u32) -> Result<(u32, u32), BookFault> {
    let asked = Asked::default();
    let bytes: [u8; 144] = bytes_of(&SLOTS);
    let below = Counted {
        below: Slots::read(&bytes)?,
        asked: &asked,
    };
    let book = Margin::over(below, by);
    let _ = book.holds(1, 50);
    let _ = book.next(1, 50);
    let once = asked.total();
    let piled = Margin::over(book, by);
    let _ = piled.holds(1, 50);
    let _ = piled.next(1, 50);
    Ok((once, asked.total().wrapping_sub(once)))
}
