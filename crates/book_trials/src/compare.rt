//! A book's answers beside those of a plain search.

use crate::plain::{LAST, Plain};
use books::law::holds::holds_within_rows;
use books::law::next::next_agrees;
use books::time_book::TimeBook;

/// How many values a search tries from the one asked on, and how many at the end of the range.
const SPAN: u64 = 300;

/// How many values are asked besides those at the rows' ends.
const SAMPLES: u32 = 400;

/// The rows that are asked: those that a trial has, and some past them.
const ROWS: [u8; 16] = [0, 1, 2, 3, 4, 5, 6, 7, 8, 9, 10, 11, 12, 63, 64, 255];

/// How many questions were asked, and how many answers differ.
#[derive(Default, Drop)]
pub(crate) struct Tally {
    pub asked: u64,
    pub differ: u64,
}

impl Tally {
    /// One more question, with whether its answer was right.
    pub(crate) fn note(&mut self, right: bool) {
        self.asked = self.asked.wrapping_add(1);
        if !right {
            self.differ = self.differ.wrapping_add(1);
        }
    }
}

/// Asks the book about each row at many values, and compares.
pub(crate) fn trial<B: TimeBook, P: Plain>(book: &B, plain: &P, ends: &[u32]) -> Tally {
    let mut tally = Tally::default();
    for row in &ROWS {
        for k in 0..SAMPLES {
            tally.note(right(book, plain, *row, sample(k)));
        }
        for end in ends {
            for step in 0..5u32 {
                tally.note(right(book, plain, *row, end.wrapping_add(step).wrapping_sub(2)));
            }
        }
    }
    tally
}

/// Values from 0 on, from the end of the range down, and scattered, small and large.
fn sample(k: u32) -> u32 {
    let scattered = k.wrapping_mul(2_654_435_769);
    if k < 60 {
        k
    } else if k < 120 {
        u32::MAX - (k - 60)
    } else if k % 2 == 0 {
        scattered % 1000
    } else {
        scattered
    }
}

/// Whether both answers about this value are right.
fn right<B: TimeBook, P: Plain>(book: &B, plain: &P, row: u8, value: u32) -> bool {
    book.holds(row, value) == plain.contains(row as usize, value as u64)
        && searched(plain, row as usize, value, book.next(row, value))
        && next_agrees(book, row, value)
        && holds_within_rows(book, row, value)
}

/// Whether a search finds this next value: exactly within the span, and beyond it by the values that it tries.
fn searched<P: Plain>(plain: &P, row: usize, value: u32, next: Option<u32>) -> bool {
    let from = value as u64;
    let end = (from + SPAN).min(LAST + 1);
    match ((from..end).find(|tried| plain.contains(row, *tried)), next) {
        (Some(first), _) => next.is_some_and(|found| found as u64 == first),
        (None, Some(found)) => {
            plain.contains(row, found as u64) && empty(plain, row, end, found as u64)
        }
        (None, None) => empty(plain, row, end, LAST + 1),
    }
}

/// Whether the values tried from one number to below another are none of the row's.
fn empty<P: Plain>(plain: &P, row: usize, from: u64, to: u64) -> bool {
    let is_inside = |tried: u64| from <= tried && tried < to && plain.contains(row, tried);
    !(1..SPAN).any(|back| is_inside(to.saturating_sub(back)))
        && !(1..SPAN).any(|part| is_inside(from.saturating_add(part.wrapping_mul(14_316_557))))
}
