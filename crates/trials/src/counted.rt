//! A book that counts what it is asked.

ghost use Rattle.trials.specs.Counts.{counted_bounded};

use books::time_book::TimeBook;
use std::sync::atomic::{AtomicU32, Ordering};

/// How often a book was asked whether a value holds, and how often for the next.
// Atomic numbers in place of cells, so that a `Counted`, which lends them, is `Send`.
#[derive(Drop)]
pub struct Asked {
    pub holds: AtomicU32,
    pub nexts: AtomicU32,
}

impl Default for Asked {
    fn default() -> Asked {
        Asked {
            holds: AtomicU32::new(0),
            nexts: AtomicU32::new(0),
        }
    }
}

impl Asked {
    /// How often in all.
    pub fn total(&self) -> u32 {
        self.holds
            .load(Ordering::SeqCst)
            .wrapping_add(self.nexts.load(Ordering::SeqCst))
    }
}

/// The book below. Each question to it is counted.
#[derive(Drop)]
pub struct Counted<'a, B> {
    pub below: B,
    pub asked: &'a Asked,
}

impl<'a, B: TimeBook> TimeBook for Counted<'a, B> {
    ghost count = { λ c. B.TimeBook.count c.below };

    ghost admits = { λ c. B.TimeBook.admits c.below };

    ghost bounded = { counted_bounded (λ c. c.below) B.TimeBook.bounded };

    fn rows(&self) -> usize {
        self.below.rows()
    }

    fn holds(&self, row: u8, value: u32) -> bool {
        self.asked.holds.fetch_add(1, Ordering::SeqCst);
        self.below.holds(row, value)
    }

    fn next(&self, row: u8, value: u32) -> Option<u32> {
        self.asked.nexts.fetch_add(1, Ordering::SeqCst);
        self.below.next(row, value)
    }
}
