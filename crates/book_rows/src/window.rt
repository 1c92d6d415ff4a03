//! A row of the window book.

ghost use Rattle.std.proofs.Common.{lit<};
ghost use Rattle.std.specs.Prelude.{◌≡◌};
ghost use Rattle.book_rows.specs.Windows.{InWindow, low_of, high_of, WindowRule, window_rule, window_decided, window_meant, window_same};

use crate::kind::RowKind;
use crate::number::number;

/// The values from `low` to `high`.
#[derive(Clone, Copy, Default)]
pub struct Window {
    pub low: u32,
    pub high: u32,
}

impl RowKind for Window {
    ghost SIZE = { 8 };

    ghost sized = { lit< tt };

    ghost legal = { WindowRule };

    ghost rule = { window_rule };

    ghost decided = { window_decided };

    ghost meant = { window_meant };

    ghost within = { λ w. InWindow w.low w.high };

    ghost ranged = { λ w v p. p.0 };

    ghost reads = { λ row w. (w.low ≡ low_of row) × (w.high ≡ high_of row) };

    ghost same = { λ row w r. window_same row w.low w.high r.0 r.1 };

    const SIZE: usize = 8;

    fn decode(bytes: &[u8]) -> Option<Window> {
        let (low, rest) = number(bytes)?;
        let (high, _) = number(rest)?;
        (low <= high).then_some(Window { low, high })
    }

    fn holds(self, value: u32) -> bool {
        self.low <= value && value <= self.high
    }

    fn next(self, value: u32) -> Option<u32> {
        let first = value.max(self.low);
        (first <= self.high).then_some(first)
    }
}
