//! A margin over any book.

ghost use Rattle.std.specs.Prelude.{◌≡◌, ℕ, ◌+◌, ◌-◌, ◌^◌, min};
ghost use Rattle.books.specs.MarginLaws.{NoMargin, Piled};
ghost use Rattle.books.specs.Margins.{Near, near_bounded};
ghost use Rattle.book_rows.specs.Sets.{Same};

use crate::time_book::TimeBook;

/// The book below with a margin: a value is in its row exactly when some value of the row below is at most `by` away.
#[derive(Drop)]
pub struct Margin<B> {
    below: B,
    by: u32,
}

impl<B> Margin<B> {
    /// The margin of `by` over this book.
    pub fn over(below: B, by: u32) -> Margin<B>
        ensures { result ≡ record { below = below; by = by } }
    {
        Margin { below, by }
    }
}

impl<B: TimeBook> Margin<B> {
    /// The margin of 0: the book below, as it is.
    pub fn none(below: B) -> Margin<B>
        ensures value { result ≡ record { below = below; by = 0 } }
        ensures law { (b : B) (row : ℕ) → NoMargin (B.TimeBook.admits b row) }
    {
        Margin::over(below, 0)
    }
}

impl<B: TimeBook> Margin<Margin<B>> {
    /// The one margin that is the two: that of the sum or, where the sum has more than 32 bits, the widest.
    pub fn merged(self) -> Margin<B>
        ensures value { result ≡ record { below = self.below.below; by = min (self.below.by + self.by) (2 ^ 32 - 1) } }
        ensures same { (row v : ℕ) → Same (Near (B.TimeBook.admits result.below row) result.by v) (Near (Near (B.TimeBook.admits self.below.below row) self.below.by) self.by v) }
        ensures law { (b : B) (row : ℕ) → Piled (B.TimeBook.admits b row) }
    {
        let Margin {
            below: Margin { below, by: inner },
            by: outer,
        } = self;
        Margin::over(below, inner.saturating_add(outer))
    }
}

impl<B: TimeBook> TimeBook for Margin<B> {
    ghost count = { λ m. B.TimeBook.count m.below };

    ghost admits = { λ m row. Near (B.TimeBook.admits m.below row) m.by };

    ghost bounded = { near_bounded (λ m. m.below) (λ m. m.by) B.TimeBook.bounded };

    fn rows(&self) -> usize {
        self.below.rows()
    }

    fn holds(&self, row: u8, value: u32) -> bool {
        self.below
            .next(row, value.saturating_sub(self.by))
            .is_some_and(|nearest| nearest.saturating_sub(value) <= self.by)
    }

    fn next(&self, row: u8, value: u32) -> Option<u32> {
        let nearest = self.below.next(row, value.saturating_sub(self.by))?;
        Some(value.max(nearest.saturating_sub(self.by)))
    }
}
