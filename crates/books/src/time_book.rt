//! What a time book is.

ghost use Rattle.std.specs.Prelude.{◌≡◌, ℕ};
ghost use Rattle.book_rows.specs.Nexts.{Next};
ghost use Rattle.book_rows.specs.Sets.{Holds, Bounded};

/// A book of 0 to 64 rows. Each row is a set of clock values from 0 to 4,294,967,295, and a row number
/// that is not below the count has the empty set. Neither question changes the book.
// A row and a value are two parameters: every book takes them apart at once, and other firms write books.
pub trait TimeBook {
    /// How many rows the book has.
    ghost count: { Self → ℕ };

    /// The book, a row and a value: that the value is in the row's set.
    ghost admits: { Self → ℕ → ℕ → Type 0 };

    /// What each book shows of the two.
    ghost bounded: { Bounded count admits };

    /// How many rows the book has.
    fn rows(&self) -> usize
        ensures { result ≡ count self.now };

    /// Whether the value is in the row's set.
    fn holds(&self, row: u8, value: u32) -> bool
        ensures { Holds (admits self.now row) value result };

    /// The least value of the row's set at or above this one, or none where the set has no such value.
    fn next(&self, row: u8, value: u32) -> Option<u32>
        ensures { Next (admits self.now row) value result };
}
