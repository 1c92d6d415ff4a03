//! Laws of `next`.

ghost use Rattle.std.specs.Prelude.{◌≡◌, ℕ, true};
ghost use Rattle.books.specs.NextLaws.{NextLaws};

use crate::time_book::TimeBook;

/// Whether the book's answers about this row and value agree: what `next` gives holds, and the value itself
/// holds exactly when it is its own next. They always do.
pub fn next_agrees<B: TimeBook>(book: &B, row: u8, value: u32) -> bool
    ensures answer { result ≡ true }
    ensures law { (b : B) (row : ℕ) → NextLaws (B.TimeBook.admits b row) }
{
    let here = book.holds(row, value);
    // A `match`: `map_or` would put the case of none first and the other into a closure.
    match book.next(row, value) {
        Some(next) => book.holds(row, next) && here == (next == value),
        None => !here,
    }
}
