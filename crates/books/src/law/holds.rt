//! Laws of `holds`.

ghost use Rattle.std.specs.Prelude.{◌≡◌, true};
ghost use Rattle.books.specs.HoldsLaws.{HoldsLaws};

use crate::time_book::TimeBook;

/// Whether a yes of this book comes from one of its rows. It always does.
pub fn holds_within_rows<B: TimeBook>(book: &B, row: u8, value: u32) -> bool
    ensures answer { result ≡ true }
    ensures law { (b : B) → HoldsLaws (B.TimeBook.count b) (B.TimeBook.admits b) }
{
    !book.holds(row, value) || (row as usize) < book.rows()
}
