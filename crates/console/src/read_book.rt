//! Books that are read from bytes.

ghost use Rattle.std.specs.Prelude.{◌≡◌, ℕ, ◌/◌, List, length, IfOk, Option};
ghost use Rattle.std.specs.Result.{result_err};
ghost use Rattle.book_rows.specs.Bytes.{RowsAdmit};
ghost use Rattle.books.specs.declared.fault.BookFault.{BookFault as AnyFault};
ghost use Rattle.books.specs.Faults.{fault_of};
ghost use Rattle.books.specs.Sets.{Same};

use book_rows::kind::RowKind;
use books::fault::BookFault;
use books::row_book::RowBook;
use books::time_book::TimeBook;

/// A kind of book that stands in bytes.
pub trait ReadBook: TimeBook + Sized {
    /// What is wrong with bytes, if they are no book of this kind.
    ghost refusal: { List ℕ → Option AnyFault };

    /// How many rows the book in these bytes has.
    ghost rows_in: { List ℕ → ℕ };

    /// The bytes of a book, a row and a value: that the value is in the row's set.
    ghost allows: { List ℕ → ℕ → ℕ → Type 0 };

    /// The book in these bytes, or what is wrong with them.
    fn read_book(bytes: &[u8]) -> Result<Self, BookFault>
        ensures judged { result_err result ≡ refusal bytes.now }
        ensures book { IfOk result (λ b. (Self.TimeBook.count b ≡ rows_in bytes.now) × ((row v : ℕ) → Same (Self.TimeBook.admits b row v) (allows bytes.now row v))) };
}

impl<R: RowKind> ReadBook for RowBook<R> {
    ghost refusal = { fault_of R.RowKind.SIZE R.RowKind.rule };

    ghost rows_in = { λ bytes. length bytes / R.RowKind.SIZE };

    ghost allows = { RowsAdmit R.RowKind.SIZE R.RowKind.meant };

    fn read_book(bytes: &[u8]) -> Result<RowBook<R>, BookFault> {
        RowBook::read(bytes)
    }
}
