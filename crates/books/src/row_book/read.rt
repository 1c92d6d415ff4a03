//! Reading a book of rows of one kind.

ghost use Rattle.std.specs.Prelude.{◌≡◌, ℕ, ◌/◌, length, IfOk};
ghost use Rattle.std.specs.Result.{result_err};
ghost use Rattle.book_rows.specs.Bytes.{RowsAdmit};
ghost use Rattle.book_rows.specs.Sets.{Same};
ghost use Rattle.books.specs.Faults.{fault_of};
ghost use Rattle.books.specs.Rows.{Judged};

use crate::fault::BookFault;
use crate::row_book::RowBook;
use crate::time_book::TimeBook;
use arrayvec::ArrayVec;
use book_rows::kind::RowKind;

impl<R: RowKind> RowBook<R> {
    /// The book in these bytes: whole rows, at most 64 of them, each of which keeps the rule of its kind.
    pub fn read(bytes: &[u8]) -> Result<RowBook<R>, BookFault>
        ensures fault { result_err result ≡ fault_of R.RowKind.SIZE R.RowKind.rule bytes.now }
        ensures judged { Judged R.RowKind.SIZE R.RowKind.legal bytes.now (result_err result) }
        ensures book { IfOk result (λ b. (⟦<RowBook<R> as TimeBook>⟧.count b ≡ length bytes.now / R.RowKind.SIZE) × ((row v : ℕ) → Same (⟦<RowBook<R> as TimeBook>⟧.admits b row v) (RowsAdmit R.RowKind.SIZE R.RowKind.meant bytes.now row v))) }
    {
        let given = bytes.len();
        if given % R::SIZE != 0 || given / R::SIZE > 64 {
            return Err(BookFault::Rows { given });
        }
        let mut rows = ArrayVec::new();
        // A loop: the library's `collect` takes an allocator, and its contract says what an `Ok` holds and not which row
        // stopped it.
        for (row, part) in bytes.chunks_exact(R::SIZE).enumerate() {
            rows.push(R::decode(part).ok_or(BookFault::Row { row })?);
        }
        Ok(RowBook { rows })
    }
}
