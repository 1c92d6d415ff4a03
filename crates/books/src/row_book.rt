//! A book of rows of one kind.

ghost use Rattle.std.specs.Prelude.{◌≤◌};
ghost use Rattle.arrayvec.specs.ArrayVec.{array_vec_len};
ghost use Rattle.books.specs.Tables.{AmongRows, rows_bounded};

use crate::time_book::TimeBook;
use arrayvec::ArrayVec;
use book_rows::kind::RowKind;

mod read;

/// A book whose rows are of one kind.
#[derive(Drop)]
pub struct RowBook<R> {
    rows: ArrayVec<R, 64>,
    // A contract sees the rows as a list, which does not show their limit.
    ghost few: { array_vec_len rows ≤ 64 },
}

impl<R: RowKind> TimeBook for RowBook<R> {
    ghost count = { λ b. array_vec_len b.rows };

    ghost admits = { λ b. AmongRows R.RowKind.within b.rows.items };

    ghost bounded = { rows_bounded R.RowKind.within (λ b. b.rows.items) (λ b. b.few) R.RowKind.ranged };

    fn rows(&self) -> usize {
        self.rows.len()
    }

    fn holds(&self, row: u8, value: u32) -> bool {
        self.rows
            .get(row as usize)
            .is_some_and(|found| found.holds(value))
    }

    fn next(&self, row: u8, value: u32) -> Option<u32> {
        self.rows.get(row as usize)?.next(value)
    }
}
