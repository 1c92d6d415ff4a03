//! A role's clock and the rows of a book.

ghost use Rattle.std.specs.Prelude.{◌≡◌, ◌-◌, ◌≤◌, true};
ghost use Rattle.books.specs.Sets.{Holds};
ghost use Rattle.runs.specs.Laws.{Least};
ghost use Rattle.session.specs.Admitted.{RowAdmits};

use books::time_book::TimeBook;

/// The number that stands for a row that admits every value. It stays a number here: an `Option` of the row would be made of it
/// in each of the two functions below, and be taken apart again there.
const ANY_TIME: u8 = 255;

/// Whether the row admits the clock's value.
pub(crate) fn in_row<B: TimeBook>(book: &B, row: u8, value: u32) -> bool
    ensures { Holds (RowAdmits (B.TimeBook.admits book.now) row) value result }
{
    row == ANY_TIME || book.holds(row, value)
}

/// The least tick from `latest` on at which a clock that was reset at `since` is in the row, or none.
pub(crate) fn next_tick<B: TimeBook>(book: &B, row: u8, since: u32, latest: u32) -> Option<u32>
    ensures { since ≤ latest → Least (λ t. RowAdmits (B.TimeBook.admits book.now) row (t - since)) latest 4294967295 result }
{
    if row == ANY_TIME {
        return Some(latest);
    }
    let value = book.next(row, latest.saturating_sub(since))?;
    since.checked_add(value)
}
