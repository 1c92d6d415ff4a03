//! The slot book.

use crate::row_book::RowBook;
use book_rows::slot::Slot;

/// A book whose rows are slots of a period: 12 bytes each, period, first and width, 32 bits each, high byte
/// first, width at least 1 and first + width at most the period.
pub type Slots = RowBook<Slot>;
