//! The window book.

use crate::row_book::RowBook;
use book_rows::window::Window;

/// A book whose rows are windows: 8 bytes each, low and high, 32 bits each, high byte first, low at most high.
pub type Windows = RowBook<Window>;
