//! What is wrong with bytes that are no book.

ghost use Rattle.std.specs.Prelude.{◌≡◌};
ghost use Rattle.books.specs.BookStops.{book_stop};

use stops::stop::Stop;

/// Why a book could not be made of bytes.
#[derive(Clone, Copy, PartialEq, Eq, Debug)]
pub enum BookFault {
    /// The bytes are no whole number of rows, or more than 64 of them.
    Rows { given: usize },
    /// This row is the first against its rule.
    Row { row: usize },
}

impl From<BookFault> for Stop {
    ghost from_gives = { λ fault r. r ≡ book_stop fault };

    fn from(fault: BookFault) -> Stop {
        match fault {
            BookFault::Rows { given } => Stop::new(11, given, 0),
            BookFault::Row { row } => Stop::new(12, row, 0),
        }
    }
}
