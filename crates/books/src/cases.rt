//! The worked cases of the books, asked of the books themselves.

ghost use Rattle.std.specs.Prelude.{◌≡◌, Ok};
ghost use Rattle.books.specs.Cases.{Worked, book_cases};

use crate::fault::BookFault;
use crate::margin::Margin;
use crate::slots::Slots;
use crate::time_book::TimeBook;
use crate::windows::Windows;

/// One row of slots: period 100, first 10, width 5.
const SLOTS: [u8; 12] = [0, 0, 0, 100, 0, 0, 0, 10, 0, 0, 0, 5];

/// One row of windows: 20 to 40.
const WINDOW: [u8; 8] = [0, 0, 0, 20, 0, 0, 0, 40];

/// What the books answer in the worked cases.
#[derive(Clone, Copy)]
pub struct BookCases {
    /// The slots: the next of 9, 14, 15 and 4,294,967,280.
    pub slots: [Option<u32>; 4],
    /// A margin of 2 over the window: whether it holds at 18, 42, 17 and 43.
    pub near_window: [bool; 4],
    /// A margin of 3 over the slots: the next of 18.
    pub near_slots: Option<u32>,
}

/// The worked cases, answered by the books that stand in their bytes.
pub fn worked_cases() -> Result<BookCases, BookFault>
    ensures answers { result ≡ Ok book_cases }
    ensures meaning { Worked }
{
    let slots = Slots::read(&SLOTS)?;
    let early = slots.next(0, 9);
    let inside = slots.next(0, 14);
    let late = slots.next(0, 15);
    let last = slots.next(0, 4_294_967_280);
    let near_slots = Margin::over(slots, 3).next(0, 18);
    let windows = Margin::over(Windows::read(&WINDOW)?, 2);
    let below = windows.holds(0, 18);
    let above = windows.holds(0, 42);
    let under = windows.holds(0, 17);
    let over = windows.holds(0, 43);
    Ok(BookCases {
        slots: [early, inside, late, last],
        near_window: [below, above, under, over],
        near_slots,
    })
}
