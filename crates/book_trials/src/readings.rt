//! Bytes that are no book, and the fault that each has.

use crate::compare::Tally;
use crate::tables::bytes_of;
use books::fault::BookFault;
use books::slots::Slots;
use books::windows::Windows;
use stops::stop::{Layer, Stop};

/// The most bytes that are tried.
const MOST: usize = 1024;

/// A window whose low is above its high.
const BAD_WINDOW: [u32; 2] = [1, 0];

/// A slot whose first + width passes 32 bits; in 32 bits the sum would be 0.
const BAD_SLOT: [u32; 3] = [4_294_967_295, 4_294_967_295, 1];

/// The fault of so many zeros as a book, where they are its rows or not, and a row of zeros is legal or not.
fn fault_of_zeros(given: usize, rows: bool, legal: bool) -> Option<BookFault> {
    if !rows {
        Some(BookFault::Rows { given })
    } else if given > 0 && !legal {
        Some(BookFault::Row { row: 0 })
    } else {
        None
    }
}

/// Every length of bytes, all of them 0: a window 0 to 0 is legal, and a slot with the width 0 is not.
pub(crate) fn lengths() -> Tally {
    let mut tally = Tally::default();
    let zeros = [0; MOST];
    for given in 0..MOST + 1 {
        let bytes = &zeros[0..given];
        // The numbers stand here once more, and are not the library's: a row of another size there must show.
        let windows = given % 8 == 0 && given <= 512;
        let slots = given % 12 == 0 && given <= 768;
        tally.note(Windows::read(bytes).err() == fault_of_zeros(given, windows, true));
        tally.note(Slots::read(bytes).err() == fault_of_zeros(given, slots, false));
    }
    tally
}

/// Books of 64 rows, of which each in turn is the first bad one, and last a good book.
pub(crate) fn first_bad_rows() -> Tally {
    let mut tally = Tally::default();
    for first in 0..65usize {
        let expected = (first < 64).then_some(BookFault::Row { row: first });
        let mut windows = [[0, 0]; 64];
        let mut slots = [[1, 0, 1]; 64];
        windows[first..].fill(BAD_WINDOW);
        slots[first..].fill(BAD_SLOT);
        let window_bytes: [u8; 512] = bytes_of(&windows);
        let slot_bytes: [u8; 768] = bytes_of(&slots);
        tally.note(Windows::read(&window_bytes).err() == expected);
        tally.note(Slots::read(&slot_bytes).err() == expected);
    }
    tally
}

/// The stop of each fault.
pub(crate) fn stops() -> Tally {
    let mut tally = Tally::default();
    for place in 0..MOST {
        let stop = |number| Stop {
            layer: Layer::Books,
            number,
            first: place,
            second: 0,
        };
        tally.note(Stop::from(BookFault::Rows { given: place }) == stop(11));
        tally.note(Stop::from(BookFault::Row { row: place }) == stop(12));
    }
    tally
}
