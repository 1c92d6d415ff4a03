//! The rows that are tried, as numbers and as bytes.

use mark_book::Mark;

const LAST: u32 = 4_294_967_295;

/// Windows: one value, few, all, and the ends of the range.
pub(crate) static WINDOWS: [[u32; 2]; 12] = [
    [0, 0],
    [0, 5],
    [20, 40],
    [40, 40],
    [0, LAST],
    [LAST, LAST],
    [LAST - 3, LAST],
    [5, LAST],
    [1, 999],
    [2_147_483_647, 2_147_483_649],
    [0, LAST - 1],
    [700, 100_000],
];

/// Slots: period 1, the longest period, a width that fills the period, and slots at the period's ends.
pub(crate) static SLOTS: [[u32; 3]; 12] = [
    [1, 0, 1],
    [100, 10, 5],
    [LAST, 0, 1],
    [LAST, 0, LAST],
    [LAST, LAST - 1, 1],
    [LAST, 5, LAST - 5],
    [100, 0, 100],
    [100, 95, 5],
    [7, 3, 2],
    [2, 1, 1],
    [2_147_483_648, 2_147_483_640, 8],
    [65_536, 65_000, 30],
];

/// Marks in three rows, the ends of the range among them.
const MARKS: [(u8, u32); 16] = [
    (0, 0),
    (0, 7),
    (0, 7),
    (0, 300),
    (0, LAST),
    (1, 20),
    (1, 19),
    (1, 2_147_483_648),
    (1, LAST - 1),
    (2, 999),
    (2, 41),
    (2, LAST - 50),
    (2, 42),
    (2, 500),
    (3, 5),
    (200, 6),
];

/// Values at which rows begin and end.
pub(crate) const ENDS: [u32; 12] = [
    0,
    5,
    20,
    40,
    100,
    999,
    65_030,
    2_147_483_647,
    2_147_483_649,
    LAST - 50,
    LAST - 5,
    LAST,
];

/// The marks as a book takes them.
pub(crate) fn marks() -> [Mark; 16] {
    MARKS.map(|(row, value)| Mark { row, value })
}

/// The rows' numbers as bytes, high byte first, as many as there is room for.
pub(crate) fn bytes_of<const N: usize, const SIZE: usize>(rows: &[[u32; N]]) -> [u8; SIZE] {
    let mut bytes = [0; SIZE];
    let (places, _) = bytes.as_chunks_mut::<4>();
    for (place, number) in places.iter_mut().zip(rows.iter().flatten()) {
        *place = number.to_be_bytes();
    }
    bytes
}
