//! An input in its parts.

/// The parts of an input, lent from its bytes: a sheet, a book, the opening tick, and events of 8 bytes each.
#[derive(Clone, Copy)]
pub struct Script<'a> {
    pub sheet: &'a [u8],
    pub book: &'a [u8],
    pub tick: u32,
    pub events: &'a [u8],
}
