//! What a case is: a session, and what is put to it.

use crate::put::Put;

/// A book of these bytes, as it is or under a margin.
// Each case is a book of another type, which is made where the case is tried.
#[derive(Clone, Copy)]
pub enum Rows {
    Windows(&'static [u8]),
    Slots(&'static [u8]),
    NearWindows(&'static [u8], u32),
    NearSlots(&'static [u8], u32),
}

/// A session's sheet, book, opening tick and depth, and what is put to it.
#[derive(Clone, Copy)]
pub struct Case {
    pub title: &'static str,
    pub sheet: &'static [u8],
    pub rows: Rows,
    pub tick: u32,
    pub depth: u8,
    pub puts: &'static [Put],
}
