//! A sheet that has been read.

ghost use Rattle.std.specs.Prelude.{◌≡◌, false, is_some};
ghost use Rattle.sheet.specs.Refuse.{fault};

use arrayvec::ArrayVec;

/// The most bytes that a sheet can have: 5 of header, 102 pairs of 4, 38 names of 12, 64 states of 42.
pub const MOST_BYTES: usize = 3557;

/// A sheet that has been read: its own bytes, in which reading finds no fault.
/// It is neither `Copy` nor `Clone`, since parting uses it up.
#[derive(Drop)]
pub struct ReadSheet {
    pub(crate) bytes: ArrayVec<u8, MOST_BYTES>,
    ghost sound: { is_some (fault bytes.items) ≡ false },
}
