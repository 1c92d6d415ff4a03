//! What one check of a sheet's bytes hands to the next.

ghost use Rattle.std.specs.Prelude.{◌≡◌, ◌+◌, ◌^◌, ◌<◌, false, length, is_some};
ghost use Rattle.sheet.specs.Decode.{counts as counts_read};
ghost use Rattle.sheet.specs.Refuse.{table_fault};
ghost use Rattle.reading.specs.Places.{Paired as PairedBytes};

use sheet::counts::Counts;

// Bytes in whose header no fault is found, with its counts: they are long enough for the pairs.
#[derive(Clone, Copy)]
pub(crate) struct Paired<'a> {
    pub(crate) bytes: &'a [u8],
    pub(crate) counts: Counts,
    ghost counted: { counts ≡ counts_read bytes.now },
    ghost room: { PairedBytes bytes.now },
}

// Such bytes whose pieces lie one after the other, from the end of the pairs to the end of the bytes.
#[derive(Clone, Copy)]
pub(crate) struct Tiled<'a> {
    pub(crate) paired: Paired<'a>,
    ghost tiled: { is_some (table_fault paired.bytes.now) ≡ false },
}

// A part of a sheet's bytes, with the offset at which it begins.
#[derive(Clone, Copy)]
pub(crate) struct Stretch<'a> {
    pub(crate) offset: usize,
    pub(crate) bytes: &'a [u8],
    ghost near: { offset + length bytes.now < 2 ^ 17 },
}
