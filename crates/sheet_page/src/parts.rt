//! The bytes of a sheet's pieces.

ghost use Rattle.std.specs.Prelude.{◌≡◌};
ghost use Rattle.reading.specs.Handing.{piece_of};
ghost use Rattle.reading.specs.Reads.{sheet_of};

use reading::piece::{Kind, Piece};
use reading::read_sheet::ReadSheet;

/// The bytes of the piece of that kind and number; none where the kind has no such number.
pub fn part(sheet: &ReadSheet, kind: Kind, number: usize) -> &[u8]
    ensures { result.now ≡ piece_of (sheet_of sheet.now) kind number }
{
    // One match for the kinds of pieces and for none: `map` with a function on pieces would hold the same match.
    match sheet.piece(kind, number) {
        Some(
            Piece::Role { name: bytes, .. }
            | Piece::Label { name: bytes, .. }
            | Piece::State { body: bytes, .. },
        ) => bytes,
        None => b"",
    }
}
