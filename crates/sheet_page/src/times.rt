//! When an event may happen, and which clocks it resets, in words.

ghost use Rattle.std.specs.Prelude.{◌≡◌, Some};
ghost use Rattle.sheet_page.specs.Lines.{time_of, clocks_of};

use std::fmt;

/// When a time row allows an event; 255 is any time.
// The byte as branches and moves have it: an enum would be made of it only to be shown, by the same test.
#[derive(Clone, Copy)]
pub struct Time {
    pub row: u8,
}

impl fmt::Display for Time {
    ghost output = { λ time. Some (time_of time.row) };

    fn fmt<W: fmt::Write>(&self, f: &mut fmt::Formatter<W>) -> fmt::Result {
        let row = self.row;
        if row == 255 {
            write!(f, "any time")
        } else {
            write!(f, "in row {row}")
        }
    }
}

// Whose clocks are reset.
// A type that shows this would be a struct around the byte with an impl and a contract, in place of one match.
pub(crate) fn clocks(resets: u8) -> &'static str
    ensures { result.now ≡ clocks_of resets }
{
    match resets {
        0 => "no clock",
        1 => "the sender's clock",
        2 => "the receiver's clock",
        _ => "both clocks",
    }
}
