//! How many bytes a row has.

ghost use Rattle.std.specs.Prelude.{◌≡◌};

use crate::kind::RowKind;
use crate::slot::Slot;
use crate::window::Window;

/// How many bytes a window has, and how many a slot: a kind says its own number, and here it is pinned.
pub fn row_sizes() -> (usize, usize)
    ensures { result ≡ (8, 12) }
{
    (Window::SIZE, Slot::SIZE)
}
