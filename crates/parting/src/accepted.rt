//! A sheet that has been accepted.

ghost use Rattle.std.specs.Prelude.{◌≡◌, ◌≤◌, length};

use crate::local::Part;
use arrayvec::ArrayVec;
use sheet::counts::Counts;

/// A sheet that has been accepted: its counts and each role's part, in tables of its own.
/// It is neither `Copy` nor `Clone`, since opening a session uses it up.
#[derive(Drop)]
pub struct Accepted {
    pub(crate) counts: Counts,
    pub(crate) parts: ArrayVec<Part, 6>,
    ghost few: { counts.roles ≤ 6 },
    ghost each: { length parts.items ≡ counts.roles },
}
