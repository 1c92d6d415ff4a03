//! The numbers of channels.

ghost use Rattle.std.specs.Prelude.{◌≡◌, ◌+◌, ◌*◌, ◌<◌};
ghost use Rattle.std.specs.Option.{SomeIff};

/// How many roles there can be.
const ROLES: u8 = 6;

/// The number of the channel from one role to another; none, where a role has no such number.
pub(crate) fn index(from: u8, to: u8) -> Option<usize>
    ensures { SomeIff result ((from < 6) × (to < 6)) (6 * from + to) }
{
    (from < ROLES && to < ROLES).then_some(ROLES as usize * from as usize + to as usize)
}
