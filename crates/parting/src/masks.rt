//! Sets of numbers below 64 as the bits of a number.
//! They have no type of their own: a set of states is public as the number `LocalSet::states`, which callers
//! compare and print, and the definitions speak of its bits. That a number is below 64 is known from the types
//! of its users; where `has` tests it, parting the largest sheet takes 1.7 times the instructions.

ghost use Rattle.std.specs.Prelude.{◌≡◌, ◌<◌};
ghost use Rattle.parting.specs.Masks.{has as has_in, add as add_in};

pub(crate) fn has(mask: u64, k: u8) -> bool
    requires { k < 64 }
    ensures { result ≡ has_in mask k }
{
    (mask >> k) & 1 == 1
}

pub(crate) fn with(mask: u64, k: u8) -> u64
    requires { k < 64 }
    ensures { result ≡ add_in k mask }
{
    mask | (1u64 << k)
}
