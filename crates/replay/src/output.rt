//! Writing into the caller's output.

ghost use Rattle.std.specs.Prelude.{◌≡◌, ◌+◌, ◌≤◌, ◌++◌, length, take, drop};

/// Writes the bytes at this place, and nothing before or after them.
pub(crate) fn put(output: &mut [u8], at: usize, bytes: &[u8])
    requires { at + length bytes.now ≤ length output.old }
    ensures front { take (at + length bytes.now) output.new ≡ take at output.old ++ bytes.now }
    ensures rest { drop (at + length bytes.now) output.new ≡ drop (at + length bytes.now) output.old }
{
    let end = at + bytes.len();
    output[at..end].copy_from_slice(bytes);
}
