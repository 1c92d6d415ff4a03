//! The numbers of a row: 32 bits, high byte first.

ghost use Rattle.std.specs.Prelude.{◌≡◌, ◌<◌, ◌≤◌, length, drop, MatchOption};
ghost use Rattle.book_rows.specs.Bytes.{number_of};

/// The number that the bytes begin with, and the bytes after it; none where they are too few.
#[tactic(auto, unfolding(crate::specs::Bytes::number_of))]
pub fn number(bytes: &[u8]) -> Option<(u32, &[u8])>
    ensures { MatchOption result (length bytes.now < 4) (λ p. (4 ≤ length bytes.now) × (p.0 ≡ number_of bytes.now) × (p.1.now ≡ drop 4 bytes.now)) }
{
    let (number, rest) = bytes.split_first_chunk::<4>()?;
    Some((u32::from_be_bytes(*number), rest))
}
