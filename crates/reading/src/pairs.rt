//! The pairs of offset and length, which say where each piece lies.

ghost use Rattle.std.specs.Prelude.{◌≡◌, ℕ, ◌+◌, ◌*◌, ◌^◌, ◌<◌, ◌≤◌, Bool, length, slice_index_or, IfOk};
ghost use Rattle.sheet.specs.Decode.{piece_count_in, number, table, cut};
ghost use Rattle.sheet.specs.Encode.{begin};
ghost use Rattle.sheet.specs.Refuse.{placed as placed_in, sized, table_fault};
ghost use Rattle.reading.specs.Faults.{fault_of};
ghost use Rattle.reading.specs.Places.{nowhere};

use crate::header::{first_offset, name_count, piece_count};
use crate::places::{Paired, Stretch, Tiled};
use sheet::fault::ReadFault;
use sheet::span::Span;

// The number of 16 bits at a place, the high byte first.
fn number_at(bytes: &[u8], at: usize) -> usize
    requires { at + 1 < length bytes.now }
    ensures value { result ≡ number bytes.now at }
    ensures bound { result < 2 ^ 16 }
{
    u16::from_be_bytes([bytes[at], bytes[at + 1]]) as usize
}

// Whether a pair's piece begins at the offset that is due, has a length that its kind may have, and ends by the limit.
#[tactic(auto, unfolding(sheet::specs::Refuse::placed))]
fn placed(limit: usize, named: bool, at: usize, span: Span) -> bool
    requires size_bound { span.size < 2 ^ 16 }
    requires offset_bound { span.offset < 2 ^ 16 }
    ensures { result ≡ placed_in limit named at span }
{
    span.offset == at && has_size(named, span.size) && at + span.size <= limit
}

// A name has 1 to 12 bytes; a state none, or two and five for each of 1 to 8 branches.
fn has_size(named: bool, size: usize) -> bool
    ensures { result ≡ sized named size }
{
    if named {
        matches!(size, 1..=12)
    } else {
        size == 0 || (matches!(size, 7..=42) && size % 5 == 2)
    }
}

impl<'a> Paired<'a> {
    // Where the piece of a pair lies.
    #[tactic(auto, using(sheet::proofs::Spans::table_at))]
    pub(crate) fn span(self, pair: usize) -> Span
        requires { pair < piece_count_in self.counts }
        ensures value { result ≡ slice_index_or (table self.entry.bytes.now) pair nowhere }
        ensures bound { (result.offset < 2 ^ 16) × (result.size < 2 ^ 16) }
    {
        Span {
            offset: number_at(self.bytes, 5 + 4 * pair),
            size: number_at(self.bytes, 7 + 4 * pair),
        }
    }

    // Stop 4: each piece begins where the one before ends, the first right after the pairs, and the last ends with the sheet.
    pub(crate) fn tiled(self) -> Result<Tiled<'a>, ReadFault>
        ensures judged { fault_of result ≡ table_fault self.entry.bytes.now }
        ensures value { IfOk result (λ t. t.paired ≡ self.entry) }
    {
        let limit = self.bytes.len();
        let names = name_count(self.counts);
        let count = piece_count(self.counts);
        let mut at = first_offset(self.counts);
        // A `for`: the offset that is due goes from pair to pair, and `try_fold` would carry it through a closure.
        for pair in 0..count {
            let span = self.span(pair);
            if !placed(limit, pair < names, at, span) {
                return Err(ReadFault::Pair { pair });
            }
            at += span.size;
        }
        if at != limit {
            return Err(ReadFault::Pair { pair: count });
        }
        Ok(Tiled { paired: self })
    }
}

impl<'a> Tiled<'a> {
    // The piece of a pair: a part of the sheet's own bytes.
    pub(crate) fn piece(self, pair: usize) -> Stretch<'a>
        requires { pair < piece_count_in self.paired.counts }
        ensures offset { result.offset ≡ (slice_index_or (table self.entry.paired.bytes.now) pair nowhere).offset }
        ensures value { result.bytes.now ≡ cut self.entry.paired.bytes.now (slice_index_or (table self.entry.paired.bytes.now) pair nowhere) }
    {
        let Span { offset, size } = self.paired.span(pair);
        let bytes = &self.paired.bytes[offset..offset + size];
        Stretch { offset, bytes }
    }
}
