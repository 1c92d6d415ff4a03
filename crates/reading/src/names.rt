//! Names: sameness, and the rules for the names of a sheet.

ghost use Rattle.std.specs.Prelude.{◌≡◌, ◌<◌, ◌≤◌, [], map, Decides, slice_index_or};
ghost use Rattle.std.specs.List.{between};
ghost use Rattle.sheet.specs.Decode.{piece_count_in, table, cut};
ghost use Rattle.sheet.specs.Names.{same};
ghost use Rattle.sheet.specs.Refuse.{among, byte_fault, name_fault};
ghost use Rattle.reading.specs.Faults.{fault_of};
ghost use Rattle.reading.specs.Places.{nowhere};

use crate::places::{Stretch, Tiled};
use sheet::fault::ReadFault;

/// Whether two names are the same: byte for byte.
pub fn same_name(a: &[u8], b: &[u8]) -> bool
    ensures value { result ≡ same a.now b.now }
    ensures exact { Decides result (a.now ≡ b.now) }
{
    a == b
}

// Stop 5: every byte of a name is printable.
fn check_bytes(name: Stretch<'_>) -> Result<(), ReadFault>
    ensures { fault_of result ≡ byte_fault name.entry.offset name.entry.bytes.now }
{
    // A `match`: in `map_or` the sum would stand in a closure, with a `requires` that keeps it in range.
    match name.bytes.iter().position(|byte| !byte.is_ascii_graphic()) {
        Some(at) => Err(ReadFault::Byte {
            offset: name.offset + at,
        }),
        None => Ok(()),
    }
}

impl Tiled<'_> {
    // Whether a name is the same as one of those of the pairs from `first` to below `end`.
    fn repeats(self, name: &[u8], first: usize, end: usize) -> bool
        requires { end ≤ piece_count_in self.paired.counts }
        ensures { result ≡ among name.now (map (cut self.entry.paired.bytes.now) (between first end (table self.entry.paired.bytes.now))) }
    {
        (first..end).any(
            |pair|
                requires { pair < piece_count_in self.paired.counts }
            { same_name(name, self.piece(pair).bytes) },
        )
    }

    // Stops 5 and 6, name by name, for the names of one kind: those of the pairs from `first` to below `end`.
    pub(crate) fn check_names(self, first: usize, end: usize) -> Result<(), ReadFault>
        requires { (first ≤ end) × (end ≤ piece_count_in self.paired.counts) }
        ensures { fault_of result ≡ name_fault self.entry.paired.bytes.now first [] (between first end (table self.entry.paired.bytes.now)) }
    {
        // A `for` with `?`: two checks of one name, each with a fault of its own, would stand in one closure.
        for pair in first..end {
            let name = self.piece(pair);
            check_bytes(name)?;
            if self.repeats(name.bytes, first, pair) {
                return Err(ReadFault::Twice { pair });
            }
        }
        Ok(())
    }
}
