//! Reading: from bytes to a sheet, or to the fault that refuses them.

ghost use Rattle.std.specs.Prelude.{◌≡◌, None, MatchResult};
ghost use Rattle.sheet.specs.Law.{Encodes};
ghost use Rattle.sheet.specs.Model.{Sheet};
ghost use Rattle.sheet.specs.Refuse.{fault};
ghost use Rattle.reading.specs.Faults.{fault_of};
ghost use Rattle.reading.specs.Reads.{bytes_of, Reads};

use crate::header::name_count;
use crate::places::Paired;
use crate::read_sheet::ReadSheet;
use arrayvec::ArrayVec;
use sheet::fault::ReadFault;

/// Reads a sheet.
///
/// It answers a sheet exactly when the bytes are the encoding of a valid sheet; what it answers then
/// has those bytes and stands for that sheet, the only one that they encode. Otherwise it answers the
/// fault that comes first in the order of the stop table.
pub fn read(bytes: &[u8]) -> Result<ReadSheet, ReadFault>
    ensures judged { fault_of result ≡ fault bytes.now }
    ensures whole { MatchResult result (Reads bytes.now) (λ _. (sh : Sheet) → Encodes bytes.now sh → ⊥) }
{
    judge(bytes)?;
    Ok(keep(bytes))
}

// The order of refusals: header, pairs, names of roles, names of labels, states.
fn judge(bytes: &[u8]) -> Result<(), ReadFault>
    ensures { fault_of result ≡ fault bytes.now }
{
    let tiled = Paired::read(bytes)?.tiled()?;
    let counts = tiled.paired.counts;
    let roles = counts.roles as usize;
    tiled.check_names(0, roles)?;
    tiled.check_names(roles, name_count(counts))?;
    tiled.check_states()
}

// The sheet that has these bytes.
fn keep(bytes: &[u8]) -> ReadSheet
    requires { fault bytes.now ≡ None }
    ensures { bytes_of result ≡ bytes.now }
{
    // Not by `try_from`: the bytes would be moved into its result and out again.
    let mut own = ArrayVec::new();
    own.try_extend_from_slice(bytes).unwrap();
    ReadSheet { bytes: own }
}
