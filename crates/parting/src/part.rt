//! Parting a sheet.

ghost use Rattle.std.specs.Prelude.{◌≡◌, [], MatchResult};
ghost use Rattle.std.specs.Result.{result_err};
ghost use Rattle.reading.specs.Reads.{sheet_of};
ghost use Rattle.protocol.specs.Accepted.{Accepted as CanBeParted};
ghost use Rattle.parting.specs.Parts.{part_fault, EachParted};
ghost use Rattle.parting.specs.Whole.{PartsOf, fault_of};

use crate::accepted::Accepted;
use crate::fault::PartFault;
use crate::graph::decode;
use crate::local::Part;
use crate::refused::Refused;
use crate::role::Role;
use arrayvec::ArrayVec;
use reading::read_sheet::ReadSheet;

/// Parts a sheet: one local protocol for each role.
///
/// It uses up the read sheet and answers an accepted one exactly when every role has a part; that one has
/// the read sheet's counts, and for each role the table of its sets. Otherwise it gives the read sheet back,
/// with the fault that comes first: roles by number, each role's sets as found, each judged and then followed.
pub fn part(sheet: ReadSheet) -> Result<Accepted, Refused>
    ensures judged { fault_of result ≡ part_fault (sheet_of sheet) }
    ensures whole { MatchResult result (λ a. CanBeParted (sheet_of sheet) × PartsOf (sheet_of sheet) a) (λ e. (CanBeParted (sheet_of sheet) → ⊥) × (e.sheet ≡ sheet)) }
{
    // The parts stand here and are put by a function: a result that has them would move their 150 KB twice more.
    let mut parts = ArrayVec::new();
    // A `match`: both arms use the sheet up.
    match put_parts(&sheet, &mut parts) {
        Ok(()) => Ok(Accepted {
            counts: sheet.counts(),
            parts,
        }),
        Err(fault) => Err(Refused { sheet, fault }),
    }
}

// Puts each role's part where none is yet, or answers the fault that comes first.
fn put_parts(sheet: &ReadSheet, parts: &mut ArrayVec<Part, 6>) -> Result<(), PartFault>
    requires { parts.old.items ≡ [] }
    ensures fault { result_err result ≡ part_fault (sheet_of sheet.now) }
    ensures parts { MatchResult result (λ _. EachParted (sheet_of sheet.now) parts.new.items) (λ _. CanBeParted (sheet_of sheet.now) → ⊥) }
{
    let counts = sheet.counts();
    let transitions = decode(sheet);
    // A role is its number: there is no list to go over.
    for role in 0..counts.roles {
        let part = Role::of(&transitions, role, counts.labels).part()?;
        parts.push(part);
    }
    Ok(())
}
