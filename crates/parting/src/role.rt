//! One role's part: its view of the sheet, its sets, and their table.

ghost use Rattle.std.specs.Prelude.{◌≡◌};
ghost use Rattle.parting.specs.Parts.{PartIn};
ghost use Rattle.parting.specs.Family.{view_of};
ghost use Rattle.parting.specs.Seen.{seen};

use crate::fault::PartFault;
use crate::local::Part;
use crate::tables::table;
use crate::transitions::Transitions;
use crate::view::View;

/// A role of a sheet: its number, how many labels the sheet has, and what the role sees of it.
#[derive(Drop)]
pub(crate) struct Role {
    pub number: u8,
    pub labels: u8,
    pub view: View,
}

impl Role {
    pub(crate) fn of(transitions: &Transitions, number: u8, labels: u8) -> Role
        ensures view { seen result.view ≡ view_of number transitions.now }
        ensures rest { (result.number ≡ number) × (result.labels ≡ labels) }
    {
        Role {
            number,
            labels,
            view: View::of(transitions, number),
        }
    }

    // Its part, or the fault that it has none.
    pub(crate) fn part(&self) -> Result<Part, PartFault>
        ensures { PartIn (seen self.now.view) self.now.number self.now.labels result }
    {
        // A queue stands in slots of its user's.
        let mut slots = [0u64; 32];
        let sets = self.sets(&mut slots)?;
        Ok(table(&self.view, sets.as_slice()))
    }
}
