//! What an accepted sheet hands out.

ghost use Rattle.std.specs.Prelude.{◌≡◌, if◌then◌else◌, Some, None, nat_lt, slice_index_or};
ghost use Rattle.std.specs.Option.{option_map};
ghost use Rattle.parting.specs.Blank.{no_part};

use crate::accepted::Accepted;
use crate::local::Part;
use sheet::counts::Counts;

impl Accepted {
    /// How many roles, labels, states and time rows the sheet has.
    pub fn counts(&self) -> Counts
        ensures { result ≡ self.now.counts }
    {
        self.counts
    }

    /// A role's local protocol, or none where the sheet has no such role.
    pub fn part(&self, role: usize) -> Option<&Part>
        ensures { option_map (λ x. x.now) result ≡ (if nat_lt role self.now.counts.roles then Some (slice_index_or self.now.parts.items role no_part) else None) }
    {
        self.parts.get(role)
    }
}
