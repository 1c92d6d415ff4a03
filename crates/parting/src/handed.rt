//! The parts of an accepted sheet, a part's sets, and a set's states.

ghost use Rattle.std.specs.Prelude.{◌≡◌, ◌<◌, ◌≤◌, false};
ghost use Rattle.parting.specs.Masks.{has as has_in};
ghost use Rattle.parting.specs.Handed.{parts_in, sets_in};

use crate::accepted::Accepted;
use crate::local::{LocalSet, Part};
use crate::masks::has;

impl Accepted {
    /// The parts of its roles, by number.
    pub fn parts(&self) -> &[Part]
        ensures { result.now ≡ parts_in self.now }
    {
        &self.parts
    }
}

impl Part {
    /// Its sets, by number.
    pub fn found(&self) -> &[LocalSet]
        ensures { result.now ≡ sets_in self.now }
    {
        &self.sets[..self.count.min(self.sets.len())]
    }
}

impl LocalSet {
    /// Whether a state is in the set; a number that no state can have is not.
    pub fn contains(&self, state: u8) -> bool
        ensures within { state < 64 → result ≡ has_in self.now.states state }
        ensures beyond { 64 ≤ state → result ≡ false }
    {
        state < 64 && has(self.states, state)
    }
}
