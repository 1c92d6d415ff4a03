//! A role's sets: found one after the other, each judged and then followed.

ghost use Rattle.std.specs.Prelude.{◌≡◌, ◌≤◌, length, IfOk};
ghost use Rattle.parting.specs.Family.{outcome, label_entered, followed, fault_of_point, visited, family_of};
ghost use Rattle.parting.specs.Seen.{seen, found_by, answered};

use crate::fault::PartFault;
use crate::point::Point;
use crate::role::Role;
use crate::search::{NoRoom, Search};
use crate::view::SetView;
use arrayvec::ArrayVec;

impl SetView<'_> {
    // Enters the set's successor under a label, if the role has an act with that label there.
    #[tactic(auto, unfolding(crate::specs::Family::label_entered))]
    fn enter_successor(&self, label: u8, search: &mut Search<'_>) -> Result<(), NoRoom>
        ensures value { outcome result search.new.found.items ≡ label_entered self.now.silent.now self.now.acts search.old.found.items label }
        ensures judged { search.new.judged ≡ search.old.judged }
    {
        if self.acts.first_with(label).is_none() {
            return Ok(());
        }
        search.enter(self.successor(label))
    }

    // Enters the set's successors, labels rising.
    #[tactic(auto, using(crate::proofs::Following::follows_some, crate::proofs::Following::follows_none, crate::proofs::Following::follows_all))]
    fn follow(&self, labels: u8, search: &mut Search<'_>) -> Result<(), NoRoom>
        ensures value { outcome result search.new.found.items ≡ followed self.now.silent.now self.now.acts 0 labels search.old.found.items }
        ensures judged { search.new.judged ≡ search.old.judged }
    {
        // A label is its number: there is no list to go over.
        for label in 0..labels {
            self.enter_successor(label, search)?;
        }
        Ok(())
    }
}

// No `From`: a fault has a role and a set besides its point.
fn fault_at(point: Point, role: u8, set: usize) -> PartFault
    ensures { result ≡ fault_of_point point role set }
{
    let role = role as usize;
    match point {
        Point::Crossed => PartFault::Crossed { role, set },
        Point::Offer => PartFault::Offer { role, set },
        Point::Clash => PartFault::Clash { role, set },
        Point::Untold => PartFault::Untold { role, set },
    }
}

impl Role {
    // Judges a set, then finds its successors.
    fn visit(&self, set: usize, states: u64, search: &mut Search<'_>) -> Result<(), PartFault>
        ensures value { found_by result search.new.found.items ≡ visited self.now.number (seen self.now.view) self.now.labels set states search.old.found.items }
        ensures judged { search.new.judged ≡ search.old.judged }
    {
        let here = self.view.of_set(states);
        if let Some(point) = here.first_failing() {
            return Err(fault_at(point, self.number, set));
        }
        let role = self.number as usize;
        here.follow(self.labels, search)
            .map_err(|_| PartFault::Sets { role, set })
    }

    // Its sets, each judged and then followed in the order in which they are found. The slots for those that
    // wait are the caller's.
    pub(crate) fn sets(&self, slots: &mut [u64]) -> Result<ArrayVec<u64, 32>, PartFault>
        requires { length slots.old ≡ 32 }
        ensures value { answered result ≡ family_of self.now.number (seen self.now.view) self.now.labels }
        ensures few { IfOk result (λ sets. length sets.items ≤ 32) }
    {
        let mut search = Search::new(slots);
        // The first set has room.
        let _ = search.enter(self.view.silent.closure(1));
        // No `for`: a visit may add sets to those that wait.
        while let Some((set, states)) = search.next() {
            self.visit(set, states, &mut search)?;
        }
        Ok(search.found)
    }
}
