//! Closure of a set of states under steps: all that can be reached along edges.
//! Its contract says what is reached, and not by which walk, so that the walk can be replaced alone.

ghost use Rattle.std.specs.Prelude.{◌≡◌, ℕ, Decides};
ghost use Rattle.sheet.specs.Model.{Sheet};
ghost use Rattle.protocol.specs.Sets.{Silent};
ghost use Rattle.parting.specs.Masks.{has as has_in, In};
ghost use Rattle.parting.specs.Spread.{spread as spread_of};
ghost use Rattle.parting.specs.View.{places, silent_edges};

use crate::edges::Edges;

impl Edges {
    // All states that can be reached from those of the mask along the edges. Where the edges are the steps in
    // which a role has no part, that is the silent closure.
    pub(crate) fn closure(&self, start: u64) -> u64
        ensures value { result ≡ spread_of self.now start }
        ensures silent { (sh : Sheet) (m : ℕ) → self.now ≡ silent_edges m (places sh) → (s : ℕ) → Decides (has_in result s) (Silent sh m (In start) s) }
    {
        // A loop, since it ends where a pass changes nothing: a chain would carry each mask beside the one before.
        let mut reached = start;
        loop {
            let more = self.pass(reached);
            if more == reached {
                return reached;
            }
            reached = more;
        }
    }
}
