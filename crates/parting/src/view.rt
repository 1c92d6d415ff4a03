//! One role's view of a sheet: what it does itself, and the steps in which it has no part.

ghost use Rattle.std.specs.Prelude.{◌≡◌};
ghost use Rattle.parting.specs.Family.{view_of, ends};
ghost use Rattle.parting.specs.Judge.{in_set};
ghost use Rattle.parting.specs.Seen.{seen};
ghost use Rattle.parting.specs.Spread.{spread};

use crate::acts::Acts;
use crate::edges::Edges;
use crate::transitions::Transitions;

/// What a role sees of a sheet: what it does itself, the steps in which it has no part, and the states
/// from which some state in which it acts can be reached.
#[derive(Drop)]
pub(crate) struct View {
    pub acts: Acts,
    pub silent: Edges,
    pub leading: u64,
}

/// What a role sees of one set: its states, what it does there, and of the sheet the rest of its view.
#[derive(Drop)]
pub(crate) struct SetView<'a> {
    pub states: u64,
    pub acts: Acts,
    pub silent: &'a Edges,
    pub leading: u64,
}

impl View {
    pub(crate) fn of(transitions: &Transitions, role: u8) -> View
        ensures { seen result ≡ view_of role transitions.now }
    {
        let acts = Acts::of(transitions, role);
        let leading = Edges::back(transitions).closure(acts.states());
        View {
            acts,
            silent: Edges::silent(transitions, role),
            leading,
        }
    }

    pub(crate) fn of_set(&self, states: u64) -> SetView<'_>
        ensures states { result.states ≡ states }
        ensures acts { result.acts ≡ in_set states self.now.acts }
        ensures silent { result.silent.now ≡ self.now.silent }
        ensures leading { result.leading ≡ self.now.leading }
    {
        SetView {
            states,
            acts: self.acts.in_set(states),
            silent: &self.silent,
            leading: self.leading,
        }
    }
}

impl SetView<'_> {
    // The set that follows under a label.
    pub(crate) fn successor(&self, label: u8) -> u64
        ensures { result ≡ spread self.now.silent.now (ends label self.now.acts) }
    {
        self.silent.closure(self.acts.ends(label))
    }
}
