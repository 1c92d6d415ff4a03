//! What a role does, in a sheet or in the states of one set.

ghost use Rattle.std.specs.Prelude.{◌≡◌, ℕ, ◌<◌, Bool};
ghost use Rattle.std.specs.Borrow.{Bor};
ghost use Rattle.parting.specs.Bounds.{SmallAct};
ghost use Rattle.parting.specs.Calls.{ComputesAt};
ghost use Rattle.parting.specs.Family.{ends as ends_in};
ghost use Rattle.parting.specs.Judge.{in_set as in_set_of, first_with, labels_of_state};
ghost use Rattle.parting.specs.Masks.{gather as gather_in};
ghost use Rattle.parting.specs.Lists.{listed};
ghost use Rattle.parting.specs.View.{place_of, acts_at, acts as acts_listed, acting_states_of};

use crate::act::{Act, Way};
use crate::collect::{MOST, collect};
use crate::masks::{has, with};
use crate::transition::Transition;
use crate::transitions::Transitions;
use arrayvec::ArrayVec;
use std::marker::Model;

/// Acts of one role, in the order of the sheet. A mask can hold each state and each label of theirs.
#[derive(Drop)]
pub(crate) struct Acts {
    list: ArrayVec<Act, MOST>,
}

impl Model for Acts {
    ghost use Rattle.std.specs.Prelude.{List};
    ghost use Rattle.parting.specs.declared.act.Act.{Act};
    ghost use Rattle.parting.specs.Bounds.{SmallActs};

    ghost Value = { List Act };

    ghost view = { λ a. a.list.items };

    ghost invariant = { λ a. SmallActs a.list.items };
}

impl Acts {
    // All that the role does.
    pub(crate) fn of(transitions: &Transitions, role: u8) -> Acts
        ensures { result ≡ acts_listed role transitions.now }
    {
        Acts {
            list: collect(transitions.as_slice(), |t| act_of(role, t)),
        }
    }

    pub(crate) fn as_slice(&self) -> &[Act]
        ensures { result.now ≡ self.now }
    {
        self.list.as_slice()
    }

    // Those in the states of a set.
    pub(crate) fn in_set(&self, states: u64) -> Acts
        ensures { result ≡ in_set_of states self.now }
    {
        Acts {
            list: collect(
                self.list.as_slice(),
                |act| has(states, act.state).then_some(act),
            ),
        }
    }

    // The first with that label.
    pub(crate) fn first_with(&self, label: u8) -> Option<Act>
        ensures { result ≡ first_with label self.now }
    {
        self.list
            .as_slice()
            .iter()
            .find(|act| act.label == label)
            .copied()
    }

    // The states in which the role acts.
    pub(crate) fn states(&self) -> u64
        ensures { result ≡ acting_states_of self.now }
    {
        self.gather(|_| true, |act| act.state)
    }

    // The labels that the role has in a state.
    pub(crate) fn labels_at(&self, state: u8) -> u64
        ensures { result ≡ labels_of_state state self.now }
    {
        self.gather(|act| act.state == state, |act| act.label)
    }

    // Where the acts with that label lead.
    pub(crate) fn ends(&self, label: u8) -> u64
        ensures { result ≡ ends_in label self.now }
    {
        self.gather(|act| act.label == label, |act| act.next)
    }

    // The mask of the numbers that `number` gives of the acts that meet the test.
    fn gather<T: Fn(&Act) -> bool, N: Fn(&Act) -> u8>(&self, test: T, number: N) -> u64
        requires tests { T.IsAlwaysCallable test }
        requires numbers { N.IsAlwaysCallable number }
        requires small { (a : Bor Act) (n : ℕ) → SmallAct a.now → N.post number a n → n < 64 }
        ensures { (t : Act → Bool) (n : Act → ℕ) → ComputesAt (T.post test) t → ComputesAt (N.post number) n → result ≡ gather_in t n 0 self.now }
    {
        let mut mask = 0;
        for act in self.list.as_slice() {
            if test(act) {
                mask = with(mask, number(act));
            }
        }
        mask
    }
}

// What the role does in a transition, if anything.
#[tactic(auto, using(std::proofs::lemmas::Bool::Decides::nat_tests), unfolding(crate::specs::View::acts_at))]
fn act_of(role: u8, t: Transition) -> Option<Act>
    ensures { listed result ≡ acts_at role (place_of t) }
{
    if role == t.sender {
        return Some(Act {
            state: t.state,
            way: Way::Sends,
            partner: t.receiver,
            label: t.branch.label,
            row: t.branch.send,
            reset: t.branch.resets % 2 == 1,
            next: t.branch.next,
        });
    }
    if role == t.receiver {
        return Some(Act {
            state: t.state,
            way: Way::Receives,
            partner: t.sender,
            label: t.branch.label,
            row: t.branch.receive,
            reset: t.branch.resets / 2 % 2 == 1,
            next: t.branch.next,
        });
    }
    None
}
