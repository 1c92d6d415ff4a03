//! Steps from state to state.

ghost use Rattle.std.specs.Prelude.{◌≡◌, map};
ghost use Rattle.parting.specs.Lists.{listed};
ghost use Rattle.parting.specs.Spread.{passed};
ghost use Rattle.parting.specs.View.{place_of, silent_at, silent_edges, back_edge as back_edge_of};

use crate::collect::{MOST, collect};
use crate::edge::Edge;
use crate::masks::{has, with};
use crate::transition::Transition;
use crate::transitions::Transitions;
use arrayvec::ArrayVec;
use std::marker::Model;

/// Steps from state to state, in the order of the sheet. A mask can hold each of their states.
#[derive(Drop)]
// As `Acts`, with another invariant: one type for both would need a trait whose law is the invariant, and an impl for
// each.
pub(crate) struct Edges {
    list: ArrayVec<Edge, MOST>,
}

impl Model for Edges {
    ghost use Rattle.std.specs.Prelude.{List};
    ghost use Rattle.parting.specs.declared.edge.Edge.{Edge};
    ghost use Rattle.parting.specs.Bounds.{SmallEdges};

    ghost Value = { List Edge };

    ghost view = { λ e. e.list.items };

    ghost invariant = { λ e. SmallEdges e.list.items };
}

impl Edges {
    // The steps in which the role has no part. What this shares with `Acts::of` stands in `collect`: a generic
    // function in place of both would be a second name for it.
    pub(crate) fn silent(transitions: &Transitions, role: u8) -> Edges
        ensures { result ≡ silent_edges role transitions.now }
    {
        Edges {
            list: collect(transitions.as_slice(), |t| silent_edge(role, t)),
        }
    }

    // All steps, backwards.
    pub(crate) fn back(transitions: &Transitions) -> Edges
        ensures { result ≡ map back_edge_of transitions.now }
    {
        Edges {
            list: collect(transitions.as_slice(), |t| Some(back_edge(t))),
        }
    }

    // One pass over the edges: with the start of each, its end.
    pub(crate) fn pass(&self, mask: u64) -> u64
        ensures { result ≡ passed mask self.now }
    {
        let mut reached = mask;
        for edge in self.list.as_slice() {
            if has(reached, edge.from) {
                reached = with(reached, edge.to);
            }
        }
        reached
    }
}

// The step of a transition in which the role has no part.
#[tactic(auto, using(std::proofs::lemmas::Bool::Decides::nat_tests), unfolding(crate::specs::View::silent_at))]
fn silent_edge(role: u8, t: Transition) -> Option<Edge>
    ensures { listed result ≡ silent_at role (place_of t) }
{
    if role == t.sender || role == t.receiver {
        return None;
    }
    Some(Edge {
        from: t.state,
        to: t.branch.next,
    })
}

fn back_edge(t: Transition) -> Edge
    ensures { result ≡ back_edge_of (place_of t) }
{
    Edge {
        from: t.branch.next,
        to: t.state,
    }
}
