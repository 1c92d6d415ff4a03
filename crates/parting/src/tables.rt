//! The table of a role's part, written once its sets are known.

ghost use Rattle.std.specs.Prelude.{◌≡◌, ℕ, ◌<◌, ◌≤◌, [], length, None, slice_index_or};
ghost use Rattle.parting.specs.Seen.{seen};
ghost use Rattle.parting.specs.Family.{position as position_in};
ghost use Rattle.parting.specs.Tables.{kind_by, local_kind, move_under, Entry, Table};

use crate::act::{Act, Way};
use crate::local::{LocalKind, LocalSet, Move, Part};
use crate::view::{SetView, View};
use std::array;

impl From<Act> for LocalKind {
    ghost from_gives = { λ act kind. kind ≡ kind_by act.way act.partner };

    fn from(act: Act) -> LocalKind {
        let partner = act.partner;
        match act.way {
            Way::Sends => LocalKind::Sending { partner },
            Way::Receives => LocalKind::Receiving { partner },
        }
    }
}

fn kind_of(acts: &[Act]) -> LocalKind
    ensures { result ≡ local_kind acts.now }
{
    match acts {
        [act, ..] => LocalKind::from(*act),
        [] => LocalKind::Finished,
    }
}

// Where a set stands among those found; their number, where it does not.
// No `Option`: what follows a set is always found, and the definition has the number of sets for the other case.
fn position(found: &[u64], set: u64) -> usize
    ensures { result ≡ position_in set found.now }
{
    found
        .iter()
        .position(|other| *other == set)
        .unwrap_or(found.len())
}

// The sets found go beside the view: a struct of both would be made in `table` alone and lend each of them.
#[tactic(auto, unfolding(crate::specs::Tables::move_under))]
fn move_of(here: &SetView<'_>, found: &[u64], label: u8) -> Option<Move>
    ensures { result ≡ move_under here.now.silent.now found.now here.now.acts label }
{
    let act = here.acts.first_with(label)?;
    Some(Move {
        row: act.row,
        reset: act.reset,
        next: position(found, here.successor(label)),
    })
}

fn moves_of(here: &SetView<'_>, found: &[u64]) -> [Option<Move>; 32]
    ensures { (label : ℕ) → label < 32 → slice_index_or result label None ≡ move_under here.now.silent.now found.now here.now.acts label }
{
    array::from_fn(
        |label|
            requires { label < 32 }
        { move_of(here, found, label as u8) },
    )
}

fn local_set(view: &View, found: &[u64], mask: u64) -> LocalSet
    ensures { Entry (seen view.now) found.now mask result }
{
    let here = view.of_set(mask);
    LocalSet {
        states: mask,
        kind: kind_of(here.acts.as_slice()),
        moves: moves_of(&here, found),
    }
}

// The table of the sets found.
pub(crate) fn table(view: &View, found: &[u64]) -> Part
    requires { length found.now ≤ 32 }
    ensures { Table (seen view.now) found.now result }
{
    let mut part = Part::default();
    part.count = found.len();
    // By number: the table has 32 sets and fewer are found, so `from_fn` would ask of each number whether it is one.
    for (i, states) in found.iter().enumerate() {
        part.sets[i] = local_set(view, found, *states);
    }
    part
}
