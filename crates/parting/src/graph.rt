//! The sheet decoded once: its transitions, states rising and then labels rising.

ghost use Rattle.std.specs.Prelude.{◌≡◌, ℕ, ◌+◌, ◌≤◌, ◌++◌, map, length, slice_index_or};
ghost use Rattle.sheet.specs.Decode.{state_of};
ghost use Rattle.sheet.specs.Encode.{body as body_read};
ghost use Rattle.sheet.specs.Model.{ended};
ghost use Rattle.reading.specs.Reads.{sheet_of};
ghost use Rattle.parting.specs.Graph.{body_in};
ghost use Rattle.parting.specs.View.{place_of, places_of, places};

use crate::collect::MOST;
use crate::transition::Transition;
use crate::transitions::Transitions;
use arrayvec::ArrayVec;
use reading::piece::{Kind, Piece};
use reading::read_sheet::ReadSheet;
use reading::states::{Branches, split_state};

// The bytes of a piece that is a state; nothing of any other.
fn body_of(piece: Option<Piece<'_>>) -> &[u8]
    ensures { result.now ≡ body_in piece.entry }
{
    match piece {
        Some(Piece::State { body, .. }) => body,
        _ => &[],
    }
}

// The bytes of a state.
#[tactic(auto, using(crate::proofs::Decoding::body_handed))]
fn state_body(sheet: &ReadSheet, state: u8) -> &[u8]
    ensures { result.now ≡ body_read (slice_index_or (sheet_of sheet.now).states state ended) }
{
    body_of(sheet.piece(Kind::State, state as usize))
}

// Adds a state's transitions.
fn decode_state(body: &[u8], state: u8, transitions: &mut ArrayVec<Transition, MOST>)
    requires { length transitions.old.items + length (places_of state (state_of body.now)) ≤ 512 }
    ensures { map place_of transitions.new.items ≡ map place_of transitions.old.items ++ places_of state (state_of body.now) }
{
    let Some(exchange) = split_state(body) else {
        return;
    };
    for branch in Branches::new(exchange.branches) {
        transitions.push(Transition {
            state,
            sender: exchange.sender,
            receiver: exchange.receiver,
            branch,
        });
    }
}

// All transitions of a sheet.
pub(crate) fn decode(sheet: &ReadSheet) -> Transitions
    ensures { result ≡ places (sheet_of sheet.now) }
{
    let mut transitions = ArrayVec::new();
    // A state is its number, by which its bytes are handed out.
    for state in 0..sheet.counts().states {
        decode_state(state_body(sheet, state), state, &mut transitions);
    }
    Transitions { list: transitions }
}
