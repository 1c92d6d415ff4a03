//! States and branches: the one place where their bytes are taken apart.

ghost use Rattle.std.specs.Prelude.{◌≡◌, ◌+◌, ◌^◌, ◌<◌, ◌≤◌, [], ◌∷◌, length, MatchOption};
ghost use Rattle.std.specs.Iterator.{YieldsFirst, item_count};
ghost use Rattle.sheet.specs.Model.{ended, exchange};
ghost use Rattle.sheet.specs.Decode.{branches as branches_in, state_of, state_spans};
ghost use Rattle.sheet.specs.Refuse.{row, branch_fault, branches_fault, state_fault, states_fault};
ghost use Rattle.reading.specs.Branching.{branches_left};
ghost use Rattle.reading.specs.Faults.{fault_of};

use crate::header::{name_count, piece_count};
use crate::places::{Stretch, Tiled};
use sheet::branch::Branch;
use sheet::counts::Counts;
use sheet::fault::ReadFault;

/// A state in which one role sends another a message; its branches are still bytes.
#[derive(Clone, Copy)]
pub struct Exchange<'a> {
    pub sender: u8,
    pub receiver: u8,
    pub branches: &'a [u8],
}

/// The exchange that a state's body says, or none where the state is an end.
#[tactic(auto, using(crate::proofs::Bodies::state_more))]
pub fn split_state(body: &[u8]) -> Option<Exchange<'_>>
    ensures { MatchOption result (state_of body.now ≡ ended) (λ x. (state_of body.now ≡ exchange x.sender x.receiver (branches_in x.branches.now)) × (length x.branches.now + 2 ≡ length body.now)) }
{
    match body {
        [sender, receiver, branches @ ..] => Some(Exchange {
            sender: *sender,
            receiver: *receiver,
            branches,
        }),
        _ => None,
    }
}

/// The first branch in a state's branch bytes and the bytes after it, or none where no branch is left.
pub fn split_branch(bytes: &[u8]) -> Option<(Branch, &[u8])>
    ensures { MatchOption result (branches_in bytes.now ≡ []) (λ p. (branches_in bytes.now ≡ p.0 ∷ branches_in p.1.now) × (length p.1.now + 5 ≡ length bytes.now)) }
{
    match bytes {
        [label, next, send, receive, resets, rest @ ..] => {
            let branch = Branch {
                label: *label,
                next: *next,
                send: *send,
                receive: *receive,
                resets: *resets,
            };
            Some((branch, rest))
        }
        _ => None,
    }
}

/// The branches in a state's branch bytes, one by one.
#[derive(Drop)]
// As `Events` of `input` and `Calls` of `replay`: one type for all would need a trait with a law of what is left, an
// impl for each, and a crate below all three.
pub struct Branches<'a> {
    left: &'a [u8],
}

impl<'a> Branches<'a> {
    /// Goes over the branches in these bytes.
    pub fn new(bytes: &'a [u8]) -> Branches<'a>
        ensures { branches_left result ≡ branches_in bytes.now }
    {
        Branches { left: bytes }
    }
}

impl<'a> Iterator for Branches<'a> {
    type Item = Branch;

    ghost next_gives = { YieldsFirst branches_left };

    ghost remaining = { item_count branches_left };

    fn next(&mut self) -> Option<Branch> {
        let (branch, rest) = split_branch(self.left)?;
        self.left = rest;
        Some(branch)
    }
}

fn is_row(counts: Counts, number: u8) -> bool
    ensures { result ≡ row counts number }
{
    number < counts.rows || number == 255
}

// Stop 7 in the branch at this offset, whose label is to be at least `low`.
#[tactic(auto, unfolding(sheet::specs::Refuse::branch_fault))]
fn check_branch(counts: Counts, offset: usize, low: usize, branch: Branch) -> Result<(), ReadFault>
    requires { offset + 5 < 2 ^ 64 }
    ensures { fault_of result ≡ branch_fault counts offset low branch }
{
    if (branch.label as usize) < low || branch.label >= counts.labels {
        return Err(ReadFault::State { offset });
    }
    if branch.next >= counts.states {
        return Err(ReadFault::State { offset: offset + 1 });
    }
    if !is_row(counts, branch.send) {
        return Err(ReadFault::State { offset: offset + 2 });
    }
    if !is_row(counts, branch.receive) {
        return Err(ReadFault::State { offset: offset + 3 });
    }
    if branch.resets > 3 {
        return Err(ReadFault::State { offset: offset + 4 });
    }
    Ok(())
}

#[tactic(auto, using(crate::proofs::Bodies::branches_length))]
fn check_branches(counts: Counts, branches: Stretch<'_>) -> Result<(), ReadFault>
    ensures { fault_of result ≡ branches_fault counts branches.entry.offset 0 (branches_in branches.entry.bytes.now) }
{
    let mut at = branches.offset;
    let mut low = 0;
    // The offset and the lowest label that is due go from branch to branch, and `try_fold` would carry both through a closure.
    for branch in Branches::new(branches.bytes) {
        check_branch(counts, at, low, branch)?;
        at += 5;
        low = branch.label as usize + 1;
    }
    Ok(())
}

// Stop 7 in one state.
fn check_state(counts: Counts, state: Stretch<'_>) -> Result<(), ReadFault>
    ensures { fault_of result ≡ state_fault counts state.entry.offset (state_of state.entry.bytes.now) }
{
    let Some(exchange) = split_state(state.bytes) else {
        return Ok(());
    };
    let offset = state.offset;
    if exchange.sender >= counts.roles {
        return Err(ReadFault::State { offset });
    }
    if exchange.receiver >= counts.roles || exchange.receiver == exchange.sender {
        return Err(ReadFault::State { offset: offset + 1 });
    }
    let branches = Stretch {
        offset: offset + 2,
        bytes: exchange.branches,
    };
    check_branches(counts, branches)
}

impl Tiled<'_> {
    // Stop 7, state by state.
    pub(crate) fn check_states(self) -> Result<(), ReadFault>
        ensures { fault_of result ≡ states_fault self.entry.paired.counts self.entry.paired.bytes.now (state_spans self.entry.paired.bytes.now) }
    {
        let counts = self.paired.counts;
        // A `for` with `?`, where `try_for_each` would put the same call into a closure with a `requires` of its own.
        for pair in name_count(counts)..piece_count(counts) {
            check_state(counts, self.piece(pair))?;
        }
        Ok(())
    }
}
