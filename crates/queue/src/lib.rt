//! A first-in, first-out queue over slots that its user keeps.

#![tactic(auto)]

mod calls;
mod places;
pub mod queue;
