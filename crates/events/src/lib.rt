//! The words of a session: what is put to it, what is under way in it, and what it answers.
#![tactic(auto)]

pub mod call;
pub mod closing;
pub mod event;
pub mod fault;
pub mod message;
