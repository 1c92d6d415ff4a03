//! What is printed for an input: the sheet that it encodes and each module's part of it, or a stop.

#![tactic(auto)]

pub mod fault;
pub mod list;
