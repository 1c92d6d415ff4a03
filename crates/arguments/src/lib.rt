//! What the programs do alike: they take the same arguments, and those that read standard input answer it.

#![tactic(auto)]

pub mod input;
pub mod task;
