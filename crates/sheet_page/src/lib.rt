//! What a sheet says, in lines of text that a supplier can read.

#![tactic(auto)]

mod branches;
mod names;
pub mod page;
pub mod parts;
mod states;
pub mod times;
