//! Each module's part of a sheet, in lines of text that a supplier can read.

#![tactic(auto)]

mod moves;
pub mod parted;
mod sets;
