//! Reading a sheet: from bytes to a sheet that is known to be valid, or to the fault that refuses it.

#![tactic(auto)]

pub mod find;
mod header;
pub mod names;
mod pairs;
pub mod piece;
mod places;
pub mod read;
pub mod read_sheet;
pub mod states;
