//! What a sheet is: its model, its bytes, the order of its refusals, and the law that ties them.
//! No bytes are read here; the crate `reading` does that.

#![tactic(auto)]

pub mod branch;
pub mod counts;
pub mod fault;
pub mod law;
pub mod span;
