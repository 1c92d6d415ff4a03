//! Rows of time books: their bytes, and the set of clock values of one row.
#![tactic(auto)]

pub mod kind;
pub mod number;
pub mod sizes;
pub mod slot;
pub mod window;
