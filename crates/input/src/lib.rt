//! What the programs read: a sheet, a book, an opening tick and events, in bytes.

#![tactic(auto)]

pub mod event;
pub mod script;
pub mod split;
