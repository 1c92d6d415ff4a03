//! The text that the programs print: a text that grows, and the line of a stop.

#![tactic(auto)]

pub mod growing;
pub mod stop_line;
