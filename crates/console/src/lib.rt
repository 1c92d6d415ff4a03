//! What the programs print for an input: the transcript of a session, or the stop that kept it from being opened.

#![tactic(auto)]

pub mod fault;
mod log;
pub mod read_book;
pub mod run;
mod transcript;
mod watched;
