//! A program that watches the events in its input, with one kind of book.

#![tactic(auto)]

pub mod program;
