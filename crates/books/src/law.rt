//! Laws of every book, each on a check that any firm can run on its own book.

pub mod holds;
pub mod next;
