//! Time books: for each row a set of clock values, and two questions about it.
#![tactic(auto)]

pub mod cases;
pub mod fault;
pub mod law;
pub mod margin;
pub mod row_book;
pub mod slots;
pub mod time_book;
pub mod windows;
