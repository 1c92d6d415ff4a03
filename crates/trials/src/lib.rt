//! Sessions that are tried on bytes: sheets, books, what is put to a session, and what it says.

#![tactic(auto)]

pub mod calls;
pub mod case;
pub mod cost;
pub mod counted;
pub mod forecasts;
pub mod parts;
pub mod put;
pub mod returned;
pub mod said;
pub mod sheets;
pub mod sittings;
pub mod stopped;
