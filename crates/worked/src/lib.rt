//! The main worked cases of the whole product, as one list under one proof. No code runs here.

#![tactic(auto)]

pub mod cases;
