//! What a run of a sheet is, what a monitor is, and that the two agree. Definitions and their laws; no
//! code runs here.
#![tactic(auto)]

pub mod event_laws;
pub mod examples;
pub mod monitor;
