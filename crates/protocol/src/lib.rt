//! What a sheet means as a protocol: places, actions, paths, the sets of states that a role cannot
//! tell apart, and when a sheet can be parted. Definitions and their laws; no code runs here.

#![tactic(auto)]

pub mod law;
