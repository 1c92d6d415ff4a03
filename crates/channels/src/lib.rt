//! The channels between roles: what was sent from one to another and not yet taken.
#![tactic(auto)]

mod calls;
mod channel;
pub mod channels;
mod number;
mod place;
