//! A session: it watches the events of a sheet's roles, passes or stops each, and says when a role can go on.

#![tactic(auto)]

pub mod ask;
pub mod close;
pub mod closed;
mod earliest;
pub mod event;
pub mod forecast;
mod inner;
mod judge;
mod local;
pub mod open;
mod pass;
mod prepare;
mod record;
mod row;
pub mod session;
mod step;
pub mod unopened;
pub mod watch;
