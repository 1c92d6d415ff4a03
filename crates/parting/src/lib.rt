//! Parting: from a sheet that has been read to one local protocol for each role, or to the fault that
//! says which role cannot have one.

#![tactic(auto)]

pub mod accepted;
mod act;
mod acts;
mod closure;
mod collect;
mod edge;
mod edges;
mod family;
pub mod fault;
mod graph;
pub mod handed;
mod judging;
pub mod local;
mod masks;
pub mod part;
mod parts;
mod point;
pub mod refused;
mod role;
mod search;
mod tables;
mod transition;
mod transitions;
mod view;
