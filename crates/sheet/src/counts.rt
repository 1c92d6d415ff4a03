//! The counts in a sheet's header.

/// How many roles, labels, states and time rows a sheet has.
#[derive(Clone, Copy, PartialEq, Eq, Debug)]
pub struct Counts {
    pub roles: u8,
    pub labels: u8,
    pub states: u8,
    pub rows: u8,
}
