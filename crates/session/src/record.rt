//! What a session keeps of a role.

/// The number of the role's set in its part, and the tick of its last reset.
#[derive(Clone, Copy)]
pub(crate) struct Record {
    pub(crate) set: usize,
    pub(crate) since: u32,
}
