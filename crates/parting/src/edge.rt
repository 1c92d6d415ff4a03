//! A step from one state to another.

/// A step from one state to another.
#[derive(Clone, Copy, Default)]
pub struct Edge {
    pub from: u8,
    pub to: u8,
}
