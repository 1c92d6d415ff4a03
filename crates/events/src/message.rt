//! A message under way.

/// A message under way, with the tick at which it was sent.
#[derive(Clone, Copy, PartialEq, Eq, Debug)]
pub struct Message {
    pub label: u8,
    pub tick: u32,
}
