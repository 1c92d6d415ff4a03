//! An event.

/// An event as it is handed in: the role that acts, a direction (0 sends, 1 takes), the role that it
/// sends to or takes from, a label and a tick. A direction above 1 is none, and a role or a label may be
/// one that the sheet does not have.
// The direction is the byte as it is handed in: a wrong one is stopped, so an enum would need a case for each.
#[derive(Clone, Copy, PartialEq, Eq, Debug)]
pub struct Event {
    pub role: u8,
    pub direction: u8,
    pub partner: u8,
    pub label: u8,
    pub tick: u32,
}
