//! A branch together with the state in which it stands.

use sheet::branch::Branch;

/// A branch together with the state in which it stands, and that state's sender and receiver.
#[derive(Clone, Copy, Default)]
pub struct Transition {
    pub state: u8,
    pub sender: u8,
    pub receiver: u8,
    pub branch: Branch,
}
