//! A branch: one way on from a state.

/// One way on from a state: the label that is sent, the state that follows, the time rows that hold
/// for sending and for receiving (255 for any time), and whose clocks are reset (1 the sender's on
/// sending, 2 the receiver's on receiving, 3 both).
// Rows and resets stay the bytes that they are: a branch is taken from bytes before they are checked, so an `Option` and an
// enum would need a case for each wrong byte, and the law of the format speaks of the bytes.
#[derive(Clone, Copy, Default, PartialEq, Eq, Debug)]
pub struct Branch {
    pub label: u8,
    pub next: u8,
    pub send: u8,
    pub receive: u8,
    pub resets: u8,
}
