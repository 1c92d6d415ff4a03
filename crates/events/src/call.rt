//! What is asked of a session, and what it answers.

use crate::event::Event;
use crate::fault::SessionFault;

/// What is asked: to judge an event, or for a role's next tick.
#[derive(Clone, Copy, PartialEq, Eq, Debug)]
pub enum Call {
    Judge { event: Event },
    Forecast { role: u8 },
}

/// What is answered to a call that is not stopped.
#[derive(Clone, Copy, PartialEq, Eq, Debug)]
pub enum Reply {
    /// The event passed: a sending's channel now holds so many messages, a taking's message was under way for so many ticks.
    Passed { answer: u32 },
    /// The role's next tick, or none.
    Next { tick: Option<u32> },
}

/// A call with its answer: none where it is not asked yet.
#[derive(Clone, Copy, PartialEq, Eq, Debug)]
pub struct Entry {
    pub call: Call,
    pub answer: Option<Result<Reply, SessionFault>>,
}
