//! The calls that an input's events are.

ghost use Rattle.std.specs.Prelude.{◌≡◌, map, IfOk};
ghost use Rattle.input.specs.Events.{events_in};
ghost use Rattle.console.specs.Log.{unanswered};

use events::call::{Call, Entry};
use input::event::Events;
use std::alloc::{AllocError, Global};

/// A call for each event, not answered yet.
pub(crate) fn log_of(heap: Global, events: &[u8]) -> Result<Vec<Entry>, AllocError>
    ensures { IfOk result (λ log. log.items ≡ map unanswered (events_in events.now)) }
{
    Events::new(events)
        .map(|event| Entry {
            call: Call::Judge { event },
            answer: None,
        })
        .collect(heap)
}
