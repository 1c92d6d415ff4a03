//! The events of an input, one by one.

ghost use Rattle.std.specs.Prelude.{◌≡◌, ◌<◌, ◌++◌, length, MatchOption};
ghost use Rattle.std.specs.Iterator.{YieldsFirst, item_count};
ghost use Rattle.input.specs.Bytes.{event_bytes, Ranged};
ghost use Rattle.input.specs.Events.{events_in};
ghost use Rattle.input.specs.EventsLeft.{events_left};

use events::event::Event;

/// The event that the bytes begin with, and the bytes after it; none where they are fewer than 8.
pub fn decode(bytes: &[u8]) -> Option<(Event, &[u8])>
    ensures { MatchOption result (length bytes.now < 8) (λ p. Ranged p.0 × (event_bytes p.0 ++ p.1.now ≡ bytes.now)) }
{
    match bytes {
        [role, direction, partner, label, a, b, c, d, rest @ ..] => {
            let event = Event {
                role: *role,
                direction: *direction,
                partner: *partner,
                label: *label,
                tick: u32::from_be_bytes([*a, *b, *c, *d]),
            };
            Some((event, rest))
        }
        _ => None,
    }
}

/// The events in bytes, one by one.
#[derive(Drop)]
pub struct Events<'a> {
    left: &'a [u8],
}

impl<'a> Events<'a> {
    /// Goes over the events in these bytes.
    pub fn new(bytes: &'a [u8]) -> Events<'a>
        ensures { events_left result ≡ events_in bytes.now }
    {
        Events { left: bytes }
    }
}

impl<'a> Iterator for Events<'a> {
    type Item = Event;

    ghost next_gives = { YieldsFirst events_left };

    ghost remaining = { item_count events_left };

    fn next(&mut self) -> Option<Event> {
        let (event, rest) = decode(self.left)?;
        self.left = rest;
        Some(event)
    }
}
