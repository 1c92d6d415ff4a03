//! What is put to a session.

ghost use Rattle.std.specs.Prelude.{◌≡◌};
ghost use Rattle.trials.specs.Puts.{call_for};

use events::call::Call;
use events::event::Event;
use std::fmt;

/// A call as the tables of cases write it: an event, as role, direction, partner, label and tick; or a role whose forecast is asked.
// The tables are constants, in which no function can make a call of these numbers.
#[derive(Clone, Copy)]
pub enum Put {
    Event(u8, u8, u8, u8, u32),
    Forecast(u8),
}

impl From<Put> for Call {
    ghost from_gives = { λ put call. call ≡ call_for put };

    fn from(put: Put) -> Call {
        match put {
            Put::Event(role, direction, partner, label, tick) => Call::Judge {
                event: Event {
                    role,
                    direction,
                    partner,
                    label,
                    tick,
                },
            },
            Put::Forecast(role) => Call::Forecast { role },
        }
    }
}

impl fmt::Display for Put {
    fn fmt<W: fmt::Write>(&self, f: &mut fmt::Formatter<W>) -> fmt::Result {
        match self {
            Put::Event(role, direction, partner, label, tick) => {
                write!(f, "{role} {direction} {partner} {label} at {tick}")
            }
            Put::Forecast(role) => write!(f, "forecast of {role}"),
        }
    }
}
