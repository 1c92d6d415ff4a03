//! Why a session stops.

ghost use Rattle.std.specs.Prelude.{◌≡◌};
ghost use Rattle.events.specs.Stop.{stopped};

use stops::stop::Stop;

/// Why a session is not opened, or an event or a forecast is stopped: one case for each of the stops 31, 32 and 41 to 47.
/// The last seven have the event's role and label as they were handed in.
// Each case names its places itself, as callers match on it: a struct of the two would be one more name to open.
#[derive(Clone, Copy, PartialEq, Eq, Debug)]
pub enum SessionFault {
    /// 31: the book has fewer rows than the sheet counts.
    Book { rows: usize },
    /// 32: the depth is not 1 to 8.
    Depth { depth: u8 },
    /// 41: the role or the partner is not the sheet's, or the two are the same.
    Who { role: u8, label: u8 },
    /// 42: the label is not the sheet's, or the direction is above 1.
    What { role: u8, label: u8 },
    /// 43: the tick is below the latest.
    Back { role: u8, label: u8 },
    /// 44: the role's set has no such action.
    Turn { role: u8, label: u8 },
    /// 45: nothing is there to take, or the oldest message has another label.
    Line { role: u8, label: u8 },
    /// 46: the channel holds as many messages as the depth allows.
    Full { role: u8, label: u8 },
    /// 47: the role's clock is not in the row.
    Time { role: u8, label: u8 },
}

impl From<SessionFault> for Stop {
    ghost from_gives = { λ fault stop. stop ≡ stopped fault };

    fn from(fault: SessionFault) -> Stop {
        match fault {
            SessionFault::Book { rows } => Stop::new(31, rows, 0),
            SessionFault::Depth { depth } => Stop::new(32, depth as usize, 0),
            SessionFault::Who { role, label } => Stop::new(41, role as usize, label as usize),
            SessionFault::What { role, label } => Stop::new(42, role as usize, label as usize),
            SessionFault::Back { role, label } => Stop::new(43, role as usize, label as usize),
            SessionFault::Turn { role, label } => Stop::new(44, role as usize, label as usize),
            SessionFault::Line { role, label } => Stop::new(45, role as usize, label as usize),
            SessionFault::Full { role, label } => Stop::new(46, role as usize, label as usize),
            SessionFault::Time { role, label } => Stop::new(47, role as usize, label as usize),
        }
    }
}
