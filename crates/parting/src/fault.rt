//! Why a sheet is not accepted.

ghost use Rattle.std.specs.Prelude.{◌≡◌};
ghost use Rattle.parting.specs.Stop.{stopped};

use stops::stop::Stop;

/// Why a sheet is not accepted, and where: one case for each of the stops 21 to 25, with the role and the set.
// Each case names its places itself, as callers match on it: a struct of the two would be one more name to open.
#[derive(Clone, Copy, PartialEq, Eq, Debug)]
pub enum PartFault {
    /// 21: the role is not on the same side, with the same partner, in all states of the set where it acts.
    Crossed { role: usize, set: usize },
    /// 22: as sender it has not the same labels, rows and resets in all of them.
    Offer { role: usize, set: usize },
    /// 23: as receiver it finds a label in two of them with different rows or resets.
    Clash { role: usize, set: usize },
    /// 24: from some state of the set, no state in which the role acts can be reached.
    Untold { role: usize, set: usize },
    /// 25: following the set finds a 33rd.
    Sets { role: usize, set: usize },
}

impl From<PartFault> for Stop {
    ghost from_gives = { λ fault stop. stop ≡ stopped fault };

    fn from(fault: PartFault) -> Stop {
        match fault {
            PartFault::Crossed { role, set } => Stop::new(21, role, set),
            PartFault::Offer { role, set } => Stop::new(22, role, set),
            PartFault::Clash { role, set } => Stop::new(23, role, set),
            PartFault::Untold { role, set } => Stop::new(24, role, set),
            PartFault::Sets { role, set } => Stop::new(25, role, set),
        }
    }
}
