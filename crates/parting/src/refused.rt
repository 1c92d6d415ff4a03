//! A sheet that is not accepted.

ghost use Rattle.std.specs.Prelude.{◌≡◌};
ghost use Rattle.parting.specs.Stop.{stopped};

use crate::fault::PartFault;
use reading::read_sheet::ReadSheet;
use stops::stop::Stop;

/// The read sheet that a stopped parting gives back, and why it was stopped.
#[derive(Drop)]
pub struct Refused {
    pub sheet: ReadSheet,
    pub fault: PartFault,
}

impl From<Refused> for PartFault {
    ghost from_gives = { λ refused fault. fault ≡ refused.fault };

    fn from(refused: Refused) -> PartFault {
        refused.fault
    }
}

impl From<Refused> for Stop {
    ghost from_gives = { λ refused stop. stop ≡ stopped refused.fault };

    fn from(refused: Refused) -> Stop {
        Stop::from(refused.fault)
    }
}
