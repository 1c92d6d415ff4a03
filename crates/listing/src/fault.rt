//! Why an input is not listed with all parts of a sheet.

ghost use Rattle.std.specs.Prelude.{◌≡◌};
ghost use Rattle.listing.specs.declared.fault.ListFault.TheVariants.{Reading, Parting};
ghost use Rattle.listing.specs.Listed.{stop_for};

use parting::fault::PartFault;
use parting::refused::Refused;
use sheet::fault::ReadFault;
use stops::stop::Stop;

/// Why an input is not listed with all parts of a sheet.
// An impl for each fault that `?` turns: they differ in the case, and no derive of the library writes them.
#[derive(Clone, Copy, PartialEq, Eq, Debug)]
pub enum ListFault {
    /// 61: the input has more bytes than a sheet's offsets can name.
    Cut,
    /// 1 to 7: reading refuses it.
    Reading(ReadFault),
    /// 21 to 25: parting does not accept it.
    Parting(PartFault),
}

impl From<ReadFault> for ListFault {
    ghost from_gives = { λ fault r. r ≡ Reading fault };

    fn from(fault: ReadFault) -> ListFault {
        ListFault::Reading(fault)
    }
}

impl From<PartFault> for ListFault {
    ghost from_gives = { λ fault r. r ≡ Parting fault };

    fn from(fault: PartFault) -> ListFault {
        ListFault::Parting(fault)
    }
}

impl From<Refused> for ListFault {
    ghost from_gives = { λ refused r. r ≡ Parting refused.fault };

    fn from(refused: Refused) -> ListFault {
        ListFault::from(refused.fault)
    }
}

impl From<ListFault> for Stop {
    ghost from_gives = { λ fault stop. stop ≡ stop_for fault };

    fn from(fault: ListFault) -> Stop {
        match fault {
            ListFault::Cut => Stop::new(61, 0, 0),
            ListFault::Reading(fault) => Stop::from(fault),
            ListFault::Parting(fault) => Stop::from(fault),
        }
    }
}
