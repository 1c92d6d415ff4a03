//! Why an input's events are not watched.

ghost use Rattle.std.specs.Prelude.{◌≡◌};
ghost use Rattle.console.specs.declared.fault.ConsoleFault.TheVariants.{Reading, Book, Parting, Session};
ghost use Rattle.console.specs.Faults.{stop_for};

use books::fault::BookFault;
use events::fault::SessionFault;
use parting::fault::PartFault;
use parting::refused::Refused;
use session::unopened::Unopened;
use sheet::fault::ReadFault;
use stops::stop::Stop;

/// Why an input's events are not watched: the fault of the layer that refuses, carried whole.
// An impl for each fault that `?` turns: they differ in the case, and no derive of the library writes them.
#[derive(Clone, Copy)]
pub enum ConsoleFault {
    /// 61: the input is broken.
    Cut,
    /// 1 to 7: reading refuses the sheet.
    Reading(ReadFault),
    /// 11 and 12: the bytes of the book are none.
    Book(BookFault),
    /// 21 to 25: parting does not accept the sheet.
    Parting(PartFault),
    /// 31 and 32: the session is not opened.
    Session(SessionFault),
}

impl From<ReadFault> for ConsoleFault {
    ghost from_gives = { λ fault r. r ≡ Reading fault };

    fn from(fault: ReadFault) -> ConsoleFault {
        ConsoleFault::Reading(fault)
    }
}

impl From<BookFault> for ConsoleFault {
    ghost from_gives = { λ fault r. r ≡ Book fault };

    fn from(fault: BookFault) -> ConsoleFault {
        ConsoleFault::Book(fault)
    }
}

impl From<PartFault> for ConsoleFault {
    ghost from_gives = { λ fault r. r ≡ Parting fault };

    fn from(fault: PartFault) -> ConsoleFault {
        ConsoleFault::Parting(fault)
    }
}

impl From<SessionFault> for ConsoleFault {
    ghost from_gives = { λ fault r. r ≡ Session fault };

    fn from(fault: SessionFault) -> ConsoleFault {
        ConsoleFault::Session(fault)
    }
}

impl From<Refused> for ConsoleFault {
    ghost from_gives = { λ refused r. r ≡ Parting refused.fault };

    fn from(refused: Refused) -> ConsoleFault {
        ConsoleFault::from(refused.fault)
    }
}

impl<B: Drop> From<Unopened<B>> for ConsoleFault {
    ghost from_gives = { λ unopened r. r ≡ Session unopened.fault };

    fn from(unopened: Unopened<B>) -> ConsoleFault {
        ConsoleFault::from(unopened.fault)
    }
}

impl From<ConsoleFault> for Stop {
    ghost from_gives = { λ fault stop. stop ≡ stop_for fault };

    fn from(fault: ConsoleFault) -> Stop {
        match fault {
            ConsoleFault::Cut => Stop::new(61, 0, 0),
            ConsoleFault::Reading(fault) => Stop::from(fault),
            ConsoleFault::Book(fault) => Stop::from(fault),
            ConsoleFault::Parting(fault) => Stop::from(fault),
            ConsoleFault::Session(fault) => Stop::from(fault),
        }
    }
}
