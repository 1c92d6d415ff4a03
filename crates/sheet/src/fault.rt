//! Why bytes are refused as a sheet.

ghost use Rattle.std.specs.Prelude.{◌≡◌};
ghost use Rattle.sheet.specs.Stop.{stopped};

use stops::stop::Stop;

/// Why bytes are refused as a sheet, and where: one case for each of the stops 1 to 7.
#[derive(Clone, Copy, PartialEq, Eq, Debug)]
pub enum ReadFault {
    /// 1: too few bytes for the header, or for the pairs that it announces.
    Short { given: usize },
    /// 2: the edition is not 1.
    Edition,
    /// 3: a count is out of range.
    Count { byte: usize },
    /// 4: a pair's offset or length is wrong, or it ends past the sheet; at the number of pairs, bytes are left over.
    Pair { pair: usize },
    /// 5: a name's byte is not printable.
    Byte { offset: usize },
    /// 6: a name is the same as an earlier one of its kind.
    Twice { pair: usize },
    /// 7: a byte of a state breaks its rule.
    State { offset: usize },
}

impl From<ReadFault> for Stop {
    ghost from_gives = { λ fault stop. stop ≡ stopped fault };

    fn from(fault: ReadFault) -> Stop {
        match fault {
            ReadFault::Short { given } => Stop::new(1, given, 0),
            ReadFault::Edition => Stop::new(2, 0, 0),
            ReadFault::Count { byte } => Stop::new(3, byte, 0),
            ReadFault::Pair { pair } => Stop::new(4, pair, 0),
            ReadFault::Byte { offset } => Stop::new(5, offset, 0),
            ReadFault::Twice { pair } => Stop::new(6, pair, 0),
            ReadFault::State { offset } => Stop::new(7, offset, 0),
        }
    }
}
