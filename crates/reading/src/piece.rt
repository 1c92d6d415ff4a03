//! The parts of a sheet's own bytes that it hands out.

ghost use Rattle.std.specs.Prelude.{◌≡◌, ◌<◌, length, None, MatchOption};
ghost use Rattle.std.specs.Option.{option_map};
ghost use Rattle.sheet.specs.Decode.{counts as counts_read};
ghost use Rattle.sheet.specs.Refuse.{fault};
ghost use Rattle.reading.specs.Reads.{bytes_of, sheet_of};
ghost use Rattle.reading.specs.Handing.{counts_of, first_pair, piece_count_of, seen, handed, OwnPart};

use crate::header::{counts_in, name_count};
use crate::places::{Paired, Stretch, Tiled};
use crate::read_sheet::ReadSheet;
use sheet::counts::Counts;

/// The kinds of pieces; the pieces of each kind are numbered from 0.
#[derive(Clone, Copy, PartialEq, Eq, Debug)]
pub enum Kind {
    Role,
    Label,
    State,
}

/// A part of a sheet's own bytes, with the offset at which it begins: the name of a role, the name of
/// a label, or the body of a state.
#[derive(Clone, Copy)]
pub enum Piece<'a> {
    Role { name: &'a [u8], offset: usize },
    Label { name: &'a [u8], offset: usize },
    State { body: &'a [u8], offset: usize },
}

impl Kind {
    // The pair of the first piece of this kind.
    pub(crate) fn first(self, counts: Counts) -> usize
        ensures { result ≡ first_pair counts self }
    {
        match self {
            Kind::Role => 0,
            Kind::Label => counts.roles as usize,
            Kind::State => name_count(counts),
        }
    }
}

impl<'a> Piece<'a> {
    fn new(kind: Kind, part: Stretch<'a>) -> Piece<'a>
        ensures { seen result ≡ record { kind = kind; bytes = part.entry.bytes.now; offset = part.entry.offset } }
    {
        let Stretch { offset, bytes } = part;
        match kind {
            Kind::Role => Piece::Role {
                name: bytes,
                offset,
            },
            Kind::Label => Piece::Label {
                name: bytes,
                offset,
            },
            Kind::State => Piece::State {
                body: bytes,
                offset,
            },
        }
    }
}

impl ReadSheet {
    /// The sheet's own bytes, in which reading finds no fault.
    #[tactic(auto, using(crate::proofs::Handing::none_from_test))]
    pub fn bytes(&self) -> &[u8]
        ensures value { result.now ≡ bytes_of self.now }
        ensures sound { fault result.now ≡ None }
    {
        self.bytes.as_slice()
    }

    /// How many roles, labels, states and time rows the sheet has.
    #[tactic(auto, using(crate::proofs::Handing::counts_are))]
    pub fn counts(&self) -> Counts
        ensures value { result ≡ counts_of (sheet_of self.now) }
        ensures read { result ≡ counts_read (bytes_of self.now) }
    {
        counts_in(self.bytes())
    }

    /// How many pieces of that kind the sheet has.
    pub fn count(&self, kind: Kind) -> usize
        ensures { result ≡ piece_count_of (counts_of (sheet_of self.now)) kind }
    {
        let counts = self.counts();
        match kind {
            Kind::Role => counts.roles as usize,
            Kind::Label => counts.labels as usize,
            Kind::State => counts.states as usize,
        }
    }

    /// The piece of that kind and number, or none where the kind has no such number.
    pub fn piece(&self, kind: Kind, number: usize) -> Option<Piece<'_>>
        ensures value { option_map seen result ≡ handed (sheet_of self.now) kind number }
        ensures own { OwnPart (bytes_of self.now) result }
    {
        if number >= self.count(kind) {
            return None;
        }
        let pair = kind.first(self.counts()) + number;
        Some(Piece::new(kind, self.tiled().piece(pair)))
    }

    // The sheet's bytes and counts, as the checks have them.
    #[tactic(auto, using(sheet::proofs::Clean::pairs_there, crate::proofs::Handing::tiled_from_clean))]
    pub(crate) fn tiled(&self) -> Tiled<'_>
        ensures { result.paired.bytes.now ≡ bytes_of self.now }
    {
        let paired = Paired {
            bytes: self.bytes(),
            counts: self.counts(),
        };
        Tiled { paired }
    }
}
