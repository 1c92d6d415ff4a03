//! What a role does in a state.

ghost use Rattle.std.specs.Prelude.{◌≡◌};
ghost use Rattle.parting.specs.Judge.{is_same_side, is_same_timing};

/// Which side of an exchange a role is on.
#[derive(Clone, Copy, PartialEq, Eq, Default)]
pub enum Way {
    #[default]
    Sends,
    Receives,
}

/// What a role does in a state: with whom, under which label, held to which time row, whether its own
/// clock is reset, and the state that follows. All are numbers as the sheet has them: a row is the place of a
/// row in a book, or 255 for any time, and no kind for which an enum would have a name.
#[derive(Clone, Copy, Default)]
pub struct Act {
    pub state: u8,
    pub way: Way,
    pub partner: u8,
    pub label: u8,
    pub row: u8,
    pub reset: bool,
    pub next: u8,
}

impl Act {
    // Whether both acts are on the same side, with the same partner.
    // Two of seven fields: a derive would compare them all.
    #[tactic(auto, using(crate::proofs::Ways::way_eq), unfolding(crate::specs::Judge::is_same_side))]
    pub(crate) fn is_same_side(self, other: Act) -> bool
        ensures { result ≡ is_same_side self other }
    {
        self.way == other.way && self.partner == other.partner
    }

    // Whether both acts have the same time row and the same reset.
    // Two of seven fields, as above.
    #[tactic(auto, unfolding(crate::specs::Judge::is_same_timing))]
    pub(crate) fn is_same_timing(self, other: Act) -> bool
        ensures { result ≡ is_same_timing self other }
    {
        self.row == other.row && self.reset == other.reset
    }
}
