//! All transitions of a sheet.

ghost use Rattle.std.specs.Prelude.{◌≡◌, ◌≤◌, length, map};
ghost use Rattle.parting.specs.Bounds.{SmallPlaces};
ghost use Rattle.parting.specs.View.{place_of};

use crate::collect::MOST;
use crate::transition::Transition;
use arrayvec::ArrayVec;
use std::marker::Model;

/// All transitions of a sheet, seen as its places. A mask can hold each of their states, and each of their labels.
#[derive(Drop)]
pub(crate) struct Transitions {
    pub(crate) list: ArrayVec<Transition, MOST>,
}

impl Model for Transitions {
    ghost use Rattle.std.specs.Prelude.{List, map};
    ghost use Rattle.protocol.specs.Places.{Place};
    ghost use Rattle.parting.specs.Bounds.{SmallPlaces};
    ghost use Rattle.parting.specs.View.{place_of};

    ghost Value = { List Place };

    ghost view = { λ t. map place_of t.list.items };

    ghost invariant = { λ t. SmallPlaces (map place_of t.list.items) };
}

impl Transitions {
    // A caller sees the places alone, so `small` says what the invariant says of them.
    pub(crate) fn as_slice(&self) -> &[Transition]
        ensures places { map place_of result.now ≡ self.now }
        ensures small { SmallPlaces self.now }
        ensures bound { length result.now ≤ 512 }
    {
        self.list.as_slice()
    }
}
