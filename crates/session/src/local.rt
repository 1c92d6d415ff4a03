//! A role's set in its part, and the step that an event is there.

ghost use Rattle.std.specs.Prelude.{◌≡◌};
ghost use Rattle.std.specs.Option.{option_map};
ghost use Rattle.session.specs.Kept.{record_of};
ghost use Rattle.session.specs.Prepared.{set_in_part, move_in_set, step_in};

use crate::session::Session;
use crate::step::{Direction, Step};
use events::event::Event;
use parting::local::{LocalKind, LocalSet, Move};

impl<B> Session<B> {
    /// The set that the role's record numbers; none for a role that the sheet does not have.
    pub(crate) fn set_of(&self, role: u8) -> Option<&LocalSet>
        ensures { option_map (λ x. x.now) result ≡ set_in_part self.now.accepted role (record_of self.now.inner role).set }
    {
        let part = self.accepted.part(role as usize)?;
        part.sets.get(self.inner.records[role as usize].set)
    }

    /// What the role does in its set, the event's direction and its partner decide together whether it is a step.
    pub(crate) fn step_of(&self, event: Event) -> Option<Step>
        ensures { result ≡ step_in (set_in_part self.now.accepted event.role (record_of self.now.inner event.role).set) event }
    {
        let set = self.set_of(event.role)?;
        // One match on all three, as it is agreed: an event's direction may be none.
        let direction = match (set.kind, event.direction, event.partner) {
            (LocalKind::Sending { partner }, 0, to) if to == partner => Direction::Sends,
            (LocalKind::Receiving { partner }, 1, from) if from == partner => Direction::Takes,
            _ => return None,
        };
        let to = move_in(set, event.label)?;
        Some(Step { direction, to })
    }
}

/// How the role goes on from a set under a label.
pub(crate) fn move_in(set: &LocalSet, label: u8) -> Option<Move>
    ensures { result ≡ move_in_set set.now label }
{
    set.moves.get(label as usize).copied().flatten()
}
