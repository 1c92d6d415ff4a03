//! Judging a set: which point of soundness fails first.

ghost use Rattle.std.specs.Prelude.{◌≡◌};
ghost use Rattle.parting.specs.Judge.{is_one_sided, unclashed as unclashed_in, is_same_labels, is_same_offer, is_unclashed_list, told as told_in, is_told_if_acting, first_failing_point};

use crate::act::Way;
use crate::acts::Acts;
use crate::masks::has;
use crate::point::Point;
use crate::view::SetView;

impl SetView<'_> {
    // The point that fails first; none where the set is sound.
    #[tactic(auto, unfolding(crate::specs::Judge::first_failing_point))]
    pub(crate) fn first_failing(&self) -> Option<Point>
        ensures { result ≡ first_failing_point self.now.leading self.now.states self.now.acts }
    {
        if !self.acts.is_one_sided() {
            return Some(Point::Crossed);
        }
        if !self.acts.is_same_offer() {
            return Some(Point::Offer);
        }
        if !self.acts.is_clash_free() {
            return Some(Point::Clash);
        }
        if !self.is_told_if_acting() {
            return Some(Point::Untold);
        }
        None
    }

    // The fourth point is asked only where the role acts.
    fn is_told_if_acting(&self) -> bool
        ensures { result ≡ is_told_if_acting self.now.leading self.now.states self.now.acts }
    {
        self.acts.as_slice().is_empty() || self.is_told()
    }

    // Fourth point: every state of the set is one from which the role is led to act.
    fn is_told(&self) -> bool
        ensures { result ≡ told_in self.now.leading self.now.states }
    {
        (0..64).all(|state| !has(self.states, state) || has(self.leading, state))
    }
}

impl Acts {
    // First point: the same side and the same partner everywhere.
    fn is_one_sided(&self) -> bool
        ensures { result ≡ is_one_sided self.now }
    {
        let acts = self.as_slice();
        match acts {
            [first, ..] => acts.iter().all(|act| first.is_same_side(*act)),
            [] => true,
        }
    }

    // Second point: as sender, the same labels everywhere, with the same rows and resets.
    fn is_same_offer(&self) -> bool
        ensures { result ≡ is_same_offer self.now }
    {
        match self.as_slice() {
            [first, ..] => first.way != Way::Sends
                || (self.is_same_labels(first.state) && self.is_unclashed()),
            [] => true,
        }
    }

    // Third point: as receiver, a label that is found twice has the same row and reset.
    fn is_clash_free(&self) -> bool
        ensures { result ≡ is_unclashed_list self.now }
    {
        match self.as_slice() {
            [first, ..] => first.way == Way::Sends || self.is_unclashed(),
            [] => true,
        }
    }

    // The role has the same labels in all states in which it acts, of which one is `state`.
    fn is_same_labels(&self, state: u8) -> bool
        ensures { result ≡ is_same_labels state self.now }
    {
        let labels = self.labels_at(state);
        (0..64).all(|other| {
            let here = self.labels_at(other);
            here == 0 || here == labels
        })
    }

    // Acts with one label have one row and one reset.
    fn is_unclashed(&self) -> bool
        ensures { result ≡ unclashed_in self.now }
    {
        self.as_slice().iter().all(|act| self
            .first_with(act.label)
            .is_none_or(|first| first.is_same_timing(*act)))
    }
}
