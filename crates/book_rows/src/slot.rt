//! A row of the slot book.

ghost use Rattle.std.specs.Prelude.{◌≡◌, ◌+◌, ◌≤◌};
ghost use Rattle.std.proofs.Common.{lit<};
ghost use Rattle.book_rows.specs.Slots.{InSlot, period_of, first_of, width_of, SlotRule, slot_rule, slot_decided, slot_meant, slot_same};

use crate::kind::RowKind;
use crate::number::number;

/// In every `period`, the `width` values from `first` on.
#[derive(Clone, Copy)]
pub struct Slot {
    period: u32,
    first: u32,
    width: u32,
    ghost legal: { (1 ≤ width) × (first + width ≤ period) },
}

/// The slot of every value. Three zeros would be no slot, so this is not derived.
impl Default for Slot {
    ghost is_default = { λ s. (s.period ≡ 1) × (s.first ≡ 0) × (s.width ≡ 1) };

    fn default() -> Slot {
        Slot {
            period: 1,
            first: 0,
            width: 1,
        }
    }
}

impl RowKind for Slot {
    ghost SIZE = { 12 };

    ghost sized = { lit< tt };

    ghost legal = { SlotRule };

    ghost rule = { slot_rule };

    ghost decided = { slot_decided };

    ghost meant = { slot_meant };

    ghost within = { λ s. InSlot s.period s.first s.width };

    ghost ranged = { λ s v p. p.0 };

    ghost reads = { λ row s. (s.period ≡ period_of row) × (s.first ≡ first_of row) × (s.width ≡ width_of row) };

    ghost same = { λ row s r. slot_same row s.period s.first s.width r.0 r.1 r.2 };

    const SIZE: usize = 12;

    fn decode(bytes: &[u8]) -> Option<Slot> {
        let (period, rest) = number(bytes)?;
        let (first, rest) = number(rest)?;
        let (width, _) = number(rest)?;
        // No `then`: a slot exists only where the test holds, so its closure would repeat the test as a `requires`.
        if width >= 1 && first as u64 + width as u64 <= period as u64 {
            Some(Slot {
                period,
                first,
                width,
            })
        } else {
            None
        }
    }

    fn holds(self, value: u32) -> bool {
        let rest = value % self.period;
        self.first <= rest && rest < self.first + self.width
    }

    fn next(self, value: u32) -> Option<u32> {
        let rest = value % self.period;
        if rest < self.first {
            value.checked_add(self.first - rest)
        } else if rest < self.first + self.width {
            Some(value)
        } else {
            value.checked_add(self.period - rest + self.first)
        }
    }
}
