//! When a role that sends can send next.

ghost use Rattle.std.specs.Prelude.{◌≡◌, ◌≤◌};
ghost use Rattle.runs.specs.Laws.{Least};
ghost use Rattle.session.specs.Earliest.{SomeMove, sooner_of};

use crate::row::next_tick;
use books::time_book::TimeBook;
use parting::local::LocalSet;

/// The least tick from `latest` on at which the row of some label of the set admits a clock that was reset at `since`.
pub(crate) fn earliest<B: TimeBook>(
    book: &B,
    set: &LocalSet,
    since: u32,
    latest: u32,
) -> Option<u32>
    ensures { since ≤ latest → Least (SomeMove (B.TimeBook.admits book.now) set.now since 32) latest 4294967295 result }
{
    let mut best = None;
    for to in set.moves.iter() {
        if let Some(to) = to {
            best = sooner(best, next_tick(book, to.row, since, latest));
        }
    }
    best
}

/// The lower of two ticks, or the only one.
fn sooner(a: Option<u32>, b: Option<u32>) -> Option<u32>
    ensures { result ≡ sooner_of a b }
{
    // A match, for speed: by `zip`, `map` and `or` a forecast by windows takes 518 instructions, by this 483.
    match (a, b) {
        (Some(a), Some(b)) => Some(a.min(b)),
        (Some(a), None) => Some(a),
        (None, b) => b,
    }
}
