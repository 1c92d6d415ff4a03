//! The laws on what is read off the events of a run.

ghost use Rattle.std.specs.Prelude.{◌≡◌};
ghost use Rattle.protocol.specs.Accepted.{Accepted};
ghost use Rattle.runs.specs.Steady.{AllSteady};
ghost use Rattle.runs.specs.Laws.{Beginnings, RunsInRange, ChannelsRead, SetsRead, AnyPathServes, Closing};

use books::time_book::TimeBook;

/// No events are a run, and every beginning of a run is a run.
/// Answers the edition that the law is about.
pub fn beginnings_stand<B: TimeBook>() -> u8
    ensures begin { (b : B) → Beginnings (B.TimeBook.admits b) }
    ensures edition { result ≡ 1 }
{
    1
}

/// No run has an event with a role, a partner or a label that the sheet does not have, with itself as
/// partner, or with a direction above 1.
/// Answers the edition that the law is about.
pub fn ranges_stand<B: TimeBook>() -> u8
    ensures ranges { (b : B) → RunsInRange (B.TimeBook.admits b) }
    ensures edition { result ≡ 1 }
{
    1
}

/// What waits in each channel of a run, and for how long it has been under way, is a function of the
/// events: at most depth messages wait, a sending puts its message last, a taking removes the oldest.
/// Answers the edition that the law is about.
pub fn channels_stand<B: TimeBook>() -> u8
    ensures channels { (b : B) → ChannelsRead (B.TimeBook.admits b) }
    ensures edition { result ≡ 1 }
{
    1
}

/// After a run, a role's set is exactly the states to which a path leads whose share for the role is its
/// events.
/// Answers the edition that the law is about.
pub fn sets_stand<B: TimeBook>() -> u8
    ensures accepted { (b : B) → SetsRead Accepted (B.TimeBook.admits b) }
    ensures steady { (b : B) → SetsRead AllSteady (B.TimeBook.admits b) }
    ensures edition { result ≡ 1 }
{
    1
}

/// Which path is taken does not matter. After a run, clocks are in their rows on every path whose shares
/// begin with the roles' events, and all such paths reset each role's clock last at the same tick.
/// Answers the edition that the law is about.
pub fn paths_stand<B: TimeBook>() -> u8
    ensures accepted { (b : B) → AnyPathServes Accepted (B.TimeBook.admits b) }
    ensures steady { (b : B) → AnyPathServes AllSteady (B.TimeBook.admits b) }
    ensures edition { result ≡ 1 }
{
    1
}

/// Every role is finished exactly when some path to an end has every role's events as its whole share.
/// Answers the edition that the law is about.
pub fn closing_stands<B: TimeBook>() -> u8
    ensures closes { (b : B) → Closing (B.TimeBook.admits b) }
    ensures edition { result ≡ 1 }
{
    1
}
