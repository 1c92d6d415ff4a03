//! The laws that tie a monitor to the runs of a sheet.

ghost use Rattle.std.specs.Prelude.{◌≡◌};
ghost use Rattle.protocol.specs.Accepted.{Accepted};
ghost use Rattle.runs.specs.Steady.{AllSteady};
ghost use Rattle.runs.specs.Laws.{Agreement, Foresight, Keeping, AcceptedIsSteady, PassedAreRuns};

use books::time_book::TimeBook;

/// Agreement. After any events that passed, the next event passes exactly when with it they are a run of
/// the sheet: for every valid and accepted sheet, every book, opening tick and depth. It is so too where
/// the fourth point of soundness holds only of the sets in which the role sends.
/// Answers the edition that the law is about.
pub fn agreement_stands<B: TimeBook>() -> u8
    ensures accepted { (b : B) → Agreement Accepted (B.TimeBook.admits b) }
    ensures steady { (b : B) → Agreement AllSteady (B.TimeBook.admits b) }
    ensures wider { AcceptedIsSteady }
    ensures edition { result ≡ 1 }
{
    1
}

/// Foresight. The least tick at which some event of a role passes is the least tick at which some event
/// of that role makes a run, and there is none exactly when there is none.
/// Answers the edition that the law is about.
pub fn foresight_stands<B: TimeBook>() -> u8
    ensures accepted { (b : B) → Foresight Accepted (B.TimeBook.admits b) }
    ensures steady { (b : B) → Foresight AllSteady (B.TimeBook.admits b) }
    ensures edition { result ≡ 1 }
{
    1
}

/// What a monitor keeps is read off the events that passed, one step at a time.
/// Answers the edition that the law is about.
pub fn keeping_stands<B: TimeBook>() -> u8
    ensures accepted { (b : B) → Keeping Accepted (B.TimeBook.admits b) }
    ensures steady { (b : B) → Keeping AllSteady (B.TimeBook.admits b) }
    ensures edition { result ≡ 1 }
{
    1
}

/// The lists of events that a monitor passes, one after the other, are exactly the runs of the sheet.
/// Answers the edition that the law is about.
pub fn passing_stands<B: TimeBook>() -> u8
    ensures exact { (b : B) → PassedAreRuns (B.TimeBook.admits b) }
    ensures edition { result ≡ 1 }
{
    1
}
