//! The main worked cases.

ghost use Rattle.std.specs.Prelude.{◌≡◌};
ghost use Rattle.worked.specs.Worked.{WorkedCases};

/// What books, parting and a session have to answer in the worked cases, by what they mean.
/// Answers the edition that the cases are of.
pub fn worked_cases_stand() -> u8
    ensures cases { WorkedCases }
    ensures edition { result ≡ 1 }
{
    1
}
