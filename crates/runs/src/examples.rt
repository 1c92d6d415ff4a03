//! Examples, proved by computation.

ghost use Rattle.std.specs.Prelude.{◌≡◌};
ghost use Rattle.runs.specs.Examples.{OvenExamples, TickerExamples, ThirdPartyExamples};

/// A run of the oven sheet, and lists of events that are none: each breaks one of the four points and
/// keeps the others. A sheet with a third party that is accepted, and one that is not.
/// Answers the edition that the examples are of.
pub fn examples_stand() -> u8
    ensures oven { OvenExamples }
    ensures ticker { TickerExamples }
    ensures parties { ThirdPartyExamples }
    ensures edition { result ≡ 1 }
{
    1
}
