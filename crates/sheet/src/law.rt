//! The law that ties the order of refusals to the format.

ghost use Rattle.std.specs.Prelude.{◌≡◌};
ghost use Rattle.sheet.specs.Law.{RefusalsExact, EncodingFaithful};

/// Law of the format. Bytes are refused exactly when no valid sheet has them as its encoding; and a
/// valid sheet is read back from its encoding, so no two valid sheets have the same bytes.
/// Answers the edition that the law is about.
pub fn format_stands() -> u8
    ensures exact { RefusalsExact }
    ensures faithful { EncodingFaithful }
    ensures edition { result ≡ 1 }
{
    1
}
