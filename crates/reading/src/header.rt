//! The header: edition, counts, and room for the pairs.

ghost use Rattle.std.specs.Prelude.{◌≡◌, ◌≤◌, length, IfOk};
ghost use Rattle.sheet.specs.Decode.{counts as counts_read, name_count_of, piece_count_in};
ghost use Rattle.sheet.specs.Encode.{begin};
ghost use Rattle.sheet.specs.Refuse.{count_fault, header_fault};
ghost use Rattle.reading.specs.Faults.{fault_of};

use crate::places::Paired;
use sheet::counts::Counts;
use sheet::fault::ReadFault;

// Where the first piece begins: right after the pairs.
pub(crate) fn first_offset(counts: Counts) -> usize
    ensures { result ≡ begin (piece_count_in counts) }
{
    5 + 4 * piece_count(counts)
}

pub(crate) fn name_count(counts: Counts) -> usize
    ensures { result ≡ name_count_of counts }
{
    counts.roles as usize + counts.labels as usize
}

pub(crate) fn piece_count(counts: Counts) -> usize
    ensures { result ≡ piece_count_in counts }
{
    name_count(counts) + counts.states as usize
}

// The counts that a header announces.
pub(crate) fn counts_in(bytes: &[u8]) -> Counts
    requires { 5 ≤ length bytes.now }
    ensures { result ≡ counts_read bytes.now }
{
    Counts {
        roles: bytes[1],
        labels: bytes[2],
        states: bytes[3],
        rows: bytes[4],
    }
}

// Stop 3.
#[tactic(auto, unfolding(sheet::specs::Refuse::count_fault))]
fn check_counts(counts: Counts) -> Result<(), ReadFault>
    ensures { fault_of result ≡ count_fault counts }
{
    if !matches!(counts.roles, 2..=6) {
        return Err(ReadFault::Count { byte: 1 });
    }
    if !matches!(counts.labels, 1..=32) {
        return Err(ReadFault::Count { byte: 2 });
    }
    if !matches!(counts.states, 1..=64) {
        return Err(ReadFault::Count { byte: 3 });
    }
    if counts.rows > 64 {
        return Err(ReadFault::Count { byte: 4 });
    }
    Ok(())
}

impl<'a> Paired<'a> {
    // The header: stops 1 to 3.
    #[tactic(auto, unfolding(sheet::specs::Refuse::header_fault))]
    pub(crate) fn read(bytes: &'a [u8]) -> Result<Paired<'a>, ReadFault>
        ensures judged { fault_of result ≡ header_fault bytes.now }
        ensures value { IfOk result (λ p. p.bytes.now ≡ bytes.now) }
    {
        if bytes.len() < 5 {
            return Err(ReadFault::Short { given: bytes.len() });
        }
        if bytes[0] != 1 {
            return Err(ReadFault::Edition);
        }
        let counts = counts_in(bytes);
        check_counts(counts)?;
        if bytes.len() < first_offset(counts) {
            return Err(ReadFault::Short { given: bytes.len() });
        }
        Ok(Paired { bytes, counts })
    }
}
