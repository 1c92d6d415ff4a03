//! What a session changes.

use crate::record::Record;
use channels::channels::Channels;

/// What changes while events pass: a record for each role, what is under way, and the latest tick. The depth is kept beside.
// Apart from the sheet's parts, as it is agreed: what changes stands beside what is given back unchanged.
#[derive(Drop)]
pub(crate) struct Inner {
    pub(crate) records: [Record; 6],
    pub(crate) channels: Channels,
    pub(crate) latest: u32,
    pub(crate) depth: u8,
}
