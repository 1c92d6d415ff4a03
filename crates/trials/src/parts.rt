//! What parting finds.

use crate::calls::accepted;
use stops::stop::Stop;

/// How many sets a role has, and the masks of its first four.
pub fn first_sets(bytes: &[u8], role: usize) -> Result<(usize, [u64; 4]), Stop> {
    let accepted = accepted(bytes)?;
    // The count that goes with them is of all sets, and not of these masks.
    let mut masks = [0; 4];
    let Some(part) = accepted.part(role) else {
        return Ok((0, masks));
    };
    for (mask, set) in masks.iter_mut().zip(part.found()) {
        *mask = set.states;
    }
    Ok((part.count, masks))
}
