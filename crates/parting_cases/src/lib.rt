//! Small sheets, each with the stop and the places that parting answers.

#![tactic(auto)]

pub mod outcomes;

use parting::part::part;
use reading::read::read;
use stops::stop::Stop;

/// A sheet's bytes, as far as they are written; bytes past the 1024th are left out.
// An array with its length beside it: `Bytes` is `Copy` for its users, and an `ArrayVec` is not.
#[derive(Clone, Copy)]
pub struct Bytes {
    bytes: [u8; 1024],
    len: usize,
}

impl Bytes {
    fn new() -> Bytes {
        Bytes {
            bytes: [0; 1024],
            len: 0,
        }
    }

    fn push(&mut self, bytes: &[u8]) {
        for byte in bytes {
            if let Some(place) = self.bytes.get_mut(self.len) {
                *place = *byte;
                self.len += 1;
            }
        }
    }

    fn as_slice(&self) -> &[u8] {
        &self.bytes[..self.len.min(self.bytes.len())]
    }

    // A number of 16 bits, the high byte first.
    fn push_wide(&mut self, number: usize) {
        self.push(&((number % 65_536) as u16).to_be_bytes());
    }

    // The counts go apart, as a header has them: the functions need different ones.
    // The edition, the counts, the pairs of the names and the names' own lengths; every name has one byte.
    fn push_header(&mut self, roles: u8, labels: u8, states: usize, rows: u8) {
        self.push(&[1, roles, labels, (states % 256) as u8, rows]);
        let names = roles as usize + labels as usize;
        for name in 0..names {
            self.push_wide(first_piece(names, states).wrapping_add(name));
            self.push_wide(1);
        }
    }

    fn push_names(&mut self, roles: u8, labels: u8) {
        for name in (0..roles).chain(0..labels) {
            self.push(&[b'A'.wrapping_add(name)]);
        }
    }
}

fn first_piece(names: usize, states: usize) -> usize {
    names.wrapping_add(states).wrapping_mul(4).wrapping_add(5)
}

/// The sheet with these states; its names are letters.
pub fn written(roles: u8, labels: u8, rows: u8, states: &[&[u8]]) -> Bytes {
    let mut out = Bytes::new();
    out.push_header(roles, labels, states.len(), rows);
    let names = roles as usize + labels as usize;
    let mut at = first_piece(names, states.len()).wrapping_add(names);
    for body in states {
        out.push_wide(at);
        out.push_wide(body.len());
        at = at.wrapping_add(body.len());
    }
    out.push_names(roles, labels);
    for body in states {
        out.push(body);
    }
    out
}

/// One label from A to B, again and again: that many exchanges, and an end.
pub fn chain(exchanges: u8) -> Bytes {
    let states = exchanges as usize + 1;
    let mut out = Bytes::new();
    out.push_header(2, 1, states, 0);
    let first = first_piece(3, states).wrapping_add(3);
    for state in 0..states {
        out.push_wide(first.wrapping_add(state.wrapping_mul(7)));
        out.push_wide(if state + 1 < states { 7 } else { 0 });
    }
    out.push_names(2, 1);
    for state in 0..exchanges {
        out.push(&[0, 1, 0, state.wrapping_add(1), 255, 255, 0]);
    }
    out
}

/// The stop with which reading or parting refuses a sheet, if one does.
pub fn answer(sheet: &Bytes) -> Result<(), Stop> {
    parted(sheet.as_slice())
}

pub(crate) fn parted(bytes: &[u8]) -> Result<(), Stop> {
    part(read(bytes)?)?;
    Ok(())
}

/// How many sets a role has, and the masks of its first four; none where it has no part.
// As in `trials`, which rests on sessions: these cases rest on parting alone.
pub fn first_sets(sheet: &Bytes, role: usize) -> Option<(usize, [u64; 4])> {
    let sheet = read(sheet.as_slice()).ok()?;
    let accepted = part(sheet).ok()?;
    let part = accepted.part(role)?;
    // The count that goes with them is of all sets, and not of these masks.
    let mut masks = [0; 4];
    for (mask, set) in masks.iter_mut().zip(part.found()) {
        *mask = set.states;
    }
    Some((part.count, masks))
}

#[cfg(test)]
mod tests {
    use super::*;

    const END: &[u8] = &[];

    #[test]
    fn oven(rt: HostRuntime) {
        let sheet = written(
            2,
            3,
            2,
            &[
                &[0, 1, 0, 1, 255, 0, 3],
                &[1, 0, 1, 2, 1, 255, 0, 2, 2, 255, 255, 0],
                END,
            ],
        );
        assert_eq!(rt; answer(&sheet), Ok(()));
        assert_eq!(rt; first_sets(&sheet, 0), Some((3, [1, 2, 4, 0])));
    }

    // The third party is not told which way was taken.
    #[test]
    fn untold(rt: HostRuntime) {
        let sheet = written(
            3,
            2,
            0,
            &[
                &[0, 1, 0, 1, 255, 255, 0, 1, 2, 255, 255, 0],
                &[1, 2, 0, 2, 255, 255, 0],
                END,
            ],
        );
        assert_eq!(rt; answer(&sheet), Err(Stop::new(24, 2, 0)));
    }

    // C cannot tell states 1 to 3 apart once it has received; what it does in 2 and in 3 differs.
    fn two_ways(rows: u8, one: &'static [u8], other: &'static [u8]) -> Result<(), Stop> {
        answer(&written(
            3,
            2,
            rows,
            &[
                &[0, 2, 0, 1, 255, 255, 0],
                &[0, 1, 0, 2, 255, 255, 0, 1, 3, 255, 255, 0],
                one,
                other,
                END,
            ],
        ))
    }

    #[test]
    fn crossed(rt: HostRuntime) {
        assert_eq!(rt;
            two_ways(0, &[2, 0, 0, 4, 255, 255, 0], &[0, 2, 0, 4, 255, 255, 0]),
            Err(Stop::new(21, 2, 1))
        );
        assert_eq!(rt;
            two_ways(0, &[0, 2, 0, 4, 255, 255, 0], &[1, 2, 0, 4, 255, 255, 0]),
            Err(Stop::new(21, 2, 1))
        );
    }

    #[test]
    fn offer(rt: HostRuntime) {
        assert_eq!(rt;
            two_ways(0, &[2, 0, 0, 4, 255, 255, 0], &[2, 0, 1, 4, 255, 255, 0]),
            Err(Stop::new(22, 2, 1))
        );
        assert_eq!(rt;
            two_ways(1, &[2, 0, 0, 4, 0, 255, 0], &[2, 0, 0, 4, 255, 255, 0]),
            Err(Stop::new(22, 2, 1))
        );
        assert_eq!(rt;
            two_ways(0, &[2, 0, 0, 4, 255, 255, 1], &[2, 0, 0, 4, 255, 255, 2]),
            Err(Stop::new(22, 2, 1))
        );
        // the partner's row and clock may differ
        assert_eq!(rt;
            two_ways(1, &[2, 0, 0, 4, 255, 0, 1], &[2, 0, 0, 4, 255, 255, 3]),
            Ok(())
        );
    }

    #[test]
    fn clash(rt: HostRuntime) {
        assert_eq!(rt;
            two_ways(1, &[0, 2, 0, 4, 255, 0, 0], &[0, 2, 0, 4, 255, 255, 0]),
            Err(Stop::new(23, 2, 1))
        );
        assert_eq!(rt;
            two_ways(0, &[0, 2, 0, 4, 255, 255, 2], &[0, 2, 0, 4, 255, 255, 1]),
            Err(Stop::new(23, 2, 1))
        );
        // labels of a receiver are united
        assert_eq!(rt;
            two_ways(1, &[0, 2, 0, 4, 255, 0, 0], &[0, 2, 1, 4, 255, 255, 2]),
            Ok(())
        );
    }

    // Every branch of a state in which C has no part is followed, not the first alone.
    #[test]
    fn every_branch(rt: HostRuntime) {
        let sheet = written(
            3,
            2,
            0,
            &[
                &[0, 1, 0, 1, 255, 255, 0, 1, 2, 255, 255, 0],
                &[0, 2, 0, 3, 255, 255, 0],
                &[1, 2, 0, 3, 255, 255, 0],
                END,
            ],
        );
        assert_eq!(rt; answer(&sheet), Err(Stop::new(21, 2, 0)));
    }

    // A role that never acts is finished, also in an endless loop.
    #[test]
    fn silent_for_ever(rt: HostRuntime) {
        let sheet = written(3, 1, 0, &[&[0, 1, 0, 0, 255, 255, 0]]);
        assert_eq!(rt; answer(&sheet), Ok(()));
        assert_eq!(rt; first_sets(&sheet, 2), Some((1, [1, 0, 0, 0])));
    }

    #[test]
    fn most_sets(rt: HostRuntime) {
        assert_eq!(rt; answer(&chain(31)), Ok(()));
        assert_eq!(rt; first_sets(&chain(31), 1), Some((32, [1, 2, 4, 8])));
        assert_eq!(rt; answer(&chain(32)), Err(Stop::new(25, 0, 31)));
    }
}
