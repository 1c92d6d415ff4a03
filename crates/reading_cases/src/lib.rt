//! Damaged sheets, each with the stop and the place that reading answers.

#![tactic(auto)]

use reading::read::read;
use stops::stop::Stop;

/// The oven sheet and one byte more: roles MAIN and OVEN, labels HEAT, HOT and FAULT, two time rows,
/// three states.
const OVEN: [u8; 77] = [
    1, 2, 3, 3, 2, // edition and counts
    0, 37, 0, 4, 0, 41, 0, 4, // pairs of the roles
    0, 45, 0, 4, 0, 49, 0, 3, 0, 52, 0, 5, // of the labels
    0, 57, 0, 7, 0, 64, 0, 12, 0, 76, 0, 0, // of the states
    77, 65, 73, 78, 79, 86, 69, 78, // MAIN, OVEN at 37
    72, 69, 65, 84, 72, 79, 84, 70, 65, 85, 76, 84, // HEAT, HOT, FAULT at 45
    0, 1, 0, 1, 255, 0, 3, // state 0 at 57
    1, 0, 1, 2, 1, 255, 0, 2, 2, 255, 255, 0, // state 1 at 64
    0, // past the end
];

/// How many of the bytes are given, which of them are changed first, and what reading answers.
#[derive(Clone, Copy)]
pub struct Damage {
    given: usize,
    changes: &'static [(usize, u8)],
    answer: Result<(), Stop>,
}

// What reading answers: nothing, or the stop.
fn answer(bytes: &[u8]) -> Result<(), Stop> {
    read(bytes)?;
    Ok(())
}

fn changed(changes: &[(usize, u8)]) -> [u8; 77] {
    let mut sheet = OVEN;
    for (at, value) in changes {
        if let Some(byte) = sheet.get_mut(*at) {
            *byte = *value;
        }
    }
    sheet
}

#[cfg(test)]
mod tests {
    use super::*;
    use reading::piece::{Kind, Piece};
    use reading::states::{Branches, split_state};
    use sheet::branch::Branch;
    use std::process::Abort;
    use std::test::Fail;

    fn good(changes: &'static [(usize, u8)]) -> Damage {
        Damage {
            given: 76,
            changes,
            answer: Ok(()),
        }
    }

    fn stopped(given: usize, changes: &'static [(usize, u8)], number: u8, place: usize) -> Damage {
        Damage {
            given,
            changes,
            answer: Err(Stop::new(number, place, 0)),
        }
    }

    fn answers_as_said(rt: &impl Abort, damages: &[Damage]) {
        for damage in damages {
            let sheet = changed(damage.changes);
            assert!(rt; damage.given <= 77);
            assert_eq!(rt; answer(&sheet[0..damage.given]), damage.answer);
        }
    }

    #[test]
    fn good_sheet(rt: HostRuntime) {
        answers_as_said(
            &rt,
            &[
                // the sheet itself
                good(&[]),
                // a loop
                good(&[(59, 0), (60, 0)]),
                // a label may have the name of a role
                good(&[(45, 77), (46, 65), (47, 73), (48, 78)]),
                // the highest row
                good(&[(61, 0), (62, 1)]),
                // the ends of the printable range
                good(&[(37, 33), (38, 126)]),
            ],
        );
    }

    #[test]
    fn short(rt: HostRuntime) {
        answers_as_said(
            &rt,
            &[
                // nothing
                stopped(0, &[], 1, 0),
                // no whole header
                stopped(4, &[], 1, 4),
                // one byte of the pairs is missing
                stopped(36, &[], 1, 36),
            ],
        );
    }

    #[test]
    fn edition(rt: HostRuntime) {
        answers_as_said(
            &rt,
            &[stopped(76, &[(0, 0)], 2, 0), stopped(76, &[(0, 2)], 2, 0)],
        );
    }

    #[test]
    fn count(rt: HostRuntime) {
        answers_as_said(
            &rt,
            &[
                stopped(76, &[(1, 1)], 3, 1),
                stopped(76, &[(1, 7)], 3, 1),
                stopped(76, &[(2, 0)], 3, 2),
                stopped(76, &[(2, 33)], 3, 2),
                stopped(76, &[(3, 0)], 3, 3),
                stopped(76, &[(3, 65)], 3, 3),
                stopped(76, &[(4, 65)], 3, 4),
                // the first of two
                stopped(76, &[(2, 0), (4, 65)], 3, 2),
            ],
        );
    }

    #[test]
    fn pair(rt: HostRuntime) {
        answers_as_said(
            &rt,
            &[
                // a first piece that does not begin right after the pairs
                stopped(76, &[(6, 38)], 4, 0),
                // the high byte of an offset
                stopped(76, &[(5, 1)], 4, 0),
                // a name of no bytes
                stopped(76, &[(8, 0)], 4, 0),
                // a name of 13 bytes
                stopped(76, &[(8, 13)], 4, 0),
                // a gap
                stopped(76, &[(14, 46)], 4, 2),
                // a state of 6 bytes
                stopped(76, &[(28, 6)], 4, 5),
                // a state without branches
                stopped(76, &[(28, 2)], 4, 5),
                // a state of 9 branches
                stopped(76, &[(28, 47)], 4, 5),
                // an end past the sheet
                stopped(76, &[(35, 0), (36, 7)], 4, 7),
                // a sheet cut short
                stopped(75, &[], 4, 6),
                // a byte left over
                stopped(77, &[], 4, 8),
            ],
        );
    }

    #[test]
    fn byte_of_a_name(rt: HostRuntime) {
        answers_as_said(
            &rt,
            &[
                // the first byte of the first name
                stopped(76, &[(37, 32)], 5, 37),
                // the last byte of a role
                stopped(76, &[(44, 127)], 5, 44),
                // the last byte of a label
                stopped(76, &[(56, 0)], 5, 56),
            ],
        );
    }

    #[test]
    fn twice(rt: HostRuntime) {
        answers_as_said(
            &rt,
            &[
                // the second role
                stopped(76, &[(41, 77), (42, 65), (43, 73), (44, 78)], 6, 1),
                // the second label
                stopped(
                    76,
                    &[
                        (20, 4),
                        (22, 53),
                        (24, 4),
                        (49, 72),
                        (50, 69),
                        (51, 65),
                        (52, 84),
                    ],
                    6,
                    3,
                ),
            ],
        );
    }

    #[test]
    fn state(rt: HostRuntime) {
        answers_as_said(
            &rt,
            &[
                // sender
                stopped(76, &[(57, 2)], 7, 57),
                // receiver
                stopped(76, &[(58, 2)], 7, 58),
                // the sender again
                stopped(76, &[(58, 0)], 7, 58),
                // label
                stopped(76, &[(59, 3)], 7, 59),
                // next state
                stopped(76, &[(60, 3)], 7, 60),
                // send row
                stopped(76, &[(61, 2)], 7, 61),
                // receive row
                stopped(76, &[(62, 254)], 7, 62),
                // resets
                stopped(76, &[(63, 4)], 7, 63),
                // a label that does not rise
                stopped(76, &[(71, 1)], 7, 71),
                // the last byte
                stopped(76, &[(75, 4)], 7, 75),
            ],
        );
    }

    #[test]
    fn order_of_stops(rt: HostRuntime) {
        answers_as_said(
            &rt,
            &[
                // edition before count
                stopped(76, &[(0, 2), (1, 9)], 2, 0),
                // count before the shortness of the pairs
                stopped(5, &[(4, 65)], 3, 4),
                // and that after it
                stopped(5, &[], 1, 5),
                // a name used twice before a bad byte in a later name
                stopped(
                    76,
                    &[(41, 77), (42, 65), (43, 73), (44, 78), (45, 32)],
                    6,
                    1,
                ),
                // a bad byte before sameness in one name
                stopped(76, &[(41, 77), (42, 65), (43, 73), (44, 32)], 5, 44),
                // a wrong length before everything in names and states
                stopped(76, &[(28, 6), (37, 32), (57, 9)], 4, 5),
                // names before states
                stopped(76, &[(56, 0), (57, 9)], 5, 56),
                // a wrong pair before bytes left over
                stopped(77, &[(36, 1)], 4, 7),
            ],
        );
    }

    #[test]
    fn label_by_name(rt: HostRuntime) -> Result<(), Fail> {
        let Ok(sheet) = read(&OVEN[0..76]) else {
            return Err(Fail::new("the oven sheet is refused"));
        };
        assert_eq!(rt; sheet.find_label(b"HEAT"), Some(0));
        assert_eq!(rt; sheet.find_label(b"HOT"), Some(1));
        assert_eq!(rt; sheet.find_label(b"FAULT"), Some(2));
        assert_eq!(rt; sheet.find_label(b"Hot"), None);
        assert_eq!(rt; sheet.find_label(b"MAIN"), None);
        assert_eq!(rt; sheet.find_label(b"HEA"), None);
        assert_eq!(rt; sheet.find_label(b""), None);
        assert_eq!(rt; sheet.find_label(&OVEN), None);
        Ok(())
    }

    #[test]
    fn counts_of_kinds(rt: HostRuntime) -> Result<(), Fail> {
        let Ok(sheet) = read(&OVEN[0..76]) else {
            return Err(Fail::new("the oven sheet is refused"));
        };
        assert_eq!(rt; sheet.count(Kind::Role), 2);
        assert_eq!(rt; sheet.count(Kind::Label), 3);
        assert_eq!(rt; sheet.count(Kind::State), 3);
        Ok(())
    }

    #[test]
    fn branches_of_a_state(rt: HostRuntime) -> Result<(), Fail> {
        let Some(exchange) = split_state(&OVEN[64..76]) else {
            return Err(Fail::new("state 1 is an end"));
        };
        let mut branches = Branches::new(exchange.branches);
        let hot = Branch {
            label: 1,
            next: 2,
            send: 1,
            receive: 255,
            resets: 0,
        };
        let fault = Branch {
            label: 2,
            next: 2,
            send: 255,
            receive: 255,
            resets: 0,
        };
        assert_eq!(rt; branches.next(), Some(hot));
        assert_eq!(rt; branches.next(), Some(fault));
        assert_eq!(rt; branches.next(), None);
        Ok(())
    }

    // The kind, offset and bytes of a piece.
    fn told(piece: Option<Piece<'_>>) -> Option<(Kind, usize, &[u8])> {
        match piece? {
            Piece::Role { name, offset } => Some((Kind::Role, offset, name)),
            Piece::Label { name, offset } => Some((Kind::Label, offset, name)),
            Piece::State { body, offset } => Some((Kind::State, offset, body)),
        }
    }

    #[test]
    fn pieces(rt: HostRuntime) -> Result<(), Fail> {
        let Ok(sheet) = read(&OVEN[0..76]) else {
            return Err(Fail::new("the oven sheet is refused"));
        };
        assert_eq!(rt;
            told(sheet.piece(Kind::Role, 1)),
            Some((Kind::Role, 41, &OVEN[41..45]))
        );
        assert_eq!(rt; told(sheet.piece(Kind::Role, 2)), None);
        assert_eq!(rt;
            told(sheet.piece(Kind::Label, 2)),
            Some((Kind::Label, 52, &OVEN[52..57]))
        );
        assert_eq!(rt; told(sheet.piece(Kind::Label, 3)), None);
        assert_eq!(rt;
            told(sheet.piece(Kind::State, 1)),
            Some((Kind::State, 64, &OVEN[64..76]))
        );
        assert_eq!(rt;
            told(sheet.piece(Kind::State, 2)),
            Some((Kind::State, 76, &OVEN[76..76]))
        );
        assert_eq!(rt; told(sheet.piece(Kind::State, 3)), None);
        Ok(())
    }
}
