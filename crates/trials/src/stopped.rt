//! Each stop of a session, met once or more.

use crate::case::{Case, Rows};
use crate::put::Put::{Event, Forecast};
use crate::sheets::{LATE_WINDOW, NO_ROWS, ONE_WINDOW, OVEN, PACED, RELAY, WINDOWS};

/// The oven with another book or depth, and nothing put to it.
const fn oven(title: &'static str, rows: &'static [u8], depth: u8) -> Case {
    Case {
        title,
        sheet: OVEN,
        rows: Rows::Windows(rows),
        tick: 100,
        depth,
        puts: &[],
    }
}

/// Sessions that are not opened.
pub fn openings() -> [Case; 6] {
    [
        oven("31: a book with one row of two", ONE_WINDOW, 8),
        oven("31: a book with no rows", NO_ROWS, 8),
        oven("32: depth 0", WINDOWS, 0),
        oven("32: depth 9", WINDOWS, 9),
        oven("32: depth 255", WINDOWS, 255),
        oven("31 before 32: one row, depth 0", ONE_WINDOW, 0),
    ]
}

/// Events that name what is not there, or that come too early.
pub const UNKNOWN: [Case; 4] = [
    Case {
        title: "41: a role or a partner that the sheet does not have, or the two the same",
        sheet: OVEN,
        rows: Rows::Windows(WINDOWS),
        tick: 100,
        depth: 8,
        puts: &[
            Event(2, 0, 1, 0, 103),
            Event(255, 0, 1, 0, 103),
            Event(0, 0, 2, 0, 103),
            Event(0, 0, 0, 0, 103),
        ],
    },
    Case {
        title: "41, label 0: a forecast of a role that the sheet does not have",
        sheet: OVEN,
        rows: Rows::Windows(WINDOWS),
        tick: 100,
        depth: 8,
        puts: &[Forecast(2), Forecast(255)],
    },
    Case {
        title: "42: a label that the sheet does not have, a direction that is none",
        sheet: OVEN,
        rows: Rows::Windows(WINDOWS),
        tick: 100,
        depth: 8,
        puts: &[Event(0, 0, 1, 3, 103), Event(0, 2, 1, 0, 103)],
    },
    Case {
        title: "43: a tick below the latest; the latest itself is good",
        sheet: OVEN,
        rows: Rows::Windows(WINDOWS),
        tick: 100,
        depth: 8,
        puts: &[
            Event(0, 0, 1, 0, 99),
            Event(0, 0, 1, 0, 103),
            Event(1, 1, 0, 0, 102),
            Event(1, 1, 0, 0, 103),
        ],
    },
];

/// Events that are not their role's turn, whose message is not there, or that find no room.
pub const UNTIMELY: [Case; 5] = [
    Case {
        title: "44: the other direction, a label of no branch, a role that is finished",
        sheet: OVEN,
        rows: Rows::Windows(WINDOWS),
        tick: 100,
        depth: 8,
        puts: &[
            Event(0, 1, 1, 0, 100),
            Event(0, 0, 1, 1, 100),
            Event(0, 0, 1, 0, 103),
            Event(1, 1, 0, 0, 105),
            Event(1, 0, 0, 2, 105),
            Event(1, 0, 0, 2, 105),
        ],
    },
    Case {
        title: "44: another partner",
        sheet: RELAY,
        rows: Rows::Windows(NO_ROWS),
        tick: 0,
        depth: 8,
        puts: &[Event(0, 0, 2, 0, 1), Event(0, 0, 1, 0, 1)],
    },
    Case {
        title: "45: nothing under way, and another label than the oldest",
        sheet: OVEN,
        rows: Rows::Windows(WINDOWS),
        tick: 100,
        depth: 8,
        puts: &[
            Event(1, 1, 0, 0, 103),
            Event(0, 0, 1, 0, 103),
            Event(1, 1, 0, 0, 105),
            Event(1, 0, 0, 1, 125),
            Event(0, 1, 1, 2, 130),
        ],
    },
    Case {
        title: "46 before 47: no room at depth 1, and the clock is past the row",
        sheet: PACED,
        rows: Rows::Windows(LATE_WINDOW),
        tick: 0,
        depth: 1,
        puts: &[
            Event(0, 0, 1, 0, 19),
            Event(0, 0, 1, 0, 20),
            Event(0, 0, 1, 0, 41),
            Event(1, 1, 0, 0, 40),
            Event(0, 0, 1, 0, 41),
            Event(0, 0, 1, 0, 40),
        ],
    },
    Case {
        title: "the lowest number comes first: 41, 42, 43, 44, 45",
        sheet: OVEN,
        rows: Rows::Windows(WINDOWS),
        tick: 100,
        depth: 8,
        puts: &[
            Event(9, 9, 9, 9, 0),
            Event(0, 9, 1, 9, 0),
            Event(0, 1, 1, 0, 0),
            Event(1, 1, 0, 1, 200),
            Event(1, 1, 0, 0, 200),
        ],
    },
];
