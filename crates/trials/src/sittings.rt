//! Whole sessions: the oven's, the ticker's, three readings that are false, and closings.

use crate::case::{Case, Rows};
use crate::put::Put::{Event, Forecast};
use crate::sheets::{NO_ROWS, OVEN, RELAY, TICKER, WINDOWS};

/// The oven, event by event, and with both forecasts after each.
pub const OVENS: [Case; 2] = [
    Case {
        title: "the oven, event by event",
        sheet: OVEN,
        rows: Rows::Windows(WINDOWS),
        tick: 100,
        depth: 8,
        puts: &[
            Event(0, 0, 1, 0, 103),
            Event(1, 1, 0, 0, 106),
            Event(1, 1, 0, 0, 105),
            Event(1, 0, 0, 1, 124),
            Event(1, 0, 0, 1, 125),
            Event(0, 1, 1, 2, 130),
            Event(0, 1, 1, 1, 130),
        ],
    },
    Case {
        title: "the oven, with both forecasts after each event",
        sheet: OVEN,
        rows: Rows::Windows(WINDOWS),
        tick: 100,
        depth: 8,
        puts: &[
            Forecast(0),
            Forecast(1),
            Event(0, 0, 1, 0, 103),
            Forecast(0),
            Forecast(1),
            Event(1, 1, 0, 0, 106),
            Forecast(0),
            Forecast(1),
            Event(1, 1, 0, 0, 105),
            Forecast(0),
            Forecast(1),
            Event(1, 0, 0, 1, 124),
            Forecast(0),
            Forecast(1),
            Event(1, 0, 0, 1, 125),
            Forecast(0),
            Forecast(1),
            Event(0, 1, 1, 2, 130),
            Forecast(0),
            Forecast(1),
            Event(0, 1, 1, 1, 130),
            Forecast(0),
            Forecast(1),
        ],
    },
];

/// The ticker at depth 8 and at depth 1.
pub const TICKERS: [Case; 2] = [
    Case {
        title: "depth 8: the ninth sending finds no room until one is taken",
        sheet: TICKER,
        rows: Rows::Windows(NO_ROWS),
        tick: 0,
        depth: 8,
        puts: &[
            Event(0, 0, 1, 0, 7),
            Event(0, 0, 1, 0, 7),
            Event(0, 0, 1, 0, 7),
            Event(0, 0, 1, 0, 7),
            Event(0, 0, 1, 0, 7),
            Event(0, 0, 1, 0, 7),
            Event(0, 0, 1, 0, 7),
            Event(0, 0, 1, 0, 7),
            Event(0, 0, 1, 0, 7),
            Event(1, 1, 0, 0, 9),
            Event(0, 0, 1, 0, 9),
        ],
    },
    Case {
        title: "depth 1: the second sending finds no room until the first is taken",
        sheet: TICKER,
        rows: Rows::Windows(NO_ROWS),
        tick: 0,
        depth: 1,
        puts: &[
            Event(0, 0, 1, 0, 7),
            Event(0, 0, 1, 0, 7),
            Event(1, 1, 0, 0, 9),
            Event(0, 0, 1, 0, 9),
        ],
    },
];

/// Inputs on which a false reading would answer otherwise.
pub const FALSE_READINGS: [Case; 3] = [
    Case {
        title: "a row counts from the role's own reset: at 106 the sending is 3 ticks ago, at 124 it is 21",
        sheet: OVEN,
        rows: Rows::Windows(WINDOWS),
        tick: 100,
        depth: 8,
        puts: &[
            Event(0, 0, 1, 0, 103),
            Event(1, 1, 0, 0, 106),
            Event(1, 1, 0, 0, 105),
            Event(1, 0, 0, 1, 124),
            Event(1, 0, 0, 1, 125),
        ],
    },
    Case {
        title: "a stopped event's tick is not the latest: else 103 would be 43, and OVEN's forecast none",
        sheet: OVEN,
        rows: Rows::Windows(WINDOWS),
        tick: 100,
        depth: 8,
        puts: &[
            Event(0, 1, 1, 2, 4_294_967_295),
            Event(0, 0, 1, 0, 103),
            Event(1, 1, 0, 0, 106),
            Forecast(1),
            Event(1, 1, 0, 0, 105),
        ],
    },
    Case {
        title: "every branch of a state that does not name C is followed: else its HALT would be 44",
        sheet: RELAY,
        rows: Rows::Windows(NO_ROWS),
        tick: 0,
        depth: 8,
        puts: &[
            Event(0, 0, 1, 1, 1),
            Event(1, 1, 0, 1, 2),
            Event(1, 0, 2, 3, 3),
            Forecast(2),
            Event(2, 1, 1, 3, 5),
        ],
    },
];

/// Sessions that are closed early, each at another role.
pub const EARLY: [Case; 4] = [
    Case {
        title: "closed at once",
        sheet: OVEN,
        rows: Rows::Windows(WINDOWS),
        tick: 100,
        depth: 8,
        puts: &[],
    },
    Case {
        title: "closed when OVEN is finished and MAIN is not",
        sheet: OVEN,
        rows: Rows::Windows(WINDOWS),
        tick: 100,
        depth: 8,
        puts: &[
            Event(0, 0, 1, 0, 103),
            Event(1, 1, 0, 0, 105),
            Event(1, 0, 0, 2, 105),
        ],
    },
    Case {
        title: "closed when A alone is finished",
        sheet: RELAY,
        rows: Rows::Windows(NO_ROWS),
        tick: 0,
        depth: 8,
        puts: &[Event(0, 0, 1, 0, 1)],
    },
    Case {
        title: "closed when C alone is not finished",
        sheet: RELAY,
        rows: Rows::Windows(NO_ROWS),
        tick: 0,
        depth: 8,
        puts: &[
            Event(0, 0, 1, 0, 1),
            Event(1, 1, 0, 0, 2),
            Event(1, 0, 2, 2, 3),
        ],
    },
];
