//! Forecasts: the last tick, full and empty channels, margins and slots.

use crate::case::{Case, Rows};
use crate::put::Put::{Event, Forecast};
use crate::sheets::{LATE_WINDOW, NO_ROWS, OVEN, PACED, SLOTS, TICKER, WINDOWS};

/// Near the last tick.
pub const LAST_TICKS: [Case; 3] = [
    Case {
        title: "the last tick is given",
        sheet: PACED,
        rows: Rows::Windows(LATE_WINDOW),
        tick: 4_294_967_275,
        depth: 8,
        puts: &[Forecast(0), Event(0, 0, 1, 0, 4_294_967_295), Forecast(0)],
    },
    Case {
        title: "a label past the last tick is left out, and it was the only one",
        sheet: PACED,
        rows: Rows::Windows(LATE_WINDOW),
        tick: 4_294_967_276,
        depth: 8,
        puts: &[Forecast(0)],
    },
    Case {
        title: "HOT is past the last tick and left out, and FAULT still counts",
        sheet: OVEN,
        rows: Rows::Windows(WINDOWS),
        tick: 4_294_967_290,
        depth: 8,
        puts: &[
            Event(0, 0, 1, 0, 4_294_967_290),
            Event(1, 1, 0, 0, 4_294_967_291),
            Forecast(1),
        ],
    },
];

/// Channels that are full or empty.
pub const CHANNELS: [Case; 1] = [Case {
    title: "a full channel and an empty one have no forecast",
    sheet: TICKER,
    rows: Rows::Windows(NO_ROWS),
    tick: 5,
    depth: 1,
    puts: &[
        Forecast(0),
        Forecast(1),
        Event(0, 0, 1, 0, 7),
        Forecast(0),
        Forecast(1),
        Event(1, 1, 0, 0, 9),
        Forecast(0),
        Forecast(1),
    ],
}];

/// Margins and slots.
pub const BOOKS: [Case; 5] = [
    Case {
        title: "a window 20 to 40",
        sheet: PACED,
        rows: Rows::Windows(LATE_WINDOW),
        tick: 1000,
        depth: 8,
        puts: &[
            Forecast(0),
            Event(0, 0, 1, 0, 1019),
            Event(0, 0, 1, 0, 1020),
            Forecast(0),
            Event(1, 1, 0, 0, 1041),
            Forecast(0),
        ],
    },
    Case {
        title: "the same under a margin of 3",
        sheet: PACED,
        rows: Rows::NearWindows(LATE_WINDOW, 3),
        tick: 1000,
        depth: 8,
        puts: &[
            Forecast(0),
            Event(0, 0, 1, 0, 1016),
            Event(0, 0, 1, 0, 1017),
            Event(0, 0, 1, 0, 1043),
            Event(0, 0, 1, 0, 1044),
            Forecast(0),
            Event(1, 1, 0, 0, 1044),
            Forecast(0),
        ],
    },
    Case {
        title: "slots 100, 10, 5",
        sheet: PACED,
        rows: Rows::Slots(SLOTS),
        tick: 1000,
        depth: 8,
        puts: &[
            Forecast(0),
            Event(0, 0, 1, 0, 1009),
            Event(0, 0, 1, 0, 1010),
            Event(0, 0, 1, 0, 1014),
            Event(0, 0, 1, 0, 1015),
            Event(1, 1, 0, 0, 1015),
            Forecast(0),
            Event(0, 0, 1, 0, 1110),
        ],
    },
    Case {
        title: "the same under a margin of 3",
        sheet: PACED,
        rows: Rows::NearSlots(SLOTS, 3),
        tick: 1000,
        depth: 8,
        puts: &[
            Forecast(0),
            Event(0, 0, 1, 0, 1017),
            Event(1, 1, 0, 0, 1018),
            Forecast(0),
        ],
    },
    Case {
        title: "the oven under a margin of 2",
        sheet: OVEN,
        rows: Rows::NearWindows(WINDOWS, 2),
        tick: 100,
        depth: 8,
        puts: &[
            Event(0, 0, 1, 0, 103),
            Event(1, 1, 0, 0, 108),
            Event(1, 1, 0, 0, 107),
            Event(1, 0, 0, 1, 124),
            Event(1, 0, 0, 1, 125),
            Event(0, 1, 1, 1, 130),
        ],
    },
];
