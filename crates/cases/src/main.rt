//! Tries sessions on bytes and prints, for each case, what was put and what was said.

#![tactic(auto)]

mod shown;

use arguments::task::run;
use shown::{reported, returned, tried};
use std::io;
use trials::{forecasts, sheets, sittings, stopped};

const HELP: &str = "\
cases reads nothing. It tries worked cases on the proved library: it reads sheets
and books from bytes, parts the sheets, opens sessions, puts events and forecasts
to them and closes them. It prints a line for each case and below it one for each
call, with what was answered: PASS and the answer, STOP, its number and both
places, a forecast's tick or none, and what closing says.

Example:

    target/bin/cases
";

fn main(rt: HostRuntime) -> io::Result<()> {
    run(&rt, HELP, try_all)
}

fn try_all(rt: &HostRuntime) -> io::Result<()> {
    shown::sets(rt, "the oven's MAIN, sets as masks", sheets::OVEN, 0)?;
    shown::sets(rt, "the relay's C", sheets::RELAY, 2)?;
    shown::sets(
        rt,
        "every branch of a state that does not name C is followed: else the sheet would be accepted",
        sheets::UNTOLD,
        2,
    )?;
    tried(rt, &sittings::OVENS)?;
    tried(rt, &sittings::TICKERS)?;
    tried(rt, &sittings::FALSE_READINGS)?;
    tried(rt, &sittings::EARLY)?;
    tried(rt, &stopped::openings())?;
    tried(rt, &stopped::UNKNOWN)?;
    tried(rt, &stopped::UNTIMELY)?;
    tried(rt, &forecasts::LAST_TICKS)?;
    tried(rt, &forecasts::CHANNELS)?;
    tried(rt, &forecasts::BOOKS)?;
    returned(rt)?;
    reported(rt)
}
