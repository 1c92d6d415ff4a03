//! Watches the events in its input by a book of windows.

#![tactic(auto)]

use arguments::task::run;
use books::windows::Windows;
use program::program::watch;
use std::io;

// The text of watch_slots has other words and other line ends, so each stands whole.
const HELP: &str = "\
watch reads a sheet, a book of windows, an opening tick and events from standard
input, and passes or stops each event.

What it reads, every number with its high byte first: the sheet's length in 2
bytes and the sheet, the book's length in 2 bytes and the book, the opening tick
in 4 bytes, and 8 bytes for each event: module, direction (0 sends, 1 takes),
partner, label, and the tick in 4 bytes. A row of the book is 8 bytes: the lowest
and the highest value of the clock, 4 bytes each. The input has at most 65,536
bytes.

It prints SHEET and how many modules, labels and states there are; then each
event's number, from 1, with PASS and its answer, or with STOP, the number of the
stop and its word; at last END and 0, or END 51 EARLY and the lowest module that
is not finished. A sending that passes answers how many messages then wait in its
line, a taking for how many ticks its message was under way.

If the input is broken, or no session can be opened on its sheet and book, it
prints one line instead: STOP, the number of the stop, its word, and two places.

Example:

    target/bin/watch < examples/oven.watch
";

fn main(rt: HostRuntime) -> io::Result<()> {
    run(&rt, HELP, watch::<Windows>)
}
