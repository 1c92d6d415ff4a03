//! Reads a sheet from standard input and prints what it says.

#![tactic(auto)]

use arguments::input::answer_input;
use arguments::task::run;
use listing::list::{MOST_INPUT, list};
use std::io;

const HELP: &str = "\
inspect reads a sheet from standard input and prints what it says: how many
modules, labels, states and time rows it has, the names with their numbers, each
state with its sender, its receiver and its branches, and then each module's part:
its sets of states, what it does in each, and how it goes on.

If some module has no part, the line of a stop stands in place of the parts.

If the bytes are no sheet, it prints one line instead: STOP, the number of the
stop, its word, and two places.

Example:

    target/bin/inspect < examples/oven.sheet
";

fn inspect(rt: &HostRuntime) -> io::Result<()> {
    answer_input(rt, MOST_INPUT, |heap, bytes| list(heap, bytes))
}

fn main(rt: HostRuntime) -> io::Result<()> {
    run(&rt, HELP, inspect)
}
