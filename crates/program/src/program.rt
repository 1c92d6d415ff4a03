//! What a watching program does with its input and its output.

use arguments::input::answer_input;
use console::read_book::ReadBook;
use console::run::run;
use input::split::MOST_INPUT;
use std::io;

/// Reads standard input to its end and prints what `run` answers.
pub fn watch<B: ReadBook + Drop>(rt: &HostRuntime) -> io::Result<()> {
    answer_input(rt, MOST_INPUT, |heap, bytes| run::<B>(heap, bytes))
}
