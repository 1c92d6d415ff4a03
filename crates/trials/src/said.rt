//! What a session says, as it is printed.

use events::call::Reply;
use std::fmt;
use stops::stop::Stop;

/// A stop: its number and its places.
#[derive(Clone, Copy)]
pub struct Stopped(pub Stop);

/// What is said to what was put: a pass with its number, a forecast, or that there is none; or a stop.
#[derive(Clone, Copy)]
pub struct Said(pub Result<Reply, Stop>);

/// What closing says, and an opening that is only tried: 0, or a stop.
#[derive(Clone, Copy)]
pub struct Ended(pub Result<(), Stop>);

impl fmt::Display for Stopped {
    fn fmt<W: fmt::Write>(&self, f: &mut fmt::Formatter<W>) -> fmt::Result {
        let Stop {
            number,
            first,
            second,
            ..
        } = self.0;
        write!(f, "STOP {number} {first} {second}")
    }
}

impl fmt::Display for Said {
    fn fmt<W: fmt::Write>(&self, f: &mut fmt::Formatter<W>) -> fmt::Result {
        match self.0 {
            Ok(Reply::Passed { answer }) => write!(f, "PASS {answer}"),
            Ok(Reply::Next { tick: Some(tick) }) => write!(f, "{tick}"),
            Ok(Reply::Next { tick: None }) => write!(f, "none"),
            Err(stop) => Stopped(stop).fmt(f),
        }
    }
}

impl fmt::Display for Ended {
    fn fmt<W: fmt::Write>(&self, f: &mut fmt::Formatter<W>) -> fmt::Result {
        match self.0 {
            Ok(()) => write!(f, "0"),
            Err(stop) => Stopped(stop).fmt(f),
        }
    }
}
