//! That a stopped opening and a closing give sheet and book back.

use crate::calls::{accepted, ask};
use crate::put::Put;
use books::windows::Windows;
use events::call::Reply;
use parting::accepted::Accepted;
use session::session::Session;
use stops::stop::Stop;

/// What the first session said, and what one opened with what it gave back says to HEAT.
pub type Again = (Result<(), Stop>, Result<Reply, Stop>);

/// What is put to each session that is opened.
const HEAT: Put = Put::Event(0, 0, 1, 0, 103);

/// A session opened with these.
fn opened_short(accepted: Accepted, book: Windows) -> Result<Session<Windows>, Stop> {
    Ok(Session::open_short(accepted, book, 100)?)
}

/// What a session opened with these says to HEAT.
fn heated(accepted: Accepted, book: Windows) -> Result<Reply, Stop> {
    ask(&mut opened_short(accepted, book)?, HEAT)
}

/// An opening with depth 0, and what a session opened with what it gave back says to HEAT.
// A sheet's bytes and a book: `Case` has them with a title and calls, which this does not need.
pub fn after_opening(bytes: &[u8], book: Windows) -> Result<Again, Stop> {
    match Session::open(accepted(bytes)?, book, 100, 0) {
        Ok(session) => {
            let closed = session.close();
            Ok((Ok(()), heated(closed.accepted, closed.book)))
        }
        Err(unopened) => Ok((
            Err(Stop::from(unopened.fault)),
            heated(unopened.accepted, unopened.book),
        )),
    }
}

/// What closing says after HEAT, and what a session opened with what it gave back says to HEAT.
// As `after_opening`.
pub fn after_closing(bytes: &[u8], book: Windows) -> Result<Again, Stop> {
    let mut session = opened_short(accepted(bytes)?, book)?;
    let _ = ask(&mut session, HEAT);
    let closed = session.close();
    Ok((
        closed.closing.map_err(Stop::from),
        heated(closed.accepted, closed.book),
    ))
}
