//! The calls that are tried.

use crate::put::Put;
use books::time_book::TimeBook;
use events::call::{Call, Reply};
use parting::accepted::Accepted;
use parting::part::part;
use reading::read::read;
use session::session::Session;
use stops::stop::Stop;

/// The sheet of these bytes, read and parted.
pub fn accepted(bytes: &[u8]) -> Result<Accepted, Stop> {
    Ok(part(read(bytes)?)?)
}

/// A session on the sheet of these bytes.
pub fn opened<B: TimeBook + Drop>(
    bytes: &[u8],
    book: B,
    tick: u32,
    depth: u8,
) -> Result<Session<B>, Stop> {
    Ok(Session::open(accepted(bytes)?, book, tick, depth)?)
}

/// What a session says to what is put to it.
pub fn ask<B: TimeBook>(session: &mut Session<B>, put: Put) -> Result<Reply, Stop> {
    Ok(session.ask(Call::from(put))?)
}
