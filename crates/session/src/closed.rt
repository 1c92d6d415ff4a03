//! A session that is closed.

use events::closing::Early;
use parting::accepted::Accepted;

/// A session that is closed: the accepted sheet and the book that it was opened with, and what closing answers.
#[derive(Drop)]
pub struct Closed<B> {
    pub accepted: Accepted,
    pub book: B,
    pub closing: Result<(), Early>,
}
