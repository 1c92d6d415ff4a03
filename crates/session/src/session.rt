//! A session.

use crate::inner::Inner;
use parting::accepted::Accepted;

/// A session: the accepted sheet and the book that it watches by, held by value until it is closed, and what changes.
/// It is neither `Copy` nor `Clone`: closing uses it up.
// That it watches a sheet is a clause of each call and no ghost field: neither the sheet nor the events that passed
// stand in a field of it.
#[derive(Drop)]
pub struct Session<B> {
    pub(crate) accepted: Accepted,
    pub(crate) book: B,
    pub(crate) inner: Inner,
}
