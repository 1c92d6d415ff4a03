//! How often a session asks its book.

use crate::calls::{ask, opened};
use crate::counted::{Asked, Counted};
use crate::put::Put;
use books::windows::Windows;
use std::sync::atomic::Ordering;
use stops::stop::Stop;

/// How often a session's book is asked `holds`, and `next`, for all that is put to the session.
// A sheet's bytes and a book: `Case` has them with a title and calls, which this does not need.
pub fn questions(bytes: &[u8], book: Windows, puts: &[Put]) -> Result<(u32, u32), Stop> {
    let asked = Asked::default();
    let counted = Counted {
        below: book,
        asked: &asked,
    };
    let mut session = opened(bytes, counted, 0, 8)?;
    for put in puts {
        let _ = ask(&mut session, *put);
    }
    Ok((
        asked.holds.load(Ordering::SeqCst),
        asked.nexts.load(Ordering::SeqCst),
    ))
}
