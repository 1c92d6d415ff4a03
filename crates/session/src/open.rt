//! Opening a session.

ghost use Rattle.std.specs.Prelude.{◌≡◌, [], MatchResult};
ghost use Rattle.sheet.specs.Model.{Sheet};
ghost use Rattle.session.specs.Opening.{open_fault, fault_of};
ghost use Rattle.session.specs.Watches.{IsOf, SessionWatches};

use crate::inner::Inner;
use crate::record::Record;
use crate::session::Session;
use crate::unopened::Unopened;
use books::time_book::TimeBook;
use channels::channels::Channels;
use events::fault::SessionFault;
use parting::accepted::Accepted;

/// How many messages a channel has room for.
const DEEPEST: u8 = 8;

impl<B: TimeBook> Session<B> {
    /// Opens a session on an accepted sheet, by this book, from this tick on, with channels of this depth.
    ///
    /// It uses up the accepted sheet and holds the book by value, and gives both back where it is stopped: by a book with
    /// fewer rows than the sheet counts, or else by a depth that is not 1 to 8. No event has passed in it yet.
    // The parameters are the session's own parts: a struct of them would only be another session that is not open yet.
    pub fn open(
        accepted: Accepted,
        book: B,
        tick: u32,
        depth: u8,
    ) -> Result<Session<B>, Unopened<B>>
        ensures judged { fault_of result ≡ open_fault accepted.counts.rows (B.TimeBook.count book) depth }
        ensures whole { MatchResult result (λ s. (s.accepted ≡ accepted) × (s.book ≡ book) × ((sh : Sheet) → IsOf sh accepted → SessionWatches B.TimeBook.admits sh tick depth [] s)) (λ e. (e.accepted ≡ accepted) × (e.book ≡ book)) }
    {
        let rows = book.rows();
        if rows < accepted.counts().rows as usize {
            return Err(Unopened {
                accepted,
                book,
                fault: SessionFault::Book { rows },
            });
        }
        if depth < 1 || depth > DEEPEST {
            return Err(Unopened {
                accepted,
                book,
                fault: SessionFault::Depth { depth },
            });
        }
        let inner = Inner {
            records: [Record {
                set: 0,
                since: tick,
            }; 6],
            channels: Channels::empty(),
            latest: tick,
            depth,
        };
        Ok(Session {
            accepted,
            book,
            inner,
        })
    }

    /// Opens a session with depth 8.
    pub fn open_short(accepted: Accepted, book: B, tick: u32) -> Result<Session<B>, Unopened<B>>
        ensures judged { fault_of result ≡ open_fault accepted.counts.rows (B.TimeBook.count book) 8 }
        ensures whole { MatchResult result (λ s. (s.accepted ≡ accepted) × (s.book ≡ book) × ((sh : Sheet) → IsOf sh accepted → SessionWatches B.TimeBook.admits sh tick 8 [] s)) (λ e. (e.accepted ≡ accepted) × (e.book ≡ book)) }
    {
        Session::open(accepted, book, tick, DEEPEST)
    }
}
