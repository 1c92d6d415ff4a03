//! Prints what is tried.

use books::fault::BookFault;
use books::margin::Margin;
use books::slots::Slots;
use books::time_book::TimeBook;
use books::windows::Windows;
use session::session::Session;
use std::io;
use stops::stop::Stop;
use trials::calls::{ask, opened};
use trials::case::{Case, Rows};
use trials::cost::questions;
use trials::parts::first_sets;
use trials::put::Put;
use trials::returned::{Again, after_closing, after_opening};
use trials::said::{Ended, Said, Stopped};
use trials::sheets;

/// Prints a role's sets, or the stop of reading or parting.
pub(crate) fn sets(rt: &HostRuntime, title: &str, sheet: &[u8], role: usize) -> io::Result<()> {
    match first_sets(sheet, role) {
        Ok(found) => {
            let (count, masks) = found;
            println!(rt; "{title}: {count} sets, {masks:?}")
        }
        Err(stop) => println!(rt; "{title}: {}", Stopped(stop)),
    }
}

/// Tries each case.
pub(crate) fn tried(rt: &HostRuntime, cases: &[Case]) -> io::Result<()> {
    for case in cases {
        println!(rt; "{}", case.title)?;
        watched(rt, case)?;
    }
    Ok(())
}

/// Reads the case's book and puts the case to a session with it.
fn watched(rt: &HostRuntime, case: &Case) -> io::Result<()> {
    // Each arm calls the generic function at another type of book.
    match case.rows {
        Rows::Windows(bytes) => put(rt, case, Windows::read(bytes)),
        Rows::Slots(bytes) => put(rt, case, Slots::read(bytes)),
        Rows::NearWindows(bytes, by) => put(rt, case, near(Windows::read(bytes), by)),
        Rows::NearSlots(bytes, by) => put(rt, case, near(Slots::read(bytes), by)),
    }
}

fn near<B: TimeBook + Drop>(book: Result<B, BookFault>, by: u32) -> Result<Margin<B>, BookFault> {
    Ok(Margin::over(book?, by))
}

/// Does something with a book, or prints why its bytes are none.
fn by_book<B, F: FnOnce(B) -> io::Result<()>>(
    rt: &HostRuntime,
    book: Result<B, BookFault>,
    work: F,
) -> io::Result<()>
    requires { F.IsAlwaysCallable work }
{
    match book {
        Ok(book) => work(book),
        Err(fault) => println!(rt; "  book: {}", Stopped(Stop::from(fault))),
    }
}

/// Opens the case's session, puts each call to it, and closes.
fn put<B: TimeBook + Drop>(
    rt: &HostRuntime,
    case: &Case,
    book: Result<B, BookFault>,
) -> io::Result<()> {
    by_book(
        rt,
        book,
        |book| match opened(case.sheet, book, case.tick, case.depth) {
            Ok(session) => put_all(rt, case.puts, session),
            Err(stop) => println!(rt; "  opening: {}", Stopped(stop)),
        },
    )
}

fn put_all<B: TimeBook + Drop>(
    rt: &HostRuntime,
    puts: &[Put],
    mut session: Session<B>,
) -> io::Result<()> {
    for put in puts {
        println!(rt; "  {put}: {}", Said(ask(&mut session, *put)))?;
    }
    let closing = session.close().closing.map_err(Stop::from);
    println!(rt; "  closing: {}", Ended(closing))
}

/// Sheet and book that come back from a stopped opening and from a closing.
pub(crate) fn returned(rt: &HostRuntime) -> io::Result<()> {
    println!(rt; "sheet and book come back, and open again")?;
    by_book(rt, Windows::read(sheets::WINDOWS), |book| {
        let again = after_opening(sheets::OVEN, book);
        pair(rt, "opening with depth 0", again)
    })?;
    by_book(rt, Windows::read(sheets::WINDOWS), |book| {
        let again = after_closing(sheets::OVEN, book);
        pair(rt, "closing after HEAT", again)
    })
}

fn pair(rt: &HostRuntime, what: &str, again: Result<Again, Stop>) -> io::Result<()> {
    match again {
        Ok((first, second)) => println!(rt;
            "  {what}: {}, opened again, 0 0 1 0 at 103: {}",
            Ended(first),
            Said(second)
        ),
        Err(stop) => println!(rt; "  {what}: {}", Stopped(stop)),
    }
}

/// How often a session asks its book.
pub(crate) fn reported(rt: &HostRuntime) -> io::Result<()> {
    println!(rt; "questions to the book, holds and next")?;
    asked(
        rt,
        "a forecast of a role with eight labels, each with a row",
        sheets::EIGHT,
        &[Put::Forecast(0)],
    )?;
    asked(
        rt,
        "a forecast of a role with nothing to take",
        sheets::EIGHT,
        &[Put::Forecast(1)],
    )?;
    asked(
        rt,
        "a sending, and a forecast of the role that takes",
        sheets::EIGHT,
        &[Put::Event(0, 0, 1, 7, 20), Put::Forecast(1)],
    )?;
    asked(
        rt,
        "a forecast of a role that sends at any time",
        sheets::TICKER,
        &[Put::Forecast(0)],
    )
}

fn asked(rt: &HostRuntime, what: &str, sheet: &[u8], puts: &[Put]) -> io::Result<()> {
    by_book(rt, Windows::read(sheets::LATE_WINDOW), |book| {
        match questions(sheet, book, puts) {
            Ok((holds, nexts)) => println!(rt; "  {what}: {holds} and {nexts}"),
            Err(stop) => println!(rt; "  {what}: {}", Stopped(stop)),
        }
    })
}
