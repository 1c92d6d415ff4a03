//! Compares the books with a plain search over what their rows mean, and prints how many answers differ.
#![tactic(auto)]

mod compare;
mod kinds;
mod plain;
mod readings;
mod tables;

use arguments::task::run;
use books::cases::worked_cases;
use books::fault::BookFault;
use books::slots::Slots;
use books::windows::Windows;
use compare::Tally;
use plain::PlainRows;
use std::io;
use tables::{SLOTS, WINDOWS, bytes_of};

/// The margins' widths that are tried over another firm's book, the widest among them.
const WIDTHS: [(u32, u32); 8] = [
    (0, 0),
    (0, 9),
    (9, 0),
    (3, 4),
    (150, 150),
    (4_294_967_295, 0),
    (5, 4_294_967_290),
    (4_294_967_295, 4_294_967_295),
];

const HELP: &str = "\
book_trials reads nothing. It compares the proved books with a plain search over
what their rows mean, and prints for each kind of book how many questions were
asked and how many answers differ, how many questions a margin costs the book
below, and the worked cases of the books.

Example:

    target/bin/book_trials
";

fn main(rt: HostRuntime) -> io::Result<()> {
    run(&rt, HELP, try_all)
}

fn try_all(rt: &HostRuntime) -> io::Result<()> {
    let windows = PlainRows { rows: &WINDOWS };
    let slots = PlainRows { rows: &SLOTS };
    let window_bytes: [u8; 96] = bytes_of(&WINDOWS);
    let slot_bytes: [u8; 144] = bytes_of(&SLOTS);
    let near_windows = |by| kinds::near(Windows::read(&window_bytes), windows, by);
    let near_slots = |by| kinds::near(Slots::read(&slot_bytes), slots, by);
    report(
        rt,
        "windows",
        kinds::beside(Windows::read(&window_bytes), &windows),
    )?;
    report(rt, "slots", kinds::beside(Slots::read(&slot_bytes), &slots))?;
    report(rt, "windows, margin 0", near_windows(0))?;
    report(rt, "windows, margin 2", near_windows(2))?;
    report(rt, "windows, margin 50", near_windows(50))?;
    report(rt, "slots, margin 3", near_slots(3))?;
    report(rt, "slots, margin 60", near_slots(60))?;
    report(rt, "marks", Ok(kinds::marked()))?;
    for (inner, outer) in WIDTHS {
        println!(rt; "margin {outer} over margin {inner}")?;
        report(
            rt,
            "marks, two margins",
            Ok(kinds::piled_marks(inner, outer)),
        )?;
        report(rt, "marks, merged", Ok(kinds::merged_marks(inner, outer)))?;
    }
    report(rt, "lengths of bytes", Ok(readings::lengths()))?;
    report(rt, "first bad rows", Ok(readings::first_bad_rows()))?;
    report(rt, "stops", Ok(readings::stops()))?;
    costs(rt)?;
    cases(rt)
}

/// Prints how a trial went.
fn report(rt: &HostRuntime, name: &str, outcome: Result<Tally, BookFault>) -> io::Result<()> {
    match outcome {
        Ok(Tally { asked, differ }) => println!(rt; "{name}: {asked} asked, {differ} differ"),
        Err(_) => println!(rt; "{name}: no book"),
    }
}

/// Prints how many questions two questions to a margin cost the book below, and two to a margin over it.
fn costs(rt: &HostRuntime) -> io::Result<()> {
    for by in [0u32, 3, 4_294_967_295] {
        match kinds::questions(by) {
            Ok((once, twice)) => println!(rt;
                "margin {by}: {once} questions below, piled {twice}"
            )?,
            Err(_) => println!(rt; "margin {by}: no book")?,
        }
    }
    Ok(())
}

/// Prints the worked cases.
fn cases(rt: &HostRuntime) -> io::Result<()> {
    match worked_cases() {
        Ok(cases) => {
            let slots = cases.slots;
            let near_window = cases.near_window;
            let near_slots = cases.near_slots;
            println!(rt; "slots 100 10 5, next of 9, 14, 15, 4294967280: {slots:?}")?;
            println!(rt; "window 20 40, margin 2, at 18, 42, 17, 43: {near_window:?}")?;
            println!(rt; "slots 100 10 5, margin 3, next of 18: {near_slots:?}")
        }
        Err(_) => println!(rt; "worked cases: no book"),
    }
}
