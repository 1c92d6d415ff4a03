//! The oven and a sheet that has no parts, with whole and broken books and events.

use books::slots::Slots;
use books::windows::Windows;
use console::read_book::ReadBook;
use console::run::run;
use std::alloc::{AllocError, Global};
use std::process::Abort;
use std::test::Fail;

/// MAIN asks an OVEN for heat.
const OVEN: &[u8] =
    b"\x01\x02\x03\x03\x02\x00\x25\x00\x04\x00\x29\x00\x04\x00\x2D\x00\x04\x00\x31\x00\x03\x00\x34\x00\x05\x00\x39\x00\x07\x00\x40\x00\x0C\x00\x4C\x00\x00\x4D\x41\x49\x4E\x4F\x56\x45\x4E\x48\x45\x41\x54\x48\x4F\x54\x46\x41\x55\x4C\x54\x00\x01\x00\x01\xFF\x00\x03\x01\x00\x01\x02\x01\xFF\x00\x02\x02\xFF\xFF\x00";

/// Three modules: after NO the module C is never told that nothing comes.
const UNTOLD: &[u8] =
    b"\x01\x03\x02\x03\x00\x00\x25\x00\x01\x00\x26\x00\x01\x00\x27\x00\x01\x00\x28\x00\x02\x00\x2A\x00\x02\x00\x2C\x00\x0C\x00\x38\x00\x07\x00\x3F\x00\x00\x41\x42\x43\x47\x4F\x4E\x4F\x00\x01\x00\x01\xFF\xFF\x00\x01\x02\xFF\xFF\x00\x01\x02\x00\x02\xFF\xFF\x00";

/// 0 to 5 and 20 to 40.
const WINDOWS: &[u8] = b"\x00\x00\x00\x00\x00\x00\x00\x05\x00\x00\x00\x14\x00\x00\x00\x28";

/// The same within the first thousand ticks.
const SLOTS: &[u8] =
    b"\x00\x00\x03\xE8\x00\x00\x00\x00\x00\x00\x00\x06\x00\x00\x03\xE8\x00\x00\x00\x14\x00\x00\x00\x15";

/// Seven events, of which four pass.
const EVENTS: &[u8] =
    b"\x00\x00\x01\x00\x00\x00\x00\x67\x01\x01\x00\x00\x00\x00\x00\x6A\x01\x01\x00\x00\x00\x00\x00\x69\x01\x00\x00\x01\x00\x00\x00\x7C\x01\x00\x00\x01\x00\x00\x00\x7D\x00\x01\x01\x02\x00\x00\x00\x82\x00\x01\x01\x01\x00\x00\x00\x82";

const WATCHED: &str = "\
SHEET 2 3 3
1 PASS 1
2 STOP 47 TIME
3 PASS 2
4 STOP 47 TIME
5 PASS 1
6 STOP 45 LINE
7 PASS 5
END 0
";

/// The length in two bytes, and the bytes.
fn put_sized(input: &mut Vec<u8>, bytes: &[u8]) -> Result<(), AllocError> {
    let [.., high, low] = bytes.len().to_be_bytes();
    input.extend_from_slice(&[high, low])?;
    input.extend_from_slice(bytes)
}

/// An input that opens at tick 100.
fn input_of(heap: Global, sheet: &[u8], book: &[u8], events: &[u8]) -> Result<Vec<u8>, AllocError> {
    let mut input = Vec::new(heap);
    put_sized(&mut input, sheet)?;
    put_sized(&mut input, book)?;
    input.extend_from_slice(&100u32.to_be_bytes())?;
    input.extend_from_slice(events)?;
    Ok(input)
}

fn check_told<B: ReadBook + Drop>(
    rt: &(impl Abort + AllocGlobal),
    input: &[u8],
    told: &str,
) -> Result<(), Fail> {
    let text = run::<B>(rt.alloc(), input)?;
    assert!(rt; text.as_slice() == told.as_bytes(), "{}", told);
    Ok(())
}

/// What is printed by windows.
fn check_windows(
    rt: &(impl Abort + AllocGlobal),
    sheet: &[u8],
    book: &[u8],
    events: &[u8],
    told: &str,
) -> Result<(), Fail> {
    let input = input_of(rt.alloc(), sheet, book, events)?;
    check_told::<Windows>(rt, input.as_slice(), told)
}

#[test]
fn the_oven_is_watched(rt: HostRuntime) -> Result<(), Fail> {
    check_windows(&rt, OVEN, WINDOWS, EVENTS, WATCHED)?;
    let input = input_of(rt.alloc(), OVEN, SLOTS, EVENTS)?;
    check_told::<Slots>(&rt, input.as_slice(), WATCHED)
}

#[test]
fn no_events_leave_all_unfinished(rt: HostRuntime) -> Result<(), Fail> {
    check_windows(&rt, OVEN, WINDOWS, b"", "SHEET 2 3 3\nEND 51 EARLY 0\n")
}

#[test]
fn an_unfinished_module_is_told(rt: HostRuntime) -> Result<(), Fail> {
    check_windows(
        &rt,
        OVEN,
        WINDOWS,
        &EVENTS[0..8],
        "SHEET 2 3 3\n1 PASS 1\nEND 51 EARLY 0\n",
    )
}

#[test]
fn broken_inputs(rt: HostRuntime) -> Result<(), Fail> {
    let cut = "STOP 61 CUT 0 0\n";
    check_told::<Windows>(&rt, b"", cut)?;
    check_told::<Windows>(&rt, b"\x00", cut)?;
    // a byte of the sheet is missing
    check_told::<Windows>(&rt, b"\x00\x02\x01", cut)?;
    // the book is missing
    check_told::<Windows>(&rt, b"\x00\x00\x00", cut)?;
    // a byte of the opening tick is missing
    check_told::<Windows>(&rt, b"\x00\x00\x00\x00\x00\x00\x00", cut)?;
    // the last event has four bytes, and that comes before what is wrong with the sheet
    check_windows(&rt, b"", WINDOWS, &EVENTS[0..12], cut)
}

#[test]
fn a_stop_of_each_layer(rt: HostRuntime) -> Result<(), Fail> {
    check_windows(&rt, b"\x01", b"\x00", EVENTS, "STOP 1 SHORT 1 0\n")?;
    check_windows(&rt, UNTOLD, b"\x00", EVENTS, "STOP 11 ROWS 1 0\n")?;
    check_windows(
        &rt,
        UNTOLD,
        b"\x00\x00\x00\x02\x00\x00\x00\x01",
        EVENTS,
        "STOP 12 ROW 0 0\n",
    )?;
    check_windows(&rt, UNTOLD, WINDOWS, EVENTS, "STOP 24 UNTOLD 2 0\n")?;
    check_windows(&rt, OVEN, &WINDOWS[0..8], EVENTS, "STOP 31 BOOK 1 0\n")
}

#[test]
fn as_many_bytes_as_may_be(rt: HostRuntime) -> Result<(), Fail> {
    let mut input = Vec::new(rt.alloc());
    // A sheet of 65,528 bytes, no book, and the tick: the sheet is read, and its edition is 0.
    input.extend_from_slice(b"\xFF\xF8")?;
    let rest = vec![in rt.alloc(); 0; 65_534]?;
    input.extend_from_slice(rest.as_slice())?;
    check_told::<Windows>(&rt, input.as_slice(), "STOP 2 EDITION 0 0\n")?;
    input.push(0)?;
    check_told::<Windows>(&rt, input.as_slice(), "STOP 61 CUT 0 0\n")
}
