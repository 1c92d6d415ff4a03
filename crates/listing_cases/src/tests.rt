//! The oven sheet, whole and damaged, and a sheet that has no parts.

ghost use Rattle.std.specs.Prelude.{◌+◌, ◌≤◌, length};

use listing::list::{MOST_INPUT, list};
use std::process::Abort;
use std::test::Fail;

const OVEN: [u8; 76] = [
    0x01, 0x02, 0x03, 0x03, 0x02, // edition, counts
    0x00, 0x25, 0x00, 0x04, // pair 0
    0x00, 0x29, 0x00, 0x04, // pair 1
    0x00, 0x2D, 0x00, 0x04, // pair 2
    0x00, 0x31, 0x00, 0x03, // pair 3
    0x00, 0x34, 0x00, 0x05, // pair 4
    0x00, 0x39, 0x00, 0x07, // pair 5
    0x00, 0x40, 0x00, 0x0C, // pair 6
    0x00, 0x4C, 0x00, 0x00, // pair 7
    0x4D, 0x41, 0x49, 0x4E, 0x4F, 0x56, 0x45, 0x4E, // MAIN, OVEN
    0x48, 0x45, 0x41, 0x54, 0x48, 0x4F, 0x54, 0x46, 0x41, 0x55, 0x4C, 0x54, // HEAT, HOT, FAULT
    0x00, 0x01, 0x00, 0x01, 0xFF, 0x00, 0x03, // state 0
    0x01, 0x00, 0x01, 0x02, 0x01, 0xFF, 0x00, 0x02, 0x02, 0xFF, 0xFF, 0x00, // state 1
];

const PAGE: &str = "\
SHEET 2 modules, 3 labels, 3 states, 2 time rows
MODULE 0 MAIN
MODULE 1 OVEN
LABEL 0 HEAT
LABEL 1 HOT
LABEL 2 FAULT
STATE 0 MAIN to OVEN
  HEAT, then state 1: send any time, take in row 0, resets both clocks
STATE 1 OVEN to MAIN
  HOT, then state 2: send in row 1, take any time, resets no clock
  FAULT, then state 2: send any time, take any time, resets no clock
STATE 2 end
PART MAIN
  set 0, states 0: sends to OVEN
    HEAT any time, resets its clock, then set 1
  set 1, states 1: takes from OVEN
    HOT any time, keeps its clock, then set 2
    FAULT any time, keeps its clock, then set 2
  set 2, states 2: finished
PART OVEN
  set 0, states 0: takes from MAIN
    HEAT in row 0, resets its clock, then set 1
  set 1, states 1: sends to MAIN
    HOT in row 1, keeps its clock, then set 2
    FAULT any time, keeps its clock, then set 2
  set 2, states 2: finished
";

// Three modules: after NO the module C is never told that nothing comes.
const UNTOLD: [u8; 63] = [
    0x01, 0x03, 0x02, 0x03, 0x00, 0x00, 0x25, 0x00, 0x01, 0x00, 0x26, 0x00, 0x01, 0x00, 0x27, 0x00,
    0x01, 0x00, 0x28, 0x00, 0x02, 0x00, 0x2A, 0x00, 0x02, 0x00, 0x2C, 0x00, 0x0C, 0x00, 0x38, 0x00,
    0x07, 0x00, 0x3F, 0x00, 0x00, 0x41, 0x42, 0x43, 0x47, 0x4F, 0x4E, 0x4F, 0x00, 0x01, 0x00, 0x01,
    0xFF, 0xFF, 0x00, 0x01, 0x02, 0xFF, 0xFF, 0x00, 0x01, 0x02, 0x00, 0x02, 0xFF, 0xFF, 0x00,
];

const UNTOLD_PAGE: &str = "\
SHEET 3 modules, 2 labels, 3 states, 0 time rows
MODULE 0 A
MODULE 1 B
MODULE 2 C
LABEL 0 GO
LABEL 1 NO
STATE 0 A to B
  GO, then state 1: send any time, take any time, resets no clock
  NO, then state 2: send any time, take any time, resets no clock
STATE 1 B to C
  GO, then state 2: send any time, take any time, resets no clock
STATE 2 end
STOP 24 UNTOLD 2 0
";

// The oven sheet with some of its bytes changed, from that offset on.
fn damaged(at: usize, bytes: &[u8]) -> [u8; 76]
    requires { at + length bytes.now ≤ 76 }
{
    let mut sheet = OVEN;
    sheet[at..at + bytes.len()].copy_from_slice(bytes);
    sheet
}

fn check_listed(rt: &(impl Abort + AllocGlobal), input: &[u8], told: &str) -> Result<(), Fail> {
    let text = list(rt.alloc(), input)?;
    assert!(rt; text.as_slice() == told.as_bytes(), "{}", told);
    Ok(())
}

#[test]
fn page_of_the_oven(rt: HostRuntime) -> Result<(), Fail> {
    check_listed(&rt, &OVEN, PAGE)
}

#[test]
fn stop_of_parting_after_the_page(rt: HostRuntime) -> Result<(), Fail> {
    check_listed(&rt, &UNTOLD, UNTOLD_PAGE)
}

#[test]
fn stops_of_the_header_and_the_pairs(rt: HostRuntime) -> Result<(), Fail> {
    check_listed(&rt, &OVEN[0..4], "STOP 1 SHORT 4 0\n")?;
    check_listed(&rt, &OVEN[0..36], "STOP 1 SHORT 36 0\n")?;
    check_listed(&rt, &damaged(0, &[2]), "STOP 2 EDITION 0 0\n")?;
    check_listed(&rt, &damaged(3, &[65]), "STOP 3 COUNT 3 0\n")?;
    check_listed(&rt, &damaged(10, &[0x2A]), "STOP 4 PAIR 1 0\n")
}

#[test]
fn stops_of_the_names_and_the_states(rt: HostRuntime) -> Result<(), Fail> {
    check_listed(&rt, &damaged(38, &[0x20]), "STOP 5 BYTE 38 0\n")?;
    check_listed(&rt, &damaged(41, b"MAIN"), "STOP 6 TWICE 1 0\n")?;
    check_listed(&rt, &damaged(63, &[4]), "STOP 7 STATE 63 0\n")
}

#[test]
fn too_long(rt: HostRuntime) -> Result<(), Fail> {
    let mut input = vec![in rt.alloc(); 0; MOST_INPUT]?;
    check_listed(&rt, input.as_slice(), "STOP 2 EDITION 0 0\n")?;
    input.push(0)?;
    check_listed(&rt, input.as_slice(), "STOP 61 CUT 0 0\n")
}
