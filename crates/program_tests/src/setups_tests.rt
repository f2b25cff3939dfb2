//! The runs of `setups` that the documentation names, over files in memory, and runs in which the
//! shelf or the sink fails.

use crate::asserts::assert_equal;
use crate::test_runs::{run, shelf_with};
use brake_io::{MemShelf, MemSink};
use command_runner::Status;
use std::alloc::{AllocError, Global};
use std::test::Fail;
use test_fixtures::L_SECTION;

/// Three setups of one stage each: one too short for the L section, one whose length no pieces make
/// up, and one that is wide enough.
const THREE: &str = "[[setup]]
name = \"small\"
[[setup.stage]]
punch = \"P100\"
die = \"D16\"
at = 200000
length = 60000
[[setup]]
name = \"odd\"
[[setup.stage]]
punch = \"P100\"
die = \"D16\"
at = 200000
length = 50000
[[setup]]
name = \"wide\"
[[setup.stage]]
punch = \"P100\"
die = \"D16\"
at = 200000
length = 105000
";

/// What `setups` puts for the L section and these.
const BEST: &str = "blank
size 100000 76162
face 0 base 0 0 100000 48081
face 1 leg 0 48081 100000 76162
bend 1 0 48081 100000 48081 up
try 0 small none
try 1 odd short
try 2 wide 100
best 2
setup
stage 0 P100 D16 200000 305000
pieces 60000 45000
order 1
step 1 bend 1 leg back child stage 0 turn none gauge 28081 fingers 1 207500 1 287500 cost 100
total 100
";

/// The same where the last is as short as the first.
const NO_PLAN: &str = "blank
size 100000 76162
face 0 base 0 0 100000 48081
face 1 leg 0 48081 100000 76162
bend 1 0 48081 100000 48081 up
try 0 small none
try 1 odd short
try 2 wide none
no plan
";

/// The setup whose length no pieces make up.
const ODD: &str = "name = \"odd\"
[[setup.stage]]
punch = \"P100\"";

/// The same with a punch that the shop doesn't have.
const UNKNOWN: &str = "name = \"odd\"
[[setup.stage]]
punch = \"P9\"";

/// The words of `setups`.
const WORDS: &[&str] = &["setups", "part", "tools", "machine", "list", "best"];

/// A shelf with the L section's file, a tools file, a machine file and this setups file.
fn shelf_of(alloc: Global, setups: &str) -> Result<MemShelf, AllocError> {
    let mut shelf = shelf_with(alloc, L_SECTION, "")?;
    shelf.add("list", setups.as_bytes())?;
    Ok(shelf)
}

#[test]
fn lists_and_refusals(rt: HostRuntime) -> Result<(), Fail> {
    let alloc = rt.alloc();
    let without = THREE.replacen(alloc, "length = 105000", "length = 60000", 1)?;
    let unknown = THREE.replace(alloc, ODD, UNKNOWN)?;
    let same = THREE.replacen(alloc, "\"wide\"", "\"small\"", 1)?;
    for (setups, status, text) in [
        (THREE, Status::Done, BEST),
        (without.as_str(), Status::NoPlan, NO_PLAN),
        (
            unknown.as_str(),
            Status::Refused,
            "refused setups 6 1 3 0\n",
        ),
        (same.as_str(), Status::Refused, "refused setups 5 2\n"),
        ("[", Status::Refused, "refused setups 1\n"),
        ("", Status::Refused, "refused setups 2 0 1\n"),
    ] {
        let mut shelf = shelf_of(alloc, setups)?;
        let mut out = MemSink::new(alloc);
        assert_equal(&rt, &run(alloc, WORDS, &mut shelf, &mut out)?, &status);
        assert_equal(&rt, &out.bytes(), &text.as_bytes());
        let is_stored = status == Status::Done || status == Status::NoPlan;
        assert_equal(&rt, &shelf.bytes_of("best.0").is_some(), &is_stored);
        assert_equal(&rt, &shelf.bytes_of("best.1").is_some(), &false);
        assert_equal(&rt, &shelf.bytes_of("best.2").is_some(), &is_stored);
    }
    Ok(())
}

#[test]
fn each_stored_certificate_is_confirmed(rt: HostRuntime) -> Result<(), Fail> {
    let alloc = rt.alloc();
    let mut shelf = shelf_of(alloc, THREE)?;
    let mut sheets = MemSink::new(alloc);
    assert_equal(
        &rt,
        &run(alloc, WORDS, &mut shelf, &mut sheets)?,
        &Status::Done,
    );
    for (name, status, line) in [
        ("best.0", Status::NoPlan, "no plan\n"),
        ("best.2", Status::Done, "optimal 100\n"),
    ] {
        let mut out = MemSink::new(alloc);
        assert_equal(
            &rt,
            &run(alloc, &["check", name], &mut shelf, &mut out)?,
            &status,
        );
        assert_equal(&rt, &out.bytes(), &line.as_bytes());
    }
    Ok(())
}

#[test]
fn each_call_failing_in_turn(rt: HostRuntime) -> Result<(), Fail> {
    let alloc = rt.alloc();
    for (call, put, status, written, first, second) in [
        (1, 0, Status::Fault, 0, false, false),
        (4, 0, Status::Fault, 0, false, false),
        (5, 0, Status::Fault, 0, false, false),
        (6, 0, Status::Fault, 0, true, false),
        (0, 1, Status::Fault, 0, true, true),
        (0, 2, Status::Fault, 116, true, true),
        (7, 6, Status::Done, BEST.len(), true, true),
    ] {
        let mut shelf = shelf_of(alloc, THREE)?;
        shelf.fail_at(call)?;
        let mut out = MemSink::new(alloc);
        out.fail_at(put, 0);
        assert_equal(&rt, &run(alloc, WORDS, &mut shelf, &mut out)?, &status);
        assert_equal(&rt, &out.bytes().len(), &written);
        assert!(rt; BEST.as_bytes().starts_with(out.bytes()));
        assert_equal(&rt, &shelf.bytes_of("best.0").is_some(), &first);
        assert_equal(&rt, &shelf.bytes_of("best.2").is_some(), &second);
    }
    Ok(())
}
