//! The runs of `settle`, `merge` and `prove` that the documentation names, over files in memory, and
//! runs in which the shelf or the sink fails.

use crate::asserts::assert_equal;
use crate::test_runs::{run, shelf_with};
use brake_io::{MemShelf, MemSink};
use command_runner::Status;
use std::alloc::{AllocError, Global};
use std::test::Fail;
use test_fixtures::{STAGE, U_CHANNEL};

/// A range of all sets of the U channel that leave a bend unfolded.
const WHOLE: &[&str] = &["settle", "part", "tools", "machine", "out", "0", "2"];
/// The set without a bend.
const X: &[&str] = &["settle", "part", "tools", "machine", "x", "0", "0"];
/// The sets of one bend.
const Y: &[&str] = &["settle", "part", "tools", "machine", "y", "1", "2"];
/// The set without a bend, over the sets of one.
const X_OVER_Y: &[&str] = &["settle", "part", "tools", "machine", "out", "0", "0", "y"];

const MERGE: &[&str] = &["merge", "x", "y", "out"];

const MERGE_TURNED: &[&str] = &["merge", "y", "x", "turned"];

const PROVE: &[&str] = &["prove", "x"];

/// The line of tables that are of different jobs.
const OTHER_JOB: &str = "table refused job\n";
/// The line of a range that isn't one of the job's sets.
const NO_RANGE: &str = "refused range\n";

/// Runs the command of these words. How it ends, and what it puts.
fn answer_to(
    alloc: Global,
    words: &[&str],
    shelf: &mut MemShelf,
) -> Result<(Status, MemSink), AllocError> {
    let mut out = MemSink::new(alloc);
    let status = run(alloc, words, shelf, &mut out)?;
    Ok((status, out))
}

/// A shelf with the files of the U channel with legs of 80,000, which has no plan.
fn long_legs(alloc: Global) -> Result<MemShelf, AllocError> {
    let part = U_CHANNEL.replacen(alloc, "length = 30000", "length = 80000", 2)?;
    shelf_with(alloc, &part, STAGE)
}

/// The same with the tables X and Y.
fn shelf_of_tables(alloc: Global) -> Result<MemShelf, AllocError> {
    let mut shelf = long_legs(alloc)?;
    for words in [X, Y] {
        answer_to(alloc, words, &mut shelf)?;
    }
    Ok(shelf)
}

#[test]
fn settled_merged_and_proved(rt: HostRuntime) -> Result<(), Fail> {
    let alloc = rt.alloc();
    let mut shelf = long_legs(alloc)?;
    for (words, status, text) in [
        (X, Status::Done, "rows 24\nat least 200\n"),
        (Y, Status::Done, "rows 48\nat least 200\n"),
        (X_OVER_Y, Status::NoPlan, "rows 72\nno plan\n"),
        (&["prove", "out"], Status::NoPlan, "rows 72\nno plan\n"),
        (MERGE, Status::Done, "rows 72\nat least 200\n"),
        (MERGE_TURNED, Status::Done, "rows 72\nat least 200\n"),
        (PROVE, Status::Done, "rows 24\nat least 200\n"),
        (
            &["prove", "turned"],
            Status::Done,
            "rows 72\nat least 200\n",
        ),
    ] {
        let (ended, out) = answer_to(alloc, words, &mut shelf)?;
        assert_equal(&rt, &ended, &status);
        assert_equal(&rt, &out.bytes(), &text.as_bytes());
    }
    assert!(rt; shelf.bytes_of("out").is_some());
    assert_equal(&rt, &shelf.bytes_of("out"), &shelf.bytes_of("turned"));
    Ok(())
}

#[test]
fn a_whole_range_proves_the_least_cost(rt: HostRuntime) -> Result<(), Fail> {
    let alloc = rt.alloc();
    let mut shelf = shelf_with(alloc, U_CHANNEL, STAGE)?;
    let (status, out) = answer_to(alloc, WHOLE, &mut shelf)?;
    assert_equal(&rt, &status, &Status::Done);
    assert_equal(&rt, &out.bytes(), &"rows 72\nat least 200\n".as_bytes());
    let (status, out) = answer_to(alloc, &["prove", "out"], &mut shelf)?;
    assert_equal(&rt, &status, &Status::Done);
    assert_equal(&rt, &out.bytes(), &"rows 72\nat least 200\n".as_bytes());
    Ok(())
}

/// A range that isn't in order.
const TURNED: &[&str] = &["settle", "part", "tools", "machine", "out", "2", "1"];
/// A range with the set of all bends.
const TOO_HIGH: &[&str] = &["settle", "part", "tools", "machine", "out", "0", "3"];

const NONE: &[&str] = &["settle", "part", "tools", "machine", "out", "0", "0"];
/// The same over a base that isn't held to be a table.
const OVER_PART: &[&str] = &[
    "settle", "part", "tools", "machine", "out", "0", "0", "part",
];

const TOO_HIGH_OVER: &[&str] = &[
    "settle", "part", "tools", "machine", "out", "0", "3", "part",
];

/// A part of one face.
const FLAT: &str = "material = \"S235\"
thickness = 2000
radius = 2000
[[face]]
name = \"base\"
width = 100000
length = 50000
";

#[test]
fn refused_files_and_ranges(rt: HostRuntime) -> Result<(), Fail> {
    let alloc = rt.alloc();
    for (words, part, status, text) in [
        (TURNED, U_CHANNEL, Status::Refused, NO_RANGE),
        (TOO_HIGH, U_CHANNEL, Status::Refused, NO_RANGE),
        (NONE, FLAT, Status::Refused, NO_RANGE),
        (TOO_HIGH_OVER, U_CHANNEL, Status::Refused, NO_RANGE),
        (TOO_HIGH, "= 1", Status::Refused, "refused part 1\n"),
        (OVER_PART, "= 1", Status::Refused, "refused part 1\n"),
        (
            OVER_PART,
            U_CHANNEL,
            Status::CertRefused,
            "table refused 5 1 1 1\n",
        ),
    ] {
        let mut shelf = shelf_with(alloc, part, STAGE)?;
        let (ended, out) = answer_to(alloc, words, &mut shelf)?;
        assert_equal(&rt, &ended, &status);
        assert_equal(&rt, &out.bytes(), &text.as_bytes());
        assert!(rt; shelf.bytes_of("out").is_none());
    }
    Ok(())
}

/// Runs the command of these words on a shelf where the text of a table is altered in one place. How
/// it ends, and what it puts.
fn answer_to_altered(
    alloc: Global,
    words: &[&str],
    name: &str,
    old: &str,
    new: &str,
) -> Result<(Status, MemSink), Fail> {
    let mut shelf = shelf_of_tables(alloc)?;
    let text = match shelf.bytes_of(name) {
        Some(bytes) => str::from_utf8(bytes)?.replacen(alloc, old, new, 1)?,
        None => String::new(alloc),
    };
    shelf.add(name, text.as_bytes())?;
    Ok(answer_to(alloc, words, &mut shelf)?)
}

#[test]
fn refused_tables(rt: HostRuntime) -> Result<(), Fail> {
    let alloc = rt.alloc();
    for (words, name, old, new, text) in [
        (PROVE, "x", "\nend\n", "\n", "table refused 1 1 2\n"),
        (PROVE, "x", "\nend\n", "\nend\n\n", "table refused 1 1 3\n"),
        (
            PROVE,
            "x",
            "brake-table 1",
            "brake-cert 2",
            "table refused 1 1 1 1\n",
        ),
        (
            PROVE,
            "x",
            "row 0 1 0 ",
            "row 0 1 0 0",
            "table refused 1 1 1 24\n",
        ),
        (PROVE, "x", "gang 0", "gang 2", "table refused 1 1 4\n"),
        (
            PROVE,
            "x",
            "row 0 0 0 200",
            "row 0 0 0 201",
            "table refused 1 3 0 1\n",
        ),
        (
            PROVE,
            "x",
            "row 0 1 0 220",
            "x 1 P 0 8\nrow 0 1 0 220",
            "table refused 1 2 0 0\n",
        ),
        (MERGE, "x", "\nend\n", "\n", "table refused 1 1 2\n"),
        (MERGE, "y", "\nend\n", "\n", "table refused 2 1 2\n"),
        (MERGE, "y", "force 0", "force 1", OTHER_JOB),
        (X_OVER_Y, "y", "\nend\n", "\n", "table refused 5 1 2\n"),
        (X_OVER_Y, "y", "force 0", "force 1", OTHER_JOB),
    ] {
        let (status, out) = answer_to_altered(alloc, words, name, old, new)?;
        assert_equal(&rt, &status, &Status::CertRefused);
        assert_equal(&rt, &out.bytes(), &text.as_bytes());
    }
    Ok(())
}

#[test]
fn each_call_failing_in_turn(rt: HostRuntime) -> Result<(), Fail> {
    let alloc = rt.alloc();
    for (words, call, put, status, written, is_stored) in [
        (X_OVER_Y, 1, 0, Status::Fault, "", false),
        (X_OVER_Y, 4, 0, Status::Fault, "", false),
        (X_OVER_Y, 5, 0, Status::Fault, "", false),
        (X_OVER_Y, 0, 1, Status::Fault, "", true),
        (X_OVER_Y, 0, 2, Status::Fault, "rows 72\n", true),
        (X_OVER_Y, 6, 3, Status::NoPlan, "rows 72\nno plan\n", true),
        (MERGE, 2, 0, Status::Fault, "", false),
        (MERGE, 3, 0, Status::Fault, "", false),
        (MERGE, 0, 2, Status::Fault, "rows 72\n", true),
        (MERGE, 4, 3, Status::Done, "rows 72\nat least 200\n", true),
        (PROVE, 1, 0, Status::Fault, "", false),
        (PROVE, 0, 1, Status::Fault, "", false),
        (PROVE, 2, 3, Status::Done, "rows 24\nat least 200\n", false),
    ] {
        let mut shelf = shelf_of_tables(alloc)?;
        let calls = if call == 0 { 0 } else { 8 + call };
        shelf.fail_at(calls)?;
        let mut out = MemSink::new(alloc);
        out.fail_at(put, 0);
        assert_equal(&rt, &run(alloc, words, &mut shelf, &mut out)?, &status);
        assert_equal(&rt, &out.bytes(), &written.as_bytes());
        assert_equal(&rt, &shelf.bytes_of("out").is_some(), &is_stored);
    }
    Ok(())
}
