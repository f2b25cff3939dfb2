//! The runs of `why` that the documentation names, over files in memory, and runs in which the
//! shelf or the sink fails.

use crate::asserts::assert_equal;
use crate::test_runs::{run, shelf_with};
use brake_io::MemSink;
use command_runner::Status;
use std::test::Fail;
use test_fixtures::{L_SECTION, STAGE, U_CHANNEL};

/// A stage that is too short for the L section.
const SHORT_STAGE: &str = "[[stage]]
punch = \"P100\"
die = \"D16\"
at = 200000
pieces = [60000]
";

/// What `why` puts for the L section at that stage: the tools don't cover the bend's line.
const UNCOVERED: &str = "never 1 P 0 folded 0 flat 1 reason 1
never 1 C 0 folded 0 flat 1 reason 1
nogoods 2
";

/// What `why` puts for the U channel with legs of 80,000: a folded leg hits the upper beam.
const HIGH_LEGS: &str = "never 2 P 0 folded 1 flat 2 reason 4 1 1 1
never 2 C 0 folded 1 flat 2 reason 4 1 1 1
never 1 P 0 folded 2 flat 1 reason 4 2 1 1
never 1 C 0 folded 2 flat 1 reason 4 2 1 1
nogoods 4
";

/// The words of `why`.
const WORDS: &[&str] = &["why", "part", "tools", "machine"];

#[test]
fn nogoods_and_refusals(rt: HostRuntime) -> Result<(), Fail> {
    let alloc = rt.alloc();
    let high = U_CHANNEL.replace(alloc, "length = 30000", "length = 80000")?;
    for (part, stage, status, text) in [
        (L_SECTION, SHORT_STAGE, Status::Done, UNCOVERED),
        (L_SECTION, STAGE, Status::Done, "nogoods 0\n"),
        (high.as_str(), STAGE, Status::Done, HIGH_LEGS),
        (L_SECTION, "", Status::Refused, "refused job 7\n"),
        (L_SECTION, "[", Status::Refused, "refused machine 1\n"),
        ("", "[", Status::Refused, "refused part 2 0 1\n"),
    ] {
        let mut shelf = shelf_with(alloc, part, stage)?;
        let mut out = MemSink::new(alloc);
        assert_equal(&rt, &run(alloc, WORDS, &mut shelf, &mut out)?, &status);
        assert_equal(&rt, &out.bytes(), &text.as_bytes());
    }
    Ok(())
}

#[test]
fn each_call_failing_in_turn(rt: HostRuntime) -> Result<(), Fail> {
    let alloc = rt.alloc();
    for (call, put, taken, status, written) in [
        (1, 0, 0, Status::Fault, 0),
        (2, 0, 0, Status::Fault, 0),
        (3, 0, 0, Status::Fault, 0),
        (0, 1, 0, Status::Fault, 0),
        (0, 1, 7, Status::Fault, 7),
        (4, 2, 0, Status::Done, UNCOVERED.len()),
    ] {
        let mut shelf = shelf_with(alloc, L_SECTION, SHORT_STAGE)?;
        shelf.fail_at(call)?;
        let mut out = MemSink::new(alloc);
        out.fail_at(put, taken);
        assert_equal(&rt, &run(alloc, WORDS, &mut shelf, &mut out)?, &status);
        assert_equal(&rt, &out.bytes().len(), &written);
        assert!(rt; UNCOVERED.as_bytes().starts_with(out.bytes()));
    }
    Ok(())
}
