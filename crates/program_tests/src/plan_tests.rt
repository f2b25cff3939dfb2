//! The runs of `plan` that the documentation names, over files in memory, and runs in which the
//! shelf or the sink fails.

use crate::asserts::assert_equal;
use crate::test_runs::{certificate, run, shelf_with};
use brake_io::MemSink;
use command_runner::Status;
use std::test::Fail;
use test_fixtures::{L_SECTION, STAGE, U_CHANNEL, VERSION_2_JOB};

/// What `plan` puts for the U channel.
const U_SHEETS: &str = "blank
size 100000 112324
face 0 web 0 28081 100000 84243
face 1 north 0 84243 100000 112324
face 2 south 0 0 100000 28081
bend 1 0 84243 100000 84243 up
bend 2 100000 28081 0 28081 up
setup
stage 0 P100 D16 200000 300000
pieces 100000
order 2
step 1 bend 2 south back parent stage 0 turn none gauge 84243 fingers 1 205000 1 285000 cost 100
step 2 bend 1 north back child stage 0 turn none gauge 28081 fingers 1 205000 1 285000 cost 100
total 200
";

/// What `plan` puts for the L section.
const L_SHEETS: &str = "blank
size 100000 76162
face 0 base 0 0 100000 48081
face 1 leg 0 48081 100000 76162
bend 1 0 48081 100000 48081 up
setup
stage 0 P100 D16 200000 300000
pieces 100000
order 1
step 1 bend 1 leg back child stage 0 turn none gauge 28081 fingers 1 205000 1 285000 cost 100
total 100
";

/// A stage that is too short for the L section.
const SHORT_STAGE: &str = "[[stage]]
punch = \"P100\"
die = \"D16\"
at = 200000
pieces = [60000]
";

/// What `plan` puts for the L section at that stage.
const NO_PLAN: &str = "blank
size 100000 76162
face 0 base 0 0 100000 48081
face 1 leg 0 48081 100000 76162
bend 1 0 48081 100000 48081 up
setup
stage 0 P100 D16 200000 260000
pieces 60000
no plan
";

/// The words of `plan`.
const WORDS: &[&str] = &["plan", "part", "tools", "machine", "cert"];

/// The words of `plan` with budget enough.
const WITH_BUDGET: &[&str] = &["plan", "part", "tools", "machine", "cert", "--budget", "5"];

/// The words of `plan` with a budget that is spent.
const WITH_LITTLE: &[&str] = &["plan", "part", "tools", "machine", "cert", "--budget", "1"];

const CHECK: &[&str] = &["check", "cert"];

const CHECK_FILES: &[&str] = &["check", "cert", "part", "tools", "machine"];

#[test]
fn plans(rt: HostRuntime) -> Result<(), Fail> {
    let alloc = rt.alloc();
    for (part, stage, words, status, text) in [
        (L_SECTION, STAGE, WORDS, Status::Done, L_SHEETS),
        (U_CHANNEL, STAGE, WORDS, Status::Done, U_SHEETS),
        (U_CHANNEL, STAGE, WITH_BUDGET, Status::Done, U_SHEETS),
        (U_CHANNEL, STAGE, WITH_LITTLE, Status::Spent, "spent 1\n"),
        (L_SECTION, SHORT_STAGE, WORDS, Status::NoPlan, NO_PLAN),
        (L_SECTION, "", WORDS, Status::Refused, "refused job 7\n"),
        (
            L_SECTION,
            "[",
            WORDS,
            Status::Refused,
            "refused machine 1\n",
        ),
        ("", "[", WORDS, Status::Refused, "refused part 2 0 1\n"),
    ] {
        let mut shelf = shelf_with(alloc, part, stage)?;
        let mut out = MemSink::new(alloc);
        assert_equal(&rt, &run(alloc, words, &mut shelf, &mut out)?, &status);
        assert_equal(&rt, &out.bytes(), &text.as_bytes());
        let is_stored = status == Status::Done || status == Status::NoPlan;
        assert_equal(&rt, &shelf.bytes_of("cert").is_some(), &is_stored);
    }
    Ok(())
}

#[test]
fn a_stored_certificate_is_confirmed(rt: HostRuntime) -> Result<(), Fail> {
    let alloc = rt.alloc();
    for (part, stage, status, line) in [
        (L_SECTION, STAGE, Status::Done, "optimal 100\n"),
        (U_CHANNEL, STAGE, Status::Done, "optimal 200\n"),
        (L_SECTION, SHORT_STAGE, Status::NoPlan, "no plan\n"),
    ] {
        let mut shelf = shelf_with(alloc, part, stage)?;
        let mut sheets = MemSink::new(alloc);
        assert_equal(&rt, &run(alloc, WORDS, &mut shelf, &mut sheets)?, &status);
        for words in [CHECK, CHECK_FILES] {
            let mut out = MemSink::new(alloc);
            assert_equal(&rt, &run(alloc, words, &mut shelf, &mut out)?, &status);
            assert_equal(&rt, &out.bytes(), &line.as_bytes());
        }
    }
    Ok(())
}

#[test]
fn each_call_failing_in_turn(rt: HostRuntime) -> Result<(), Fail> {
    let alloc = rt.alloc();
    let cert = certificate(alloc, &VERSION_2_JOB)?;
    for (call, put, taken, status, written) in [
        (1, 0, 0, Status::Fault, 0),
        (2, 0, 0, Status::Fault, 0),
        (3, 0, 0, Status::Fault, 0),
        (4, 0, 0, Status::Fault, 0),
        (0, 1, 0, Status::Fault, 0),
        (0, 1, 1, Status::Fault, 1),
        (0, 2, 0, Status::Fault, 184),
        (0, 2, 1, Status::Fault, 185),
        (0, 3, 0, Status::Fault, 235),
        (0, 3, 1, Status::Fault, 236),
        (5, 4, 0, Status::Done, 446),
    ] {
        let mut shelf = shelf_with(alloc, U_CHANNEL, STAGE)?;
        shelf.fail_at(call)?;
        let mut out = MemSink::new(alloc);
        out.fail_at(put, taken);
        assert_equal(&rt, &run(alloc, WORDS, &mut shelf, &mut out)?, &status);
        assert_equal(&rt, &out.bytes().len(), &written);
        assert!(rt; U_SHEETS.as_bytes().starts_with(out.bytes()));
        let stored = if put == 0 {
            None
        } else {
            Some(cert.as_bytes())
        };
        assert_equal(&rt, &shelf.bytes_of("cert"), &stored);
    }
    Ok(())
}
