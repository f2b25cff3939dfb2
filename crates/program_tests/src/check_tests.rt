//! The runs of `check` and `trial` that the documentation names, over files in memory.

use crate::asserts::assert_equal;
use crate::test_runs::{certificate, run, shelf_with};
use brake_io::{MemShelf, MemSink};
use command_runner::Status;
use std::alloc::{AllocError, Global};
use std::test::Fail;
use test_fixtures::{L_SECTION, STAGE, STEPS, U_CHANNEL, VERSION_1_JOB, VERSION_2_JOB};

/// The line of a certificate that is of another job than the files.
const OTHER_JOB: &str = "certificate refused job\n";

const ALONE: &[&str] = &["check", "cert"];

const WITH_FILES: &[&str] = &["check", "cert", "part", "tools", "machine"];

/// A shelf with this certificate, and with the files of a job of this part.
fn shelf_of(alloc: Global, cert: &str, part: &str) -> Result<MemShelf, AllocError> {
    let mut shelf = shelf_with(alloc, part, STAGE)?;
    shelf.add("cert", cert.as_bytes())?;
    Ok(shelf)
}

#[test]
fn certificates_and_files(rt: HostRuntime) -> Result<(), Fail> {
    let alloc = rt.alloc();
    for job in [VERSION_1_JOB.as_slice(), VERSION_2_JOB.as_slice()] {
        let cert = certificate(alloc, job)?;
        for (words, part, status, text) in [
            (ALONE, U_CHANNEL, Status::Done, "optimal 200\n"),
            (WITH_FILES, U_CHANNEL, Status::Done, "optimal 200\n"),
            (WITH_FILES, L_SECTION, Status::CertRefused, OTHER_JOB),
            (WITH_FILES, "= 1", Status::Refused, "refused part 1\n"),
        ] {
            let mut shelf = shelf_of(alloc, &cert, part)?;
            let mut out = MemSink::new(alloc);
            assert_equal(&rt, &run(alloc, words, &mut shelf, &mut out)?, &status);
            assert_equal(&rt, &out.bytes(), &text.as_bytes());
        }
    }
    Ok(())
}

/// Whether `check` refuses this certificate by these numbers.
fn is_refused(alloc: Global, cert: &[u8], numbers: &str) -> Result<bool, AllocError> {
    let mut shelf = MemShelf::new(alloc);
    shelf.add("cert", cert)?;
    let mut out = MemSink::new(alloc);
    let status = run(alloc, ALONE, &mut shelf, &mut out)?;
    let line = format!(in alloc; "certificate refused {numbers}\n")?;
    Ok(status == Status::CertRefused && out.bytes() == line.as_bytes())
}

/// A claim with steps, lines behind them, and the numbers of the refusal.
const REFUSALS: [(&str, &str, &str); 13] = [
    ("", "", "1 2"),
    ("claim 230\n", "end\n", "1 1 21"),
    ("claim none\n", "end\n", "6"),
    ("claim 007\n", "", "1 1 20"),
    ("claim -0\n", "", "1 1 20"),
    ("claim 1000000000000000000\n", "", "1 1 20"),
    ("claim 2\0\n", "", "1 1 20"),
    (
        "claim 200\nstep 2 P 0 2 2\n",
        "step 1 C 0 1 1\nend\n",
        "2 0 3",
    ),
    (
        "claim 200\nstep 2 P 0 1 1\n",
        "step 2 C 0 1 1\nend\n",
        "2 1 1",
    ),
    (STEPS, "row 3 0 0 0\n", "1 1 23"),
    (STEPS, "row 1 0 0 130\nx 1 P 0 8\n", "1 1 24"),
    (STEPS, "row 02 0 0 100\n", "1 1 23"),
    (STEPS, "end\nx", "1 3"),
];

#[test]
fn refused_certificates(rt: HostRuntime) -> Result<(), Fail> {
    let alloc = rt.alloc();
    let job = VERSION_1_JOB.concat(alloc)?;
    for (steps, lines, numbers) in REFUSALS {
        let cert = format!(in alloc; "{job}{steps}{lines}")?;
        assert!(rt;
            is_refused(alloc, cert.as_bytes(), numbers)?,
            "{steps}{lines}"
        );
    }
    Ok(())
}

#[test]
fn each_proper_prefix_of_a_certificate(rt: HostRuntime) -> Result<(), Fail> {
    let alloc = rt.alloc();
    // The versions differ in three lines alone, so each eighth prefix of the first is enough.
    for (job, is_each) in [
        (VERSION_1_JOB.as_slice(), false),
        (VERSION_2_JOB.as_slice(), true),
    ] {
        let cert = certificate(alloc, job)?;
        for length in 0..cert.len() {
            if is_each || length % 8 == 0 {
                let cut = &cert.as_bytes()[..length];
                assert!(rt; is_refused(alloc, cut, "1 2")?, "at {length}");
            }
        }
    }
    Ok(())
}

#[test]
fn texts_of_several_pieces(rt: HostRuntime) -> Result<(), Fail> {
    let alloc = rt.alloc();
    let cert = certificate(alloc, &VERSION_2_JOB)?;
    let long = "x".repeat(alloc, 300_000)?;
    for (before, behind, numbers) in [
        (cert.as_str(), "", "1 3"),
        ("", "\n", "1 1 1"),
        ("", "", "1 2"),
    ] {
        let text = format!(in alloc; "{before}{long}{behind}")?;
        assert!(rt; is_refused(alloc, text.as_bytes(), numbers)?, "{numbers}");
    }
    Ok(())
}

#[test]
fn each_call_failing_in_turn(rt: HostRuntime) -> Result<(), Fail> {
    let alloc = rt.alloc();
    let cert = certificate(alloc, &VERSION_2_JOB)?;
    for (call, put, status, written) in [
        (1, 0, Status::Fault, ""),
        (4, 0, Status::Fault, ""),
        (0, 1, Status::Fault, "optimal"),
        (5, 2, Status::Done, "optimal 200\n"),
    ] {
        let mut shelf = shelf_of(alloc, &cert, U_CHANNEL)?;
        shelf.fail_at(call)?;
        let mut out = MemSink::new(alloc);
        out.fail_at(put, 7);
        assert_equal(&rt, &run(alloc, WITH_FILES, &mut shelf, &mut out)?, &status);
        assert_equal(&rt, &out.bytes(), &written.as_bytes());
    }
    Ok(())
}

#[test]
fn trials(rt: HostRuntime) -> Result<(), Fail> {
    let alloc = rt.alloc();
    for (number, put, taken, status, text) in [
        (
            "0",
            0,
            0,
            Status::NoPlan,
            "trial 0 bends 8 cost none checked\n",
        ),
        ("0", 1, 0, Status::Fault, ""),
        ("0", 1, 1, Status::Fault, "t"),
        (
            "1",
            0,
            0,
            Status::NoPlan,
            "trial 1 bends 7 cost none checked\n",
        ),
        ("1", 1, 0, Status::Fault, ""),
        ("1", 1, 1, Status::Fault, "t"),
        (
            "2",
            0,
            0,
            Status::NoPlan,
            "trial 2 bends 6 cost none checked\n",
        ),
        ("2", 1, 0, Status::Fault, ""),
        ("2", 1, 1, Status::Fault, "t"),
    ] {
        let mut shelf = MemShelf::new(alloc);
        let mut out = MemSink::new(alloc);
        out.fail_at(put, taken);
        assert_equal(
            &rt,
            &run(alloc, &["trial", number], &mut shelf, &mut out)?,
            &status,
        );
        assert_equal(&rt, &out.bytes(), &text.as_bytes());
    }
    Ok(())
}
