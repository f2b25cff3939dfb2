//! The certificates of a U channel, written, read and altered line by line.

use crate::asserts::assert_equal;
use arrayvec::ArrayVec;
use brake_base::Worth;
use plan_cert::{Cert, CertFault, CertReader, Item, read_cert, write_cert};
use std::alloc::{AllocError, Global};
use std::test::Fail;
use test_fixtures::{
    FINE_JOB, MACHINE, ROWS, STAGE, STEPS, TOOLS, U_CHANNEL, VERSION_1_JOB, VERSION_2_JOB, job_of,
};

#[test]
fn u_channel_without_rows(rt: HostRuntime) -> Result<(), Fail> {
    let alloc = rt.alloc();
    let machine = format!(in alloc; "{MACHINE}{STAGE}")?;
    let job = job_of(alloc, U_CHANNEL, TOOLS, &machine)?;
    let cert = Cert {
        claim: Worth::Blocked,
        steps: ArrayVec::new(),
        rows: Vec::new(alloc),
        notes: Vec::new(alloc),
    };
    let text = write_cert(alloc, &job, &cert)?;
    let lines = VERSION_2_JOB.concat(alloc)?;
    let wanted = format!(in alloc; "{lines}claim none\nend\n")?;
    assert_equal(&rt, &text.as_slice(), &wanted.as_bytes());
    Ok(())
}

/// The text with another line in place of the line of a number, counted from 1.
fn changed(alloc: Global, text: &str, number: usize, line: &str) -> Result<String, AllocError> {
    let mut out = String::new(alloc);
    for (i, old) in text.lines().enumerate() {
        if i + 1 == number {
            out.push_str(line)?;
        } else {
            out.push_str(old)?;
            out.push_str("\n")?;
        }
    }
    Ok(out)
}

#[test]
fn a_table_file_begins_with_its_job(rt: HostRuntime) -> Result<(), Fail> {
    let alloc = rt.alloc();
    let lines = VERSION_2_JOB.concat(alloc)?;
    let head = lines.replacen(alloc, "brake-cert 2", "brake-table 1", 1)?;
    let text = format!(in alloc; "{head}row 1 0 0 130\nx 2 P 0 8\nrow 2 0 0 100\nend\n")?;
    let mut reader = CertReader::table(text.as_bytes());
    let first = reader.next();
    assert_equal(&rt, &matches!(first, Ok(Item::Job(_))), &true);
    Ok(())
}

/// The U channel's certificate whose job lines have these pieces.
fn certificate(alloc: Global, job: &[&str]) -> Result<String, AllocError> {
    let job = job.concat(alloc)?;
    format!(in alloc; "{job}{STEPS}{ROWS}")
}

/// The text of a certificate that is read, as it is written.
fn rewritten(alloc: Global, text: &str) -> Result<Vec<u8>, CertFault> {
    let file = read_cert(alloc, text.as_bytes())?;
    let out = write_cert(alloc, &file.job, &file.cert)?;
    Ok(out)
}

#[test]
fn whole_texts_are_read(rt: HostRuntime) -> Result<(), Fail> {
    let alloc = rt.alloc();
    let old = certificate(alloc, &VERSION_1_JOB)?;
    let new = certificate(alloc, &VERSION_2_JOB)?;
    for text in [&old, &new] {
        let text = rewritten(alloc, text)?;
        assert_equal(&rt, &text.as_slice(), &new.as_bytes());
    }
    Ok(())
}

#[test]
fn a_text_with_a_depth_is_read(rt: HostRuntime) -> Result<(), Fail> {
    let alloc = rt.alloc();
    let fine = certificate(alloc, &FINE_JOB)?;
    let text = rewritten(alloc, &fine)?;
    assert_equal(&rt, &text.as_slice(), &fine.as_bytes());
    Ok(())
}

/// The number of a line of the certificate of depth 10, counted from 1, another line in its place, and
/// the fault that this brings.
const FINE_FAULTS: [(usize, &str, CertFault); 8] = [
    (14, "fine 0\n", CertFault::BadJob),
    (14, "fine 13\n", CertFault::BadJob),
    (14, "fine -1\n", CertFault::BadJob),
    (14, "fine 010\n", CertFault::BadLine { line: 14 }),
    (14, "fine 1 0\n", CertFault::BadLine { line: 14 }),
    (14, "fine 10\nfine 10\n", CertFault::BadLine { line: 15 }),
    (13, "fine 10\n", CertFault::BadLine { line: 13 }),
    (1, "brake-cert 1\n", CertFault::BadLine { line: 12 }),
];

#[test]
fn depths(rt: HostRuntime) -> Result<(), Fail> {
    let alloc = rt.alloc();
    let whole = certificate(alloc, &FINE_JOB)?;
    for (number, line, fault) in FINE_FAULTS {
        let text = changed(alloc, &whole, number, line)?;
        assert_equal(&rt, &read_cert(alloc, text.as_bytes()).err(), &Some(fault));
    }
    let old = certificate(alloc, &VERSION_1_JOB)?;
    let text = changed(alloc, &old, 11, "cost 100 20 30 60 80 40\nfine 10\n")?;
    let fault = CertFault::BadLine { line: 12 };
    assert_equal(&rt, &read_cert(alloc, text.as_bytes()).err(), &Some(fault));
    Ok(())
}

/// The number of a line of the U channel's certificate, counted from 1, another line in its place, and
/// the fault that this brings.
const FAULTS: [(usize, &str, CertFault); 25] = [
    (1, "brake-cert 2\n", CertFault::BadLine { line: 12 }),
    (1, "brake-cert 3\n", CertFault::BadLine { line: 1 }),
    (2, "part S235 2000 2000 500\n", CertFault::BadJob),
    (
        3,
        "face we\0b 100000 60000\n",
        CertFault::BadLine { line: 3 },
    ),
    (
        4,
        "face north 1 N 0 100000 30000 up\n",
        CertFault::BadLine { line: 4 },
    ),
    (9, "uncovered -0\n", CertFault::BadLine { line: 9 }),
    (9, "uncovered 005\n", CertFault::BadLine { line: 9 }),
    (
        9,
        "uncovered 1000000000000000000\n",
        CertFault::BadLine { line: 9 },
    ),
    (9, "uncovered 1000001\n", CertFault::BadJob),
    (
        11,
        "cost 100 20 30 60 80 40\ngang 0\n",
        CertFault::BadLine { line: 12 },
    ),
    (11, "cost 100 20 -30 60 80 40\n", CertFault::BadJob),
    (19, "pieces\n", CertFault::BadLine { line: 19 }),
    (20, "claim 0200\n", CertFault::BadLine { line: 20 }),
    (20, "claim 1000000001\n", CertFault::BadLine { line: 20 }),
    (22, "", CertFault::BadLine { line: 22 }),
    (22, "step 1 C 0 1 3\n", CertFault::BadLine { line: 22 }),
    (23, "row 3 0 0 0\n", CertFault::BadLine { line: 23 }),
    (25, "x 1 P 0 8\n", CertFault::BadLine { line: 25 }),
    (25, "x 2 P 0 5 0 1 1\n", CertFault::BadLine { line: 25 }),
    (
        25,
        "x 2 P 0 8\nx 2 P 0 8\n",
        CertFault::BadLine { line: 26 },
    ),
    (26, "row 02 0 0 100\n", CertFault::BadLine { line: 26 }),
    (
        26,
        "row 2 0 0 100\nrow 2 0 0 100\n",
        CertFault::BadLine { line: 27 },
    ),
    (27, "", CertFault::Unended),
    (27, "end", CertFault::Unended),
    (27, "end\nx", CertFault::Trailing),
];

#[test]
fn refusals(rt: HostRuntime) -> Result<(), Fail> {
    let alloc = rt.alloc();
    let whole = certificate(alloc, &VERSION_1_JOB)?;
    for (number, line, fault) in FAULTS {
        let text = changed(alloc, &whole, number, line)?;
        assert_equal(&rt, &read_cert(alloc, text.as_bytes()).err(), &Some(fault));
    }
    Ok(())
}
