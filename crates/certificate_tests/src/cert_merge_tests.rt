//! Tables of the U channel: checked and altered.

use crate::asserts::assert_equal;
use brake_base::Worth;
use cert_merge::{ProveFault, TableFault, prove_text};
use plan_cert::{CertFault, write_job};
use std::alloc::{AllocError, Global};
use std::test::Fail;
use test_fixtures::{ROWS, VERSION_2_JOB};

/// Two rows, the second with a note.
const FIRST: &str = "row 0 0 0 200
row 1 0 0 130
x 2 P 0 8
";

/// The first line of a table of the U channel, and the lines of its job.
fn head_of(alloc: Global) -> Result<String, AllocError> {
    let lines = VERSION_2_JOB.concat(alloc)?;
    lines.replacen(alloc, "brake-cert 2", "brake-table 1", 1)
}

/// The text of a table of the U channel with these lines of rows and notes.
fn text_of(alloc: Global, rows: &str) -> Result<String, AllocError> {
    let head = head_of(alloc)?;
    format!(in alloc; "{head}{rows}end\n")
}

/// What a text proves of the start, or its first refusal.
fn proved_of(alloc: Global, text: &[u8]) -> Result<Worth, ProveFault> {
    let proved = prove_text(alloc, text)?;
    Ok(proved.at_start)
}

#[test]
fn a_beginning_of_a_table_is_unended(rt: HostRuntime) -> Result<(), Fail> {
    let alloc = rt.alloc();
    let text = text_of(alloc, FIRST)?;
    for end in 0..text.len() {
        let answer = proved_of(alloc, &text.as_bytes()[..end]);
        let wanted = ProveFault::Text(CertFault::Unended);
        assert_equal(&rt, &answer, &Err(wanted));
    }
    Ok(())
}

/// Lines of rows and notes, and the number of the first that isn't allowed: 22 lines stand before.
const REFUSED: [(&str, u32); 12] = [
    ("row 0 0 0 0200\n", 23),
    ("row 0 0 0  200\n", 23),
    ("row 0 0 0 200 \n", 23),
    ("row 0 24 0 200\n", 23),
    ("row 3 0 0 200\n", 23),
    ("row 0 0 0 1000000001\n", 23),
    ("row 1 0 0 130\nrow 0 0 0 200\n", 24),
    ("row 1 0 0 130\nrow 1 0 0 130\n", 24),
    ("x 1 P 0 8\n", 23),
    ("row 1 0 0 130\nx 1 P 0 8\n", 24),
    ("row 0 0 0 200\nx 2 P 0 8\nx 1 P 0 8\n", 25),
    ("row 0 0 0 200\nx 1 P 0 8\nx 1 P 0 8\n", 25),
];

#[test]
fn altered_tables_are_refused_at_their_line(rt: HostRuntime) -> Result<(), Fail> {
    let alloc = rt.alloc();
    for (rows, line) in REFUSED {
        let text = text_of(alloc, rows)?;
        let wanted = ProveFault::Text(CertFault::BadLine { line });
        assert_equal(&rt, &proved_of(alloc, text.as_bytes()), &Err(wanted));
    }
    let behind = format!(in alloc; "{}x", text_of(alloc, FIRST)?)?;
    let wanted = ProveFault::Text(CertFault::Trailing);
    assert_equal(&rt, &proved_of(alloc, behind.as_bytes()), &Err(wanted));
    Ok(())
}

#[test]
fn the_worked_table_proves_the_least_cost(rt: HostRuntime) -> Result<(), Fail> {
    let alloc = rt.alloc();
    let head = head_of(alloc)?;
    // The bound alone proves it too.
    for rows in [ROWS, "end\n"] {
        let text = format!(in alloc; "{head}{rows}")?;
        let answer = proved_of(alloc, text.as_bytes());
        assert_equal(&rt, &answer, &Ok(Worth::Cost(200)));
    }
    Ok(())
}

/// A text of the worked table, another in its place, and the first refusal that this brings.
const FAULTS: [(&str, &str, ProveFault); 21] = [
    (
        "brake-table 1",
        "brake-table 2",
        ProveFault::Text(CertFault::BadLine { line: 1 }),
    ),
    (
        "brake-table 1",
        "brake-table  1",
        ProveFault::Text(CertFault::BadLine { line: 1 }),
    ),
    (
        "brake-table 1",
        "brake-cert 2",
        ProveFault::Text(CertFault::BadLine { line: 1 }),
    ),
    (
        "2000 1919",
        "2000 01919",
        ProveFault::Text(CertFault::BadLine { line: 2 }),
    ),
    ("2000 1919", "2000 500", ProveFault::Text(CertFault::BadJob)),
    (
        "gang 0\n",
        "",
        ProveFault::Text(CertFault::BadLine { line: 12 }),
    ),
    (
        "load 0 0\n",
        "load 0 0\nload 0 0\n",
        ProveFault::Text(CertFault::BadLine { line: 23 }),
    ),
    (
        "row 0 0 0 200",
        "claim 200\nrow 0 0 0 200",
        ProveFault::Text(CertFault::BadLine { line: 23 }),
    ),
    (
        "row 0 0 0 200",
        "step 2 P 0 1 1\nrow 0 0 0 200",
        ProveFault::Text(CertFault::BadLine { line: 23 }),
    ),
    (
        "row 0 0 0 200",
        "row 3 0 0 0",
        ProveFault::Text(CertFault::BadLine { line: 23 }),
    ),
    (
        "row 0 0 0 200",
        "row 0 0 0 1000000001",
        ProveFault::Text(CertFault::BadLine { line: 23 }),
    ),
    (
        "row 2 0 0 100\n",
        "row 2 0 0 100\nrow 2 0 0 100\n",
        ProveFault::Text(CertFault::BadLine { line: 27 }),
    ),
    (
        "row 2 0 0 100",
        "row 02 0 0 100",
        ProveFault::Text(CertFault::BadLine { line: 26 }),
    ),
    (
        "x 2 P 0 8",
        "x 1 P 0 8",
        ProveFault::Text(CertFault::BadLine { line: 25 }),
    ),
    ("end\n", "", ProveFault::Text(CertFault::Unended)),
    ("end\n", "end\n\n", ProveFault::Text(CertFault::Trailing)),
    (
        "x 2 P 0 8",
        "x 2 P 0 4 0 1 0",
        ProveFault::Rows(TableFault::BadReason { row: 1, action: 2 }),
    ),
    (
        "x 2 P 0 8\n",
        "",
        ProveFault::Rows(TableFault::NotClosed { row: 1, action: 2 }),
    ),
    (
        "row 0 0 0 200",
        "row 0 0 0 210",
        ProveFault::Rows(TableFault::NotClosed { row: 0, action: 2 }),
    ),
    // The false note of row 1 stands behind the open action of row 0.
    (
        "row 0 0 0 200\nrow 1 0 0 130\nx 2 P 0 8",
        "row 0 0 0 210\nrow 1 0 0 130\nx 2 P 0 4 0 1 0",
        ProveFault::Rows(TableFault::NotClosed { row: 0, action: 2 }),
    ),
    (
        "row 2 0 0 100",
        "row 2 0 0 1000",
        ProveFault::Rows(TableFault::NotClosed { row: 2, action: 0 }),
    ),
];

#[test]
fn altered_tables_are_refused_by_their_first_fault(rt: HostRuntime) -> Result<(), Fail> {
    let alloc = rt.alloc();
    let head = head_of(alloc)?;
    let text = format!(in alloc; "{head}{ROWS}")?;
    for (old, new, refusal) in FAULTS {
        let text = text.replacen(alloc, old, new, 1)?;
        assert!(rt; proved_of(alloc, text.as_bytes()) == Err(refusal), "{new}");
    }
    Ok(())
}

#[test]
fn a_table_of_another_job_gives_that_job(rt: HostRuntime) -> Result<(), Fail> {
    let alloc = rt.alloc();
    let head = head_of(alloc)?;
    let text = format!(in alloc; "{head}{ROWS}")?;
    let other = text.replace(alloc, "30000 up", "80000 up")?;
    let proved = prove_text(alloc, other.as_bytes())?;
    let lines = write_job(alloc, &proved.job)?;
    let mut beginning = Vec::new(alloc);
    beginning.extend_from_slice(b"brake-table 1\n")?;
    beginning.extend_from_slice(lines.as_slice())?;
    assert!(rt; other.as_bytes().starts_with(beginning.as_slice()));
    assert!(rt; !text.as_bytes().starts_with(beginning.as_slice()));
    Ok(())
}
