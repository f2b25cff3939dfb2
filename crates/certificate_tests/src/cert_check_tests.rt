//! The worked certificates: that of a U channel, altered line by line, and that of two flanges that
//! are bent in one stroke.
ghost use Rattle.std.specs.Prelude.{None};

use crate::asserts::assert_equal;
use brake_io::{HeldBytes, Reader, Window};
use cert_check::{CheckFault, StepFault, Verdict, check, check_from};
use plan_cert::CertFault;
use std::alloc::Global;
use std::test::Fail;
use test_fixtures::{GANG_JOB, ROWS, STEPS, VERSION_1_JOB};

/// The rows that prove that no second leg of 80,000 can be bent.
const HIGH_ROWS: &str = "row 0 0 0 none
row 1 0 0 none
x 2 P 0 4 1 1 1
x 2 C 0 4 1 1 1
row 1 2 0 none
x 2 P 0 4 1 1 1
x 2 C 0 4 1 1 1
row 2 0 0 none
x 1 P 0 4 2 1 1
x 1 C 0 4 2 1 1
row 2 2 0 none
x 1 P 0 4 2 1 1
x 1 C 0 4 2 1 1
end
";

/// What checking a text of three parts comes to: the verdict or the first fault.
fn answer_of(
    alloc: Global,
    job: &str,
    steps: &str,
    rows: &str,
) -> Result<Result<Verdict, CheckFault>, Fail> {
    let text = format!(in alloc; "{job}{steps}{rows}")?;
    match check(alloc, text.as_bytes()) {
        Ok(checked) => Ok(Ok(checked.verdict)),
        Err(fault) => Ok(Err(fault)),
    }
}

#[test]
fn a_good_certificate_is_accepted(rt: HostRuntime) -> Result<(), Fail> {
    let alloc = rt.alloc();
    let job = VERSION_1_JOB.concat(alloc)?;
    let high = job.replace(alloc, "30000 up", "80000 up")?;
    for (job, steps, rows, verdict) in [
        (&job, STEPS, ROWS, Verdict::Optimal { cost: 200 }),
        // The bound alone proves the claim.
        (&job, STEPS, "end\n", Verdict::Optimal { cost: 200 }),
        (&high, "claim none\n", HIGH_ROWS, Verdict::NoPlan),
    ] {
        assert_equal(&rt, &answer_of(alloc, job, steps, rows)?, &Ok(verdict));
    }
    Ok(())
}

/// A text of the U channel's certificate, another in its place, and the first fault that this brings.
const FAULTS: [(&str, &str, CheckFault); 17] = [
    ("2000 1919", "2000 500", CheckFault::Cert(CertFault::BadJob)),
    (
        "30 60 80 40\n",
        "30 60 80 40\ngang 0\n",
        CheckFault::Cert(CertFault::BadLine { line: 12 }),
    ),
    (
        "brake-cert 1",
        "brake-cert 2",
        CheckFault::Cert(CertFault::BadLine { line: 12 }),
    ),
    ("claim 200", "claim 190", CheckFault::BadCost),
    (
        "step 2 P 0 1 1",
        "step 2 P 0 2 2",
        CheckFault::BadStep {
            index: 0,
            fault: StepFault::BadGauge,
        },
    ),
    (
        "step 1 C 0 1 1",
        "step 2 C 0 1 1",
        CheckFault::BadStep {
            index: 1,
            fault: StepFault::AlreadyFolded,
        },
    ),
    (
        STEPS,
        "claim 230\nstep 1 C 0 1 1\nstep 2 C 0 2 2\n",
        CheckFault::TooLow,
    ),
    (
        "x 2 P 0 8",
        "x 2 P 0 4 0 1 0",
        CheckFault::BadReason { row: 1, action: 2 },
    ),
    (
        "x 2 P 0 8\n",
        "",
        CheckFault::NotClosed { row: 1, action: 2 },
    ),
    (
        "row 0 0 0 200",
        "row 0 0 0 210",
        CheckFault::NotClosed { row: 0, action: 2 },
    ),
    // The false note of row 1 stands behind the open action of row 0.
    (
        "row 0 0 0 200\nrow 1 0 0 130\nx 2 P 0 8",
        "row 0 0 0 210\nrow 1 0 0 130\nx 2 P 0 4 0 1 0",
        CheckFault::NotClosed { row: 0, action: 2 },
    ),
    (
        "row 2 0 0 100\n",
        "row 2 0 0 100\nrow 2 0 0 100\n",
        CheckFault::Cert(CertFault::BadLine { line: 27 }),
    ),
    ("end\n", "", CheckFault::Cert(CertFault::Unended)),
    ("end\n", "end\n\n", CheckFault::Cert(CertFault::Trailing)),
    (
        "row 2 0 0 100",
        "row 02 0 0 100",
        CheckFault::Cert(CertFault::BadLine { line: 26 }),
    ),
    (
        "x 2 P 0 8",
        "x 1 P 0 8",
        CheckFault::Cert(CertFault::BadLine { line: 25 }),
    ),
    (
        "row 0 0 0 200",
        "row 3 0 0 0",
        CheckFault::Cert(CertFault::BadLine { line: 23 }),
    ),
];

#[test]
fn altered_certificates_are_refused_by_their_first_fault(rt: HostRuntime) -> Result<(), Fail> {
    let alloc = rt.alloc();
    let job = VERSION_1_JOB.concat(alloc)?;
    let text = format!(in alloc; "{job}{STEPS}{ROWS}")?;
    for (old, new, fault) in FAULTS {
        let text = text.replacen(alloc, old, new, 1)?;
        assert!(rt; check(alloc, text.as_bytes()).err() == Some(fault), "{new}");
    }
    Ok(())
}

/// Lines behind the job of two flanges, and the first fault that they bring.
const GANG_FAULTS: [(&str, CheckFault); 5] = [
    (
        "claim 100\nstep 2 C 0 1 1\nend\n",
        CheckFault::BadStep {
            index: 0,
            fault: StepFault::NotLead,
        },
    ),
    ("claim 100\nend\n", CheckFault::Unfinished),
    // The sum isn't the claim either.
    ("claim 90\nend\n", CheckFault::Unfinished),
    ("claim 90\nstep 1 C 0 1 1\nend\n", CheckFault::BadCost),
    (
        "claim 100\nstep 1 C 0 1 1\nrow 0 0 0 100\nx 2 C 0 8\nend\n",
        CheckFault::Cert(CertFault::BadLine { line: 26 }),
    ),
];

#[test]
fn two_flanges_of_a_gang_are_bent_by_their_lead(rt: HostRuntime) -> Result<(), Fail> {
    let alloc = rt.alloc();
    let job = GANG_JOB.concat(alloc)?;
    let good = ("claim 100\nstep 1 C 0 1 1\n", "row 0 0 0 100\nend\n");
    let optimal = Ok(Verdict::Optimal { cost: 100 });
    assert_equal(&rt, &answer_of(alloc, &job, good.0, good.1)?, &optimal);
    for (lines, fault) in GANG_FAULTS {
        assert_equal(&rt, &answer_of(alloc, &job, lines, "")?, &Err(fault));
    }
    Ok(())
}

/// Bytes in memory, of which at most so many are given at a time.
#[derive(Drop)]
struct FewAtATime {
    bytes: HeldBytes,
    most: usize,
}

impl Reader for FewAtATime {
    ghost left = { λ _. None };

    ghost faults = { λ _. 0 };

    fn read(&mut self, to: &mut [u8]) -> Option<usize> {
        let count = self.most.min(to.len());
        self.bytes.read(&mut to[..count])
    }
}

/// What checking a text comes to that is read in pieces of at most so many bytes.
fn answer_in_pieces(
    alloc: Global,
    text: &str,
    most: usize,
) -> Result<Result<Verdict, CheckFault>, Fail> {
    let bytes = HeldBytes::new(Vec::from_slice(alloc, text.as_bytes())?);
    let mut window = Window::open(alloc, FewAtATime { bytes, most }, 1_000_000)?;
    match check_from(alloc, &mut window) {
        Ok(checked) => Ok(Ok(checked.verdict)),
        Err(fault) => Ok(Err(fault)),
    }
}

/// The worked certificates and their altered forms.
fn all_texts(alloc: Global) -> Result<Vec<String>, Fail> {
    let mut texts = Vec::new(alloc);
    let job = VERSION_1_JOB.concat(alloc)?;
    let good = format!(in alloc; "{job}{STEPS}{ROWS}")?;
    for (old, new, _) in FAULTS {
        texts.push(good.replacen(alloc, old, new, 1)?)?;
    }
    texts.push(good)?;
    let high = job.replace(alloc, "30000 up", "80000 up")?;
    texts.push(format!(in alloc; "{high}claim none\n{HIGH_ROWS}")?)?;
    let gang = GANG_JOB.concat(alloc)?;
    for (lines, _) in GANG_FAULTS {
        texts.push(format!(in alloc; "{gang}{lines}")?)?;
    }
    Ok(texts)
}

#[test]
fn a_text_in_pieces_is_answered_as_a_whole_one(rt: HostRuntime) -> Result<(), Fail> {
    let alloc = rt.alloc();
    for text in &all_texts(alloc)? {
        let whole = answer_of(alloc, text, "", "")?;
        for most in [1, 40, 1000] {
            assert_equal(&rt, &answer_in_pieces(alloc, text, most)?, &whole);
        }
    }
    Ok(())
}
