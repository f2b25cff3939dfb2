//! The words by which a refusal of a certificate is told.
ghost use Rattle.std.specs.Prelude.{◌≡◌, ◌++◌, ◌∷◌, [], ◌<◌, ◌^◌, OnOk};
ghost use Rattle.std.specs.List.{flat_map};
ghost use Rattle.cert_lines.specs.Lines.{number, spaced, reason_words};
ghost use Rattle.cert_check.specs.FaultWords.{cert_fault_words, step_fault_words, check_fault_words};

use crate::fault::{CheckFault, StepFault};
use brake_base::Reason;
use plan_cert::{CertFault, put_count, put_reason};
use std::alloc::AllocError;

/// Two numbers, each behind a space.
#[tactic(auto, using(crate::proofs::Texts::pieces))]
fn put_two(out: &mut Vec<u8>, first: u64, second: u64) -> Result<(), AllocError>
    requires first { first < 2 ^ 63 }
    requires second { second < 2 ^ 63 }
    ensures { OnOk result (out.new.items
        ≡ out.old.items ++ flat_map spaced (number first ∷ number second ∷ [])) }
{
    put_count(out, first)?;
    put_count(out, second)
}

/// Three numbers, each behind a space.
#[tactic(auto, using(crate::proofs::Texts::pieces))]
fn put_three(out: &mut Vec<u8>, first: u64, second: u64, third: u64) -> Result<(), AllocError>
    requires first { first < 2 ^ 63 }
    requires second { second < 2 ^ 63 }
    requires third { third < 2 ^ 63 }
    ensures { OnOk result (out.new.items
        ≡ out.old.items ++ flat_map spaced (number first ∷ number second ∷ number third ∷ [])) }
{
    put_count(out, first)?;
    put_two(out, second, third)
}

/// The number of a refusal of the reading and what it names, each behind a space.
#[tactic(auto, using(crate::proofs::Texts::pieces))]
fn put_reading(out: &mut Vec<u8>, fault: CertFault) -> Result<(), AllocError>
    ensures { OnOk result (out.new.items
        ≡ out.old.items ++ flat_map spaced (cert_fault_words fault)) }
{
    match fault {
        CertFault::BadLine { line } => put_two(out, 1, u64::from(line)),
        CertFault::Unended => put_count(out, 2),
        CertFault::Trailing => put_count(out, 3),
        CertFault::BadJob => put_count(out, 4),
        CertFault::NoMemory => put_count(out, 5),
    }
}

/// That a reason holds against a step.
#[tactic(auto, using(crate::proofs::Texts::pieces))]
fn put_hit(out: &mut Vec<u8>, reason: Reason) -> Result<(), AllocError>
    ensures { OnOk result (out.new.items
        ≡ out.old.items ++ flat_map spaced (number 2 ∷ reason_words reason)) }
{
    put_count(out, 2)?;
    put_reason(out, reason)
}

impl StepFault {
    /// Its number and what it names, each behind a space.
    #[tactic(auto, using(crate::proofs::Texts::pieces))]
    fn put_words(self, out: &mut Vec<u8>) -> Result<(), AllocError>
        ensures { OnOk result (out.new.items
            ≡ out.old.items ++ flat_map spaced (step_fault_words self)) }
    {
        match self {
            StepFault::AlreadyFolded => put_count(out, 1),
            StepFault::Hit(reason) => put_hit(out, reason),
            StepFault::BadGauge => put_count(out, 3),
            StepFault::NotLead => put_count(out, 4),
        }
    }
}

/// That the text isn't that of a certificate.
#[tactic(auto, using(crate::proofs::Texts::pieces))]
fn put_cert_fault(out: &mut Vec<u8>, fault: CertFault) -> Result<(), AllocError>
    ensures { OnOk result (out.new.items
        ≡ out.old.items ++ flat_map spaced (number 1 ∷ cert_fault_words fault)) }
{
    put_count(out, 1)?;
    put_reading(out, fault)
}

/// That the step of an index isn't legal.
#[tactic(auto, using(crate::proofs::Texts::pieces))]
fn put_bad_step(out: &mut Vec<u8>, index: u8, fault: StepFault) -> Result<(), AllocError>
    ensures { OnOk result (out.new.items
        ≡ out.old.items ++ flat_map spaced (number 2 ∷ number index ∷ step_fault_words fault)) }
{
    put_two(out, 2, u64::from(index))?;
    fault.put_words(out)
}

impl CheckFault {
    /// Its number and what it names, each behind a space; an inner refusal stands behind the number
    /// of the outer one.
    #[tactic(auto, using(crate::proofs::Texts::pieces))]
    pub fn put_words(self, out: &mut Vec<u8>) -> Result<(), AllocError>
        ensures { OnOk result (out.new.items
            ≡ out.old.items ++ flat_map spaced (check_fault_words self)) }
    {
        match self {
            CheckFault::Cert(fault) => put_cert_fault(out, fault),
            CheckFault::BadStep { index, fault } => put_bad_step(out, index, fault),
            CheckFault::BadCost => put_count(out, 3),
            CheckFault::BadReason { row, action } => {
                put_three(out, 4, u64::from(row), u64::from(action))
            }
            CheckFault::NotClosed { row, action } => {
                put_three(out, 5, u64::from(row), u64::from(action))
            }
            CheckFault::TooLow => put_count(out, 6),
            CheckFault::NoMemory => put_count(out, 7),
            CheckFault::Unfinished => put_count(out, 8),
        }
    }
}
