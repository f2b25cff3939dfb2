//! The check of a certificate.
ghost use Rattle.std.specs.Prelude.{◌≡◌, ◌++◌, ℕ, IfOk, List};
ghost use Rattle.brake_io.specs.Pieces.{HasPassed, MayFollow};
ghost use Rattle.plan_cert.specs.Cert.{CertData};
ghost use Rattle.cert_check.specs.Texts.{IsTextOfCert};
ghost use Rattle.cert_check.specs.Checking.{Answers, AcceptsGood, AreParts, AreRowParts, CertAnswer, IsTrueOf, RowsVerdict, verdict_of};
ghost use Rattle.cert_check.specs.Rows.{ProvesAnswer};

use crate::fault::CheckFault;
use crate::read_cert::{ReadCert, read_text};
use crate::read_window::read_text_from;
use crate::row_notes::RowNotes;
use crate::row_table::RowTable;
use crate::rows::{check_rows, is_proved};
use crate::steps::check_steps;
use brake_base::{Step, Worth};
use brake_io::{Reader, Window};
use handling_cost::start_key;
use job_setup::Job;
use plan_cert::{RowHead, TextKind};
use set_facts::LaneFacts;
use std::alloc::Global;

/// What an accepted certificate proves: that no plan costs less than this, and one costs it; or
/// that there is no plan.
#[derive(Clone, Copy, Debug, PartialEq, Eq)]
pub enum Verdict {
    Optimal { cost: u64 },
    NoPlan,
}

/// An accepted certificate's claim, and its job.
#[derive(Drop)]
pub struct Checked {
    pub verdict: Verdict,
    pub job: Job,
}

/// Whether the text is that of a good certificate, and what it proves; else the first cause for
/// which it isn't.
pub fn check(alloc: Global, text: &[u8]) -> Result<Checked, CheckFault>
    ensures answer { Answers text.now result }

    // The text of each good certificate is accepted, with its claim and its job.
    ensures accepts { AcceptsGood text.now result }

    // The verdict is the least cost of a plan of the job, or there is no plan.
    ensures truth { IfOk result (λ checked. IsTrueOf checked.job checked.verdict) }
{
    match read_text(alloc, text, TextKind::Certificate) {
        Ok(read) => check_read(alloc, read),
        Err(fault) => Err(fault),
    }
}

/// The same of a text that is read in pieces, as `check` gives it of each text that begins with what
/// was passed and is at hand: what stands behind that doesn't matter.
pub fn check_from<R: Reader + Drop>(
    alloc: Global,
    window: &mut Window<R>,
) -> Result<Checked, CheckFault>
    ensures answer { (passed : List ℕ) × HasPassed window.old window.new passed
        × ((last : List ℕ) → MayFollow window.new last
        → Answers (passed ++ window.new.unread ++ last) result) }
    ensures accepts { (passed : List ℕ) × HasPassed window.old window.new passed
        × ((last : List ℕ) → MayFollow window.new last
        → AcceptsGood (passed ++ window.new.unread ++ last) result) }
    ensures truth { IfOk result (λ checked. IsTrueOf checked.job checked.verdict) }
{
    match read_text_from(alloc, window, TextKind::Certificate) {
        Ok(read) => check_read(alloc, read),
        Err(fault) => Err(fault),
    }
}

/// The same of a certificate that was read.
fn check_read(alloc: Global, read: ReadCert) -> Result<Checked, CheckFault>
    requires { (cert : CertData)
        × AreParts read.job read.claim read.steps.items read.rows.items read.notes cert }
    ensures answer { (text : List ℕ) (cert : CertData) → IsTextOfCert text read.job cert
        → AreParts read.job read.claim read.steps.items read.rows.items read.notes cert
        → Answers text result }
    ensures truth { IfOk result (λ checked. IsTrueOf checked.job checked.verdict) }
{
    let ReadCert {
        job,
        claim,
        steps,
        rows,
        notes,
    } = read;
    match check_cert(alloc, &job, claim, steps.as_slice(), rows, &notes) {
        Ok(()) => Ok(Checked {
            verdict: verdict_of(claim),
            job,
        }),
        Err(fault) => Err(fault),
    }
}

/// Refuses a certificate that isn't good.
fn check_cert(
    alloc: Global,
    job: &Job,
    claim: Worth,
    steps: &[Step],
    rows: Vec<RowHead>,
    notes: &RowNotes,
) -> Result<(), CheckFault>
    requires { (cert : CertData) × AreParts job.now claim steps.now rows.items notes.now cert }
    ensures { (cert : CertData) → AreParts job.now claim steps.now rows.items notes.now cert
        → CertAnswer job.now cert result }
{
    match check_steps(job, claim, steps) {
        Ok(()) => check_proof(alloc, job, claim, rows, notes),
        Err(fault) => Err(fault),
    }
}

/// Refuses rows and notes that don't prove the claim.
fn check_proof(
    alloc: Global,
    job: &Job,
    claim: Worth,
    rows: Vec<RowHead>,
    notes: &RowNotes,
) -> Result<(), CheckFault>
    requires { (cert : CertData) × AreRowParts job.now claim rows.items notes.now cert }
    ensures { (cert : CertData) → AreRowParts job.now claim rows.items notes.now cert
        → RowsVerdict job.now cert result }
{
    let rows = RowTable::open(alloc, job, rows)?;
    match check_rows(job, &rows, notes) {
        Ok(()) => check_claim(job, &rows, notes.facts(), claim),
        Err(fault) => Err(fault),
    }
}

/// What a claim that is proved says.
fn verdict_of(claim: Worth) -> Verdict
    ensures { result ≡ verdict_of claim }
{
    match claim {
        Worth::Cost(cost) => Verdict::Optimal { cost },
        Worth::Blocked => Verdict::NoPlan,
    }
}

/// Refuses a claim that is greater than what is proved of the start.
fn check_claim(
    job: &Job,
    rows: &RowTable,
    facts: &LaneFacts,
    claim: Worth,
) -> Result<(), CheckFault>
    requires rows { rows.now.job ≡ job.now }
    requires facts { facts.now ≡ job.now }
    ensures { ProvesAnswer job.now rows.now.rows claim result }
{
    job.recall_valid();
    if is_proved(job, rows, facts, &start_key(), 0, claim) {
        Ok(())
    } else {
        Err(CheckFault::TooLow)
    }
}
