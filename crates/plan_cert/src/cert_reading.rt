//! A whole certificate from its text.
ghost use Rattle.std.specs.Prelude.{◌≡◌, ◌+◌, ◌<◌, length, OnOk, IfOk};
ghost use Rattle.toml_fields.specs.Results.{GivesOr};
ghost use Rattle.plan_lines.specs.declared.item.CertFault.TheVariants.{NoMemory};
ghost use Rattle.plan_cert.specs.Cert.{cert_data};
ghost use Rattle.plan_lines.specs.Items.{items};
ghost use Rattle.plan_lines.specs.PlanItem.{item_of};
ghost use Rattle.plan_cert.specs.CertReading.{cert_file_data, cert_file_of, file_of, cert_of, with_item, with_step, with_note, is_last, no_cert, version_in, answers_left, Collects, AnswersLeft, BeginsWith};
ghost use Rattle.plan_cert.specs.CertItems.{IsReadFrom};
ghost use Rattle.plan_cert.specs.ExactTexts.{IsExact, GivesBack};

use crate::cert::Cert;
use crate::reader::CertReader;
use arrayvec::ArrayVec;
use brake_base::{Reason, Step, Worth};
use cert_lines::{RowHead, TextKind};
use job_setup::Job;
use plan_lines::{CertFault, Note, PlanItem};
use std::alloc::{AllocError, Global};

/// A certificate with its job and the version of its text.
#[derive(Drop)]
pub struct CertFile {
    pub job: Job,
    pub cert: Cert,
    pub version: u8,
}

/// The version that the first line names.
fn version(text: &[u8]) -> u8
    ensures { result ≡ version_in text.now }
{
    if text.starts_with(b"brake-cert 1\n") {
        1
    } else {
        2
    }
}

/// A certificate of which nothing is read.
fn no_cert(alloc: Global) -> Cert
    ensures { cert_data result ≡ no_cert }
{
    Cert {
        claim: Worth::Blocked,
        steps: ArrayVec::new(),
        rows: Vec::new(alloc),
        notes: Vec::new(alloc),
    }
}

/// Adds a step, of which a certificate has at most 12.
fn add_step(cert: &mut Cert, step: Step)
    ensures { cert_data cert.new ≡ with_step (cert_data cert.old) step }
{
    if cert.steps.len() < 12 {
        cert.steps.push(step);
    }
}

/// Adds a reason against an action at the last row, whose number stands still at the greatest.
fn add_note(cert: &mut Cert, action: u8, reason: Reason) -> Result<(), AllocError>
    ensures { OnOk result (cert_data cert.new ≡ with_note (cert_data cert.old) action reason) }
{
    let row = (cert.rows.len().saturating_sub(1)).min(0xFFFF_FFFF) as u32;
    cert.notes.push(Note {
        row,
        action,
        reason,
    })?;
    Ok(())
}

/// Adds what an item says.
fn add_item(cert: &mut Cert, item: PlanItem) -> Result<(), AllocError>
    ensures { OnOk result (cert_data cert.new ≡ with_item (cert_data cert.old) (item_of item)) }
{
    match item {
        PlanItem::Claim(claim) => cert.claim = claim,
        PlanItem::Step(step) => add_step(cert, step),
        PlanItem::Row(row) => cert.rows.push(row)?,
        PlanItem::Note { action, reason } => add_note(cert, action, reason)?,
        PlanItem::End => (),
    }
    Ok(())
}

/// Whether the item is the last.
fn is_last(item: &PlanItem) -> bool
    ensures { result ≡ is_last (item_of item.now) }
{
    matches!(item, PlanItem::End)
}

/// Reads an item and adds what it says. Whether it was the last.
#[tactic(auto, using(crate::proofs::Collecting::collects, crate::proofs::Collecting::refused))]
fn take_item(cert: &mut Cert, reader: &mut CertReader) -> Result<bool, CertFault>
    requires job { 0 < reader.old.answered }
    requires left { AnswersLeft reader.old }
    ensures value { Collects result (cert_data cert.old) reader.old (cert_data cert.new) reader.new }
    ensures after { reader.new ≡ record reader.old { answered = reader.old.answered + 1 } }
{
    let item = reader.next_behind_job()?;
    let is_last = is_last(&item);
    add_item(cert, item)?;
    Ok(is_last)
}

/// Reads the items up to the end.
fn collect(cert: &mut Cert, reader: &mut CertReader) -> Result<(), CertFault>
    requires job { 0 < reader.old.answered }
    requires left { AnswersLeft reader.old }
    ensures { GivesOr NoMemory (λ _. cert_data cert.new) result
        (cert_of (cert_data cert.old) (answers_left reader.old)) }
{
    let mut is_open = true;
    while is_open {
        is_open = !take_item(cert, reader)?;
    }
    Ok(())
}

/// The job, which is the first item.
#[tactic(auto, using(crate::proofs::Collecting::begins))]
fn first_job(reader: &mut CertReader) -> Result<Job, CertFault>
    requires { reader.old.answered ≡ 0 }
    ensures { BeginsWith reader.old result reader.new }
{
    reader.read_job()
}

/// What a certificate's or a table's text gives, with the job and the version, or the first refusal.
/// A table gives what a certificate does that claims nothing.
pub fn read_file(alloc: Global, text: &[u8], kind: TextKind) -> Result<CertFile, CertFault>
    ensures { GivesOr NoMemory cert_file_data result (file_of kind text.now) }
{
    let mut reader = CertReader::of(kind, text);
    let job = first_job(&mut reader)?;
    let mut cert = no_cert(alloc);
    collect(&mut cert, &mut reader)?;
    Ok(CertFile {
        job,
        cert,
        version: version(text),
    })
}

/// The certificate that the text is, with its job and its version, or the first refusal.
#[tactic(auto, using(crate::proofs::Exactly::exact, crate::proofs::Exactly::text_gives))]
pub fn read_cert(alloc: Global, text: &[u8]) -> Result<CertFile, CertFault>
    ensures value { GivesOr NoMemory cert_file_data result (cert_file_of text.now) }
    ensures whole { IfOk result (λ file. IsReadFrom (cert_file_data file) text.now) }
    ensures exact { IsExact text.now result }
    ensures written { GivesBack text.now }
{
    read_file(alloc, text, TextKind::Certificate)
}
