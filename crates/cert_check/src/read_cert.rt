//! The one reading of a certificate's or a table's text: all of it, but of its notes only the actions
//! that are noted and the first whose reason doesn't hold. A table is read as a certificate that
//! claims nothing.
ghost use Rattle.std.specs.Prelude.{◌≡◌, ◌<◌, ◌++◌, ◌∷◌, [], ℕ, Err, IfErr, IfOk, IfSome, IsNone, IsSome, OnOk, List, Ok, Result, if◌then◌else◌, length, nat_lt, not, false, true};
ghost use Rattle.plan_lines.specs.declared.item.Item.{Item};
ghost use Rattle.plan_lines.specs.declared.item.Item.TheVariants as given;
ghost use Rattle.plan_lines.specs.declared.item.CertFault.{CertFault};
ghost use Rattle.cert_lines.specs.declared.format.TextKind.{TextKind};
ghost use Rattle.plan_cert.specs.Cert.{CertData};
ghost use Rattle.plan_lines.specs.PlanItem.{item_of, plan_answer};
ghost use Rattle.plan_lines.specs.declared.item.CertFault.TheVariants.{Unended};
ghost use Rattle.plan_lines.specs.declared.line_place.LinePlace.{LinePlace};
ghost use Rattle.plan_lines.specs.Facts.{HasFew};
ghost use Rattle.plan_lines.specs.Reading.{Reading, GivesNext, MayBeBehind};
ghost use Rattle.cert_lines.specs.LineReading.{IsBehind};
ghost use Rattle.plan_cert.specs.CertReading.{answers_left, is_last, no_cert, with_item};
ghost use Rattle.cert_check.specs.RowNotes.{HasNoNotes, IsTesting};
ghost use Rattle.cert_check.specs.KnownNotes.{KnowsSound, KnowsSoundBut};
ghost use Rattle.cert_check.specs.declared.fault.CheckFault.{CheckFault};
ghost use Rattle.cert_check.specs.declared.fault.CheckFault.TheVariants.{Cert};
ghost use Rattle.cert_check.specs.ReadCert.{ReadAnswer, HasParts, IsUnderway, IsKept, IsReadUpTo, IsReadBefore, PieceAnswer};

use crate::fault::CheckFault;
use crate::row_notes::RowNotes;
use crate::row_table::key_count;
use arrayvec::ArrayVec;
use brake_base::{Reason, Step, Worth};
use job_setup::Job;
use plan_cert::{CertFault, NoteLines, PlanItem, PlanReader, RowHead, TextKind};
use std::alloc::{AllocError, Global};

/// The job of a certificate or a table, its claim, its steps and its rows, and what is kept of its
/// notes.
#[derive(Drop)]
pub struct ReadCert {
    pub job: Job,
    pub claim: Worth,
    pub steps: ArrayVec<Step, 12>,
    pub rows: Vec<RowHead>,
    pub notes: RowNotes,
}

/// Reads the whole text once.
pub fn read_text(alloc: Global, text: &[u8], kind: TextKind) -> Result<ReadCert, CheckFault>
    ensures { ReadAnswer kind text.now result }
{
    let mut reader = PlanReader::new(text);
    let mut read = read_job(alloc, &mut reader, kind)?;
    read_piece(&mut read, &mut reader, true)?;
    Ok(read)
}

/// What is read of a text where the job alone is.
fn begun(alloc: Global, job: Job) -> Result<ReadCert, AllocError>
    ensures job { IfOk result (λ read. read.job ≡ job) }
    ensures testing { IfOk result (λ read. IsTesting read.job read.notes) }
    ensures parts { IfOk result (λ read. HasParts read no_cert) }
    ensures none { IfOk result (λ read. HasNoNotes read.notes) }
{
    let rows = Vec::with_capacity(alloc, key_count(&job))?;
    let notes = RowNotes::open(alloc, &job)?;
    Ok(ReadCert {
        job,
        claim: Worth::Blocked,
        steps: ArrayVec::new(),
        rows,
        notes,
    })
}

/// Reads the job, with which a text begins. `Unended` says that the piece ends before the job's lines
/// do.
pub(crate) fn read_job(
    alloc: Global,
    reader: &mut PlanReader,
    kind: TextKind,
) -> Result<ReadCert, CheckFault>
    requires few { HasFew reader.old.place.facts }
    ensures few { HasFew reader.new.place.facts }
    ensures rest { IsBehind reader.old.rest.now reader.new.rest.now }
    ensures testing { IfOk result (λ read. IsTesting read.job read.notes) }
    ensures read { IfOk result (λ read. (behind : List ℕ)
        → IsReadBefore kind (reader.old.rest.now ++ behind) read reader.new.place
        (reader.new.rest.now ++ behind)) }
    ensures refused { (fault : CheckFault) (behind : List ℕ) → result ≡ Err fault
        → (fault ≡ Cert Unended → behind ≡ [])
        → ReadAnswer kind (reader.old.rest.now ++ behind) (Err fault) }
{
    match reader.read_job(kind) {
        Ok(job) => Ok(begun(alloc, job)?),
        Err(fault) => Err(CheckFault::Cert(fault)),
    }
}

/// Reads the piece to its end, or the text to its own. Whether more of it is left.
pub(crate) fn read_piece<'a>(
    read: &mut ReadCert,
    reader: &mut PlanReader<'a>,
    is_last: bool,
) -> Result<bool, CheckFault>
    requires few { HasFew reader.old.place.facts }
    requires testing { IsTesting read.old.job read.old.notes }
    ensures few { HasFew reader.new.place.facts }
    ensures rest { IsBehind reader.old.rest.now reader.new.rest.now }
    ensures testing { IfOk result (λ _. IsTesting read.new.job read.new.notes) }
    ensures last { is_last ≡ true → IfOk result (λ more. more ≡ false) }
    ensures answer { (kind : TextKind) (text behind : List ℕ) → MayBeBehind is_last behind
        → IsReadBefore kind text read.old reader.old.place (reader.old.rest.now ++ behind)
        → PieceAnswer result kind text read.new reader.new.place (reader.new.rest.now ++ behind) }
{
    let mut lines = NoteLines::new(read.job.stages());
    loop {
        let Some(answer) = take_items(read, reader, &mut lines, is_last) else {
            return Ok(true);
        };
        if !answer? {
            return Ok(false);
        }
    }
}

/// Reads on and keeps what the next items say: known notes, as many as come, or else one item.
/// Whether another follows. `None` where the piece doesn't tell the next item; then nothing is read.
fn take_items<'a>(
    read: &mut ReadCert,
    reader: &mut PlanReader<'a>,
    lines: &mut NoteLines<'a>,
    is_last: bool,
) -> Option<Result<bool, CheckFault>>
    requires few { HasFew reader.old.place.facts }
    requires testing { IsTesting read.old.job read.old.notes }
    requires lines { KnowsSound read.old.job read.old.notes lines.old }
    ensures few { HasFew reader.new.place.facts }
    ensures rest { IsBehind reader.old.rest.now reader.new.rest.now }
    ensures shorter { IfSome result (λ answer. IfOk answer
        (λ _. length reader.new.rest.now < length reader.old.rest.now)) }
    ensures last { is_last ≡ true → IsSome result }
    ensures job { read.new.job ≡ read.old.job }
    ensures testing { IfSome result (λ answer. IfOk answer
        (λ _. IsTesting read.new.job read.new.notes)) }
    ensures lines { IfSome result (λ answer. IfOk answer
        (λ _. KnowsSound read.new.job read.new.notes lines.new)) }
    ensures item { IfSome result (λ answer. (kind : TextKind) (text behind : List ℕ)
        → MayBeBehind is_last behind
        → IsReadBefore kind text read.old reader.old.place (reader.old.rest.now ++ behind)
        → PieceAnswer answer kind text read.new reader.new.place (reader.new.rest.now ++ behind)) }
    ensures same { IsNone result → IsTesting read.new.job read.new.notes }
    ensures none { IsNone result → (kind : TextKind) (text behind : List ℕ)
        → IsReadBefore kind text read.old reader.old.place (reader.old.rest.now ++ behind)
        → IsReadBefore kind text read.new reader.new.place (reader.new.rest.now ++ behind) }
{
    let known = reader.take_known(lines);
    if !known.is_empty() {
        read.notes.add_known(known);
        return Some(Ok(true));
    }
    let answer = reader.next_kept(lines, is_last)?;
    Some(keep_answer(read, lines, answer))
}

/// Keeps what the next answer says. Whether another item follows.
fn keep_answer(
    read: &mut ReadCert,
    lines: &mut NoteLines,
    answer: Result<PlanItem, CertFault>,
) -> Result<bool, CheckFault>
    requires testing { IsTesting read.old.job read.old.notes }
    requires lines { IfOk answer
        (λ item. KnowsSoundBut read.old.job read.old.notes (item_of item) lines.old) }
    ensures job { read.new.job ≡ read.old.job }
    ensures testing { IfOk result (λ _. IsTesting read.new.job read.new.notes) }
    ensures lines { IfOk result (λ _. KnowsSound read.new.job read.new.notes lines.new) }
    ensures read { IfOk result (λ _. IfErr answer (λ _. ⊥)) }
    ensures item { (kind : TextKind) (text : List ℕ) (reader : Reading) (place : LinePlace)
        (rest : List ℕ) → IsReadUpTo kind text read.old reader
        → GivesNext (answers_left reader) (plan_answer answer) place rest
        → PieceAnswer result kind text read.new place rest }
{
    match answer {
        Ok(item) => Ok(keep(read, lines, item)?),
        Err(fault) => Err(CheckFault::Cert(fault)),
    }
}

/// Keeps what an item says. Whether another item follows.
fn keep(read: &mut ReadCert, lines: &mut NoteLines, item: PlanItem) -> Result<bool, AllocError>
    requires testing { IsTesting read.old.job read.old.notes }
    requires lines { KnowsSoundBut read.old.job read.old.notes (item_of item) lines.old }
    ensures job { read.new.job ≡ read.old.job }
    ensures testing { OnOk result (IsTesting read.new.job read.new.notes) }
    ensures lines { OnOk result (KnowsSound read.new.job read.new.notes lines.new) }
    ensures more { IfOk result (λ more. more ≡ not (is_last (item_of item))) }
    ensures kept { OnOk result ((before : CertData) → HasParts read.old before
        → HasParts read.new (with_item before (item_of item))) }
    ensures notes { OnOk result ((cert before : CertData) (left : List (Result Item CertFault))
        → IsUnderway read.old.job cert before (Ok (item_of item) ∷ left) read.old.notes
        → IsKept read.old.job cert before (item_of item) left read.new.notes) }
{
    match item {
        PlanItem::Claim(claim) => {
            read.claim = claim;
            Ok(true)
        }
        PlanItem::Step(step) => {
            add_step(&mut read.steps, step);
            Ok(true)
        }
        PlanItem::Row(row) => keep_row(read, lines, row),
        PlanItem::Note { action, reason } => {
            keep_note(read, lines, action, reason);
            Ok(true)
        }
        PlanItem::End => Ok(false),
    }
}

/// Keeps a row, and forgets the notes' lines where the row is of another set. Another item follows.
fn keep_row(read: &mut ReadCert, lines: &mut NoteLines, row: RowHead) -> Result<bool, AllocError>
    requires testing { IsTesting read.old.job read.old.notes }
    requires lines { KnowsSound read.old.job read.old.notes lines.old }
    ensures job { read.new.job ≡ read.old.job }
    ensures testing { OnOk result (IsTesting read.new.job read.new.notes) }
    ensures lines { OnOk result (KnowsSound read.new.job read.new.notes lines.new) }
    ensures more { IfOk result (λ more. more ≡ true) }
    ensures kept { OnOk result ((before : CertData) → HasParts read.old before
        → HasParts read.new (with_item before (given.Row row))) }
    ensures notes { OnOk result ((cert before : CertData) (left : List (Result Item CertFault))
        → IsUnderway read.old.job cert before (Ok (given.Row row) ∷ left) read.old.notes
        → IsUnderway read.old.job cert (with_item before (given.Row row)) left read.new.notes) }
{
    let mask = row.key.mask;
    if mask != read.notes.folded.mask {
        lines.forget();
    }
    read.rows.push(row)?;
    read.notes.add_row(&read.job, mask)?;
    Ok(true)
}

/// Keeps a note. Where it is the first of its stroke at its row, the lines of the stroke's other
/// actions are known again that were read before and give the first reasons that hold there: the rows
/// of a set mostly note a stroke at all stages, for the reasons for which it was noted before.
fn keep_note(read: &mut ReadCert, lines: &mut NoteLines, action: u8, reason: Reason)
    requires testing { IsTesting read.old.job read.old.notes }
    requires lines { KnowsSoundBut read.old.job read.old.notes (given.Note action reason) lines.old }
    ensures job { read.new.job ≡ read.old.job }
    ensures testing { IsTesting read.new.job read.new.notes }
    ensures lines { KnowsSound read.new.job read.new.notes lines.new }
    ensures kept { (before : CertData) → HasParts read.old before
        → HasParts read.new (with_item before (given.Note action reason)) }
    ensures notes { (cert before : CertData) (left : List (Result Item CertFault))
        → IsUnderway read.old.job cert before (Ok (given.Note action reason) ∷ left) read.old.notes
        → IsUnderway read.old.job cert (with_item before (given.Note action reason)) left
        read.new.notes }
{
    let is_first = read.notes.is_first_of_stroke(&read.job, action);
    read.notes.add_note(&read.job, action, reason);
    if is_first {
        read.notes.recall_stroke(&read.job, lines, action);
    }
}

/// Adds a step, of which a certificate has at most 12.
fn add_step(steps: &mut ArrayVec<Step, 12>, step: Step)
    ensures { steps.new.items
        ≡ (if nat_lt (length steps.old.items) 12
        then steps.old.items ++ step ∷ []
        else steps.old.items) }
{
    if steps.len() < 12 {
        steps.push(step);
    }
}
