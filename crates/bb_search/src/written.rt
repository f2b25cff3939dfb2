//! What is written of a certificate: its text up to the rows, and the text of a row.
ghost use Rattle.std.specs.Prelude.{◌≡◌, ◌≢◌, ◌<◌, ◌++◌, None, Some, length, IfOk, OnOk, IsTrue, ℕ};
ghost use Rattle.stage_lanes.specs.ActionSets.{has_place};
ghost use Rattle.row_pool.specs.Rows.{Pool, reason_at, common_at, worth_at};
ghost use Rattle.plan_cert.specs.WellFormed.{IsWellFormed};
ghost use Rattle.plan_lines.specs.NoteLines.{number_at};
ghost use Rattle.row_text.specs.Notes.{IsAmong, AreOfStages};
ghost use Rattle.bb_search.specs.CertRows.{IsHeadOf};
ghost use Rattle.bb_search.specs.WrittenRows.{beginning_text, without_rows, AreWritable, IsWriterOf, row_text};

use crate::pieces::CertPieces;
use arrayvec::ArrayVec;
use brake_base::{Mask, Reason, Step, Worth, action_number};
use job_setup::Job;
use plan_cert::{Cert, RowHead, write_cert};
use row_pool::RowPool;
use row_text::RowWriter;
use stage_lanes::ActionSet;
use std::alloc::{AllocError, Global};

/// A certificate as text that is made in pieces, with its claim and its steps.
#[derive(Drop)]
pub struct WrittenCert {
    pub claim: Worth,
    pub steps: ArrayVec<Step, 12>,
    pub text: CertPieces,
}

/// The text of a certificate up to its rows.
pub(crate) fn text_before_rows(
    alloc: Global,
    job: &Job,
    claim: Worth,
    steps: &ArrayVec<Step, 12>,
) -> Result<Vec<u8>, AllocError>
    requires { IsWellFormed job.now (without_rows claim steps.now.items) }
    ensures { IfOk result (λ text. text.items ≡ beginning_text job.now claim steps.now.items) }
{
    let cert = Cert {
        claim,
        steps: copy_of(steps),
        rows: Vec::new(alloc),
        notes: Vec::new(alloc),
    };
    let mut text = write_cert(alloc, job, &cert)?;
    let end = text.len() - 4;
    text.truncate(end);
    Ok(text)
}

/// The reason for an action at a row, which has one.
fn known_reason(pool: &RowPool, row: u32, action: u8) -> Reason
    requires row { row < length pool.now.rows }
    requires action { action < pool.now.actions }
    requires known { reason_at pool.now row action ≢ None }
    ensures { reason_at pool.now row action ≡ Some result }
{
    match pool.reason(row, action) {
        Some(reason) => reason,
        None => unreachable!(),
    }
}

/// Tells the writer the reasons for some actions at a row of its set. After a refusal it still knows
/// no others than the pool's.
fn set_reasons(
    pool: &RowPool,
    row: u32,
    stages: u8,
    actions: ActionSet,
    writer: &mut RowWriter,
) -> Result<(), AllocError>
    requires writable { AreWritable stages pool.now }
    requires row { row < length pool.now.rows }
    requires writer { IsWriterOf pool.now stages writer.old }
    requires actions { AreOfStages stages actions }
    requires known { (place : ℕ) → place < 192 → IsTrue (has_place actions place)
        → reason_at pool.now row (number_at stages place) ≢ None }
    requires common { (number : ℕ) (reason : Reason) → reason_at pool.now row number ≡ Some reason
        → common_at pool.now writer.old.mask number ≡ Some reason }
    ensures writer { IsWriterOf pool.now stages writer.new }
    ensures mask { OnOk result (writer.new.mask ≡ writer.old.mask) }
    ensures known { OnOk result (IsAmong actions writer.new.known) }
    ensures kept { OnOk result (IsAmong writer.old.known writer.new.known) }
{
    let mut rest = actions;
    while let Some(action) = rest.first() {
        let reason = known_reason(pool, row, action_number(action, stages));
        writer.set_reason(action, reason)?;
        rest = rest.except(action);
    }
    Ok(())
}

/// Begins a set of folded bends, unless it is the one that is begun.
fn turn_to(writer: &mut RowWriter, mask: Mask) -> Result<(), AllocError>
    ensures mask { OnOk result (writer.new.mask ≡ mask) }
    ensures writer { (pool : Pool) (stages : ℕ)
        → IsWriterOf pool stages writer.old → IsWriterOf pool stages writer.new }
{
    if writer.mask() == mask {
        return Ok(());
    }
    writer.begin(mask)
}

/// The key and the worth of a row that has a worth.
fn row_head(pool: &RowPool, row: u32) -> RowHead
    requires row { row < length pool.now.rows }
    requires done { worth_at pool.now row ≢ None }
    ensures { IsHeadOf pool.now.rows row result }
{
    let key = pool.key(row);
    match pool.worth(row) {
        Some(worth) => RowHead { key, worth },
        None => unreachable!(),
    }
}

/// Appends the line of a row, and those of its notes.
pub(crate) fn put_row(
    pool: &RowPool,
    row: u32,
    stages: u8,
    writer: &mut RowWriter,
    out: &mut Vec<u8>,
) -> Result<(), AllocError>
    requires writable { AreWritable stages pool.now }
    requires row { row < length pool.now.rows }
    requires writer { IsWriterOf pool.now stages writer.old }
    ensures writer { IsWriterOf pool.now stages writer.new }
    ensures text { OnOk result (out.new.items ≡ out.old.items ++ row_text pool.now stages row) }
{
    let head = row_head(pool, row);
    let notes = pool.notes(row);
    turn_to(writer, head.key.mask)?;
    set_reasons(pool, row, stages, writer.unknown(notes), writer)?;
    writer.put_row(out, &head, notes)
}

/// A copy of kept steps.
pub(crate) fn copy_of(steps: &ArrayVec<Step, 12>) -> ArrayVec<Step, 12>
    ensures { result.items ≡ steps.now.items }
{
    let mut copy = ArrayVec::new();
    let _ = copy.try_extend_from_slice(steps.as_slice());
    copy
}
