//! A writer of the rows of settled sets.
ghost use Rattle.std.specs.Prelude.{◌≡◌, ◌<◌, ◌≤◌, None, slice_index_or, IfOk, OnOk};
ghost use Rattle.stage_lanes.specs.ActionSets.{IsNone};
ghost use Rattle.cert_lines.specs.Lines.{IsWorth};
ghost use Rattle.cert_merge.specs.declared.settled_sets.SettledSet.{SettledSet};
ghost use Rattle.cert_merge.specs.Settling.{IsAmong, said_by};
ghost use Rattle.cert_merge.specs.SetRows.{AreNotesOf, AreWritable, CanBeWritten, IsSetOf, IsWriterOf, IsRowPut};

use crate::settled_sets::SettledSets;
use brake_base::{Key, Mask, Reason, action_of};
use plan_cert::RowHead;
use row_text::RowWriter;
use stage_lanes::ActionSet;
use std::alloc::{AllocError, Global};

/// Writes the rows of settled sets, one set after the other. All rows of a set have the same notes.
#[derive(Drop)]
pub(crate) struct SetWriter {
    pub writer: RowWriter,
    /// The actions that are noted at the rows of the writer's set.
    pub notes: ActionSet,
}

impl SetWriter {
    /// A writer for a machine of so many stages, begun with a set that is settled.
    pub fn open(
        alloc: Global,
        stages: u8,
        settled: &SettledSets,
        mask: Mask,
    ) -> Result<SetWriter, AllocError>
        requires writable { CanBeWritten stages settled.now }
        requires mask { IsAmong settled.now mask }
        ensures { IfOk result (IsWriterOf stages settled.now) }
    {
        let mut writer = RowWriter::open(alloc, stages, mask)?;
        let notes = set_reasons(&mut writer, stages, &settled.set(mask).reasons)?;
        Ok(SetWriter { writer, notes })
    }

    /// Goes on with a set that is settled, unless it is the one that is begun.
    pub fn turn_to(
        &mut self,
        stages: u8,
        settled: &SettledSets,
        mask: Mask,
    ) -> Result<(), AllocError>
        requires writable { CanBeWritten stages settled.now }
        requires mask { IsAmong settled.now mask }
        requires writer { IsWriterOf stages settled.now self.old }
        ensures writer { OnOk result (IsWriterOf stages settled.now self.new) }
        ensures mask { OnOk result (self.new.writer.mask ≡ mask) }
    {
        if self.writer.mask() == mask {
            return Ok(());
        }
        self.begin(stages, settled, mask)
    }

    /// Begins a set that is settled.
    fn begin(&mut self, stages: u8, settled: &SettledSets, mask: Mask) -> Result<(), AllocError>
        requires writable { CanBeWritten stages settled.now }
        requires mask { IsAmong settled.now mask }
        requires writer { IsWriterOf stages settled.now self.old }
        ensures writer { OnOk result (IsWriterOf stages settled.now self.new) }
        ensures mask { OnOk result (self.new.writer.mask ≡ mask) }
    {
        self.writer.begin(mask)?;
        let notes = set_reasons(&mut self.writer, stages, &settled.set(mask).reasons)?;
        self.notes = notes;
        Ok(())
    }

    /// Appends the line of the row of a key of its set, and those of its notes.
    pub fn put_row(
        &mut self,
        settled: &SettledSets,
        key: &Key,
        out: &mut Vec<u8>,
    ) -> Result<(), AllocError>
        requires mask { key.now.mask ≡ self.old.writer.mask }
        requires settled { IsAmong settled.now key.now.mask }
        requires stage { key.now.stage < self.old.writer.stages }
        requires worth { (set : SettledSet) → IsSetOf settled.now key.now.mask set
            → IsWorth (said_by set key.now).worth }
        requires writable { CanBeWritten self.old.writer.stages settled.now }
        requires writer { IsWriterOf self.old.writer.stages settled.now self.old }
        ensures writer { self.new.writer ≡ self.old.writer }
        ensures notes { self.new.notes ≡ self.old.notes }
        ensures text { OnOk result (IsRowPut self.old.writer.stages settled.now key.now
            out.old.items out.new.items) }
    {
        let row = RowHead {
            key: *key,
            worth: settled.set(key.mask).worth(key),
        };
        self.writer.put_row(out, &row, self.notes)
    }
}

/// Tells the writer the reasons of a set that it has begun. The actions that have one.
pub(crate) fn set_reasons(
    writer: &mut RowWriter,
    stages: u8,
    reasons: &[Option<Reason>; 144],
) -> Result<ActionSet, AllocError>
    requires few { stages ≤ 6 }
    requires stages { writer.old.stages ≡ stages }
    requires known { IsNone writer.old.known }
    requires reasons { AreWritable stages reasons.now }
    ensures notes { IfOk result (AreNotesOf reasons.now writer.new) }
    ensures stages { writer.new.stages ≡ stages }
    ensures mask { OnOk result (writer.new.mask ≡ writer.old.mask) }
{
    let mut notes = ActionSet::empty();
    for number in 0..24 * stages {
        if let Some(reason) = reason_of(reasons, number) {
            let action = action_of(number, stages);
            writer.set_reason(action, reason)?;
            notes = notes.with(action);
        }
    }
    Ok(notes)
}

/// The reason against the action of a number.
fn reason_of(reasons: &[Option<Reason>; 144], number: u8) -> Option<Reason>
    requires { number < 144 }
    ensures { result ≡ slice_index_or reasons.now number None }
{
    reasons[usize::from(number)]
}
