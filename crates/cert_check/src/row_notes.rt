//! The notes of a certificate's rows: of each row the actions that are noted, and the first note
//! whose reason doesn't hold. A reason is tested where its note is read, unless it is known to hold
//! there or one before it doesn't hold.
ghost use Rattle.std.specs.Prelude.{◌≡◌, ◌-◌, ◌*◌, ◌<◌, ◌≤◌, ◌++◌, ◌∷◌, [], IfOk, IsTrue, OnOk, List, None, length};
ghost use Rattle.job_setup.specs.Setup.{JobData, bend_count, stage_count};
ghost use Rattle.handling_cost.specs.Plan.{IsReasonFor};
ghost use Rattle.cert_lines.specs.declared.row_head.RowHead.{RowHead};
ghost use Rattle.plan_lines.specs.declared.note.Note.{Note};
ghost use Rattle.cert_lines.specs.Lines.{action_at};
ghost use Rattle.stroke_table.specs.Codes.{AreCodesOf};
ghost use Rattle.cert_check.specs.KnownNotes.{KnowsSound};
ghost use Rattle.cert_check.specs.RowNotes.{AreNoted, HasNoNotes, IsActionPut, IsAtRow, IsFirstUnsound, IsTesting, IsUnionPut, last_note, note_at};

use crate::check_table::CheckTable;
use crate::row_set::RowSet;
use crate::row_table::key_count;
use crate::rows::{action_at, action_count};
use brake_base::{Action, Mask, Reason, action_number};
use job_setup::Job;
use plan_cert::NoteLines;
use set_facts::LaneFacts;
use stage_lanes::{ActionSet, StageCodes};
use std::alloc::{AllocError, Global};

/// The place of a note: the number of its row, and that of its action.
#[derive(Clone, Copy, Debug, PartialEq, Eq)]
pub(crate) struct NotePlace {
    pub row: usize,
    pub action: u8,
}

/// The notes of a certificate's rows, as they are read.
#[derive(Drop)]
pub struct RowNotes {
    /// What belongs to each set of folded bends.
    pub(crate) table: CheckTable,
    /// The bends that are folded at the last row.
    pub(crate) folded: RowSet,
    /// The noted actions of each row.
    pub(crate) sets: Vec<ActionSet>,
    /// The first note whose reason doesn't hold.
    pub(crate) unsound: Option<NotePlace>,
}

impl RowNotes {
    /// No row and no note.
    pub(crate) fn open(alloc: Global, job: &Job) -> Result<RowNotes, AllocError>
        ensures testing { IfOk result (IsTesting job.now) }
        ensures none { IfOk result HasNoNotes }
    {
        let table = CheckTable::open(alloc, job)?;
        let folded = RowSet::of(job, table.facts(), Mask::empty());
        let sets = Vec::with_capacity(alloc, key_count(job))?;
        Ok(RowNotes {
            table,
            folded,
            sets,
            unsound: None,
        })
    }

    /// What belongs to each set of folded bends.
    pub fn facts(&self) -> &LaneFacts
        ensures { result.now ≡ self.now.table }
    {
        self.table.facts()
    }

    /// A row more, without notes, where the bends of the mask are folded.
    pub fn add_row(&mut self, job: &Job, mask: Mask) -> Result<(), AllocError>
        requires testing { IsTesting job.now self.old }
        ensures testing { OnOk result (IsTesting job.now self.new) }
        ensures mask { OnOk result (self.new.folded.mask ≡ mask) }
        ensures sets { OnOk result ((rows : List RowHead) (head : RowHead) (notes : List Note)
            → AreNoted job.now rows notes self.old.sets.items
            → AreNoted job.now (rows ++ head ∷ []) notes self.new.sets.items) }
        ensures unsound { OnOk result (self.new.unsound ≡ self.old.unsound) }
    {
        job.recall_valid();
        self.sets.push(ActionSet::empty())?;
        self.folded.turn_to(job, self.table.facts(), mask);
        Ok(())
    }

    /// A note more of the last row. One without a row, or of no action, holds nowhere.
    pub fn add_note(&mut self, job: &Job, action: u8, reason: Reason)
        requires testing { IsTesting job.now self.old }
        ensures testing { IsTesting job.now self.new }
        ensures mask { self.new.folded.mask ≡ self.old.folded.mask }
        ensures sets { (rows : List RowHead) (notes : List Note) → 0 < length rows
            → action < 2 * bend_count job.now * stage_count job.now
            → AreNoted job.now rows notes self.old.sets.items
            → AreNoted job.now rows (notes ++ last_note self.old action reason ∷ [])
            self.new.sets.items }
        ensures unsound { (rows : List RowHead) (notes : List Note)
            → 0 < length self.old.sets.items
            → IsAtRow job.now rows self.old.folded.mask (last_note self.old action reason)
            → IsFirstUnsound job.now rows notes self.old.unsound
            → IsFirstUnsound job.now rows (notes ++ last_note self.old action reason ∷ [])
            self.new.unsound }
        ensures holds { self.new.unsound ≡ None → (self.old.unsound ≡ None)
            × IsReasonFor job.now self.old.folded.mask (action_at (stage_count job.now) action)
            reason }
    {
        job.recall_valid();
        if self.is_notable(job, action) {
            let row = self.last_row();
            put_action(job, self.sets.as_mut_slice(), row, action);
            self.test(job, row, action, reason);
        } else {
            self.unsound = Some(NotePlace { row: 0, action });
        }
    }

    /// The notes of these actions more of the last row, of which the reasons are known to hold.
    pub fn add_known(&mut self, known: ActionSet)
        ensures testing { (job : JobData) → IsTesting job self.old → IsTesting job self.new }
        ensures mask { self.new.folded.mask ≡ self.old.folded.mask }
        ensures sets { IsUnionPut (length self.old.sets.items - 1) known self.old.sets.items
            self.new.sets.items }
        ensures unsound { self.new.unsound ≡ self.old.unsound }
    {
        if !self.sets.is_empty() {
            let row = self.last_row();
            put_union(self.sets.as_mut_slice(), row, known);
        }
    }

    /// Whether the number is one of an action, and no action of the same stroke is noted at the last
    /// row.
    pub(crate) fn is_first_of_stroke(&self, job: &Job, number: u8) -> bool
        ensures { IsTrue result → number < 2 * bend_count job.now * stage_count job.now }
    {
        if !self.is_notable(job, number) {
            return false;
        }
        job.recall_valid();
        let action = action_at(job, number);
        let noted = self.sets[self.last_row()];
        noted.stages(action.bend, action.back).is_empty()
    }

    /// Knows the notes of the other actions of a stroke again whose lines were read before and give the
    /// first reasons that hold. Behind a note that doesn't hold no reason is tested, and none is known
    /// again.
    pub(crate) fn recall_stroke(&mut self, job: &Job, lines: &mut NoteLines, number: u8)
        requires testing { IsTesting job.now self.old }
        requires number { number < 2 * bend_count job.now * stage_count job.now }
        requires lines { KnowsSound job.now self.old lines.old }
        ensures testing { IsTesting job.now self.new }
        ensures mask { self.new.folded.mask ≡ self.old.folded.mask }
        ensures sets { self.new.sets.items ≡ self.old.sets.items }
        ensures unsound { self.new.unsound ≡ self.old.unsound }
        ensures lines { KnowsSound job.now self.new lines.new }
    {
        if self.unsound.is_some() {
            return;
        }
        let action = action_at(job, number);
        if let Some(codes) = self.folded.codes(job, &mut self.table, action) {
            self.recall_lines(job, lines, action, codes);
        }
    }

    /// Knows the notes of a stroke's actions again whose lines were read before and give the reasons of
    /// these codes, which are those of the first reasons that hold.
    fn recall_lines(&self, job: &Job, lines: &mut NoteLines, action: Action, codes: StageCodes)
        requires codes { AreCodesOf job.now self.now.folded.mask action.bend action.back codes.0 }
        requires first { 1 ≤ action.bend }
        requires last { action.bend ≤ bend_count job.now }
        requires lines { KnowsSound job.now self.now lines.old }
        ensures lines { KnowsSound job.now self.now lines.new }
    {
        job.recall_valid();
        let stages = job.stages();
        for stage in 0..stages {
            let number = action_number(Action { stage, ..action }, stages);
            lines.recall(number, codes.code(stage));
        }
    }

    /// Whether there is a row, and the number is one of an action.
    fn is_notable(&self, job: &Job, action: u8) -> bool
        ensures row { IsTrue result → 0 < length self.now.sets.items }
        ensures action { IsTrue result → action < 2 * bend_count job.now * stage_count job.now }
        ensures all { 0 < length self.now.sets.items
            → action < 2 * bend_count job.now * stage_count job.now → IsTrue result }
    {
        if self.sets.is_empty() {
            false
        } else {
            action < action_count(job)
        }
    }

    /// The number of the last row.
    fn last_row(&self) -> usize
        requires { 0 < length self.now.sets.items }
        ensures { result ≡ length self.now.sets.items - 1 }
    {
        self.sets.len() - 1
    }

    /// Tests the reason of a note, unless one before it doesn't hold.
    fn test(&mut self, job: &Job, row: usize, action: u8, reason: Reason)
        requires testing { IsTesting job.now self.old }
        requires action { action < 2 * bend_count job.now * stage_count job.now }
        ensures testing { IsTesting job.now self.new }
        ensures mask { self.new.folded.mask ≡ self.old.folded.mask }
        ensures sets { self.new.sets.items ≡ self.old.sets.items }
        ensures unsound { (rows : List RowHead) (notes : List Note)
            → IsAtRow job.now rows self.old.folded.mask (note_at row action reason)
            → IsFirstUnsound job.now rows notes self.old.unsound
            → IsFirstUnsound job.now rows (notes ++ note_at row action reason ∷ [])
            self.new.unsound }
        ensures holds { self.new.unsound ≡ None → (self.old.unsound ≡ None)
            × IsReasonFor job.now self.old.folded.mask (action_at (stage_count job.now) action)
            reason }
    {
        match self.unsound {
            Some(_) => {}
            None => self.test_next(job, row, action, reason),
        }
    }

    /// The same where each note before it holds.
    fn test_next(&mut self, job: &Job, row: usize, action: u8, reason: Reason)
        requires testing { IsTesting job.now self.old }
        requires action { action < 2 * bend_count job.now * stage_count job.now }
        requires none { self.old.unsound ≡ None }
        ensures testing { IsTesting job.now self.new }
        ensures mask { self.new.folded.mask ≡ self.old.folded.mask }
        ensures sets { self.new.sets.items ≡ self.old.sets.items }
        ensures unsound { (rows : List RowHead) (notes : List Note)
            → IsAtRow job.now rows self.old.folded.mask (note_at row action reason)
            → IsFirstUnsound job.now rows notes None
            → IsFirstUnsound job.now rows (notes ++ note_at row action reason ∷ [])
            self.new.unsound }
        ensures holds { self.new.unsound ≡ None → IsReasonFor job.now self.old.folded.mask
            (action_at (stage_count job.now) action) reason }
    {
        if !self.folded.holds(job, &mut self.table, action, reason) {
            self.unsound = Some(NotePlace { row, action });
        }
    }
}

/// The action of a number more in the set of a row.
fn put_action(job: &Job, sets: &mut [ActionSet], row: usize, number: u8)
    requires row { row < length sets.old }
    requires number { number < 2 * bend_count job.now * stage_count job.now }
    ensures { IsActionPut job.now row number sets.old sets.new }
{
    job.recall_valid();
    let action = action_at(job, number);
    let set = sets[row];
    sets[row] = set.with(action);
}

/// The actions of another set more in the set of a row.
fn put_union(sets: &mut [ActionSet], row: usize, more: ActionSet)
    requires { row < length sets.old }
    ensures { IsUnionPut row more sets.old sets.new }
{
    let set = sets[row];
    sets[row] = set.union(more);
}
