//! The condition on rows: each action at each row has a note whose reason holds, or has none and is
//! closed. The reasons are tested where the notes are read.
ghost use Rattle.std.specs.Prelude.{◌≡◌, ◌↔◌, ◌*◌, ◌^◌, ◌<◌, ◌≤◌, IsTrue, List, Some, length, slice_get, slice_index_or};
ghost use Rattle.brake_base.specs.Worths.{plus};
ghost use Rattle.job_setup.specs.Setup.{bend_count, stage_count};
ghost use Rattle.handling_cost.specs.StepCost.{IsKeyOf};
ghost use Rattle.handling_cost.specs.Bound.{bound_of};
ghost use Rattle.cert_lines.specs.Lines.{action_at};
ghost use Rattle.plan_lines.specs.declared.note.Note.{Note};
ghost use Rattle.plan_lines.specs.LinesFit.{IsRow};
ghost use Rattle.cert_lines.specs.Lines.{IsWorth};
ghost use Rattle.cert_check.specs.SetActions.{IsNext, AreActionsOf};
ghost use Rattle.cert_check.specs.Rows.{ProvesAfter, ClosesAt, NumberAnswer, OpenAnswer, AreMet, RowsAnswer, first_fault, first_of};
ghost use Rattle.cert_check.specs.RowNotes.{HasNotes, unsound_at};
ghost use Rattle.cert_check.specs.RowLanes.{IsCheckedSet};

use crate::closing_costs::{AlikeRows, ClosingCosts};
use crate::fault::CheckFault;
use crate::proved_costs::ProvedCosts;
use crate::row_lanes::is_met;
use crate::row_notes::{NotePlace, RowNotes};
use crate::row_table::RowTable;
use crate::set_actions::{NextKey, SetActions};
use brake_base::{Action, Key, Mask, Worth, action_of};
use handling_cost::cost_to;
use job_setup::Job;
use plan_cert::RowHead;
use set_facts::LaneFacts;
use stage_lanes::ActionSet;

/// A row with the actions that are noted at it.
#[derive(Clone, Copy)]
struct NotedRow {
    head: RowHead,
    noted: ActionSet,
}

/// What is known of the set of folded bends whose rows are looked at.
#[derive(Drop)]
pub(crate) struct CheckedSet {
    actions: SetActions,
    proved: ProvedCosts,
    closing: ClosingCosts,
}

impl CheckedSet {
    /// What is known of the set of no bend at first.
    pub fn first(job: &Job, rows: &RowTable, facts: &LaneFacts) -> CheckedSet
        requires rows { rows.now.job ≡ job.now }
        requires facts { facts.now ≡ job.now }
        ensures set { IsCheckedSet job.now rows.now.rows result }
    {
        job.recall_valid();
        let actions = SetActions::of(job, facts, Mask::empty());
        let proved = ProvedCosts::of(job, rows, facts, Mask::empty());
        let closing = ClosingCosts::none();
        CheckedSet {
            actions,
            proved,
            closing,
        }
    }

    /// Makes what is proved, and what closes actions, that of a set.
    fn turn_to(&mut self, job: &Job, rows: &RowTable, facts: &LaneFacts, mask: Mask)
        requires set { IsCheckedSet job.now rows.now.rows self.old }
        requires rows { rows.now.job ≡ job.now }
        requires facts { facts.now ≡ job.now }
        requires mask { mask.0 < 2 ^ bend_count job.now }
        ensures set { IsCheckedSet job.now rows.now.rows self.new }
        ensures mask { self.new.proved.mask ≡ mask }
    {
        if self.proved.mask != mask {
            self.proved.turn_to(job, rows, facts, mask);
            self.closing = ClosingCosts::none();
        }
    }
}

/// Refuses the first row and action that aren't accounted for.
pub fn check_rows(job: &Job, rows: &RowTable, notes: &RowNotes) -> Result<(), CheckFault>
    requires rows { rows.now.job ≡ job.now }
    requires table { notes.now.table ≡ job.now }
    requires count { length notes.now.sets.items ≡ length rows.now.rows }
    ensures { (all : List Note) → HasNotes job.now rows.now.rows all notes.now
        → RowsAnswer job.now rows.now.rows all result }
{
    let facts = notes.facts();
    let mut set = CheckedSet::first(job, rows, facts);
    for row in 0..rows.len() {
        let noted = noted_row(rows, notes, row);
        let found = first_open(job, rows, facts, &mut set, &noted);
        if let Err(fault) = check_row(row, found, unsound_at(row, notes.unsound)) {
            return Err(fault);
        }
    }
    Ok(())
}

/// The row of a number.
fn noted_row(rows: &RowTable, notes: &RowNotes, row: u32) -> NotedRow
    requires row { row < length rows.now.rows }
    requires count { length notes.now.sets.items ≡ length rows.now.rows }
    ensures row { slice_get rows.now.rows row ≡ Some result.head }
    ensures valid { IsRow rows.now.job result.head }
    ensures noted { result.noted ≡ slice_index_or notes.now.sets.items row result.noted }
{
    let head = rows.head(row);
    let noted = notes.sets[row as usize];
    NotedRow { head, noted }
}

/// The action of the unsound note, where the note is of this row.
fn unsound_at(row: u32, unsound: Option<NotePlace>) -> Option<u8>
    ensures { result ≡ unsound_at row unsound }
{
    match unsound {
        Some(note) => {
            if note.row == row as usize {
                Some(note.action)
            } else {
                None
            }
        }
        None => None,
    }
}

/// Refuses a row with an open action or an unsound note, for the first of both.
fn check_row(row: u32, open_action: Option<u8>, unsound: Option<u8>) -> Result<(), CheckFault>
    ensures { result ≡ first_fault row open_action unsound }
{
    match unsound {
        Some(action) => Err(first_of(row, open_action, action)),
        None => match open_action {
            Some(action) => Err(CheckFault::NotClosed { row, action }),
            None => Ok(()),
        },
    }
}

/// The first of an open action, where there is one, and of one whose note is unsound.
fn first_of(row: u32, open_action: Option<u8>, unsound: u8) -> CheckFault
    ensures { result ≡ first_of row open_action unsound }
{
    match open_action {
        Some(action) => {
            if action < unsound {
                CheckFault::NotClosed { row, action }
            } else {
                CheckFault::BadReason {
                    row,
                    action: unsound,
                }
            }
        }
        None => CheckFault::BadReason {
            row,
            action: unsound,
        },
    }
}

/// The first action that can be tried at a row, isn't noted and isn't closed.
fn first_open(
    job: &Job,
    rows: &RowTable,
    facts: &LaneFacts,
    set: &mut CheckedSet,
    row: &NotedRow,
) -> Option<u8>
    requires rows { rows.now.job ≡ job.now }
    requires facts { facts.now ≡ job.now }
    requires set { IsCheckedSet job.now rows.now.rows set.old }
    requires row { IsRow job.now row.now.head }
    ensures first { OpenAnswer job.now rows.now.rows row.now.head row.now.noted result }
    ensures set { IsCheckedSet job.now rows.now.rows set.new }
{
    if is_row_met(job, rows, facts, set, row) {
        None
    } else {
        set.actions.turn_to(job, facts, row.head.key.mask);
        open_action(job, rows, &set.actions, row)
    }
}

/// Whether each action of a row is noted, or closed by what is proved of the next keys. False also
/// where that isn't known.
fn is_row_met(
    job: &Job,
    rows: &RowTable,
    facts: &LaneFacts,
    set: &mut CheckedSet,
    row: &NotedRow,
) -> bool
    requires rows { rows.now.job ≡ job.now }
    requires facts { facts.now ≡ job.now }
    requires set { IsCheckedSet job.now rows.now.rows set.old }
    requires row { IsRow job.now row.now.head }
    ensures met { IsTrue result → AreMet job.now rows.now.rows row.now.head row.now.noted
        (2 * bend_count job.now * stage_count job.now) }
    ensures set { IsCheckedSet job.now rows.now.rows set.new }
{
    set.turn_to(job, rows, facts, row.head.key.mask);
    let alike = AlikeRows {
        attitude: row.head.key.attitude,
        noted: row.noted,
    };
    let closing = set.closing.at(job, facts, &set.proved, alike);
    is_met(job, facts, &row.head, closing)
}

/// The first action that can be tried at a row, isn't noted and isn't closed, where the actions are
/// those of its set.
fn open_action(job: &Job, rows: &RowTable, actions: &SetActions, row: &NotedRow) -> Option<u8>
    requires rows { rows.now.job ≡ job.now }
    requires actions { AreActionsOf job.now actions.now }
    requires same { actions.now.mask ≡ row.now.head.key.mask }
    requires row { IsRow job.now row.now.head }
    ensures { OpenAnswer job.now rows.now.rows row.now.head row.now.noted result }
{
    for number in 0..action_count(job) {
        if is_open(job, rows, actions, row, number) {
            return Some(number);
        }
    }
    None
}

/// Whether the action of a number can be tried at a row, isn't noted and isn't closed.
fn is_open(job: &Job, rows: &RowTable, actions: &SetActions, row: &NotedRow, number: u8) -> bool
    requires rows { rows.now.job ≡ job.now }
    requires actions { AreActionsOf job.now actions.now }
    requires same { actions.now.mask ≡ row.now.head.key.mask }
    requires row { IsRow job.now row.now.head }
    requires number { number < 2 * bend_count job.now * stage_count job.now }
    requires few { number < 144 }
    ensures { NumberAnswer job.now rows.now.rows row.now.head row.now.noted number result }
{
    job.recall_valid();
    match actions.next(number) {
        Some(next) => {
            if row.noted.contains(action_at(job, number)) {
                false
            } else {
                !is_closed(job, rows, &row.head, number, &next)
            }
        }
        None => false,
    }
}

/// The number of the actions of all bends at all stages.
pub(crate) fn action_count(job: &Job) -> u8
    ensures value { result ≡ 2 * bend_count job.now * stage_count job.now }
    ensures few { result ≤ 144 }
{
    2 * job.bends() * job.stages()
}

/// The action of a number.
pub(crate) fn action_at(job: &Job, number: u8) -> Action
    requires { number < 2 * bend_count job.now * stage_count job.now }
    ensures value { result ≡ action_at (stage_count job.now) number }
    ensures first { 1 ≤ result.bend }
    ensures last { result.bend ≤ bend_count job.now }
    ensures stage { result.stage < stage_count job.now }
{
    action_of(number, job.stages())
}

/// Whether the step cost of the action of a number and what is proved of its next key are at least
/// the row's worth. Of the action the next key tells all.
fn is_closed(job: &Job, rows: &RowTable, head: &RowHead, number: u8, next: &NextKey) -> bool
    requires rows { rows.now.job ≡ job.now }
    requires head { IsRow job.now head.now }
    requires number { number < 2 * bend_count job.now * stage_count job.now }
    requires next { IsNext job.now head.now.key.mask (action_at (stage_count job.now) number)
        next.now }
    ensures { IsTrue result
        ↔ ClosesAt job.now rows.now.rows head.now (action_at (stage_count job.now) number) }
{
    job.recall_valid();
    let cost = cost_to(job, &head.key, next.key.attitude, next.key.stage);
    is_proved_with(rows, &next.key, next.bound, cost, head.worth)
}

/// Whether a cost and what is proved of a key are at least the worth.
pub(crate) fn is_proved(
    job: &Job,
    rows: &RowTable,
    facts: &LaneFacts,
    key: &Key,
    cost: u64,
    worth: Worth,
) -> bool
    requires rows { rows.now.job ≡ job.now }
    requires facts { facts.now ≡ job.now }
    requires key { IsKeyOf job.now key.now }
    requires cost { cost ≤ 8000000 }
    ensures { IsTrue result ↔ ProvesAfter job.now rows.now.rows key.now cost worth }
{
    let bound = bound_at(job, facts, key);
    is_proved_with(rows, key, bound, cost, worth)
}

/// The same where the key's bound is known: with the bound, or with the worth of the key's row.
fn is_proved_with(rows: &RowTable, key: &Key, bound: u64, cost: u64, worth: Worth) -> bool
    requires key { IsKeyOf rows.now.job key.now }
    requires bound { bound ≡ bound_of rows.now.job key.now }
    requires small { bound ≤ 18000000 }
    requires cost { cost ≤ 8000000 }
    ensures { IsTrue result ↔ ProvesAfter rows.now.job rows.now.rows key.now cost worth }
{
    if worth.is_at_most(Worth::Cost(cost + bound)) {
        true
    } else {
        match rows.worth(key) {
            Some(next) => worth.is_at_most(after_cost(cost, next)),
            None => false,
        }
    }
}

/// The bound of a key.
pub(crate) fn bound_at(job: &Job, facts: &LaneFacts, key: &Key) -> u64
    requires facts { facts.now ≡ job.now }
    requires key { IsKeyOf job.now key.now }
    ensures value { result ≡ bound_of job.now key.now }
    ensures small { result ≤ 18000000 }
{
    job.recall_valid();
    let bounds = facts.bounds(key.mask);
    u64::from(bounds.cost(key.stage))
}

/// A worth behind a cost.
fn after_cost(cost: u64, worth: Worth) -> Worth
    requires cost { cost ≤ 8000000 }
    requires worth { IsWorth worth }
    ensures { result ≡ plus cost worth }
{
    match worth {
        Worth::Cost(rest) => Worth::Cost(cost + rest),
        Worth::Blocked => Worth::Blocked,
    }
}
