//! The bends that are folded at the row whose notes are read, and whether a reason holds there.
ghost use Rattle.std.specs.Prelude.{◌≡◌, ◌↔◌, ◌*◌, ◌^◌, ◌<◌, ◌≤◌, IfSome, IsNone, IsTrue};
ghost use Rattle.job_setup.specs.Setup.{bend_count, stage_count};
ghost use Rattle.job_setup.specs.StrokeGroup.{is_lead};
ghost use Rattle.handling_cost.specs.Plan.{IsReasonFor};
ghost use Rattle.cert_lines.specs.Lines.{action_at};
ghost use Rattle.stroke_table.specs.Codes.{AreCodesOf};
ghost use Rattle.cert_check.specs.RowSet.{AreLeadsWithin};

use crate::check_table::CheckTable;
use crate::rows::action_at;
use brake_base::{Action, Mask, Reason};
use job_setup::Job;
use set_facts::LaneFacts;
use stage_lanes::StageCodes;

/// The bends that are folded at a row.
#[derive(Clone, Copy, Debug)]
pub(crate) struct RowSet {
    pub mask: Mask,
    /// The leads of the strokes that may come next. None where the mask isn't of the job's bends.
    pub leads: Mask,
}

/// The leads of the strokes that may come next. None where the mask isn't of the job's bends.
fn leads_within(job: &Job, facts: &LaneFacts, mask: Mask) -> Mask
    requires facts { facts.now ≡ job.now }
    ensures { AreLeadsWithin job.now mask result }
{
    if is_within(job, mask) {
        facts.leads(mask)
    } else {
        Mask::empty()
    }
}

/// Whether the mask is of the job's bends.
fn is_within(job: &Job, mask: Mask) -> bool
    ensures { IsTrue result ↔ mask.0 < 2 ^ bend_count job.now }
{
    mask.0 < 1 << job.bends()
}

impl RowSet {
    /// The row's bends are those of the mask.
    pub fn of(job: &Job, facts: &LaneFacts, mask: Mask) -> RowSet
        requires facts { facts.now ≡ job.now }
        ensures leads { AreLeadsWithin job.now result.mask result.leads }
        ensures mask { result.mask ≡ mask }
    {
        let leads = leads_within(job, facts, mask);
        RowSet { mask, leads }
    }

    /// Makes them those of the mask.
    pub fn turn_to(&mut self, job: &Job, facts: &LaneFacts, mask: Mask)
        requires facts { facts.now ≡ job.now }
        requires leads { AreLeadsWithin job.now self.old.mask self.old.leads }
        ensures leads { AreLeadsWithin job.now self.new.mask self.new.leads }
        ensures mask { self.new.mask ≡ mask }
    {
        if self.mask != mask {
            *self = RowSet::of(job, facts, mask);
        }
    }

    /// The codes of the first reasons against the stroke of an action at all stages. None where the
    /// action's bend is no lead.
    pub fn codes(&self, job: &Job, sets: &mut CheckTable, action: Action) -> Option<StageCodes>
        requires leads { AreLeadsWithin job.now self.now.mask self.now.leads }
        requires sets { sets.old ≡ job.now }
        requires first { 1 ≤ action.bend }
        requires last { action.bend ≤ bend_count job.now }
        ensures codes { IfSome result
            (λ codes. AreCodesOf job.now self.now.mask action.bend action.back codes.0) }
        ensures some { self.now.mask.0 < 2 ^ bend_count job.now
            → IsTrue (is_lead job.now self.now.mask action.bend) → ¬ IsNone result }
        ensures sets { sets.new ≡ sets.old }
    {
        job.recall_valid();
        if self.leads.contains(action.bend) {
            Some(sets.codes(job, self.mask, action.bend, action.back))
        } else {
            None
        }
    }

    /// Whether the reason holds against the action of a number, which can be tried.
    pub fn holds(&self, job: &Job, sets: &mut CheckTable, number: u8, reason: Reason) -> bool
        requires leads { AreLeadsWithin job.now self.now.mask self.now.leads }
        requires sets { sets.old ≡ job.now }
        requires number { number < 2 * bend_count job.now * stage_count job.now }
        ensures holds { self.now.mask.0 < 2 ^ bend_count job.now
            → IsTrue (is_lead job.now self.now.mask (action_at (stage_count job.now) number).bend)
            → (IsTrue result ↔ IsReasonFor job.now self.now.mask
            (action_at (stage_count job.now) number) reason) }
        ensures sound { IsTrue result → IsReasonFor job.now self.now.mask
            (action_at (stage_count job.now) number) reason }
        ensures sets { sets.new ≡ sets.old }
    {
        job.recall_valid();
        let action = action_at(job, number);
        if self.leads.contains(action.bend) {
            sets.holds(job, self.mask, action, reason)
        } else {
            false
        }
    }
}
