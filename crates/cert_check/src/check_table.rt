//! What is kept of each set of folded bends, and whether a reason holds there.
ghost use Rattle.std.specs.Prelude.{false, ◌≡◌, ◌↔◌, ◌<◌, ◌≤◌, ◌^◌, IfOk, IsTrue};
ghost use Rattle.brake_base.specs.Masks.{has};
ghost use Rattle.job_setup.specs.Setup.{bend_count, stage_count};
ghost use Rattle.handling_cost.specs.Plan.{IsReasonFor};
ghost use Rattle.stroke_table.specs.Codes.{AreCodesOf};
ghost use Rattle.cert_check.specs.Standing.{IsStanding};

use arrayvec::ArrayVec;
use brake_base::{Action, Back, Mask, Place, Reason};
use fold_boxes::place;
use job_setup::Job;
use set_facts::LaneFacts;
use stage_lanes::StageCodes;
use std::alloc::{AllocError, Global};
use std::marker::Model;
use stroke_table::StrokeTable;

/// The part as it stands: the folded bends, and where its faces lie.
#[derive(Drop)]
struct Standing {
    mask: Mask,
    places: ArrayVec<Place, 13>,
}

/// The part with these bends folded.
fn fold_part(job: &Job, mask: Mask) -> Standing
    ensures mask { result.mask ≡ mask }
    ensures places { IsStanding job.now mask result.places.items }
{
    Standing {
        mask,
        places: place(job.shape(), mask),
    }
}

/// Folds the part to these bends.
fn stand(part: &mut Standing, job: &Job, mask: Mask)
    requires places { IsStanding job.now part.old.mask part.old.places.items }
    ensures mask { part.new.mask ≡ mask }
    ensures places { IsStanding job.now mask part.new.places.items }
{
    if part.mask != mask {
        *part = fold_part(job, mask);
    }
}

/// What belongs to each set of folded bends, with the strokes and the part as it was last folded. A
/// table is seen as its job.
#[derive(Drop)]
pub(crate) struct CheckTable {
    strokes: StrokeTable,
    facts: LaneFacts,
    part: Standing,
}

impl Model for CheckTable {
    ghost use Rattle.std.specs.Prelude.{◌≡◌};
    ghost use Rattle.job_setup.specs.Setup.{JobData};
    ghost use Rattle.cert_check.specs.Standing.{IsStanding};

    ghost Value = { JobData };

    ghost view = { λ t. t.strokes };

    ghost invariant = { λ t. (t.facts ≡ t.strokes)
        × IsStanding t.strokes t.part.mask t.part.places.items };
}

impl CheckTable {
    /// A table for the job. It takes all memory that it will use.
    pub fn open(alloc: Global, job: &Job) -> Result<CheckTable, AllocError>
        ensures { IfOk result (λ table. table ≡ job.now) }
    {
        let strokes = StrokeTable::open(alloc, job)?;
        let facts = LaneFacts::open(alloc, job)?;
        let part = fold_part(job, Mask::empty());
        Ok(CheckTable {
            strokes,
            facts,
            part,
        })
    }

    /// What belongs to each set.
    pub fn facts(&self) -> &LaneFacts
        ensures { result.now ≡ self.now }
    {
        &self.facts
    }

    /// The codes of the first reasons against a stroke at all stages, where the bends of the mask are
    /// folded.
    pub fn codes(&mut self, job: &Job, mask: Mask, lead: u8, back: Back) -> StageCodes
        requires job { job.now ≡ self.old }
        requires mask { mask.0 < 2 ^ bend_count job.now }
        requires first { 1 ≤ lead }
        requires last { lead ≤ bend_count job.now }
        requires flat { has mask lead ≡ false }
        ensures codes { AreCodesOf job.now mask lead back result.0 }
        ensures table { self.new ≡ self.old }
    {
        stand(&mut self.part, job, mask);
        self.strokes
            .codes(job, self.part.places.as_slice(), mask, lead, back)
    }

    /// Whether the reason holds against the action where the bends of the mask are folded.
    pub fn holds(&mut self, job: &Job, mask: Mask, action: Action, reason: Reason) -> bool
        requires job { job.now ≡ self.old }
        requires mask { mask.0 < 2 ^ bend_count job.now }
        requires first { 1 ≤ action.bend }
        requires last { action.bend ≤ bend_count job.now }
        requires stage { action.stage < stage_count job.now }
        requires flat { has mask action.bend ≡ false }
        ensures holds { IsTrue result ↔ IsReasonFor job.now mask action reason }
        ensures table { self.new ≡ self.old }
    {
        stand(&mut self.part, job, mask);
        self.strokes
            .holds(job, self.part.places.as_slice(), mask, action, reason)
    }
}
