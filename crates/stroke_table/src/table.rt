//! The table of strokes.
ghost use Rattle.std.specs.Prelude.{false, ◌≡◌, ◌↔◌, ℕ, ◌-◌, ◌^◌, ◌<◌, ◌≤◌, length, slice_index_or, replicate, None, Some, Option, IfOk, IfSome, IsTrue};
ghost use Rattle.brake_base.specs.Masks.{has};
ghost use Rattle.fold_boxes.specs.Places.{ArePlaces};
ghost use Rattle.fold_boxes.specs.Pose.{IsGroup};
ghost use Rattle.job_setup.specs.Setup.{shape_of};
ghost use Rattle.handling_cost.specs.Plan.{IsReasonFor};
ghost use Rattle.job_setup.specs.StrokeGroup.{group_of};
ghost use Rattle.stroke_table.specs.Strokes.{IsStrokeOf, IsStrokeAt, IsFirstAt};
ghost use Rattle.stroke_table.specs.Codes.{IsFirstCode, AreCodesOf};
ghost use Rattle.stroke_table.specs.Finding.{IsFoundGauge, IsGaugeOf};
ghost use Rattle.stroke_table.specs.Records.{AreKept};
ghost use Rattle.stroke_table.specs.declared.known.FoundGauge.TheVariants.{Sought};
ghost use Rattle.stroke_table.specs.Table.{place_of, place_count, IsKeptOf, IsHoldOf, IsCodeAt, AreCodesAt, IsHoldAt};

use crate::codes::{reasons_of, told};
use crate::finding::{find_codes, find_gauge, stroke_group};
use crate::holding::holds_by;
use crate::keys::{GroupKey, StrokeKey};
use crate::known::{FoundGauge, Hold, KeptStroke};
use crate::records::StrokeRecords;
use crate::stroke::{StageStroke, Stroke};
use brake_base::{Action, Back, Gauge, Mask, Place, Reason};
use fold_boxes::attitude_from;
use job_setup::Job;
use stage_lanes::StageCodes;
use std::alloc::{AllocError, Global};
use std::marker::Model;

/// The strokes of a job, each found when it is first asked for. Contracts see the table as its job.
#[derive(Drop)]
pub struct StrokeTable {
    job: Job,
    kept: StrokeRecords,
    strokes: Vec<Option<KeptStroke>>,
}

impl Model for StrokeTable {
    ghost use Rattle.job_setup.specs.Setup.{JobData};
    ghost use Rattle.stroke_table.specs.Table.{IsTable};
    ghost use Rattle.stroke_table.specs.Records.{AreKept};

    ghost Value = { JobData };

    ghost view = { λ t. t.job };

    ghost invariant = { λ t. IsTable t.job t.strokes.items × AreKept t.job t.kept };
}

impl StrokeTable {
    /// The table of a job, in which no stroke has been found yet. It takes all memory that the table
    /// will use.
    pub fn open(alloc: Global, job: &Job) -> Result<StrokeTable, AllocError>
        ensures { IfOk result (λ table. table ≡ job.now) }
    {
        Ok(StrokeTable {
            job: job.copy(),
            kept: StrokeRecords::open(alloc, job)?,
            strokes: no_strokes(alloc, place_count(job))?,
        })
    }

    /// What there is to know of a stroke: where the bends of the mask are folded, that of the group of
    /// an unfolded bend, with a side at the back. `places` are those of the faces.
    pub fn stroke(
        &mut self,
        job: &Job,
        places: &[Place],
        mask: Mask,
        lead: u8,
        back: Back,
    ) -> Stroke
        requires job { job.now ≡ self.old }
        requires count { length places.now ≡ length job.now.part.faces }
        requires places { ArePlaces (shape_of job.now) mask places.now }
        requires mask { mask.0 < 2 ^ (length job.now.part.faces - 1) }
        requires first { 1 ≤ lead }
        requires last { lead < length job.now.part.faces }
        requires flat { has mask lead ≡ false }
        ensures job { self.new ≡ self.old }
        ensures stroke { IsStrokeOf job.now mask lead back result }
    {
        let codes = self.codes(job, places, mask, lead, back);
        let hold = self.held(job, places, mask, lead, back);
        Stroke {
            attitude: hold.attitude,
            gauge: hold.gauge,
            reasons: reasons_of(codes, job.stages()),
        }
    }

    /// The codes of the first reasons against a stroke at all stages: where the bends of the mask are
    /// folded, that of the group of an unfolded bend, with a side at the back.
    pub fn codes(
        &mut self,
        job: &Job,
        places: &[Place],
        mask: Mask,
        lead: u8,
        back: Back,
    ) -> StageCodes
        requires job { job.now ≡ self.old }
        requires count { length places.now ≡ length job.now.part.faces }
        requires places { ArePlaces (shape_of job.now) mask places.now }
        requires mask { mask.0 < 2 ^ (length job.now.part.faces - 1) }
        requires first { 1 ≤ lead }
        requires last { lead < length job.now.part.faces }
        requires flat { has mask lead ≡ false }
        ensures job { self.new ≡ self.old }
        ensures codes { AreCodesOf job.now mask lead back result.0 }
    {
        let place = place_of(mask, lead, back);
        match known_codes(&self.strokes, place) {
            Some(codes) => codes,
            None => {
                let kept = self.kept_stroke(job, places, mask, lead, back);
                kept.found.codes
            }
        }
    }

    /// The code of the first reason against an action.
    fn first_code(&mut self, job: &Job, places: &[Place], mask: Mask, action: Action) -> u16
        requires job { job.now ≡ self.old }
        requires count { length places.now ≡ length job.now.part.faces }
        requires places { ArePlaces (shape_of job.now) mask places.now }
        requires mask { mask.0 < 2 ^ (length job.now.part.faces - 1) }
        requires first { 1 ≤ action.bend }
        requires last { action.bend < length job.now.part.faces }
        requires flat { has mask action.bend ≡ false }
        requires stage { action.stage < length job.now.setup.stages }
        ensures job { self.new ≡ self.old }
        ensures code { IsFirstCode job.now mask (group_of job.now mask action.bend) action.back
            action.stage result }
    {
        job.recall_valid();
        let place = place_of(mask, action.bend, action.back);
        match known_code(&self.strokes, place, action.stage) {
            Some(code) => code,
            None => {
                let kept = self.kept_stroke(job, places, mask, action.bend, action.back);
                kept.found.codes.code(action.stage)
            }
        }
    }

    /// How the part is held in a stroke.
    fn held(&mut self, job: &Job, places: &[Place], mask: Mask, lead: u8, back: Back) -> Hold
        requires job { job.now ≡ self.old }
        requires count { length places.now ≡ length job.now.part.faces }
        requires places { ArePlaces (shape_of job.now) mask places.now }
        requires mask { mask.0 < 2 ^ (length job.now.part.faces - 1) }
        requires first { 1 ≤ lead }
        requires last { lead < length job.now.part.faces }
        requires flat { has mask lead ≡ false }
        ensures job { self.new ≡ self.old }
        ensures hold { IsHoldOf job.now mask lead back result }
    {
        let place = place_of(mask, lead, back);
        match known_hold(&self.strokes, place) {
            Some(hold) => hold,
            None => {
                let kept = self.kept_stroke(job, places, mask, lead, back);
                let gauge = gauge_of(job, places, mask, lead, back, kept.found.gauge);
                Hold {
                    attitude: kept.attitude,
                    gauge,
                }
            }
        }
    }

    /// What the table keeps of a stroke, found where it isn't kept yet.
    fn kept_stroke(
        &mut self,
        job: &Job,
        places: &[Place],
        mask: Mask,
        lead: u8,
        back: Back,
    ) -> KeptStroke
        requires job { job.now ≡ self.old }
        requires count { length places.now ≡ length job.now.part.faces }
        requires places { ArePlaces (shape_of job.now) mask places.now }
        requires mask { mask.0 < 2 ^ (length job.now.part.faces - 1) }
        requires first { 1 ≤ lead }
        requires last { lead < length job.now.part.faces }
        requires flat { has mask lead ≡ false }
        ensures job { self.new ≡ self.old }
        ensures kept { IsKeptOf job.now mask lead back result }
    {
        let place = place_of(mask, lead, back);
        match known_at(&self.strokes, place) {
            Some(known) => known,
            None => {
                let stroke = find_stroke(job, &mut self.kept, places, mask, lead, back);
                let kept = &stroke;
                self.strokes[place] = Some(*kept);
                stroke
            }
        }
    }

    /// What there is to know of the stroke of an action at its stage, where the bends of the mask are
    /// folded.
    pub fn stroke_at(
        &mut self,
        job: &Job,
        places: &[Place],
        mask: Mask,
        action: Action,
    ) -> StageStroke
        requires job { job.now ≡ self.old }
        requires count { length places.now ≡ length job.now.part.faces }
        requires places { ArePlaces (shape_of job.now) mask places.now }
        requires mask { mask.0 < 2 ^ (length job.now.part.faces - 1) }
        requires first { 1 ≤ action.bend }
        requires last { action.bend < length job.now.part.faces }
        requires flat { has mask action.bend ≡ false }
        requires stage { action.stage < length job.now.setup.stages }
        ensures job { self.new ≡ self.old }
        ensures stroke { IsStrokeAt job.now mask action result }
    {
        let reason = self.reason_at(job, places, mask, action);
        let hold = self.held(job, places, mask, action.bend, action.back);
        StageStroke {
            attitude: hold.attitude,
            gauge: hold.gauge,
            reason,
        }
    }

    /// The first reason against an action where the bends of the mask are folded. None exactly where
    /// its stroke is legal.
    pub fn reason_at(
        &mut self,
        job: &Job,
        places: &[Place],
        mask: Mask,
        action: Action,
    ) -> Option<Reason>
        requires job { job.now ≡ self.old }
        requires count { length places.now ≡ length job.now.part.faces }
        requires places { ArePlaces (shape_of job.now) mask places.now }
        requires mask { mask.0 < 2 ^ (length job.now.part.faces - 1) }
        requires first { 1 ≤ action.bend }
        requires last { action.bend < length job.now.part.faces }
        requires flat { has mask action.bend ≡ false }
        requires stage { action.stage < length job.now.setup.stages }
        ensures job { self.new ≡ self.old }
        ensures reason { IsFirstAt job.now mask (group_of job.now mask action.bend) action.back
            action.stage result }
    {
        let code = self.first_code(job, places, mask, action);
        told(code)
    }

    /// Whether a reason, of any kind, holds against an action where the bends of the mask are folded.
    pub fn holds(
        &mut self,
        job: &Job,
        places: &[Place],
        mask: Mask,
        action: Action,
        reason: Reason,
    ) -> bool
        requires job { job.now ≡ self.old }
        requires count { length places.now ≡ length job.now.part.faces }
        requires places { ArePlaces (shape_of job.now) mask places.now }
        requires mask { mask.0 < 2 ^ (length job.now.part.faces - 1) }
        requires first { 1 ≤ action.bend }
        requires last { action.bend < length job.now.part.faces }
        requires flat { has mask action.bend ≡ false }
        requires stage { action.stage < length job.now.setup.stages }
        ensures job { self.new ≡ self.old }
        ensures holds { IsTrue result ↔ IsReasonFor job.now mask action reason }
    {
        match self.reason_at(job, places, mask, action) {
            Some(first) => holds_by(job, places, mask, action, reason, first),
            None => false,
        }
    }
}

/// So many places at which no stroke stands.
fn no_strokes(alloc: Global, places: usize) -> Result<Vec<Option<KeptStroke>>, AllocError>
    ensures { IfOk result (λ strokes. strokes.items ≡ replicate places None) }
{
    let mut strokes = Vec::with_capacity(alloc, places)?;
    for _ in 0..places {
        strokes.push_reserved(None);
    }
    Ok(strokes)
}

/// The number of places of a job's table.
fn place_count(job: &Job) -> usize
    ensures value { result ≡ place_count job.now }
    ensures few { length job.now.part.faces ≤ 13 }
{
    24 << job.bends()
}

/// What stands at a place.
fn known_at(strokes: &[Option<KeptStroke>], place: usize) -> Option<KeptStroke>
    requires { place < length strokes.now }
    ensures { result ≡ slice_index_or strokes.now place None }
{
    strokes[place]
}

/// The code of a stage of the stroke that stands at a place, if one does.
fn known_code(strokes: &[Option<KeptStroke>], place: usize, stage: u8) -> Option<u16>
    requires place { place < length strokes.now }
    requires stage { stage < 8 }
    ensures { IfSome result (λ code. IsCodeAt strokes.now place stage code) }
{
    match &strokes[place] {
        Some(kept) => Some(kept.found.codes.code(stage)),
        None => None,
    }
}

/// The codes of the stroke that stands at a place, if one does.
fn known_codes(strokes: &[Option<KeptStroke>], place: usize) -> Option<StageCodes>
    requires { place < length strokes.now }
    ensures { IfSome result (λ codes. AreCodesAt strokes.now place codes) }
{
    match &strokes[place] {
        Some(kept) => Some(kept.found.codes),
        None => None,
    }
}

/// How the part is held in the stroke that stands at a place, if one does whose first legal pair was
/// looked for.
fn known_hold(strokes: &[Option<KeptStroke>], place: usize) -> Option<Hold>
    requires { place < length strokes.now }
    ensures { IfSome result (λ hold. IsHoldAt strokes.now place hold) }
{
    match &strokes[place] {
        Some(kept) => hold_of(kept),
        None => None,
    }
}

/// How the part is held in a stroke whose first legal pair was looked for.
fn hold_of(kept: &KeptStroke) -> Option<Hold>
    ensures { IfSome result (λ hold. (kept.now.attitude ≡ hold.attitude)
        × (kept.now.found.gauge ≡ Sought hold.gauge)) }
{
    match kept.found.gauge {
        FoundGauge::Sought(gauge) => Some(Hold {
            attitude: kept.attitude,
            gauge,
        }),
        FoundGauge::Unsought => None,
    }
}

/// What is to be kept of a stroke, from what is kept of its group and its boxes.
fn find_stroke(
    job: &Job,
    kept: &mut StrokeRecords,
    places: &[Place],
    mask: Mask,
    lead: u8,
    back: Back,
) -> KeptStroke
    requires kept { AreKept job.now kept.old }
    requires count { length places.now ≡ length job.now.part.faces }
    requires places { ArePlaces (shape_of job.now) mask places.now }
    requires mask { mask.0 < 2 ^ (length job.now.part.faces - 1) }
    requires first { 1 ≤ lead }
    requires last { lead < length job.now.part.faces }
    requires flat { has mask lead ≡ false }
    ensures kept { AreKept job.now kept.new }
    ensures stroke { IsKeptOf job.now mask lead back result }
{
    let stroke = stroke_key(job, mask, lead, back);
    let found = find_codes(job, kept, places, &stroke);
    let attitude = attitude_from(job.shape(), places, mask, lead, back);
    KeptStroke { attitude, found }
}

/// The first legal pair of a stroke, which is the same at each stage; looked for where it wasn't yet.
fn gauge_of(
    job: &Job,
    places: &[Place],
    mask: Mask,
    lead: u8,
    back: Back,
    found: FoundGauge,
) -> Option<Gauge>
    requires count { length places.now ≡ length job.now.part.faces }
    requires places { ArePlaces (shape_of job.now) mask places.now }
    requires first { 1 ≤ lead }
    requires last { lead < length job.now.part.faces }
    requires flat { has mask lead ≡ false }
    requires found { IsFoundGauge job.now mask (group_of job.now mask lead) back found }
    ensures { IsGaugeOf job.now mask (group_of job.now mask lead) back result }
{
    match found {
        FoundGauge::Sought(gauge) => gauge,
        FoundGauge::Unsought => find_gauge(job, places, mask, lead, back),
    }
}

/// The stroke of an unfolded bend, with a side at the back.
fn stroke_key(job: &Job, mask: Mask, lead: u8, back: Back) -> StrokeKey
    requires first { 1 ≤ lead }
    requires last { lead < length job.now.part.faces }
    requires flat { has mask lead ≡ false }
    ensures value { result ≡ record {
      of = record { group = group_of job.now mask lead; back = back };
      mask = mask;
    } }
    ensures group { IsGroup (shape_of job.now) result.mask result.of.group }
{
    let group = stroke_group(job, mask, lead);
    StrokeKey {
        of: GroupKey { group, back },
        mask,
    }
}

/// The place of a stroke.
fn place_of(mask: Mask, lead: u8, back: Back) -> usize
    requires first { 1 ≤ lead }
    ensures { result ≡ place_of mask lead back }
{
    let side = match back {
        Back::Parent => 0,
        Back::Child => 1,
    };
    24 * usize::from(mask.0) + 2 * usize::from(lead - 1) + side
}
