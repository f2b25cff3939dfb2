//! A stroke is found: from what is kept of its group and its boxes, and where none of this refuses it
//! at some stage, by the part on the machine.
ghost use Rattle.std.specs.Prelude.{false, ◌≡◌, ◌<◌, ◌≤◌, ◌^◌, length, All};
ghost use Rattle.brake_base.specs.Masks.{has};
ghost use Rattle.fold_boxes.specs.Places.{ArePlaces};
ghost use Rattle.fold_boxes.specs.Pose.{IsGroup, pose_data};
ghost use Rattle.fold_boxes.specs.Posing.{IsNearPoseBox};
ghost use Rattle.job_setup.specs.Setup.{shape_of, bend_count, stage_count};
ghost use Rattle.job_setup.specs.StrokeGroup.{group_of};
ghost use Rattle.job_setup.specs.ValidJob.{IsJob};
ghost use Rattle.job_setup.specs.Reasons.{pose_at};
ghost use Rattle.stroke_table.specs.Codes.{AreLeastCodes, HoldsAmong, gauge_reason};
ghost use Rattle.stroke_table.specs.Finding.{IsFound, IsGaugeOf};
ghost use Rattle.stroke_table.specs.Records.{AreKept, IsGroupRecord};

use crate::codes::{at_stages, code_for, is_free_somewhere};
use crate::gathering::{StrokeBoxes, gather_boxes};
use crate::gauging::first_pair;
use crate::keys::{GroupKey, StrokeKey};
use crate::known::{FoundGauge, KnownStroke};
use crate::records::{GroupRecord, StrokeRecords};
use brake_base::{Back, Gauge, Mask, Place, Reason};
use fold_boxes::{Pose, pose_from};
use gauge_rules::first_legal;
use job_setup::{Job, group};
use stage_lanes::{FREE, StageCodes};
use sweep_check::{first_at_lines, first_of_halves, load_reason};

/// The codes of the first reasons against a stroke at all stages, from the places of the faces and
/// what is kept.
pub(crate) fn find_codes(
    job: &Job,
    kept: &mut StrokeRecords,
    places: &[Place],
    stroke: &StrokeKey,
) -> KnownStroke
    requires kept { AreKept job.now kept.old }
    requires count { length places.now ≡ length job.now.part.faces }
    requires places { ArePlaces (shape_of job.now) stroke.now.mask places.now }
    requires mask { stroke.now.mask.0 < 2 ^ bend_count job.now }
    requires group { IsGroup (shape_of job.now) stroke.now.mask stroke.now.of.group }
    ensures kept { AreKept job.now kept.new }
    ensures found { IsFound job.now stroke.now result }
    ensures valid { IsJob job.now }
{
    let mut gathered = StrokeBoxes::none(job, stroke);
    gather_boxes(job, kept, places, stroke, &mut gathered);
    let of_group = group_record(job, kept, places, stroke);
    let before = of_group.lines.lesser(gathered.codes);
    let stages = job.stages();
    if is_free_somewhere(before, stages) {
        find_rest(job, stroke, &gathered.pose, before, of_group.load)
    } else {
        KnownStroke {
            codes: before,
            gauge: FoundGauge::Unsought,
        }
    }
}

/// The codes of the first reasons of all kinds, from those of the kinds Cover to Lower, the part on the
/// machine at stage 0 and the codes of Load.
fn find_rest(
    job: &Job,
    stroke: &StrokeKey,
    pose: &Pose,
    before: StageCodes,
    load: StageCodes,
) -> KnownStroke
    requires group { IsGroup (shape_of job.now) stroke.now.mask stroke.now.of.group }
    requires pose { pose_data pose.now ≡ pose_at job.now stroke.now.mask stroke.now.of.group
        stroke.now.of.back 0 }
    requires near { All IsNearPoseBox pose.now.boxes.items }
    requires before { AreLeastCodes (stage_count job.now)
        (HoldsAmong job.now stroke.now.mask stroke.now.of 1 6) before.0 }
    requires load { AreLeastCodes (stage_count job.now)
        (HoldsAmong job.now stroke.now.mask stroke.now.of 8 8) load.0 }
    ensures { IsFound job.now stroke.now result }
{
    let stages = job.stages();
    let boxes = pose.boxes.as_slice();
    let hit = first_of_halves(job, boxes);
    let hit_code = code_for(hit);
    let hits = at_stages(hit_code, stages);
    let with_hits = before.lesser(hits);
    let others = with_hits.lesser(load);
    if is_free_somewhere(others, stages) {
        let gauge = first_pair(job, pose, boxes);
        let lack = gauge_reason(gauge);
        let lack_code = code_for(lack);
        let last = at_stages(lack_code, stages);
        KnownStroke {
            codes: others.lesser(last),
            gauge: FoundGauge::Sought(gauge),
        }
    } else {
        KnownStroke {
            codes: others,
            gauge: FoundGauge::Unsought,
        }
    }
}

/// NoGauge, where there is no first legal pair.
fn gauge_reason(gauge: Option<Gauge>) -> Option<Reason>
    ensures { result ≡ gauge_reason gauge }
{
    match gauge {
        Some(_) => None,
        None => Some(Reason::NoGauge),
    }
}

/// What is kept of the group of a stroke, found where it isn't kept yet.
fn group_record(
    job: &Job,
    kept: &mut StrokeRecords,
    places: &[Place],
    stroke: &StrokeKey,
) -> GroupRecord
    requires kept { AreKept job.now kept.old }
    requires count { length places.now ≡ length job.now.part.faces }
    requires places { ArePlaces (shape_of job.now) stroke.now.mask places.now }
    requires group { IsGroup (shape_of job.now) stroke.now.mask stroke.now.of.group }
    ensures kept { AreKept job.now kept.new }
    ensures key { result.key ≡ stroke.now.of }
    ensures record_ { IsGroupRecord job.now result }
{
    match kept.known_group(&stroke.of) {
        Some(known) => known,
        None => {
            let found = find_group(job, places, stroke);
            kept.keep_group(found);
            found
        }
    }
}

/// What the strokes of the group of a stroke have at each stage.
fn find_group(job: &Job, places: &[Place], stroke: &StrokeKey) -> GroupRecord
    requires count { length places.now ≡ length job.now.part.faces }
    requires places { ArePlaces (shape_of job.now) stroke.now.mask places.now }
    requires group { IsGroup (shape_of job.now) stroke.now.mask stroke.now.of.group }
    ensures key { result.key ≡ stroke.now.of }
    ensures record_ { IsGroupRecord job.now result }
{
    job.recall_valid();
    let pose = pose_at(job, places, stroke.mask, stroke.of.group, stroke.of.back, 0);
    GroupRecord {
        key: stroke.of,
        lines: line_codes(job, &pose, stroke.of.back),
        load: load_codes(job, &pose),
    }
}

/// The codes of the first of Cover and Rest at each stage, with this side at the back. Of the pose
/// only the group counts.
fn line_codes(job: &Job, pose: &Pose, back: Back) -> StageCodes
    ensures { (mask : Mask) → AreLeastCodes (stage_count job.now)
        (HoldsAmong job.now mask (record { group = pose.now.group; back = back }) 1 2) result.0 }
{
    let mut codes = StageCodes::all(FREE);
    for stage in 0..job.stages() {
        let first = first_at_lines(job, pose, back, stage);
        codes = codes.with(stage, code_for(first));
    }
    codes
}

/// The code of Load at each stage where it holds. Of the pose only the group counts.
fn load_codes(job: &Job, pose: &Pose) -> StageCodes
    ensures { (mask : Mask) (back : Back) → AreLeastCodes (stage_count job.now)
        (HoldsAmong job.now mask (record { group = pose.now.group; back = back }) 8 8) result.0 }
{
    let mut codes = StageCodes::all(FREE);
    for stage in 0..job.stages() {
        let first = load_reason(job, pose, stage);
        codes = codes.with(stage, code_for(first));
    }
    codes
}

/// The first legal pair of the stroke of an unfolded bend, which is the same at each stage, by the part
/// on the machine.
pub(crate) fn find_gauge(
    job: &Job,
    places: &[Place],
    mask: Mask,
    lead: u8,
    back: Back,
) -> Option<Gauge>
    requires count { length places.now ≡ length job.now.part.faces }
    requires places { ArePlaces (shape_of job.now) mask places.now }
    requires first { 1 ≤ lead }
    requires last { lead < length job.now.part.faces }
    requires flat { has mask lead ≡ false }
    ensures { IsGaugeOf job.now mask (group_of job.now mask lead) back result }
{
    job.recall_valid();
    let group = stroke_group(job, mask, lead);
    first_legal(job, &pose_at(job, places, mask, group, back, 0))
}

/// The bends of the stroke of an unfolded bend.
pub(crate) fn stroke_group(job: &Job, mask: Mask, lead: u8) -> Mask
    requires first { 1 ≤ lead }
    requires last { lead < length job.now.part.faces }
    requires flat { has mask lead ≡ false }
    ensures value { result ≡ group_of job.now mask lead }
    ensures group { IsGroup (shape_of job.now) mask result }
{
    group(job, mask, lead)
}

/// The part on the machine before the group is bent at a stage, from the places of its faces where the
/// bends of the mask are folded.
pub fn pose_at(job: &Job, places: &[Place], mask: Mask, group: Mask, back: Back, stage: u8) -> Pose
    requires count { length places.now ≡ length job.now.part.faces }
    requires places { ArePlaces (shape_of job.now) mask places.now }
    requires group { IsGroup (shape_of job.now) mask group }
    requires stage { stage < length job.now.setup.stages }
    ensures value { pose_data result ≡ pose_at job.now mask group back stage }
    ensures near { All IsNearPoseBox result.boxes.items }
{
    let (x0, x1) = job.stage_range(stage);
    pose_from(job.shape(), places, mask, group, back, x0, x1)
}
