//! The first reasons that a box gives by itself at each stage.
ghost use Rattle.std.specs.Prelude.{◌≡◌, ℕ, ◌<◌, length, unsigned_abs, ◌≤◌, ◌^◌};
ghost use Rattle.brake_base.specs.declared.reason.Reason.{Reason};
ghost use Rattle.fold_boxes.specs.Posing.{IsNearPoseBox};
ghost use Rattle.fold_boxes.specs.Spans.{IsNearRange};
ghost use Rattle.fold_boxes.specs.Pose.{start_of_span};
ghost use Rattle.job_setup.specs.Setup.{stage_count};
ghost use Rattle.job_setup.specs.StageOf.{stage_of};
ghost use Rattle.unfolder.specs.Near.{IsWithin as IsNear};
ghost use Rattle.stage_lanes.specs.Codes.{IsCoded};
ghost use Rattle.stroke_table.specs.Moved.{moved_point, moved_box};
ghost use Rattle.stroke_table.specs.BoxReasons.{shift_of, box_at, IsBoxOf, AreAround};
ghost use Rattle.stroke_table.specs.Codes.{IsGiven, AreLeastCodes};

use crate::codes::code_for;
use crate::keys::GroupKey;
use brake_base::{Box3, Mask, V3};
use fold_boxes::{PoseBox, span, start_of_span};
use job_setup::Job;
use stage_lanes::{FREE, StageCodes};
use sweep_check::{Surroundings, first_of_boxes};

/// The codes of the first reasons of the kinds Frame, Upper, Nose and Lower that a box gives by itself
/// at each stage, where it lies like this in the pose of the group at stage 0.
pub(crate) fn box_codes(
    job: &Job,
    around: &[Surroundings],
    of: &GroupKey,
    body: &PoseBox,
) -> StageCodes
    requires around { AreAround job.now around.now }
    requires body { IsBoxOf job.now of.now.group body.now }
    requires coded { (stage : ℕ) (reason : Reason) → stage < stage_count job.now
        → IsGiven job.now (box_at job.now of.now.group stage body.now) of.now.back stage reason
        → IsCoded reason }
    ensures { AreLeastCodes (stage_count job.now)
        (λ stage. IsGiven job.now (box_at job.now of.now.group stage body.now) of.now.back stage)
        result.0 }
{
    let mut codes = StageCodes::all(FREE);
    for stage in 0..job.stages() {
        let place = usize::from(stage);
        let moved = moved_box(body, shift(job, of.group, stage));
        let first = first_of_boxes(job, &around[place], &[moved]);
        codes = codes.with(stage, code_for(first));
    }
    codes
}

/// The box so much farther along the bed.
fn moved_box(body: &PoseBox, by: i64) -> PoseBox
    requires near { IsNearPoseBox body.now }
    requires by { unsigned_abs by ≤ 2 ^ 32 }
    ensures { result ≡ moved_box by body.now }
{
    PoseBox {
        body: Box3 {
            lo: moved_point(&body.body.lo, by),
            hi: moved_point(&body.body.hi, by),
        },
        ..*body
    }
}

/// The point so much farther along the bed.
fn moved_point(point: &V3, by: i64) -> V3
    requires near { unsigned_abs point.now.x ≤ 2 ^ 31 }
    requires by { unsigned_abs by ≤ 2 ^ 32 }
    ensures { result ≡ moved_point by point.now }
{
    V3 {
        x: point.x + by,
        ..*point
    }
}

/// How much farther along the bed the part lies in a stroke of the group at a stage than at stage 0.
fn shift(job: &Job, group: Mask, stage: u8) -> i64
    requires stage { stage < length job.now.setup.stages }
    ensures value { result ≡ shift_of job.now group stage }
    ensures near { unsigned_abs result ≤ 2 ^ 32 }
{
    let lines = span(job.shape(), group);
    start_at(job, lines, stage) - start_at(job, lines, 0)
}

/// Where a span begins at a stage.
fn start_at(job: &Job, lines: (i64, i64), stage: u8) -> i64
    requires lines { IsNearRange lines }
    requires stage { stage < length job.now.setup.stages }
    ensures value { result ≡ start_of_span lines (stage_of job.now stage).x0 (stage_of job.now stage).x1 }
    ensures near { IsNear 1130000000 result }
{
    let (x0, x1) = job.stage_range(stage);
    start_of_span(lines, x0, x1)
}
