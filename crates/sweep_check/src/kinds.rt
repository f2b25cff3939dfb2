//! The first reason of each kind, in the order of kinds.
ghost use Rattle.std.specs.Prelude.{ℕ, ◌<◌, [], ◌∷◌, Some, length};
ghost use Rattle.brake_base.specs.declared.stroke.Back.{Back};
ghost use Rattle.fold_boxes.specs.Pose.{pose_data};
ghost use Rattle.sweep_check.specs.Around.{AreSurroundings};
ghost use Rattle.sweep_check.specs.FirstReasons.{IsFirstAmong, IsEarlier, pose_of_boxes};
ghost use Rattle.sweep_check.specs.Hits.{IsPieceMet, IsFirstHit};
ghost use Rattle.sweep_check.specs.Pieces.{IsSolidBox, AreSolidBoxes, back_pieces, front_obstacles};

use crate::frames::first_in_frame;
use crate::hits::{Hit, first_hit};
use crate::noses::first_nose_hit;
use crate::pieces::begin_pieces;
use crate::self_hits::{first_back_hit, put_front_obstacles};
use crate::sides::side_in;
use crate::surroundings::Surroundings;
use arrayvec::ArrayVec;
use brake_base::{Back, Half, Reason};
use fold_boxes::{Pose, PoseBox};
use job_setup::{Job, is_overloaded_at, is_uncovered_at, lacks_rest_at};
use sector_geom::Sweep;

/// The first reason of the kinds 1 to 7 and 9, where this side is at the back.
pub(crate) fn first_of(job: &Job, pose: &Pose, back: Back, stage: u8) -> Option<Reason>
    requires stage { stage < length job.now.setup.stages }
    requires boxes { AreSolidBoxes pose.now.boxes.items }
    ensures { IsFirstAmong job.now (pose_data pose.now) back stage 1 8 result }
{
    if let Some(reason) = first_at_lines(job, pose, back, stage) {
        return Some(reason);
    }
    let boxes = pose.boxes.as_slice();
    if let Some(reason) = first_of_boxes(job, &Surroundings::at(job, stage), boxes) {
        return Some(reason);
    }
    if let Some(reason) = first_of_halves(job, boxes) {
        return Some(reason);
    }
    load_reason(job, pose, stage)
}

/// Cover, or the first Rest, in a pose with this side at the back. Of the pose only the group counts.
pub fn first_at_lines(job: &Job, pose: &Pose, back: Back, stage: u8) -> Option<Reason>
    requires stage { stage < length job.now.setup.stages }
    ensures { IsFirstAmong job.now (pose_data pose.now) back stage 1 2 result }
{
    if is_uncovered_at(job, pose.group, stage) {
        return Some(Reason::Cover);
    }
    if lacks_rest_at(job, pose.group, side_in(Half::Back, back), stage) {
        return Some(Reason::Rest(Half::Back));
    }
    if lacks_rest_at(job, pose.group, side_in(Half::Front, back), stage) {
        return Some(Reason::Rest(Half::Front));
    }
    None
}

/// The first reason of the kinds Frame, Upper, Nose and Lower that some boxes of a pose give with what
/// stands around them at a stage.
pub fn first_of_boxes(job: &Job, around: &Surroundings, boxes: &[PoseBox]) -> Option<Reason>
    requires around { AreSurroundings job.now around.now }
    requires boxes { AreSolidBoxes boxes.now }
    ensures { (back : Back)
        → IsFirstAmong job.now (pose_of_boxes boxes.now) back around.now.stage 3 6 result }
{
    match first_frame(job, boxes) {
        Some(reason) => Some(reason),
        None => first_sweep(job, around, boxes),
    }
}

/// The first Frame.
fn first_frame(job: &Job, boxes: &[PoseBox]) -> Option<Reason>
    requires boxes { AreSolidBoxes boxes.now }
    ensures { (back : Back) (stage : ℕ)
        → IsFirstAmong job.now (pose_of_boxes boxes.now) back stage 3 3 result }
{
    match first_in_frame(boxes, job.setup().frames.as_slice()) {
        Some(body) => Some(Reason::Frame(body)),
        None => None,
    }
}

/// The first reason of the kinds Upper, Nose and Lower, box by box.
fn first_sweep(job: &Job, around: &Surroundings, boxes: &[PoseBox]) -> Option<Reason>
    requires around { AreSurroundings job.now around.now }
    requires boxes { AreSolidBoxes boxes.now }
    ensures { (back : Back)
        → IsFirstAmong job.now (pose_of_boxes boxes.now) back around.now.stage 4 6 result }
{
    let mut first = None;
    for body in boxes {
        let found = first_of_box(job, around, body);
        first = earlier(first, found);
    }
    first
}

/// The first reason of the kinds Upper, Nose and Lower that a box gives.
fn first_of_box(job: &Job, around: &Surroundings, body: &PoseBox) -> Option<Reason>
    requires around { AreSurroundings job.now around.now }
    requires solid { IsSolidBox body.now }
    ensures { (back : Back)
        → IsFirstAmong job.now (pose_of_boxes (body.now ∷ [])) back around.now.stage 4 6 result }
{
    let mut found = ArrayVec::new();
    begin_pieces(job, Sweep::Eighth, body, &mut found);
    let pieces = found.as_slice();
    if let Some(hit) = first_hit(pieces, around.upper.as_slice()) {
        return Some(Reason::Upper(hit.body, hit.quarter, hit.other));
    }
    if let Some(hit) = first_nose_hit(pieces, around.noses.as_slice()) {
        return Some(Reason::Nose(hit.body, hit.quarter, hit.other));
    }
    if let Some(hit) = first_hit(pieces, around.lower.as_slice()) {
        return Some(Reason::Lower(hit.body, hit.quarter, hit.other));
    }
    None
}

/// Of two reasons, each where there is one, the one that stands first.
fn earlier(first: Option<Reason>, second: Option<Reason>) -> Option<Reason>
    ensures { IsEarlier first second result }
{
    match (first, second) {
        (Some(one), Some(other)) => Some(earlier_of(one, other)),
        (Some(one), None) => Some(one),
        (None, other) => other,
    }
}

/// The reason of two that stands first.
fn earlier_of(one: Reason, other: Reason) -> Reason
    ensures { IsEarlier (Some one) (Some other) (Some result) }
{
    if other.is_before(one) { other } else { one }
}

/// The first SelfHit: the boxes of the back half of a pose against those of the front half. It's the
/// same at each stage.
pub fn first_of_halves(job: &Job, boxes: &[PoseBox]) -> Option<Reason>
    requires boxes { AreSolidBoxes boxes.now }
    ensures { (back : Back) (stage : ℕ)
        → IsFirstAmong job.now (pose_of_boxes boxes.now) back stage 7 7 result }
{
    match first_self_hit(job, boxes) {
        Some(hit) => Some(Reason::SelfHit(hit.body, hit.quarter, hit.other)),
        None => None,
    }
}

/// The first piece of the back half that meets a box of the front half.
fn first_self_hit(job: &Job, boxes: &[PoseBox]) -> Option<Hit>
    requires boxes { AreSolidBoxes boxes.now }
    ensures { IsFirstHit (λ obstacle. obstacle.index) IsPieceMet (back_pieces job.now boxes.now)
        (front_obstacles job.now boxes.now) result }
{
    job.recall_valid();
    let mut obstacles = ArrayVec::new();
    put_front_obstacles(job, boxes, &mut obstacles);
    first_back_hit(job, boxes, obstacles.as_slice())
}

/// Load, where it holds. Of the pose only the group counts.
pub fn load_reason(job: &Job, pose: &Pose, stage: u8) -> Option<Reason>
    requires stage { stage < length job.now.setup.stages }
    ensures { (back : Back) → IsFirstAmong job.now (pose_data pose.now) back stage 8 8 result }
{
    if is_overloaded_at(job, pose.group, stage) {
        Some(Reason::Load)
    } else {
        None
    }
}
