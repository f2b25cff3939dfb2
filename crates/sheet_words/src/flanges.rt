//! The bend line that is too long for a station, and the flange that is too short for its die, in words.
ghost use Rattle.std.specs.Prelude.{◌≡◌, ◌^◌, ◌<◌, ◌≤◌, ◌++◌, unsigned_abs, length, All, OnOk};
ghost use Rattle.fold_boxes.specs.Pose.{pose_data};
ghost use Rattle.fold_boxes.specs.Posing.{IsNearPoseBox};
ghost use Rattle.job_setup.specs.StageOf.{stage_of};
ghost use Rattle.job_setup.specs.Reasons.{side_in};
ghost use Rattle.sheet_words.specs.Reasons.{span_word, long_word, span_length, station_length, longest_line, cover_words, reach_in, reach_of, is_on_line, shorter, shortest, half_word, reach_words, flange_words, rest_words};

use crate::faces::put_face;
use crate::lists::put_mm;
use crate::phrases::{FROM_BEND_LINE, NEEDS_AT_LEAST, TOOLS_BEND_AT_MOST};
use crate::tools::{put_die, stage_at};
use brake_base::{Action, Back, Box3, Half, Mask};
use brake_text::put_word;
use fold_boxes::{Pose, Shape, span};
use job_setup::Job;
use std::alloc::AllocError;

/// The words before the length of a group's lines.
#[tactic(auto, unfolding(crate::specs::Reasons::span_word))]
fn span_word(group: Mask) -> &'static [u8]
    ensures { result.now ≡ span_word group }
{
    if group.count() == 1 {
        b"the bend line is "
    } else {
        b"the bend lines span "
    }
}

/// The words behind it.
#[tactic(auto, unfolding(crate::specs::Reasons::long_word))]
fn long_word(group: Mask) -> &'static [u8]
    ensures { result.now ≡ long_word group }
{
    if group.count() == 1 {
        b" mm long, and "
    } else {
        b" mm, and "
    }
}

/// How long the span of a group is.
fn span_length(job: &Job, group: Mask) -> i64
    ensures { result ≡ span_length job.now group }
{
    let (from, to) = span(job.shape(), group);
    to - from
}

/// How long a station is.
fn station_length(job: &Job, stage: u8) -> i64
    requires { stage < length job.now.setup.stages }
    ensures value { result ≡ station_length job.now stage }
    ensures near { unsigned_abs result ≤ 2 ^ 32 }
{
    let (x0, x1) = job.stage_range(stage);
    x1 - x0
}

/// How much of a line may stay uncovered at each end.
fn uncovered(job: &Job) -> i64
    ensures value { result ≡ job.now.setup.uncovered }
    ensures near { unsigned_abs result ≤ 2 ^ 32 }
{
    job.setup().uncovered
}

/// How long a line may be that a station bends.
fn longest_line(job: &Job, stage: u8) -> i64
    requires { stage < length job.now.setup.stages }
    ensures { result ≡ longest_line job.now stage }
{
    let length = station_length(job, stage);
    let beyond = uncovered(job);
    length + 2 * beyond
}

/// The bend line is longer than the station.
#[tactic(auto, using(crate::proofs::Texts::pieces), unfolding(crate::specs::Reasons::cover_words))]
pub(crate) fn put_cover(
    out: &mut Vec<u8>,
    job: &Job,
    group: Mask,
    stage: u8,
) -> Result<(), AllocError>
    requires { stage < length job.now.setup.stages }
    ensures { OnOk result (out.new.items ≡ out.old.items ++ cover_words job.now group stage) }
{
    put_word(out, span_word(group))?;
    put_mm(out, span_length(job, group))?;
    put_word(out, long_word(group))?;
    put_mm(out, station_length(job, stage))?;
    put_word(out, TOOLS_BEND_AT_MOST)?;
    put_mm(out, longest_line(job, stage))?;
    put_word(out, b" mm")
}

/// How far a box of a half reaches from the bend line.
fn reach_in(half: Half, body: &Box3) -> i64
    requires { unsigned_abs body.now.lo.y ≤ 2 ^ 40 }
    ensures { result ≡ reach_in half body.now }
{
    match half {
        Half::Back => body.hi.y,
        Half::Front => -body.lo.y,
    }
}

/// How far a face reaches from the bend line, where the pose has it.
fn reach_of(pose: &Pose, half: Half, face: u8) -> i64
    requires { All IsNearPoseBox pose.now.boxes.items }
    ensures { result ≡ reach_of (pose_data pose.now) half face }
{
    match pose.boxes.as_slice().get(usize::from(face)) {
        Some(pose_box) => reach_in(half, &pose_box.body),
        None => 0,
    }
}

/// The side that lies in a half, where this side is at the back.
fn side_in(half: Half, back: Back) -> Back
    ensures { result ≡ side_in half back }
{
    match (half, back) {
        (Half::Back, back) => back,
        (Half::Front, Back::Parent) => Back::Child,
        (Half::Front, Back::Child) => Back::Parent,
    }
}

/// Whether a face stands on a line of the group, on this side of it: one of the flanges, or their
/// parent.
fn is_on_line(shape: &Shape, pose: &Pose, side: Back, face: u8) -> bool
    requires some { 0 < pose.now.bend }
    requires bend { pose.now.bend < length shape.now.part.faces }
    requires face { face ≤ 12 }
    ensures { result ≡ is_on_line shape.now (pose_data pose.now) side face }
{
    match side {
        Back::Parent => face == shape.parent(pose.bend),
        Back::Child => face > 0 && pose.group.contains(face),
    }
}

/// Of two faces the one that reaches less, or the first.
fn shorter(pose: &Pose, half: Half, first: Option<u8>, face: u8) -> u8
    requires { All IsNearPoseBox pose.now.boxes.items }
    ensures { result ≡ shorter (reach_of (pose_data pose.now) half) first face }
{
    match first {
        Some(first) if reach_of(pose, half, first) <= reach_of(pose, half, face) => first,
        _ => face,
    }
}

/// The face of a half on the line that reaches least, the first of equal ones; face 0 where there is
/// none.
fn shortest(job: &Job, pose: &Pose, back: Back, half: Half) -> u8
    requires some { 0 < pose.now.bend }
    requires bend { pose.now.bend < length job.now.part.faces }
    requires near { All IsNearPoseBox pose.now.boxes.items }
    ensures { result ≡ shortest job.now (pose_data pose.now) back half }
{
    let shape = job.shape();
    let side = side_in(half, back);
    let mut least = None;
    for face in 0..shape.faces() {
        if is_on_line(shape, pose, side, face) {
            least = Some(shorter(pose, half, least, face));
        }
    }
    least.unwrap_or(0)
}

/// The words for a half.
#[tactic(auto, unfolding(crate::specs::Reasons::half_word))]
fn half_word(half: Half) -> &'static [u8]
    ensures { result.now ≡ half_word half }
{
    match half {
        Half::Back => b" at the back reaches ",
        Half::Front => b" at the front reaches ",
    }
}

/// The least flange of a stage's die.
fn least_flange(job: &Job, stage: u8) -> i64
    requires { stage < length job.now.setup.stages }
    ensures { result ≡ (stage_of job.now stage).die.least_flange }
{
    stage_at(job, stage).die.least_flange
}

/// How far a face of a half reaches.
#[tactic(auto, using(crate::proofs::Texts::pieces), unfolding(crate::specs::Reasons::reach_words))]
fn put_reach(
    out: &mut Vec<u8>,
    job: &Job,
    pose: &Pose,
    half: Half,
    face: u8,
) -> Result<(), AllocError>
    requires near { All IsNearPoseBox pose.now.boxes.items }
    ensures { OnOk result (out.new.items
        ≡ out.old.items ++ reach_words job.now (pose_data pose.now) half face) }
{
    put_face(out, job, face)?;
    put_word(out, half_word(half))?;
    put_mm(out, reach_of(pose, half, face))
}

/// How far a stage's die needs a flange to reach.
#[tactic(auto, using(crate::proofs::Texts::pieces), unfolding(crate::specs::Reasons::flange_words))]
fn put_flange(out: &mut Vec<u8>, job: &Job, stage: u8) -> Result<(), AllocError>
    requires { stage < length job.now.setup.stages }
    ensures { OnOk result (out.new.items ≡ out.old.items ++ flange_words job.now stage) }
{
    put_die(out, job, stage, stage)?;
    put_word(out, NEEDS_AT_LEAST)?;
    put_mm(out, least_flange(job, stage))?;
    put_word(out, b" mm")
}

/// A half rests on too short a flange.
#[tactic(auto, using(crate::proofs::Texts::pieces), unfolding(crate::specs::Reasons::rest_words))]
pub(crate) fn put_rest(
    out: &mut Vec<u8>,
    job: &Job,
    action: Action,
    pose: &Pose,
    half: Half,
) -> Result<(), AllocError>
    requires some { 0 < pose.now.bend }
    requires bend { pose.now.bend < length job.now.part.faces }
    requires stage { action.stage < length job.now.setup.stages }
    requires near { All IsNearPoseBox pose.now.boxes.items }
    ensures { OnOk result (out.new.items
        ≡ out.old.items ++ rest_words job.now action (pose_data pose.now) half) }
{
    let face = shortest(job, pose, action.back, half);
    put_reach(out, job, pose, half, face)?;
    put_word(out, FROM_BEND_LINE)?;
    put_flange(out, job, action.stage)
}
