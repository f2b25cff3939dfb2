//! What a refused stroke sweeps, and what it would strike.
ghost use Rattle.std.specs.Prelude.{◌≡◌, ◌<◌, ◌≤◌, ◌^◌, pos, ◌≤ℤ◌, unsigned_abs, ◌==◌, length, find, All, IfSome, option_map};
ghost use Rattle.fold_boxes.specs.Pose.{pose_data};
ghost use Rattle.fold_boxes.specs.Posing.{IsNearPoseBox};
ghost use Rattle.sector_geom.specs.Plane.{IsInRange};
ghost use Rattle.job_setup.specs.Reasons.{across, mirrored, seen_from, widening, moving_rect, piece_at};
ghost use Rattle.sheet_views.specs.Near.{IsNearArea, IsNearStruck, IsNearSwept};
ghost use Rattle.sheet_views.specs.Swept.{box_numbered, struck_box, struck_obstacle, struck_nose, swept_in, swept_towards, swept_by};

use crate::side_view::across;
use crate::stations::stage_at;
use brake_base::{Half, Quarter, Reason, Rect};
use fold_boxes::{Pose, PoseBox};
use job_setup::{Job, Obstacle, lower_group, upper_group};
use sector_geom::{Sector, Sweep, cover, split, widened};

/// What a swept box would strike: a rectangle across the bed, or the nose of a punch, by its size.
/// In micrometres.
#[derive(Clone, Copy, Debug, PartialEq, Eq)]
pub enum Struck {
    Body(Rect),
    Nose(i64),
}

/// A box of the part by its number, its half and its rectangle across the bed; how far it is swept,
/// and the sector that covers what it sweeps, which is mirrored for the front half; and what it would
/// strike.
#[derive(Clone, Copy, Debug, PartialEq, Eq)]
pub struct Swept {
    pub id: u8,
    pub half: Half,
    pub body: Rect,
    pub sweep: Sweep,
    pub cover: Sector,
    pub struck: Struck,
}

/// What the box of a reason against a stroke at a stage sweeps in its quarter, and what it would
/// strike: an obstacle as it stands while the sheet is bent, a punch's nose, or a box of the part.
/// None for a reason of another kind, and where the box has no interior in the quarter or something
/// that the reason names isn't there.
pub fn swept_by(job: &Job, stage: u8, pose: &Pose, reason: Reason) -> Option<Swept>
    requires stage { stage < length job.now.setup.stages }
    requires near { All IsNearPoseBox pose.now.boxes.items }
    ensures value { result ≡ swept_by job.now stage (pose_data pose.now) reason }
    ensures near { IfSome result IsNearSwept }
{
    let boxes = pose.boxes.as_slice();
    match reason {
        Reason::Upper(number, quarter, index) => {
            let struck = struck_obstacle(upper_group(job).as_slice(), index);
            swept_towards(job, boxes, number, quarter, Sweep::Eighth, struck)
        }
        Reason::Nose(number, quarter, other) => {
            let struck = struck_nose(job, other);
            swept_towards(job, boxes, number, quarter, Sweep::Eighth, struck)
        }
        Reason::Lower(number, quarter, index) => {
            let struck = struck_obstacle(lower_group(job, stage).as_slice(), index);
            swept_towards(job, boxes, number, quarter, Sweep::Eighth, struck)
        }
        Reason::SelfHit(number, quarter, other) => {
            let struck = struck_box(boxes, other);
            swept_towards(job, boxes, number, quarter, Sweep::Fourth, struck)
        }
        Reason::Cover | Reason::Rest(_) | Reason::Frame(_) | Reason::NoGauge | Reason::Load => None,
    }
}

/// What the box of a number sweeps in a quarter towards what it would strike, where both are there.
fn swept_towards(
    job: &Job,
    boxes: &[PoseBox],
    number: u8,
    quarter: Quarter,
    sweep: Sweep,
    struck: Option<Struck>,
) -> Option<Swept>
    requires near { All IsNearPoseBox boxes.now }
    requires struck { IfSome struck IsNearStruck }
    ensures value { result ≡ swept_towards job.now boxes.now number quarter sweep struck }
    ensures near { IfSome result IsNearSwept }
{
    let struck = struck?;
    let pose_box = box_numbered(boxes, number)?;
    swept_in(job, quarter, sweep, struck, pose_box)
}

/// What a box sweeps in a quarter, where it has an interior there.
fn swept_in(
    job: &Job,
    quarter: Quarter,
    sweep: Sweep,
    struck: Struck,
    pose_box: &PoseBox,
) -> Option<Swept>
    requires near { IsNearPoseBox pose_box.now }
    requires struck { IsNearStruck struck }
    ensures value { result ≡ swept_in job.now quarter sweep struck pose_box.now }
    ensures near { IfSome result IsNearSwept }
{
    let piece = piece_at(job, pose_box, quarter)?;
    Some(Swept {
        id: pose_box.id,
        half: pose_box.half,
        body: across(&pose_box.body),
        sweep,
        cover: cover(piece, quarter, sweep),
        struck,
    })
}

/// The box of a number.
fn box_numbered(boxes: &[PoseBox], number: u8) -> Option<&PoseBox>
    requires near { All IsNearPoseBox boxes.now }
    ensures value { option_map (λ b. b.now) result ≡ box_numbered boxes.now number }
    ensures near { IfSome result (λ b. IsNearPoseBox b.now) }
{
    boxes.iter().find(|pose_box| pose_box.id == number)
}

/// The box of a number as what is struck.
fn struck_box(boxes: &[PoseBox], number: u8) -> Option<Struck>
    requires near { All IsNearPoseBox boxes.now }
    ensures value { result ≡ struck_box boxes.now number }
    ensures near { IfSome result IsNearStruck }
{
    let pose_box = box_numbered(boxes, number)?;
    Some(Struck::Body(across(&pose_box.body)))
}

/// The obstacle of an index.
fn obstacle_numbered(obstacles: &[Obstacle], index: u8) -> Option<&Obstacle>
    requires near { All (λ o. IsNearArea o.rect) obstacles.now }
    ensures value { option_map (λ o. o.now) result ≡ find (λ o. o.index == index) obstacles.now }
    ensures near { IfSome result (λ o. IsNearArea o.now.rect) }
{
    obstacles.iter().find(|obstacle| obstacle.index == index)
}

/// The obstacle of an index as what is struck.
fn struck_obstacle(obstacles: &[Obstacle], index: u8) -> Option<Struck>
    requires near { All (λ o. IsNearArea o.rect) obstacles.now }
    ensures value { result ≡ struck_obstacle obstacles.now index }
    ensures near { IfSome result IsNearStruck }
{
    let obstacle = obstacle_numbered(obstacles, index)?;
    Some(Struck::Body(obstacle.rect))
}

/// The nose of the punch of a stage as what is struck.
fn struck_nose(job: &Job, stage: u8) -> Option<Struck>
    ensures value { result ≡ struck_nose job.now.setup.stages stage }
    ensures near { IfSome result IsNearStruck }
{
    if stage < job.stages() {
        Some(Struck::Nose(stage_at(job, stage).punch.nose))
    } else {
        None
    }
}

/// The piece of a box in a quarter, as its half is looked at, where the box has an interior there.
fn piece_at(job: &Job, pose_box: &PoseBox, quarter: Quarter) -> Option<Rect>
    requires near { IsNearPoseBox pose_box.now }
    ensures value { result ≡ piece_at job.now pose_box.now quarter }
    ensures in_range { IsInRange (moving_rect job.now pose_box.now) }
{
    let [first, second, third, fourth] = split(moving_rect(job, pose_box));
    match quarter {
        Quarter::Q1 => first,
        Quarter::Q2 => second,
        Quarter::Q3 => third,
        Quarter::Q4 => fourth,
    }
}

/// What a box sweeps with, as its half is looked at.
fn moving_rect(job: &Job, pose_box: &PoseBox) -> Rect
    requires near { IsNearPoseBox pose_box.now }
    ensures value { result ≡ moving_rect job.now pose_box.now }
    ensures in_range { IsInRange result }
{
    widened(
        seen_from(pose_box.half, &across(&pose_box.body)),
        widening(job),
    )
}

/// How far a core may fall short of its plate, or a corner reach past it.
fn widening(job: &Job) -> i64
    ensures value { result ≡ widening job.now }
    ensures low { pos 0 ≤ℤ result }
    ensures high { result ≤ℤ pos 100000 }
{
    (job.q() - job.part().thickness).abs()
}

/// The rectangle as its half is looked at: the front half mirrored.
fn seen_from(half: Half, rect: &Rect) -> Rect
    requires low { unsigned_abs rect.now.y0 ≤ 2 ^ 30 }
    requires high { unsigned_abs rect.now.y1 ≤ 2 ^ 30 }
    ensures { result ≡ seen_from half rect.now }
{
    match half {
        Half::Back => *rect,
        Half::Front => mirrored(rect),
    }
}

/// The rectangle with front and back in each other's place.
fn mirrored(rect: &Rect) -> Rect
    requires low { unsigned_abs rect.now.y0 ≤ 2 ^ 30 }
    requires high { unsigned_abs rect.now.y1 ≤ 2 ^ 30 }
    ensures { result ≡ mirrored rect.now }
{
    Rect {
        y0: -rect.y1,
        y1: -rect.y0,
        ..*rect
    }
}
