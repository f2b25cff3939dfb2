//! Whether a reason that is named holds.
ghost use Rattle.std.specs.Prelude.{◌≡◌, ◌≢◌, ◌↔◌, ◌<◌, IsTrue, All, Any, length, map};
ghost use Rattle.std.specs.List.{enumerate_from};
ghost use Rattle.brake_base.specs.declared.reason.Reason.TheVariants.{NoGauge};
ghost use Rattle.sector_geom.specs.declared.sector.Sweep.TheVariants.{Eighth};
ghost use Rattle.fold_boxes.specs.Pose.{pose_data};
ghost use Rattle.job_setup.specs.Obstacles.{upper_group, lower_group};
ghost use Rattle.job_setup.specs.Reasons.{MeetsAlong, IsReasonOf};
ghost use Rattle.sweep_check.specs.Pieces.{AreSolidBoxes, pieces_of, back_pieces, front_obstacles};
ghost use Rattle.sweep_check.specs.Hits.{IsSolidObstacle, IsCovered, IsEighth, IsNose, IsPieceMet, IsNoseMet, SomeHit, nose_of};

use crate::frames::is_in_frame;
use crate::hits::{Hit, is_met};
use crate::noses::{PunchNose, is_nose_met, noses};
use crate::pieces::{Piece, all_pieces};
use crate::self_hits::{back_pieces, put_front_obstacles};
use crate::sides::side_in;
use arrayvec::ArrayVec;
use brake_base::{Back, Reason};
use fold_boxes::{Pose, PoseBox};
use job_setup::{
    Job, Obstacle, is_overloaded_at, is_uncovered_at, lacks_rest_at, lower_group, upper_group,
};

/// Whether the reason, which isn't NoGauge, holds where this side is at the back. A box, a quarter,
/// an obstacle or a stage that isn't there makes it false.
pub(crate) fn holds_with(job: &Job, pose: &Pose, back: Back, stage: u8, reason: Reason) -> bool
    requires stage { stage < length job.now.setup.stages }
    requires boxes { AreSolidBoxes pose.now.boxes.items }
    requires kind { reason ≢ NoGauge }
    ensures { IsTrue result ↔ IsReasonOf job.now (pose_data pose.now) back stage reason }
{
    match reason {
        Reason::Cover => is_uncovered_at(job, pose.group, stage),
        Reason::Rest(half) => lacks_rest_at(job, pose.group, side_in(half, back), stage),
        Reason::Frame(body) => is_frame_met(job, pose, body),
        Reason::Upper(body, quarter, other) => {
            let hit = Hit {
                body,
                quarter,
                other,
            };
            is_upper_hit(job, pose, hit)
        }
        Reason::Nose(body, quarter, other) => {
            let hit = Hit {
                body,
                quarter,
                other,
            };
            is_nose_hit(job, pose, hit)
        }
        Reason::Lower(body, quarter, other) => {
            let hit = Hit {
                body,
                quarter,
                other,
            };
            is_lower_hit(job, pose, stage, hit)
        }
        Reason::SelfHit(body, quarter, other) => {
            let hit = Hit {
                body,
                quarter,
                other,
            };
            is_self_hit(job, pose, hit)
        }
        Reason::Load => is_overloaded_at(job, pose.group, stage),
        Reason::NoGauge => unreachable!(),
    }
}

/// Whether the range along the bed of the box of this number meets that of a frame.
fn is_frame_met(job: &Job, pose: &Pose, number: u8) -> bool
    ensures { IsTrue result
        ↔ Any (λ body. (body.id ≡ number)
        × Any (MeetsAlong body) job.now.setup.frames) pose.now.boxes.items }
{
    is_some_in_frame(pose.boxes.as_slice(), job.setup().frames.as_slice(), number)
}

/// The same of some boxes and frames.
fn is_some_in_frame(boxes: &[PoseBox], frames: &[(i64, i64)], number: u8) -> bool
    ensures { IsTrue result
        ↔ Any (λ body. (body.id ≡ number) × Any (MeetsAlong body) frames.now) boxes.now }
{
    boxes
        .iter()
        .any(|body| is_numbered_in_frame(body, number, frames))
}

/// Whether the box has this number, and its range meets that of a frame.
fn is_numbered_in_frame(body: &PoseBox, number: u8, frames: &[(i64, i64)]) -> bool
    ensures { IsTrue result ↔ ((body.now.id ≡ number) × Any (MeetsAlong body.now) frames.now) }
{
    body.id == number && is_in_frame(body, frames)
}

/// Whether a piece of the pose meets an upper obstacle as the hit says.
fn is_upper_hit(job: &Job, pose: &Pose, hit: Hit) -> bool
    requires some { 0 < length job.now.setup.stages }
    requires boxes { AreSolidBoxes pose.now.boxes.items }
    ensures { IsTrue result
        ↔ SomeHit (λ obstacle. obstacle.index) IsPieceMet (pieces_of job.now Eighth pose.now.boxes.items)
        (upper_group job.now) hit.body hit.quarter hit.other }
{
    let found = all_pieces(job, pose.boxes.as_slice());
    is_some_hit(found.as_slice(), upper_group(job).as_slice(), hit)
}

/// Whether a piece meets a stage's nose as the hit says.
fn is_nose_hit(job: &Job, pose: &Pose, hit: Hit) -> bool
    requires boxes { AreSolidBoxes pose.now.boxes.items }
    ensures { IsTrue result
        ↔ SomeHit (λ nose. nose.stage) IsNoseMet (pieces_of job.now Eighth pose.now.boxes.items)
        (map nose_of (enumerate_from 0 job.now.setup.stages)) hit.body hit.quarter hit.other }
{
    let found = all_pieces(job, pose.boxes.as_slice());
    is_some_nose_hit(
        found.as_slice(),
        noses(job.setup().stages.as_slice()).as_slice(),
        hit,
    )
}

/// Whether a piece meets a lower obstacle as the hit says.
fn is_lower_hit(job: &Job, pose: &Pose, stage: u8, hit: Hit) -> bool
    requires stage { stage < length job.now.setup.stages }
    requires boxes { AreSolidBoxes pose.now.boxes.items }
    ensures { IsTrue result
        ↔ SomeHit (λ obstacle. obstacle.index) IsPieceMet (pieces_of job.now Eighth pose.now.boxes.items)
        (lower_group job.now stage) hit.body hit.quarter hit.other }
{
    let found = all_pieces(job, pose.boxes.as_slice());
    is_some_hit(found.as_slice(), lower_group(job, stage).as_slice(), hit)
}

/// Whether a piece of the back half meets a box of the front half as the hit says.
fn is_self_hit(job: &Job, pose: &Pose, hit: Hit) -> bool
    requires boxes { AreSolidBoxes pose.now.boxes.items }
    ensures { IsTrue result
        ↔ SomeHit (λ obstacle. obstacle.index) IsPieceMet (back_pieces job.now pose.now.boxes.items)
        (front_obstacles job.now pose.now.boxes.items) hit.body hit.quarter hit.other }
{
    let boxes = pose.boxes.as_slice();
    let pieces = back_pieces(job, boxes);
    let mut obstacles = ArrayVec::new();
    put_front_obstacles(job, boxes, &mut obstacles);
    is_some_hit(pieces.as_slice(), obstacles.as_slice(), hit)
}

/// Whether one of the pieces meets one of the obstacles as the hit says.
fn is_some_hit(pieces: &[Piece], obstacles: &[Obstacle], hit: Hit) -> bool
    requires covered { All IsCovered pieces.now }
    requires solid { All IsSolidObstacle obstacles.now }
    ensures { IsTrue result
        ↔ SomeHit (λ obstacle. obstacle.index) IsPieceMet pieces.now obstacles.now hit.body hit.quarter
        hit.other }
{
    pieces.iter().any(|piece| is_hit(piece, obstacles, hit))
}

/// Whether the piece is that of the hit, and meets the obstacle of its number.
fn is_hit(piece: &Piece, obstacles: &[Obstacle], hit: Hit) -> bool
    requires covered { IsCovered piece.now }
    requires solid { All IsSolidObstacle obstacles.now }
    ensures { IsTrue result
        ↔ (((piece.now.body ≡ hit.body) × (piece.now.quarter ≡ hit.quarter))
        × Any (λ obstacle. (obstacle.index ≡ hit.other) × IsPieceMet piece.now obstacle) obstacles.now) }
{
    is_named(piece, hit) && meets_numbered(piece, obstacles, hit.other)
}

/// Whether the piece is of the hit's box and quarter.
fn is_named(piece: &Piece, hit: Hit) -> bool
    ensures { IsTrue result ↔ ((piece.now.body ≡ hit.body) × (piece.now.quarter ≡ hit.quarter)) }
{
    piece.body == hit.body && piece.quarter == hit.quarter
}

/// Whether the piece meets the obstacle of this number.
fn meets_numbered(piece: &Piece, obstacles: &[Obstacle], number: u8) -> bool
    requires covered { IsCovered piece.now }
    requires solid { All IsSolidObstacle obstacles.now }
    ensures { IsTrue result
        ↔ Any (λ obstacle. (obstacle.index ≡ number) × IsPieceMet piece.now obstacle) obstacles.now }
{
    obstacles
        .iter()
        .any(|obstacle| is_numbered_met(piece, obstacle, number))
}

/// Whether the obstacle has this number, and the piece meets it.
fn is_numbered_met(piece: &Piece, obstacle: &Obstacle, number: u8) -> bool
    requires covered { IsCovered piece.now }
    requires solid { IsSolidObstacle obstacle.now }
    ensures { IsTrue result ↔ ((obstacle.now.index ≡ number) × IsPieceMet piece.now obstacle.now) }
{
    obstacle.index == number && is_met(piece, obstacle)
}

/// Whether one of the pieces meets one of the noses as the hit says.
fn is_some_nose_hit(pieces: &[Piece], noses: &[PunchNose], hit: Hit) -> bool
    requires covered { All IsEighth pieces.now }
    requires noses { All IsNose noses.now }
    ensures { IsTrue result
        ↔ SomeHit (λ nose. nose.stage) IsNoseMet pieces.now noses.now hit.body hit.quarter hit.other }
{
    pieces.iter().any(|piece| is_hit_by_nose(piece, noses, hit))
}

/// Whether the piece is that of the hit, and meets the nose of its number.
fn is_hit_by_nose(piece: &Piece, noses: &[PunchNose], hit: Hit) -> bool
    requires covered { IsEighth piece.now }
    requires noses { All IsNose noses.now }
    ensures { IsTrue result
        ↔ (((piece.now.body ≡ hit.body) × (piece.now.quarter ≡ hit.quarter))
        × Any (λ nose. (nose.stage ≡ hit.other) × IsNoseMet piece.now nose) noses.now) }
{
    is_named(piece, hit) && meets_numbered_nose(piece, noses, hit.other)
}

/// Whether the piece meets the nose of this stage.
fn meets_numbered_nose(piece: &Piece, noses: &[PunchNose], number: u8) -> bool
    requires covered { IsEighth piece.now }
    requires noses { All IsNose noses.now }
    ensures { IsTrue result
        ↔ Any (λ nose. (nose.stage ≡ number) × IsNoseMet piece.now nose) noses.now }
{
    noses
        .iter()
        .any(|nose| is_numbered_nose_met(piece, nose, number))
}

/// Whether the nose is of this stage, and the piece meets it.
fn is_numbered_nose_met(piece: &Piece, nose: &PunchNose, number: u8) -> bool
    requires covered { IsEighth piece.now }
    requires nose { IsNose nose.now }
    ensures { IsTrue result ↔ ((nose.now.stage ≡ number) × IsNoseMet piece.now nose.now) }
{
    nose.stage == number && is_nose_met(piece, nose)
}
