//! The two halves of the part against each other.
ghost use Rattle.std.specs.Prelude.{◌≡◌, ◌↔◌, ◌+◌, ◌<◌, ◌≤◌, ◌++◌, [], ◌∷◌, length, IsTrue, All, AllPairs};
ghost use Rattle.sector_geom.specs.declared.sector.Sweep.TheVariants.{Fourth};
ghost use Rattle.job_setup.specs.ValidJob.{IsJob};
ghost use Rattle.sweep_check.specs.Along.{is_along, AreApart};
ghost use Rattle.sweep_check.specs.Hits.{IsPieceMet, IsFirstHit, IsSolidObstacle};
ghost use Rattle.sweep_check.specs.Pieces.{IsSolidBox, AreSolidBoxes, box_pieces, if_back, if_front, back_pieces, front_obstacle, front_obstacles};

use crate::hits::{Hit, first_hit};
use crate::pieces::{Piece, across, begin_pieces, put_pieces, widening};
use crate::ranges::is_overlap;
use arrayvec::ArrayVec;
use brake_base::Half;
use fold_boxes::PoseBox;
use job_setup::{Group, Job, Obstacle};
use sector_geom::{Sweep, widened};

/// The pieces of the boxes of the back half, each swept by a fourth.
pub(crate) fn back_pieces(job: &Job, boxes: &[PoseBox]) -> ArrayVec<Piece, 100>
    requires boxes { AreSolidBoxes boxes.now }
    ensures value { result.items ≡ back_pieces job.now boxes.now }
    ensures valid { IsJob job.now }
{
    let _ = job.q();
    let mut pieces = ArrayVec::new();
    for body in boxes {
        put_back_pieces(job, body, &mut pieces);
    }
    pieces
}

/// Puts the pieces of a box, where it is of the back half.
fn put_back_pieces(job: &Job, body: &PoseBox, pieces: &mut ArrayVec<Piece, 100>)
    requires solid { IsSolidBox body.now }
    requires room { length pieces.old.items + 4 ≤ 100 }
    ensures value { pieces.new.items
        ≡ pieces.old.items ++ if_back body.now.half (box_pieces job.now Fourth body.now) }
    ensures few { length pieces.new.items ≤ length pieces.old.items + 4 }
{
    match body.half {
        Half::Back => put_pieces(job, Sweep::Fourth, body, pieces),
        Half::Front => {}
    }
}

/// The first piece of the boxes of the back half, each swept by a fourth, that meets an obstacle.
pub(crate) fn first_back_hit(job: &Job, boxes: &[PoseBox], obstacles: &[Obstacle]) -> Option<Hit>
    requires boxes { AreSolidBoxes boxes.now }
    requires solid { All IsSolidObstacle obstacles.now }
    requires ascend { AllPairs (λ a b. a.index < b.index) obstacles.now }
    ensures { IsFirstHit (λ obstacle. obstacle.index) IsPieceMet (back_pieces job.now boxes.now)
        obstacles.now result }
{
    for body in boxes {
        if let Some(hit) = first_of_back(job, body, obstacles) {
            return Some(hit);
        }
    }
    None
}

/// The first piece of a box that meets an obstacle, where the box is of the back half.
fn first_of_back(job: &Job, body: &PoseBox, obstacles: &[Obstacle]) -> Option<Hit>
    requires body { IsSolidBox body.now }
    requires solid { All IsSolidObstacle obstacles.now }
    requires ascend { AllPairs (λ a b. a.index < b.index) obstacles.now }
    ensures { IsFirstHit (λ obstacle. obstacle.index) IsPieceMet
        (if_back body.now.half (box_pieces job.now Fourth body.now)) obstacles.now result }
{
    match body.half {
        Half::Back => first_box_hit(job, body, obstacles),
        Half::Front => None,
    }
}

/// The first piece of a box, swept by a fourth, that meets an obstacle. The cheap test comes first.
fn first_box_hit(job: &Job, body: &PoseBox, obstacles: &[Obstacle]) -> Option<Hit>
    requires body { IsSolidBox body.now }
    requires solid { All IsSolidObstacle obstacles.now }
    requires ascend { AllPairs (λ a b. a.index < b.index) obstacles.now }
    ensures { IsFirstHit (λ obstacle. obstacle.index) IsPieceMet
        (box_pieces job.now Fourth body.now) obstacles.now result }
{
    if is_apart(body, obstacles) {
        return None;
    }
    let mut pieces = ArrayVec::new();
    begin_pieces(job, Sweep::Fourth, body, &mut pieces);
    first_hit(pieces.as_slice(), obstacles)
}

/// Whether no obstacle lies where the box does along the bed.
fn is_apart(body: &PoseBox, obstacles: &[Obstacle]) -> bool
    ensures { IsTrue result ↔ AreApart body.now obstacles.now }
{
    for obstacle in obstacles {
        if is_along(body, obstacle) {
            return false;
        }
    }
    true
}

/// Whether the ranges of the box and the obstacle along the bed share an interior point.
fn is_along(body: &PoseBox, obstacle: &Obstacle) -> bool
    ensures { result ≡ is_along body.now obstacle.now }
{
    is_overlap((body.body.lo.x, body.body.hi.x), (obstacle.x0, obstacle.x1))
}

/// Puts the boxes of the front half as obstacles of the back half, where there are none yet.
pub(crate) fn put_front_obstacles(
    job: &Job,
    boxes: &[PoseBox],
    obstacles: &mut ArrayVec<Obstacle, 25>,
)
    requires boxes { AreSolidBoxes boxes.now }
    requires none { obstacles.old.items ≡ [] }
    ensures value { obstacles.new.items ≡ front_obstacles job.now boxes.now }
{
    for body in boxes {
        put_front_obstacle(job, body, obstacles);
    }
}

/// Puts a box, where it is of the front half.
fn put_front_obstacle(job: &Job, body: &PoseBox, obstacles: &mut ArrayVec<Obstacle, 25>)
    requires solid { IsSolidBox body.now }
    requires room { length obstacles.old.items + 1 ≤ 25 }
    ensures value { obstacles.new.items
        ≡ obstacles.old.items ++ if_front body.now.half (front_obstacle job.now body.now ∷ []) }
    ensures few { length obstacles.new.items ≤ length obstacles.old.items + 1 }
{
    match body.half {
        Half::Back => {}
        Half::Front => obstacles.push(front_obstacle(job, body)),
    }
}

/// A box of the front half as an obstacle: widened as the back half is, and not mirrored.
pub(crate) fn front_obstacle(job: &Job, body: &PoseBox) -> Obstacle
    requires solid { IsSolidBox body.now }
    ensures { result ≡ front_obstacle job.now body.now }
{
    Obstacle {
        index: body.id,
        x0: body.body.lo.x,
        x1: body.body.hi.x,
        rect: widened(across(&body.body), widening(job)),
        group: Group::Upper,
    }
}
