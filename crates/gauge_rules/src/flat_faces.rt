//! The faces against whose edges a finger may stand.
ghost use Rattle.std.specs.Prelude.{◌≡◌, ◌↔◌, pos, neg_ℤ, IsTrue};
ghost use Rattle.brake_base.specs.Turns.{turn_of};
ghost use Rattle.fold_boxes.specs.Pose.{pose_data};
ghost use Rattle.job_setup.specs.LegalGauge.{IsLevel, IsLevelFace, FillsTheSheet, IsFlatFace};

use brake_base::{Half, Turn};
use fold_boxes::{Pose, PoseBox};
use job_setup::Job;

/// Whether the box is that of this face, of the back half, and lies in the sheet's plane.
pub(crate) fn is_flat_face(job: &Job, pose: &Pose, face: u8, part_box: &PoseBox) -> bool
    ensures { IsTrue result
        ↔ IsFlatFace job.now.part.thickness (pose_data pose.now) face part_box.now }
{
    part_box.id == face
        && part_box.half == Half::Back
        && is_level_face(pose, face)
        && fills_the_sheet(job, part_box)
}

/// Whether the face is there, and its place takes z to z or to -z.
fn is_level_face(pose: &Pose, face: u8) -> bool
    ensures { IsTrue result ↔ IsLevelFace (pose_data pose.now) face }
{
    match pose.places.as_slice().get(usize::from(face)) {
        Some(place) => is_level(place.turn),
        None => false,
    }
}

/// Whether the turn takes z to z, or to -z.
fn is_level(turn: Turn) -> bool
    ensures { IsTrue result ↔ IsLevel (turn_of turn) }
{
    turn.number() < 8
}

/// Whether the box fills z from as far below 0 as the sheet is thick up to 0.
fn fills_the_sheet(job: &Job, part_box: &PoseBox) -> bool
    ensures { IsTrue result ↔ FillsTheSheet job.now.part.thickness part_box.now }
{
    is_bottom(job, part_box) && is_top(part_box)
}

/// Whether the box begins as far below 0 as the sheet is thick.
fn is_bottom(job: &Job, part_box: &PoseBox) -> bool
    ensures { IsTrue result ↔ (part_box.now.body.lo.z ≡ neg_ℤ job.now.part.thickness) }
{
    part_box.body.lo.z == lower_surface(job)
}

/// Whether the box ends at 0.
fn is_top(part_box: &PoseBox) -> bool
    ensures { IsTrue result ↔ (part_box.now.body.hi.z ≡ pos 0) }
{
    part_box.body.hi.z == 0
}

/// Where the lower surface of the sheet lies.
fn lower_surface(job: &Job) -> i64
    ensures { result ≡ neg_ℤ job.now.part.thickness }
{
    -job.part().thickness
}
