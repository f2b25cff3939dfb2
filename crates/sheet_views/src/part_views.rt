//! The boxes of the part in the views of a stroke.
ghost use Rattle.std.specs.Prelude.{◌≡◌, ◌^◌, ◌<◌, ◌≤◌, All, length, slice_index_or};
ghost use Rattle.brake_base.specs.Masks.{has};
ghost use Rattle.brake_base.specs.Vectors.{IsWithin};
ghost use Rattle.brake_base.specs.Turns.{map_of, stay};
ghost use Rattle.brake_base.specs.Boxes.{IsBoxWithin};
ghost use Rattle.fold_boxes.specs.Folded.{IsBoxId};
ghost use Rattle.fold_boxes.specs.Posing.{IsNearPoseBox};
ghost use Rattle.fold_boxes.specs.Pose.{pose_data, face_of_box};
ghost use Rattle.handling_cost.specs.Plan.{pose_before};
ghost use Rattle.handling_cost.specs.StepCost.{IsActionAt};
ghost use Rattle.sheet_views.specs.Drawing.{boxes_before, boxes_after};
ghost use Rattle.sheet_views.specs.Marked.{marked, marked_before, marked_after};
ghost use Rattle.sheet_views.specs.Near.{AreNearBoxes};

use crate::stations::is_overlap;
use arrayvec::ArrayVec;
use brake_base::{Action, Box3, Key, Mask, Place};
use fold_boxes::{PartBox, Pose, PoseBox, boxes, faces_beyond};
use job_setup::Job;

/// A box of the part: its number, whether it moves with the flange, and whether it is in line with
/// the tools, that is shares x with the station in use.
#[derive(Clone, Copy, Debug, Default, PartialEq, Eq)]
pub struct DrawnBox {
    pub id: u8,
    pub body: Box3,
    pub moves: bool,
    pub in_line: bool,
}

/// The boxes of a view, ascending by their numbers.
pub type DrawnBoxes = ArrayVec<DrawnBox, 25>;

/// The boxes of the part before the stroke, as the pose has them.
pub(crate) fn boxes_before(job: &Job, key: &Key, action: Action, pose: &Pose) -> DrawnBoxes
    requires action { IsActionAt job.now key.now action }
    requires pose { pose_data pose.now ≡ pose_before job.now key.now.mask action }
    requires near { All IsNearPoseBox pose.now.boxes.items }
    ensures value { result.items ≡ boxes_before job.now key.now.mask action }
    ensures near { AreNearBoxes result.items }
{
    let beyond = faces_beyond(job.shape(), pose.group);
    marked_before(pose, beyond, pose.boxes.as_slice())
}

/// The boxes of the part after the stroke, with face 0 where it lies in the pose.
pub(crate) fn boxes_after(job: &Job, key: &Key, action: Action, pose: &Pose) -> DrawnBoxes
    requires action { IsActionAt job.now key.now action }
    requires pose { pose_data pose.now ≡ pose_before job.now key.now.mask action }
    requires near { All IsNearPoseBox pose.now.boxes.items }
    ensures value { result.items ≡ boxes_after job.now key.now.mask action }
    ensures near { AreNearBoxes result.items }
{
    let shape = job.shape();
    let beyond = faces_beyond(shape, pose.group);
    let folded = boxes(shape, key.mask.union(pose.group));
    marked_after(
        pose,
        beyond,
        face_0(job, key, action, pose),
        folded.as_slice(),
    )
}

/// Where face 0 lies in the pose.
fn face_0<'a>(job: &Job, key: &Key, action: Action, pose: &'a Pose) -> &'a Place
    requires action { IsActionAt job.now key.now action }
    requires pose { pose_data pose.now ≡ pose_before job.now key.now.mask action }
    requires near { All IsNearPoseBox pose.now.boxes.items }
    ensures value { map_of result.now ≡ slice_index_or (pose_before job.now key.now.mask action).places 0 stay }
    ensures near { IsWithin (2 ^ 39) result.now.at }
{
    job.recall_valid();
    &pose.places.as_slice()[0]
}

/// The boxes of a pose, marked by the faces that move.
fn marked_before(pose: &Pose, beyond: Mask, boxes: &[PoseBox]) -> DrawnBoxes
    requires ids { All (λ b. b.id ≤ 24) boxes.now }
    requires few { length boxes.now ≤ 25 }
    ensures { result.items ≡ marked_before (has beyond) (pose_data pose.now) boxes.now }
{
    let mut drawn = ArrayVec::new();
    for pose_box in boxes {
        drawn.push(marked(pose, beyond, pose_box.id, &pose_box.body));
    }
    drawn
}

/// The boxes of the part under a map, marked by the faces that move.
fn marked_after(pose: &Pose, beyond: Mask, place: &Place, boxes: &[PartBox]) -> DrawnBoxes
    requires place { IsWithin (2 ^ 39) place.now.at }
    requires near { All (λ b. IsBoxWithin (2 ^ 39) b.body) boxes.now }
    requires ids { All IsBoxId boxes.now }
    requires few { length boxes.now ≤ 25 }
    ensures value { result.items
        ≡ marked_after (has beyond) (pose_data pose.now) (map_of place.now) boxes.now }
    ensures near { AreNearBoxes result.items }
{
    let mut drawn = ArrayVec::new();
    for part_box in boxes {
        let body = place.map_box(part_box.body);
        drawn.push(marked(pose, beyond, part_box.id, &body));
    }
    drawn
}

/// A box, marked by the faces that move.
fn marked(pose: &Pose, beyond: Mask, id: u8, body: &Box3) -> DrawnBox
    requires { id ≤ 24 }
    ensures { result ≡ marked (has beyond) (pose_data pose.now) id body.now }
{
    DrawnBox {
        id,
        body: *body,
        moves: is_moved(beyond, id),
        in_line: is_overlap((body.lo.x, body.hi.x), (pose.x0, pose.x1)),
    }
}

/// Whether the face of a box is among those that move.
fn is_moved(beyond: Mask, id: u8) -> bool
    requires { id ≤ 24 }
    ensures { result ≡ has beyond (face_of_box id) }
{
    let face = face_of_box(id);
    face > 0 && beyond.contains(face)
}

/// The face with which a box moves: its own, or for a corner the child of its bend.
fn face_of_box(id: u8) -> u8
    requires { id ≤ 24 }
    ensures value { result ≡ face_of_box id }
    ensures few { result ≤ 12 }
{
    if id <= 12 { id } else { id - 12 }
}
