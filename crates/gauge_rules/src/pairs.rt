//! The legal pairs of faces.
ghost use Rattle.std.specs.Prelude.{◌≡◌, ◌↔◌, IsTrue, IsNone, All, length};
ghost use Rattle.fold_boxes.specs.Pose.{pose_data};
ghost use Rattle.fold_boxes.specs.Posing.{IsNearPoseBox};
ghost use Rattle.job_setup.specs.LegalGauge.{IsLeftOfPair, IsLegalPair, LacksGauge};
ghost use Rattle.gauge_rules.specs.Pairs.{AreLegalBoxes, HasFlatFace, IsFirstLegal, IsFirstWith};

use crate::fingers::is_pair;
use crate::flat_faces::is_flat_face;
use brake_base::Gauge;
use fold_boxes::{Pose, PoseBox};
use job_setup::Job;

/// Whether the fingers may stand against this pair of faces: both lie in the sheet's plane in the
/// back half with one far edge within the gauge's reach, each finger stands within its face's edge,
/// they are far enough apart, and neither shares an interior point with the part.
pub fn legal(job: &Job, pose: &Pose, gauge: Gauge) -> bool
    requires near { All IsNearPoseBox pose.now.boxes.items }
    ensures { IsTrue result ↔ IsLegalPair job.now (pose_data pose.now) gauge }
{
    pose.boxes
        .iter()
        .any(|left| is_left_of_pair(job, pose, gauge, left))
}

/// Whether this box is the left one of a pair.
fn is_left_of_pair(job: &Job, pose: &Pose, gauge: Gauge, left: &PoseBox) -> bool
    requires near { All IsNearPoseBox pose.now.boxes.items }
    requires left { IsNearPoseBox left.now }
    ensures { IsTrue result ↔ IsLeftOfPair job.now (pose_data pose.now) gauge left.now }
{
    is_flat_face(job, pose, gauge.left_face, left)
        && pose.boxes.iter().any(|right| {
            is_flat_face(job, pose, gauge.right_face, right) && is_pair(job, pose, left, right)
        })
}

/// The same of the faces whose boxes these are.
pub fn are_legal(job: &Job, pose: &Pose, left: &PoseBox, right: &PoseBox) -> bool
    requires left { IsNearPoseBox left.now }
    requires right { IsNearPoseBox right.now }
    ensures { IsTrue result ↔ AreLegalBoxes job.now (pose_data pose.now) left.now right.now }
{
    is_flat_face(job, pose, left.id, left)
        && is_flat_face(job, pose, right.id, right)
        && is_pair(job, pose, left, right)
}

/// The first legal pair in the order of its left face, then of its right one. None exactly where no
/// pair is legal, which is the reason NoGauge.
pub fn first_legal(job: &Job, pose: &Pose) -> Option<Gauge>
    requires near { All IsNearPoseBox pose.now.boxes.items }
    ensures first { IsFirstLegal job.now (pose_data pose.now) result }
    ensures none { IsNone result ↔ LacksGauge job.now (pose_data pose.now) }
{
    for left_face in 0..face_count(pose) {
        if let Some(gauge) = first_with(job, pose, left_face) {
            return Some(gauge);
        }
    }
    None
}

/// The first legal pair of those with this left face.
fn first_with(job: &Job, pose: &Pose, left_face: u8) -> Option<Gauge>
    requires near { All IsNearPoseBox pose.now.boxes.items }
    ensures { IsFirstWith job.now (pose_data pose.now) left_face result }
{
    if !is_some_flat_face(job, pose, left_face) {
        return None;
    }
    for right_face in 0..face_count(pose) {
        let gauge = Gauge {
            left_face,
            right_face,
        };
        if legal(job, pose, gauge) {
            return Some(gauge);
        }
    }
    None
}

/// Whether the face lies in the sheet's plane in the back half.
fn is_some_flat_face(job: &Job, pose: &Pose, face: u8) -> bool
    ensures { IsTrue result ↔ HasFlatFace job.now (pose_data pose.now) face }
{
    pose.boxes
        .iter()
        .any(|part_box| is_flat_face(job, pose, face, part_box))
}

/// The number of the part's faces.
fn face_count(pose: &Pose) -> u8
    ensures { result ≡ length pose.now.places.items }
{
    pose.places.len() as u8
}
