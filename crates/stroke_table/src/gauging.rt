//! The first legal pair of a stroke, looked for among the boxes that lie as high as the sheet.
ghost use Rattle.std.specs.Prelude.{◌≡◌, ◌↔◌, ◌<◌, ◌≤ℤ◌, IsTrue, All, Any, AllPairs};
ghost use Rattle.fold_boxes.specs.Pose.{pose_data};
ghost use Rattle.fold_boxes.specs.Posing.{IsNearPoseBox};
ghost use Rattle.gauge_rules.specs.Pairs.{IsFirstLegal};
ghost use Rattle.sweep_check.specs.Hits.{IsLeastNumber};
ghost use Rattle.stroke_table.specs.Gauging.{MakesPair, IsAtTop, MayBeLeft, MayBeRight};

use brake_base::{Gauge, Half};
use fold_boxes::{Pose, PoseBox};
use gauge_rules::are_legal;
use job_setup::Job;

/// The first legal pair of a pose in the order of its left face, then of its right one, from the
/// pose's boxes. None exactly where no pair is legal.
pub(crate) fn first_pair(job: &Job, pose: &Pose, boxes: &[PoseBox]) -> Option<Gauge>
    requires boxes { boxes.now ≡ pose.now.boxes.items }
    requires near { All IsNearPoseBox pose.now.boxes.items }
    requires ascend { AllPairs (λ a b. a.id < b.id) boxes.now }
    ensures { IsFirstLegal job.now (pose_data pose.now) result }
{
    for left in boxes {
        if let Some(right_face) = first_right(job, pose, boxes, left) {
            return Some(Gauge {
                left_face: left.id,
                right_face,
            });
        }
    }
    None
}

/// The first face that makes a legal pair with the face of a box on its left.
fn first_right(job: &Job, pose: &Pose, boxes: &[PoseBox], left: &PoseBox) -> Option<u8>
    requires boxes { boxes.now ≡ pose.now.boxes.items }
    requires near { All IsNearPoseBox pose.now.boxes.items }
    requires ascend { AllPairs (λ a b. a.id < b.id) boxes.now }
    requires left { Any (λ body. body ≡ left.now) boxes.now }
    ensures { IsLeastNumber (λ body. body.id)
        (MakesPair job.now (pose_data pose.now) left.now) boxes.now result }
{
    if !may_be_left(job, left) {
        return None;
    }
    for right in boxes {
        if is_pair(job, pose, boxes, left, right) {
            return Some(right.id);
        }
    }
    None
}

/// Whether the faces of two boxes make a legal pair. The cheap test comes first.
fn is_pair(job: &Job, pose: &Pose, boxes: &[PoseBox], left: &PoseBox, right: &PoseBox) -> bool
    requires boxes { boxes.now ≡ pose.now.boxes.items }
    requires near { All IsNearPoseBox pose.now.boxes.items }
    requires ascend { AllPairs (λ a b. a.id < b.id) boxes.now }
    requires left { Any (λ body. body ≡ left.now) boxes.now }
    requires right { Any (λ body. body ≡ right.now) boxes.now }
    ensures { IsTrue result ↔ MakesPair job.now (pose_data pose.now) left.now right.now }
{
    may_be_right(left, right) && are_legal(job, pose, left, right)
}

/// Whether the box lies as high as the sheet in the back half, and isn't too near for the gauge.
fn may_be_left(job: &Job, left: &PoseBox) -> bool
    ensures { IsTrue result ↔ MayBeLeft job.now.setup.gauge left.now }
{
    is_at_top(left) && is_far_enough(job, left)
}

/// Whether the box ends no nearer to the bend line than the gauge comes.
fn is_far_enough(job: &Job, body: &PoseBox) -> bool
    ensures { IsTrue result ↔ (job.now.setup.gauge.near ≤ℤ body.now.body.hi.y) }
{
    job.setup().gauge.near <= body.body.hi.y
}

/// Whether the right box lies as high as the sheet in the back half, and ends at the left one's edge.
fn may_be_right(left: &PoseBox, right: &PoseBox) -> bool
    ensures { IsTrue result ↔ MayBeRight left.now right.now }
{
    is_same_edge(left, right) && is_at_top(right)
}

/// Whether both boxes end at one edge.
fn is_same_edge(left: &PoseBox, right: &PoseBox) -> bool
    ensures { IsTrue result ↔ (right.now.body.hi.y ≡ left.now.body.hi.y) }
{
    right.body.hi.y == left.body.hi.y
}

/// Whether the box is of the back half, and ends where the sheet's upper surface lies.
fn is_at_top(body: &PoseBox) -> bool
    ensures { IsTrue result ↔ IsAtTop body.now }
{
    body.half == Half::Back && body.body.hi.z == 0
}
