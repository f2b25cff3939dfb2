//! The stop fingers.
ghost use Rattle.std.specs.Prelude.{◌≡◌, ◌<◌, All, length};
ghost use Rattle.machine_file.specs.Machine.{IsGaugeRule};
ghost use Rattle.fold_boxes.specs.Pose.{pose_data};
ghost use Rattle.fold_boxes.specs.Posing.{IsNearPoseBox};
ghost use Rattle.sheet_views.specs.Fingers.{fingers_against, AreFingers};
ghost use Rattle.sheet_views.specs.Near.{IsNearFingers};

use brake_base::{Box3, Gauge};
use fold_boxes::{Pose, PoseBox};
use gauge_rules::{finger_box, left_finger, right_finger};
use job_setup::Job;
use machine_file::GaugeRule;

/// How far behind the bend line the stop fingers stand, in micrometres, and the boxes that they fill.
#[derive(Clone, Copy, Debug, Default, PartialEq, Eq)]
pub struct Fingers {
    pub edge: i64,
    pub left: Box3,
    pub right: Box3,
}

/// The fingers of a gauge: against the edges of its two faces, where the left one ends.
pub fn fingers_at(job: &Job, pose: &Pose, gauge: Gauge) -> Fingers
    requires left { gauge.left_face < length pose.now.boxes.items }
    requires right { gauge.right_face < length pose.now.boxes.items }
    requires near { All IsNearPoseBox pose.now.boxes.items }
    ensures value { AreFingers job.now (pose_data pose.now) gauge result }
    ensures near { IsNearFingers result }
{
    let boxes = pose.boxes.as_slice();
    let left = &boxes[usize::from(gauge.left_face)];
    let right = &boxes[usize::from(gauge.right_face)];
    fingers_against(job, left, right)
}

/// The fingers against the edges of two boxes.
fn fingers_against(job: &Job, left: &PoseBox, right: &PoseBox) -> Fingers
    requires left { IsNearPoseBox left.now }
    requires right { IsNearPoseBox right.now }
    ensures value { result ≡ fingers_against job.now left.now right.now }
    ensures near { IsNearFingers result }
{
    job.recall_valid();
    let rule = gauge_rule(job);
    Fingers {
        edge: left.body.hi.y,
        left: finger_box(job, left, left_finger(rule, left)),
        right: finger_box(job, left, right_finger(rule, right)),
    }
}

/// The rule of the machine's gauge.
fn gauge_rule(job: &Job) -> &GaugeRule
    ensures value { result.now ≡ job.now.setup.gauge }
    ensures rule { IsGaugeRule result.now }
{
    &job.setup().gauge
}
