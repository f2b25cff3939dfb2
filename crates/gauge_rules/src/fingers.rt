//! The fingers against the edges of two faces.
ghost use Rattle.std.specs.Prelude.{◌≡◌, ◌↔◌, ◌-ℤ◌, ◌≤ℤ◌, IsTrue, All};
ghost use Rattle.brake_base.specs.Boxes.{ShareInterior};
ghost use Rattle.machine_file.specs.Machine.{IsGaugeRule};
ghost use Rattle.fold_boxes.specs.Pose.{pose_data};
ghost use Rattle.fold_boxes.specs.Posing.{IsNearPoseBox};
ghost use Rattle.job_setup.specs.LegalGauge.{far_edge, left_finger, right_finger, finger_box, IsFingerFree, HasEdge, HasRoom, AreInReach, AreFree, IsPair};

use brake_base::{Box3, V3, overlap};
use fold_boxes::{Pose, PoseBox};
use job_setup::Job;
use machine_file::GaugeRule;

/// Whether the fingers can stand against the far edges of the two faces.
pub(crate) fn is_pair(job: &Job, pose: &Pose, left: &PoseBox, right: &PoseBox) -> bool
    requires left { IsNearPoseBox left.now }
    requires right { IsNearPoseBox right.now }
    ensures { IsTrue result
        ↔ IsPair job.now.setup.gauge job.now.part.thickness
        (pose_data pose.now) left.now right.now }
{
    let rule = gauge_rule(job);
    are_in_reach(rule, left, right) && are_free(job, pose, left, right)
}

/// Whether both faces end at one edge within reach, where there is room for both fingers.
fn are_in_reach(rule: &GaugeRule, left: &PoseBox, right: &PoseBox) -> bool
    requires rule { IsGaugeRule rule.now }
    requires left { IsNearPoseBox left.now }
    requires right { IsNearPoseBox right.now }
    ensures { IsTrue result ↔ AreInReach rule.now left.now right.now }
{
    has_edge(rule, left, right) && has_room(rule, left, right)
}

/// The rule of the machine's gauge.
fn gauge_rule(job: &Job) -> &GaugeRule
    ensures value { result.now ≡ job.now.setup.gauge }
    ensures rule { IsGaugeRule result.now }
{
    &job.setup().gauge
}

/// Whether both faces end at one edge, which the gauge reaches.
fn has_edge(rule: &GaugeRule, left: &PoseBox, right: &PoseBox) -> bool
    ensures { IsTrue result ↔ HasEdge rule.now left.now right.now }
{
    let edge = left.body.hi.y;
    right.body.hi.y == edge && rule.near <= edge && edge <= rule.far
}

/// Whether each finger stands within its face's edge, and they are far enough apart.
fn has_room(rule: &GaugeRule, left: &PoseBox, right: &PoseBox) -> bool
    requires rule { IsGaugeRule rule.now }
    requires left { IsNearPoseBox left.now }
    requires right { IsNearPoseBox right.now }
    ensures { IsTrue result ↔ HasRoom rule.now left.now right.now }
{
    is_left_within(rule, left) && is_right_within(rule, right) && are_apart(rule, left, right)
}

/// Whether the left finger ends within its face's edge.
fn is_left_within(rule: &GaugeRule, left: &PoseBox) -> bool
    requires rule { IsGaugeRule rule.now }
    requires left { IsNearPoseBox left.now }
    ensures { IsTrue result ↔ ((left_finger rule.now left.now).1 ≤ℤ left.now.body.hi.x) }
{
    left_finger(rule, left).1 <= left.body.hi.x
}

/// Whether the right finger begins within its face's edge.
fn is_right_within(rule: &GaugeRule, right: &PoseBox) -> bool
    requires rule { IsGaugeRule rule.now }
    requires right { IsNearPoseBox right.now }
    ensures { IsTrue result ↔ (right.now.body.lo.x ≤ℤ (right_finger rule.now right.now).0) }
{
    right.body.lo.x <= right_finger(rule, right).0
}

/// Whether the fingers are far enough apart.
fn are_apart(rule: &GaugeRule, left: &PoseBox, right: &PoseBox) -> bool
    requires rule { IsGaugeRule rule.now }
    requires left { IsNearPoseBox left.now }
    requires right { IsNearPoseBox right.now }
    ensures { IsTrue result
        ↔ (rule.now.gap ≤ℤ
        ((right_finger rule.now right.now).0 -ℤ (left_finger rule.now left.now).1)) }
{
    rule.gap <= right_finger(rule, right).0 - left_finger(rule, left).1
}

/// Whether neither finger shares an interior point with the part.
fn are_free(job: &Job, pose: &Pose, left: &PoseBox, right: &PoseBox) -> bool
    requires left { IsNearPoseBox left.now }
    requires right { IsNearPoseBox right.now }
    ensures { IsTrue result
        ↔ AreFree job.now.setup.gauge job.now.part.thickness
        (pose_data pose.now) left.now right.now }
{
    is_left_free(job, pose, left) && is_right_free(job, pose, left, right)
}

/// Whether the left finger shares no interior point with the part.
fn is_left_free(job: &Job, pose: &Pose, left: &PoseBox) -> bool
    requires left { IsNearPoseBox left.now }
    ensures { IsTrue result
        ↔ IsFingerFree (pose_data pose.now)
        (finger_box job.now.setup.gauge job.now.part.thickness (far_edge left.now)
        (left_finger job.now.setup.gauge left.now)) }
{
    let range = left_finger(gauge_rule(job), left);
    is_free(pose, &finger_box(job, left, range))
}

/// Whether the right finger shares none, where the left face ends.
fn is_right_free(job: &Job, pose: &Pose, left: &PoseBox, right: &PoseBox) -> bool
    requires left { IsNearPoseBox left.now }
    requires right { IsNearPoseBox right.now }
    ensures { IsTrue result
        ↔ IsFingerFree (pose_data pose.now)
        (finger_box job.now.setup.gauge job.now.part.thickness (far_edge left.now)
        (right_finger job.now.setup.gauge right.now)) }
{
    let range = right_finger(gauge_rule(job), right);
    is_free(pose, &finger_box(job, left, range))
}

/// The range of the left finger along the bed: an inset from the left end of its face.
pub fn left_finger(rule: &GaugeRule, face: &PoseBox) -> (i64, i64)
    requires rule { IsGaugeRule rule.now }
    requires face { IsNearPoseBox face.now }
    ensures { result ≡ left_finger rule.now face.now }
{
    let from = face.body.lo.x + rule.inset;
    (from, from + rule.finger)
}

/// That of the right finger: an inset from the right end of its face.
pub fn right_finger(rule: &GaugeRule, face: &PoseBox) -> (i64, i64)
    requires rule { IsGaugeRule rule.now }
    requires face { IsNearPoseBox face.now }
    ensures { result ≡ right_finger rule.now face.now }
{
    let to = face.body.hi.x - rule.inset;
    (to - rule.finger, to)
}

/// The box that a finger with this range fills behind the far edge of the face.
pub fn finger_box(job: &Job, face: &PoseBox, range: (i64, i64)) -> Box3
    requires face { IsNearPoseBox face.now }
    ensures { result ≡ finger_box job.now.setup.gauge job.now.part.thickness
        (far_edge face.now) range }
{
    let edge = face.body.hi.y;
    let rule = &job.setup().gauge;
    Box3 {
        lo: V3 {
            x: range.0,
            y: edge,
            z: -job.part().thickness - rule.below,
        },
        hi: V3 {
            x: range.1,
            y: edge + rule.depth,
            z: rule.above,
        },
    }
}

/// Whether the box shares no interior point with a box of the part.
fn is_free(pose: &Pose, finger: &Box3) -> bool
    ensures { IsTrue result ↔ IsFingerFree (pose_data pose.now) finger.now }
{
    pose.boxes.iter().all(|part_box| is_apart(finger, part_box))
}

/// Whether the finger's box and the part's share no interior point.
#[tactic(auto, using(crate::proofs::Small::not_iff))]
fn is_apart(finger: &Box3, part_box: &PoseBox) -> bool
    ensures { IsTrue result ↔ (ShareInterior finger.now part_box.now.body → ⊥) }
{
    !overlap(finger, &part_box.body)
}
