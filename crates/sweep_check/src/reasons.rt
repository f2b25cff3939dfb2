//! Why a stroke is refused.
ghost use Rattle.std.specs.Prelude.{◌≢◌, ◌↔◌, IsTrue, IfNone};
ghost use Rattle.brake_base.specs.declared.reason.Reason.TheVariants.{NoGauge};
ghost use Rattle.fold_boxes.specs.Pose.{pose_data};
ghost use Rattle.job_setup.specs.Reasons.{IsPoseAt, IsReason};
ghost use Rattle.sweep_check.specs.FirstReasons.{IsFirstBeforeNoGauge};
ghost use Rattle.sweep_check.specs.SunkLaw.{IsSunkLaw};
ghost use Rattle.sweep_check.specs.MotionFree.{IsMotionFree};

use crate::kinds::first_of;
use crate::named::holds_with;
use crate::sides::back_of;
use brake_base::Reason;
use fold_boxes::Pose;
use job_setup::Job;

/// The first reason against a stroke in the order of reasons, of a kind other than NoGauge. None
/// exactly where no such reason holds. The pose is the job's at that stage.
pub fn first_reason(job: &Job, pose: &Pose, stage: u8) -> Option<Reason>
    requires pose { IsPoseAt job.now stage (pose_data pose.now) }
    ensures first { (stroke : IsPoseAt job.now stage (pose_data pose.now))
        → IsFirstBeforeNoGauge job.now stroke.mask stroke.group stroke.back stage result }

    // A piece never meets a sunk box against which it isn't tested.
    ensures sunk { IsSunkLaw job.now stage (pose_data pose.now) }

    // With no such reason the stroke is free: no point of the sheet is inside anything at any turn.
    ensures motion { IfNone result (IsMotionFree job.now stage (pose_data pose.now)) }
{
    job.recall_valid();
    let back = back_of(pose.boxes.as_slice(), pose.bend);
    first_of(job, pose, back, stage)
}

/// Whether the reason, which isn't NoGauge, holds against a stroke. A box, a quarter, an obstacle or a
/// stage that isn't there makes it false. The pose is the job's at that stage.
pub fn holds(job: &Job, pose: &Pose, stage: u8, reason: Reason) -> bool
    requires pose { IsPoseAt job.now stage (pose_data pose.now) }
    requires kind { reason ≢ NoGauge }
    ensures exact { (stroke : IsPoseAt job.now stage (pose_data pose.now))
        → (IsTrue result ↔ IsReason job.now stroke.mask stroke.group stroke.back stage reason) }
{
    job.recall_valid();
    let back = back_of(pose.boxes.as_slice(), pose.bend);
    holds_with(job, pose, back, stage, reason)
}
