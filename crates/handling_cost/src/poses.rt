//! The part on the machine before a stroke.
ghost use Rattle.std.specs.Prelude.{◌≡◌, ◌≤◌, All, length};
ghost use Rattle.fold_boxes.specs.Pose.{pose_data};
ghost use Rattle.fold_boxes.specs.Posing.{IsNearPoseBox};
ghost use Rattle.job_setup.specs.ValidJob.{IsJob};
ghost use Rattle.handling_cost.specs.StepCost.{IsActionAt};
ghost use Rattle.handling_cost.specs.Plan.{pose_before};

use brake_base::{Action, Key};
use fold_boxes::{Pose, pose};
use job_setup::{Job, group};

/// The part on the machine before the stroke of an action at a key: the span of the action's group
/// lies in the middle of its stage.
pub fn pose_before(job: &Job, key: &Key, action: Action) -> Pose
    requires { IsActionAt job.now key.now action }
    ensures value { pose_data result ≡ pose_before job.now key.now.mask action }
    ensures near { All IsNearPoseBox result.boxes.items }
    ensures faces { length job.now.part.faces ≤ length result.boxes.items }
    ensures valid { IsJob job.now }
{
    let group = group(job, key.mask, action.bend);
    let (x0, x1) = job.stage_range(action.stage);
    pose(job.shape(), key.mask, group, action.back, x0, x1)
}
