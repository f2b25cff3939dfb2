//! The drawing of a stroke.
ghost use Rattle.std.specs.Prelude.{◌≡◌, ◌^◌, ◌≤◌, unsigned_abs};
ghost use Rattle.brake_base.specs.Masks.{has};
ghost use Rattle.fold_boxes.specs.Pose.{pose_data};
ghost use Rattle.handling_cost.specs.Plan.{pose_before};
ghost use Rattle.handling_cost.specs.StepCost.{IsActionAt};
ghost use Rattle.sheet_views.specs.Drawing.{bend_line, drawing_data, drawing_of};
ghost use Rattle.sheet_views.specs.Near.{IsNearDrawing};

use crate::part_views::{DrawnBoxes, boxes_after, boxes_before};
use brake_base::{Action, Key};
use fold_boxes::{Pose, span, start_of_span};
use handling_cost::pose_before;
use job_setup::Job;

/// A stroke as it is drawn: the part on the machine, the ends of the bend line along the bed, and
/// the boxes of the part before the stroke and after it.
#[derive(Debug, Drop)]
pub struct Drawing {
    pub pose: Pose,
    pub line: (i64, i64),
    pub before: DrawnBoxes,
    pub after: DrawnBoxes,
}

/// The drawing of an action at a key.
pub fn drawing_of(job: &Job, key: &Key, action: Action) -> Drawing
    requires { IsActionAt job.now key.now action }
    ensures value { drawing_data result ≡ drawing_of job.now key.now.mask action }
    ensures near { IsNearDrawing (drawing_data result) }
{
    let pose = pose_before(job, key, action);
    let line = bend_line(job, key, action, &pose);
    let before = boxes_before(job, key, action, &pose);
    let after = boxes_after(job, key, action, &pose);
    Drawing {
        pose,
        line,
        before,
        after,
    }
}

/// The ends of the bend line along the bed.
fn bend_line(job: &Job, key: &Key, action: Action, pose: &Pose) -> (i64, i64)
    requires action { IsActionAt job.now key.now action }
    requires pose { pose_data pose.now ≡ pose_before job.now key.now.mask action }
    ensures value { result ≡ bend_line job.now key.now.mask action }
    ensures from { unsigned_abs result.0 ≤ 2 ^ 40 }
    ensures to { unsigned_abs result.1 ≤ 2 ^ 40 }
{
    let lines = span(job.shape(), pose.group);
    let (x0, x1) = job.stage_range(action.stage);
    let from = start_of_span(lines, x0, x1);
    (from, from + (lines.1 - lines.0))
}
