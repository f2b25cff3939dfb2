//! Whether a reason that is stated holds against an action.
ghost use Rattle.std.specs.Prelude.{false, ◌≡◌, ◌≢◌, ◌↔◌, ◌<◌, ◌≤◌, length, IsTrue, Some};
ghost use Rattle.brake_base.specs.declared.reason.Reason.TheVariants.{NoGauge};
ghost use Rattle.brake_base.specs.Masks.{has};
ghost use Rattle.fold_boxes.specs.Places.{ArePlaces};
ghost use Rattle.job_setup.specs.Setup.{shape_of};
ghost use Rattle.job_setup.specs.StrokeGroup.{group_of};
ghost use Rattle.handling_cost.specs.Plan.{IsReasonFor};
ghost use Rattle.stroke_table.specs.Strokes.{IsFirstAt};

use crate::finding::{find_gauge, pose_at, stroke_group};
use brake_base::{Action, Mask, Place, Reason};
use job_setup::Job;
use sweep_check::holds;

/// Whether a reason of any kind holds against an action, whose first reason is known: that holds, and
/// none before it does.
pub(crate) fn holds_by(
    job: &Job,
    places: &[Place],
    mask: Mask,
    action: Action,
    reason: Reason,
    first: Reason,
) -> bool
    requires count { length places.now ≡ length job.now.part.faces }
    requires places { ArePlaces (shape_of job.now) mask places.now }
    requires first { 1 ≤ action.bend }
    requires last { action.bend < length job.now.part.faces }
    requires flat { has mask action.bend ≡ false }
    requires stage { action.stage < length job.now.setup.stages }
    requires reason { IsFirstAt job.now mask (group_of job.now mask action.bend) action.back
        action.stage (Some first) }
    ensures { IsTrue result ↔ IsReasonFor job.now mask action reason }
{
    if is_same(first, reason) {
        true
    } else if reason.is_before(first) {
        false
    } else {
        holds_anew(job, places, mask, action, reason)
    }
}

/// Whether both reasons are one.
fn is_same(first: Reason, second: Reason) -> bool
    ensures { IsTrue result ↔ (first ≡ second) }
{
    first == second
}

/// Whether a reason of any kind holds against an action.
fn holds_anew(job: &Job, places: &[Place], mask: Mask, action: Action, reason: Reason) -> bool
    requires count { length places.now ≡ length job.now.part.faces }
    requires places { ArePlaces (shape_of job.now) mask places.now }
    requires first { 1 ≤ action.bend }
    requires last { action.bend < length job.now.part.faces }
    requires flat { has mask action.bend ≡ false }
    requires stage { action.stage < length job.now.setup.stages }
    ensures { IsTrue result ↔ IsReasonFor job.now mask action reason }
{
    match reason {
        Reason::NoGauge => lacks_gauge(job, places, mask, action),
        other => holds_at(job, places, mask, action, other),
    }
}

/// Whether no pair of faces is legal in the stroke of an action.
fn lacks_gauge(job: &Job, places: &[Place], mask: Mask, action: Action) -> bool
    requires count { length places.now ≡ length job.now.part.faces }
    requires places { ArePlaces (shape_of job.now) mask places.now }
    requires first { 1 ≤ action.bend }
    requires last { action.bend < length job.now.part.faces }
    requires flat { has mask action.bend ≡ false }
    requires stage { action.stage < length job.now.setup.stages }
    ensures { IsTrue result ↔ IsReasonFor job.now mask action NoGauge }
{
    find_gauge(job, places, mask, action.bend, action.back).is_none()
}

/// Whether a reason other than NoGauge holds against an action.
fn holds_at(job: &Job, places: &[Place], mask: Mask, action: Action, reason: Reason) -> bool
    requires count { length places.now ≡ length job.now.part.faces }
    requires places { ArePlaces (shape_of job.now) mask places.now }
    requires first { 1 ≤ action.bend }
    requires last { action.bend < length job.now.part.faces }
    requires flat { has mask action.bend ≡ false }
    requires stage { action.stage < length job.now.setup.stages }
    requires other { reason ≢ NoGauge }
    ensures { IsTrue result ↔ IsReasonFor job.now mask action reason }
{
    let group = stroke_group(job, mask, action.bend);
    let pose = pose_at(job, places, mask, group, action.back, action.stage);
    holds(job, &pose, action.stage, reason)
}
