//! The reasons against a stroke that don't depend on where the part lies.
ghost use Rattle.std.specs.Prelude.{◌≡◌, ◌<◌, ◌≤◌, ◌^◌, pos, ◌*ℤ◌, int_lt, unsigned_abs, not, ◌&&◌, ◌||◌, length};
ghost use Rattle.std.specs.Ordering.{int_eq};
ghost use Rattle.brake_base.specs.Masks.{has};
ghost use Rattle.job_setup.specs.Setup.{stage_data, shape_of};
ghost use Rattle.job_setup.specs.StageOf.{stage_of};
ghost use Rattle.job_setup.specs.ValidJob.{IsStageLoad};
ghost use Rattle.job_setup.specs.Reasons.{is_uncovered, lacks_rest, is_overloaded, lines_total};

use crate::job::Job;
use crate::setup::Stage;
use crate::strokes::{is_uncovered, lacks_rest, stage_at};
use brake_base::{Back, Mask};
use fold_boxes::{Shape, line_length};

/// Whether the span of a group is longer than the stage and what it may leave uncovered at either end.
pub fn is_uncovered_at(job: &Job, group: Mask, stage: u8) -> bool
    requires { stage < length job.now.setup.stages }
    ensures { result ≡ is_uncovered job.now (has group) (stage_of job.now stage) }
{
    is_uncovered(job, group, stage_at(job, stage))
}

/// Whether a core on this side of a group's lines is shorter than the least flange of the stage's die.
pub fn lacks_rest_at(job: &Job, group: Mask, side: Back, stage: u8) -> bool
    requires { stage < length job.now.setup.stages }
    ensures { result ≡ lacks_rest job.now (has group) side (stage_of job.now stage) }
{
    lacks_rest(job, group, side, stage_at(job, stage))
}

/// Whether a stroke of a group needs more than the stage's tools or the machine bear.
pub fn is_overloaded_at(job: &Job, group: Mask, stage: u8) -> bool
    requires { stage < length job.now.setup.stages }
    ensures { result ≡ is_overloaded job.now (has group) (stage_of job.now stage) }
{
    job.recall_valid();
    is_overloaded(job, group, stage_at(job, stage))
}

fn is_overloaded(job: &Job, group: Mask, stage: &Stage) -> bool
    requires { IsStageLoad stage.now.load }
    ensures { result ≡ is_overloaded job.now (has group) (stage_data stage.now) }
{
    stage.load != 0 && is_over_a_limit(job, group, stage)
}

fn is_over_a_limit(job: &Job, group: Mask, stage: &Stage) -> bool
    requires { IsStageLoad stage.now.load }
    ensures { result ≡ ((not (int_eq stage.now.limit (pos 0))
        && int_lt stage.now.limit stage.now.load)
        || (not (int_eq job.now.setup.force (pos 0))
        && int_lt (pos 1000 *ℤ job.now.setup.force)
        (stage.now.load *ℤ lines_total (shape_of job.now) (has group)))) }
{
    is_over_limit(stage) || is_over_force(job, group, stage)
}

/// Whether the load is above that of the stage's tools, which may have none.
fn is_over_limit(stage: &Stage) -> bool
    ensures { result ≡ (not (int_eq stage.now.limit (pos 0))
        && int_lt stage.now.limit stage.now.load) }
{
    stage.limit != 0 && stage.limit < stage.load
}

/// Whether the load over all lines is above the machine's force, which may have no limit.
fn is_over_force(job: &Job, group: Mask, stage: &Stage) -> bool
    requires { IsStageLoad stage.now.load }
    ensures { result ≡ (not (int_eq job.now.setup.force (pos 0))
        && int_lt (pos 1000 *ℤ job.now.setup.force)
        (stage.now.load *ℤ lines_total (shape_of job.now) (has group))) }
{
    has_force(job) && is_above_force(job, group, stage)
}

/// Whether the machine's force has a limit.
fn has_force(job: &Job) -> bool
    ensures { result ≡ not (int_eq job.now.setup.force (pos 0)) }
{
    job.setup().force != 0
}

/// Whether the load over all lines is above that limit.
fn is_above_force(job: &Job, group: Mask, stage: &Stage) -> bool
    requires { IsStageLoad stage.now.load }
    ensures { result ≡ int_lt (pos 1000 *ℤ job.now.setup.force)
        (stage.now.load *ℤ lines_total (shape_of job.now) (has group)) }
{
    let force = job.setup().force;
    1000 * force < force_of(stage.load, lines_total(job.shape(), group))
}

/// The force that a load takes over so much of a line, in thousandths of newtons.
fn force_of(load: i64, length: i64) -> i64
    requires load { unsigned_abs load ≤ 2 ^ 20 }
    requires length { unsigned_abs length ≤ 2 ^ 31 }
    ensures { result ≡ load *ℤ length }
{
    load * length
}

/// How long the bend lines of a group are together, in micrometres.
pub fn lines_total(shape: &Shape, group: Mask) -> i64
    ensures value { result ≡ lines_total shape.now (has group) }
    ensures near { unsigned_abs result ≤ 2 ^ 31 }
{
    let mut total = 0;
    for bend in 1..shape.faces() {
        if group.contains(bend) {
            total += line_length(shape, bend);
        }
    }
    total
}
