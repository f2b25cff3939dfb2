//! The bends of a stroke, and the stages that they meet.
ghost use Rattle.std.specs.Prelude.{◌≡◌, ℕ, ◌<◌, ◌||◌, length};
ghost use Rattle.std.specs.List.{list_any};
ghost use Rattle.brake_base.specs.Masks.{has};
ghost use Rattle.fold_boxes.specs.Groups.{span, members};
ghost use Rattle.job_setup.specs.Setup.{stage_data, shape_of};
ghost use Rattle.job_setup.specs.Near.{IsNearStage};
ghost use Rattle.job_setup.specs.StrokeGroup.{in_group, group_of};
ghost use Rattle.job_setup.specs.StageOf.{stage_of};
ghost use Rattle.job_setup.specs.Reasons.{core_depth, reach, is_uncovered, lacks_rest, meets};

use crate::job::Job;
use crate::setup::Stage;
use brake_base::{Back, Mask};
use fold_boxes::{Shape, core, mates, span};
use part_file::Side;
use unfolder::cores::joint_of;

/// The bends that are bent in one stroke with a bend where the bends of the mask are folded: only
/// the bend where the job has no gangs, else its mates that aren't in the mask. Of an unfolded
/// bend's group the bend is one.
pub fn group(job: &Job, mask: Mask, bend: u8) -> Mask
    requires some { 0 < bend }
    requires bend { bend < length job.now.part.faces }
    ensures bends { (other : ℕ) → has result other ≡ in_group job.now (has mask) bend other }
    ensures value { result ≡ group_of job.now mask bend }
{
    if job.setup().gang {
        mates(job.shape(), bend).without(mask)
    } else {
        Mask::empty().with(bend)
    }
}

/// Whether a stage meets the group of a bend where the bends of the mask are folded: the stage is
/// long enough for the group's span, and each face at one of its lines reaches as far as the die's
/// least flange. The load isn't looked at.
pub fn meets_at(job: &Job, mask: Mask, bend: u8, stage: u8) -> bool
    requires some { 0 < bend }
    requires bend { bend < length job.now.part.faces }
    requires stage { stage < length job.now.setup.stages }
    ensures { result ≡ meets job.now (in_group job.now (has mask) bend) (stage_of job.now stage) }
{
    meets(job, group(job, mask, bend), stage_at(job, stage))
}

/// The stage of a number.
pub(crate) fn stage_at(job: &Job, stage: u8) -> &Stage
    requires { stage < length job.now.setup.stages }
    ensures value { stage_data result.now ≡ stage_of job.now stage }
    ensures near { IsNearStage (stage_data result.now) }
{
    &job.setup().stages.as_slice()[usize::from(stage)]
}

/// Whether a stage meets a group.
fn meets(job: &Job, group: Mask, stage: &Stage) -> bool
    requires { IsNearStage (stage_data stage.now) }
    ensures { result ≡ meets job.now (has group) (stage_data stage.now) }
{
    !is_uncovered(job, group, stage) && !lacks_a_rest(job, group, stage)
}

/// Whether the span of the group is longer than the stage and what it may leave uncovered at
/// either end.
pub(crate) fn is_uncovered(job: &Job, group: Mask, stage: &Stage) -> bool
    requires { IsNearStage (stage_data stage.now) }
    ensures { result ≡ is_uncovered job.now (has group) (stage_data stage.now) }
{
    let (from, to) = span(job.shape(), group);
    stage.x1 - stage.x0 + 2 * job.setup().uncovered < to - from
}

/// Whether a core at one of the group's lines is shorter than the die's least flange.
fn lacks_a_rest(job: &Job, group: Mask, stage: &Stage) -> bool
    ensures { result ≡ (lacks_rest job.now (has group) Back.Parent (stage_data stage.now)
        || lacks_rest job.now (has group) Back.Child (stage_data stage.now)) }
{
    lacks_rest(job, group, Back::Parent, stage) || lacks_rest(job, group, Back::Child, stage)
}

/// Whether a core on this side of the group's lines is shorter than the die's least flange.
pub(crate) fn lacks_rest(job: &Job, group: Mask, side: Back, stage: &Stage) -> bool
    ensures { result ≡ lacks_rest job.now (has group) side (stage_data stage.now) }
{
    let shape = job.shape();
    (1..shape.faces())
        .filter(|bend| group.contains(*bend))
        .any(|bend| reach(shape, side, bend) < stage.die.least_flange)
}

/// How far the core of the parent, or of the child, reaches away from a bend's line.
fn reach(shape: &Shape, side: Back, bend: u8) -> i64
    requires some { 0 < bend }
    requires bend { bend < length shape.now.part.faces }
    ensures { result ≡ reach shape.now side bend }
{
    match side {
        Back::Parent => {
            let joint = joint_of(shape.part(), bend);
            core_depth(shape, joint.side, joint.on)
        }
        Back::Child => core_depth(shape, Side::S, bend),
    }
}

/// How far the core of a face reaches from one of its sides to the opposite one.
fn core_depth(shape: &Shape, side: Side, face: u8) -> i64
    requires { face < length shape.now.part.faces }
    ensures { result ≡ core_depth shape.now side face }
{
    let (width, length) = core(shape, face);
    match side {
        Side::N | Side::S => length,
        Side::E | Side::W => width,
    }
}
