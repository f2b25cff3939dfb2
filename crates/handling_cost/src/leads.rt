//! The bends that may be bent next.
ghost use Rattle.std.specs.Prelude.{◌≡◌, ◌↔◌, ◌<◌, ◌≤◌, IsTrue, length};
ghost use Rattle.brake_base.specs.Masks.{IsLeast};
ghost use Rattle.job_setup.specs.StrokeGroup.{is_lead};
ghost use Rattle.handling_cost.specs.StepCost.{IsActionOf, IsActionAt, IsKeyOf, IsFull};

use brake_base::{Action, Key, Mask};
use job_setup::{Job, group};

/// Whether the bend is the lead of a stroke where the bends of the mask are folded: it isn't folded,
/// and no lesser bend is in its group.
pub fn is_lead(job: &Job, mask: Mask, bend: u8) -> bool
    requires some { 0 < bend }
    requires bend { bend < length job.now.part.faces }
    requires few { bend ≤ 12 }
    ensures { result ≡ is_lead job.now mask bend }
{
    !mask.contains(bend) && is_least(group(job, mask, bend), bend)
}

/// Whether the action can be tried at the key: its bend is the lead of a stroke there, and its stage
/// is one of the job's.
pub fn is_action_at(job: &Job, key: &Key, action: Action) -> bool
    ensures { IsTrue result ↔ IsActionAt job.now key.now action }
{
    is_in_range(job, action) && is_lead(job, key.mask, action.bend)
}

/// Whether the bend and the stage of an action are the job's.
fn is_in_range(job: &Job, action: Action) -> bool
    ensures value { IsTrue result ↔ IsActionOf job.now action }
    ensures few { IsTrue result → action.bend ≤ 12 }
{
    0 < action.bend && action.bend <= job.bends() && action.stage < job.stages()
}

/// Whether the bend is the least of the set.
fn is_least(set: Mask, bend: u8) -> bool
    ensures { IsTrue result ↔ IsLeast set bend }
{
    match set.least() {
        Some(least) => least == bend,
        None => false,
    }
}

/// Whether every bend is folded at the key.
pub fn is_full(job: &Job, key: &Key) -> bool
    requires key { IsKeyOf job.now key.now }
    ensures { IsTrue result ↔ IsFull job.now key.now }
{
    key.mask == Mask::full(job.bends())
}
