//! What actions cost, and where they lead. Costs are in tenths of a second.
ghost use Rattle.std.specs.Prelude.{◌≡◌, ◌<◌, ◌≤◌, ◌/◌, ◌%◌, length};
ghost use Rattle.job_setup.specs.ValidJob.{IsJob};
ghost use Rattle.handling_cost.specs.StepCost.{IsKeyOf, IsActionAt, change, change_cost, stage_cost, cost_to, cost_of, attitude_at, key_after};
ghost use Rattle.handling_cost.specs.Plan.{start, total, AreActions};

use crate::attitudes::{change_between, price_of};
use brake_base::{Action, Key, Mask, Step, Turn};
use fold_boxes::attitude;
use job_setup::{Job, group};
use machine_file::Costs;

/// The key before the first stroke: no bend is folded, and the part is held as its file describes
/// it, at stage 0.
pub fn start_key() -> Key
    ensures { result ≡ start }
{
    Key {
        mask: Mask::empty(),
        attitude: Turn::from_number(0),
        stage: 0,
    }
}

/// What an action costs from a key: the stroke, the change of attitude and the way to its stage.
pub fn step_cost(job: &Job, key: Key, action: Action) -> u64
    requires key { IsKeyOf job.now key }
    requires action { IsActionAt job.now key action }
    ensures value { result ≡ cost_of job.now key action }
    ensures small { result ≤ 8000000 }
{
    step_cost_at(job, &key, action)
}

fn step_cost_at(job: &Job, key: &Key, action: Action) -> u64
    requires key { IsKeyOf job.now key.now }
    requires action { IsActionAt job.now key.now action }
    ensures value { result ≡ cost_of job.now key.now action }
    ensures small { result ≤ 8000000 }
    ensures valid { IsJob job.now }
{
    let to = attitude_for(job, key.mask, action);
    cost_to(job, key, to, action.stage)
}

/// The key to which an action leads: its group is folded too, and its attitude and stage are the
/// last.
pub fn next_key(job: &Job, key: Key, action: Action) -> Key
    requires key { IsKeyOf job.now key }
    requires action { IsActionAt job.now key action }
    ensures value { result ≡ key_after job.now key action }
    ensures range { IsKeyOf job.now result }
{
    next_key_at(job, &key, action)
}

fn next_key_at(job: &Job, key: &Key, action: Action) -> Key
    requires key { IsKeyOf job.now key.now }
    requires action { IsActionAt job.now key.now action }
    ensures value { result ≡ key_after job.now key.now action }
    ensures range { IsKeyOf job.now result }
{
    Key {
        mask: key.mask.union(group(job, key.mask, action.bend)),
        attitude: attitude_for(job, key.mask, action),
        stage: action.stage,
    }
}

/// The attitude in which the part is held for an action where the bends of the mask are folded.
fn attitude_for(job: &Job, mask: Mask, action: Action) -> Turn
    requires first { 0 < action.bend }
    requires last { action.bend < length job.now.part.faces }
    ensures value { result ≡ attitude_at job.now mask action }
    ensures valid { IsJob job.now }
{
    attitude(job.shape(), mask, action.bend, action.back)
}

/// What a stroke in this attitude, at this stage, costs from a key.
pub fn cost_to(job: &Job, key: &Key, attitude: Turn, stage: u8) -> u64
    requires from { key.now.stage < length job.now.setup.stages }
    requires to { stage < length job.now.setup.stages }
    ensures value { result ≡ cost_to job.now key.now attitude stage }
    ensures small { result ≤ 8000000 }
{
    let costs = &job.setup().cost;
    costs.stroke + change_cost(costs, key.attitude, attitude) + stage_cost(job, key, stage)
}

/// What a change of attitude costs.
pub fn change_cost(costs: &Costs, from: Turn, to: Turn) -> u64
    ensures { result ≡ change_cost costs.now (change from to) }
{
    price_of(costs, change_between(from, to))
}

/// What the way from the key's stage to another costs; nothing where no bend is folded.
fn stage_cost(job: &Job, key: &Key, stage: u8) -> u64
    requires from { key.now.stage < length job.now.setup.stages }
    requires to { stage < length job.now.setup.stages }
    ensures value { result ≡ stage_cost job.now key.now.mask key.now.stage stage }
    ensures small { result ≤ 6000000 }
{
    if key.mask.is_empty() {
        return 0;
    }
    job.setup().cost.stage * u64::from(key.stage.abs_diff(stage))
}

/// The sum of what the steps cost from the start key, legal or not.
pub fn plan_cost(job: &Job, steps: &[Step]) -> u64
    requires { AreActions job.now start steps.now }
    ensures { result ≡ total job.now start steps.now }
{
    let mut key = start_key();
    let mut cost = 0;
    for step in steps {
        cost += step_cost_at(job, &key, step.action);
        key = next_key_at(job, &key, step.action);
    }
    cost
}
