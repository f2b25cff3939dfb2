//! The steps of a certificate: a plan that costs what is claimed.
ghost use Rattle.std.specs.Prelude.{◌≡◌, ◌≤◌, All, IfNone, IfSome, IfOk, length};
ghost use Rattle.handling_cost.specs.StepCost.{IsKeyOf, IsActionAt};
ghost use Rattle.handling_cost.specs.Plan.{IsLegal, start};
ghost use Rattle.plan_lines.specs.LinesFit.{IsStep};
ghost use Rattle.plan_cert.specs.WellFormed.{HasSteps};
ghost use Rattle.cert_check.specs.StepFaults.{IsStepFault};
ghost use Rattle.cert_check.specs.Steps.{FollowAnswer, CostAnswer, StepsAnswer};

use crate::fault::{CheckFault, StepFault};
use brake_base::{Key, Step, Worth};
use gauge_rules::legal;
use handling_cost::{is_full, is_lead, next_key, pose_before, start_key, step_cost};
use job_setup::Job;
use sweep_check::first_reason;

/// Refuses steps that aren't a plan of the claimed cost. A claim that there is no plan has no step.
pub(crate) fn check_steps(job: &Job, claim: Worth, steps: &[Step]) -> Result<(), CheckFault>
    requires count { HasSteps job.now claim steps.now }
    requires each { All (IsStep job.now) steps.now }
    ensures { StepsAnswer job.now claim steps.now result }
{
    job.recall_valid();
    let (last, cost) = follow(job, steps)?;
    match claim {
        Worth::Cost(claimed) => check_cost(job, &last, cost, claimed),
        Worth::Blocked => Ok(()),
    }
}

/// Refuses steps that leave a bend unfolded, or cost another sum than is claimed.
fn check_cost(job: &Job, last: &Key, cost: u64, claimed: u64) -> Result<(), CheckFault>
    requires last { IsKeyOf job.now last.now }
    ensures { CostAnswer job.now last.now cost claimed result }
{
    if !is_full(job, last) {
        Err(CheckFault::Unfinished)
    } else if cost != claimed {
        Err(CheckFault::BadCost)
    } else {
        Ok(())
    }
}

/// The key to which the steps lead from the start and what they cost, or the first that isn't
/// legal.
fn follow(job: &Job, steps: &[Step]) -> Result<(Key, u64), CheckFault>
    requires few { length steps.now ≤ 12 }
    requires each { All (IsStep job.now) steps.now }
    ensures answer { FollowAnswer job.now start steps.now result }
    ensures range { IfOk result (λ end. IsKeyOf job.now end.0) }
{
    job.recall_valid();
    let mut key = start_key();
    let mut cost = 0;
    for (index, step) in steps.iter().enumerate() {
        if let Some(fault) = step_fault(job, &key, *step) {
            return Err(CheckFault::BadStep {
                index: index as u8,
                fault,
            });
        }
        cost += step_cost(job, key, step.action);
        key = next_key(job, key, step.action);
    }
    Ok((key, cost))
}

/// The first cause for which the step isn't legal at the key.
fn step_fault(job: &Job, key: &Key, step: Step) -> Option<StepFault>
    requires step { IsStep job.now step }
    ensures legal { IfNone result (IsLegal job.now key.now step) }
    ensures fault { IfSome result (λ fault. IsStepFault job.now key.now step fault) }
{
    job.recall_valid();
    if key.mask.contains(step.action.bend) {
        return Some(StepFault::AlreadyFolded);
    }
    if !is_lead(job, key.mask, step.action.bend) {
        return Some(StepFault::NotLead);
    }
    stroke_fault(job, key, step)
}

/// The first cause for which the stroke of a step isn't legal: a reason, or its gauge.
fn stroke_fault(job: &Job, key: &Key, step: Step) -> Option<StepFault>
    requires action { IsActionAt job.now key.now step.action }
    ensures legal { IfNone result (IsLegal job.now key.now step) }
    ensures fault { IfSome result (λ fault. IsStepFault job.now key.now step fault) }
{
    let pose = pose_before(job, key, step.action);
    match first_reason(job, &pose, step.action.stage) {
        Some(reason) => Some(StepFault::Hit(reason)),
        None => {
            if legal(job, &pose, step.gauge) {
                None
            } else {
                Some(StepFault::BadGauge)
            }
        }
    }
}
