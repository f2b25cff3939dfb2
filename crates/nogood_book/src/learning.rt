//! What is learned from a reason that holds in one state.
ghost use Rattle.std.specs.Prelude.{◌≡◌, ◌≢◌, ◌⊎◌, ◌↔◌, IsTrue, IfSome, IfNone};
ghost use Rattle.brake_base.specs.declared.reason.Reason.TheVariants.{NoGauge};
ghost use Rattle.handling_cost.specs.StepCost.{IsActionAt};
ghost use Rattle.handling_cost.specs.Plan.{IsReasonFor};
ghost use Rattle.nogood_book.specs.Nogood.{IsSetOf, key_at, Matches, IsTrueNogood, IsVerified, learned};

use crate::deciding::{is_no_gauge, support};
use crate::nogood::Nogood;
use brake_base::{Action, Key, Mask, Reason, Turn};
use handling_cost::pose_before;
use job_setup::Job;
use sweep_check::holds;

/// What is learned from a reason against an action where the bends of the mask are folded: that it
/// holds wherever its support is folded as it is there. None exactly where the reason is NoGauge or
/// doesn't hold. The action is one at the mask.
pub fn learn(job: &Job, mask: Mask, action: Action, reason: Reason) -> Option<Nogood>
    requires mask { IsSetOf job.now mask }
    requires action { IsActionAt job.now (key_at mask) action }
    ensures some { IfSome result (λ nogood. (nogood ≡ learned job.now mask action reason)
        × (reason ≢ NoGauge) × IsReasonFor job.now mask action reason) }
    ensures none { IfNone result ((reason ≡ NoGauge) ⊎ (¬ IsReasonFor job.now mask action reason)) }
    ensures law { IfSome result (λ nogood. IsVerified job.now nogood × Matches nogood mask) }
{
    if is_no_gauge(reason) || !holds_against(job, &key_at(mask), action, reason) {
        return None;
    }
    Some(learned(job, mask, action, reason))
}

/// The nogood of a reason that holds where the bends of the mask are folded.
pub(crate) fn learned(job: &Job, mask: Mask, action: Action, reason: Reason) -> Nogood
    requires mask { IsSetOf job.now mask }
    requires action { IsActionAt job.now (key_at mask) action }
    requires kind { reason ≢ NoGauge }
    requires holds { IsReasonFor job.now mask action reason }
    ensures value { result ≡ learned job.now mask action reason }
    ensures law { IsVerified job.now result × Matches result mask }
{
    job.recall_valid();
    let support = support(job, action, reason);
    Nogood {
        action,
        reason,
        folded: support.intersection(mask),
        flat: support.without(mask),
    }
}

/// A key where the bends of the mask are folded.
pub(crate) fn key_at(mask: Mask) -> Key
    ensures { result ≡ key_at mask }
{
    Key {
        mask,
        attitude: Turn::default(),
        stage: 0,
    }
}

/// Whether a reason other than NoGauge holds against an action at a key.
pub(crate) fn holds_against(job: &Job, key: &Key, action: Action, reason: Reason) -> bool
    requires action { IsActionAt job.now key.now action }
    requires kind { reason ≢ NoGauge }
    ensures { IsTrue result ↔ IsReasonFor job.now key.now.mask action reason }
{
    holds(job, &pose_before(job, key, action), action.stage, reason)
}
