//! Whether a nogood is true, by a look at one state.
ghost use Rattle.std.specs.Prelude.{◌≡◌, ◌≢◌, ◌↔◌, IsTrue};
ghost use Rattle.brake_base.specs.declared.reason.Reason.TheVariants.{NoGauge};
ghost use Rattle.brake_base.specs.Masks.{has};
ghost use Rattle.handling_cost.specs.StepCost.{IsActionAt, IsActionOf};
ghost use Rattle.nogood_book.specs.Support.{NamesBoxes};
ghost use Rattle.nogood_book.specs.Nogood.{IsSetOf, key_at, AreDisjoint, IsCovered, IsVerified, IsTrueNogood};

use crate::deciding::{is_of_job, support};
use crate::learning::{holds_against, key_at};
use crate::nogood::{Nogood, are_disjoint};
use brake_base::{Action, Mask};
use handling_cost::is_action_at;
use job_setup::Job;

/// Whether the nogood is verified: its action is the job's, its two sets are of the job's bends and
/// disjoint, its reason isn't NoGauge and names boxes of the job, its bend is among the flat ones
/// and the lead of its group where the folded ones are folded, its reason's support lies within
/// its two sets, and the reason holds there. Then it's true wherever it matches.
pub fn verify(job: &Job, nogood: &Nogood) -> bool
    ensures exact { IsTrue result ↔ IsVerified job.now nogood.now }
    ensures law { IsTrue result → IsTrueNogood job.now nogood.now }
{
    job.recall_valid();
    if !are_sets(job, nogood.folded, nogood.flat) || !is_of_job(job, nogood.reason) {
        return false;
    }
    if !is_flat_lead(job, nogood.folded, nogood.flat, nogood.action) || !is_covered(job, nogood) {
        return false;
    }
    holds_against(job, &key_at(nogood.folded), nogood.action, nogood.reason)
}

/// Whether the sets are of the job's bends and disjoint.
fn are_sets(job: &Job, folded: Mask, flat: Mask) -> bool
    ensures { IsTrue result
        ↔ ((IsSetOf job.now folded × IsSetOf job.now flat) × AreDisjoint folded flat) }
{
    is_set(job, folded) && is_set(job, flat) && are_disjoint(folded, flat)
}

/// Whether the set is of the job's bends.
fn is_set(job: &Job, mask: Mask) -> bool
    ensures { IsTrue result ↔ IsSetOf job.now mask }
{
    mask.0 < 1 << job.bends()
}

/// Whether the action can be tried where the folded bends are folded, and its bend is a flat one.
fn is_flat_lead(job: &Job, folded: Mask, flat: Mask, action: Action) -> bool
    ensures { IsTrue result
        ↔ (IsActionAt job.now (key_at folded) action × IsTrue (has flat action.bend)) }
{
    job.recall_valid();
    is_action_at(job, &key_at(folded), action) && flat.contains(action.bend)
}

/// Whether each bend of the support of the nogood's reason is among its folded or its flat bends.
fn is_covered(job: &Job, nogood: &Nogood) -> bool
    requires action { IsActionOf job.now nogood.now.action }
    requires kind { nogood.now.reason ≢ NoGauge }
    requires boxes { NamesBoxes job.now nogood.now.reason }
    ensures { IsTrue result ↔ IsCovered job.now nogood.now }
{
    support(job, nogood.action, nogood.reason).is_subset(nogood.folded.union(nogood.flat))
}
