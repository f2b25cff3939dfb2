//! What belongs to the actions where the bends of a set are folded: it is found once for all rows
//! of the set, which follow one another.
ghost use Rattle.std.specs.Prelude.{◌≡◌, ◌*◌, ◌^◌, ◌<◌, ◌≤◌, ℕ, IsTrue, None, slice_index_or};
ghost use Rattle.job_setup.specs.Setup.{bend_count, stage_count};
ghost use Rattle.job_setup.specs.StrokeGroup.{is_lead};
ghost use Rattle.cert_lines.specs.Lines.{action_at};
ghost use Rattle.cert_check.specs.SetActions.{IsNext, IsNextOf, AreActionsOf};

use crate::rows::{action_at, action_count, bound_at};
use brake_base::{Action, Key, Mask};
use job_setup::{Job, group};
use set_facts::LaneFacts;

/// The key to which an action leads, and what every rest from there costs at least.
#[derive(Clone, Copy, Debug)]
pub(crate) struct NextKey {
    pub key: Key,
    pub bound: u64,
}

/// What belongs to the actions where the bends of the mask are folded, by their numbers.
#[derive(Drop)]
pub(crate) struct SetActions {
    pub mask: Mask,
    /// Where they lead. None where the bend of the number's action is no lead.
    pub next: [Option<NextKey>; 144],
}

/// Where an action leads whose bend is a lead.
fn next_after(job: &Job, facts: &LaneFacts, mask: Mask, action: Action) -> NextKey
    requires facts { facts.now ≡ job.now }
    requires mask { mask.0 < 2 ^ bend_count job.now }
    requires first { 1 ≤ action.bend }
    requires last { action.bend ≤ bend_count job.now }
    requires stage { action.stage < stage_count job.now }
    requires lead { IsTrue (is_lead job.now mask action.bend) }
    ensures { IsNext job.now mask action result }
{
    job.recall_valid();
    let attitude = facts.attitude(mask, action.bend, action.back);
    let key = Key {
        mask: mask.union(group(job, mask, action.bend)),
        attitude,
        stage: action.stage,
    };
    let bound = bound_at(job, facts, &key);
    NextKey { key, bound }
}

/// Where the action of a number leads.
fn next_of(job: &Job, facts: &LaneFacts, mask: Mask, number: u8) -> Option<NextKey>
    requires facts { facts.now ≡ job.now }
    requires mask { mask.0 < 2 ^ bend_count job.now }
    requires number { number < 2 * bend_count job.now * stage_count job.now }
    ensures { IsNextOf job.now mask (action_at (stage_count job.now) number) result }
{
    job.recall_valid();
    let action = action_at(job, number);
    if facts.leads(mask).contains(action.bend) {
        Some(next_after(job, facts, mask, action))
    } else {
        None
    }
}

/// Where the actions lead.
fn all_next(job: &Job, facts: &LaneFacts, mask: Mask) -> [Option<NextKey>; 144]
    requires facts { facts.now ≡ job.now }
    requires mask { mask.0 < 2 ^ bend_count job.now }
    ensures { (number : ℕ) → number < 2 * bend_count job.now * stage_count job.now
        → IsNextOf job.now mask (action_at (stage_count job.now) number)
        (slice_index_or result number None) }
{
    let mut next = [None; 144];
    for number in 0..action_count(job) {
        next[usize::from(number)] = next_of(job, facts, mask, number);
    }
    next
}

impl SetActions {
    /// What belongs to the actions of a set.
    pub fn of(job: &Job, facts: &LaneFacts, mask: Mask) -> SetActions
        requires facts { facts.now ≡ job.now }
        requires mask { mask.0 < 2 ^ bend_count job.now }
        ensures actions { AreActionsOf job.now result }
        ensures mask { result.mask ≡ mask }
    {
        let next = all_next(job, facts, mask);
        SetActions { mask, next }
    }

    /// Makes them those of a set.
    pub fn turn_to(&mut self, job: &Job, facts: &LaneFacts, mask: Mask)
        requires actions { AreActionsOf job.now self.old }
        requires facts { facts.now ≡ job.now }
        requires mask { mask.0 < 2 ^ bend_count job.now }
        ensures actions { AreActionsOf job.now self.new }
        ensures mask { self.new.mask ≡ mask }
    {
        if self.mask != mask {
            *self = SetActions::of(job, facts, mask);
        }
    }

    /// Where the action of a number leads.
    pub fn next(&self, number: u8) -> Option<NextKey>
        requires { number < 144 }
        ensures { result ≡ slice_index_or self.now.next number None }
    {
        self.next[usize::from(number)]
    }
}
