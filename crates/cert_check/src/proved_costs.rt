//! What is proved of the keys behind the strokes that may come next where the bends of a set are
//! folded, a lane for each stage.
ghost use Rattle.std.specs.Prelude.{◌≡◌, ◌+◌, ◌^◌, ◌<◌, ◌≤◌, IsTrue};
ghost use Rattle.job_setup.specs.Setup.{bend_count, stage_count};
ghost use Rattle.job_setup.specs.StrokeGroup.{is_lead};
ghost use Rattle.handling_cost.specs.StepCost.{IsKeyOf};
ghost use Rattle.handling_cost.specs.Bound.{bound_of};
ghost use Rattle.cert_lines.specs.Lines.{IsWorth};
ghost use Rattle.set_facts.specs.Facts.{AreLeads};
ghost use Rattle.cert_check.specs.ProvedCosts.{worth_cost, IsProvedCost, AreProvedLanes, IsBendPut, AreProvedBelow, AreProvedOf};

use crate::row_table::RowTable;
use action_lanes::ActionCosts;
use brake_base::{Back, Key, Mask, Turn, Worth};
use job_setup::{Job, group};
use set_facts::LaneFacts;
use stage_lanes::StageCosts;

/// The cost of a key from which there is no way on: above every cost of a step and what is proved
/// behind it.
pub(crate) const NO_WAY: u32 = 2_000_000_000;

/// What is proved of the keys behind the actions where the bends of the mask are folded.
#[derive(Clone, Copy, Debug)]
pub(crate) struct ProvedCosts {
    pub mask: Mask,
    /// The leads of the strokes that may come next.
    pub leads: Mask,
    /// At each action of a lead what is proved of the key to which it leads, in tenths of a second.
    pub costs: ActionCosts,
}

impl ProvedCosts {
    /// What is proved of the keys behind a set.
    pub fn of(job: &Job, rows: &RowTable, facts: &LaneFacts, mask: Mask) -> ProvedCosts
        requires rows { rows.now.job ≡ job.now }
        requires facts { facts.now ≡ job.now }
        requires mask { mask.0 < 2 ^ bend_count job.now }
        ensures costs { AreProvedOf job.now rows.now.rows result }
        ensures mask { result.mask ≡ mask }
    {
        let leads = facts.leads(mask);
        ProvedCosts {
            mask,
            leads,
            costs: costs_behind(job, rows, facts, mask, leads),
        }
    }

    /// Makes this what is proved of the keys behind a set.
    pub fn turn_to(&mut self, job: &Job, rows: &RowTable, facts: &LaneFacts, mask: Mask)
        requires rows { rows.now.job ≡ job.now }
        requires facts { facts.now ≡ job.now }
        requires mask { mask.0 < 2 ^ bend_count job.now }
        ensures costs { AreProvedOf job.now rows.now.rows self.new }
        ensures mask { self.new.mask ≡ mask }
    {
        *self = ProvedCosts::of(job, rows, facts, mask);
    }
}

/// What is proved of the keys behind the actions of the leads where the bends of the mask are
/// folded.
fn costs_behind(
    job: &Job,
    rows: &RowTable,
    facts: &LaneFacts,
    mask: Mask,
    leads: Mask,
) -> ActionCosts
    requires rows { rows.now.job ≡ job.now }
    requires facts { facts.now ≡ job.now }
    requires mask { mask.0 < 2 ^ bend_count job.now }
    requires leads { AreLeads job.now mask leads }
    ensures { AreProvedBelow job.now rows.now.rows mask (bend_count job.now + 1) result }
{
    let mut costs = ActionCosts::all(0);
    for bend in 1..job.bends() + 1 {
        if leads.contains(bend) {
            put_lead(job, rows, facts, mask, bend, &mut costs);
        }
    }
    costs
}

/// Puts what is proved of the keys behind the actions of a lead at their places.
fn put_lead(
    job: &Job,
    rows: &RowTable,
    facts: &LaneFacts,
    mask: Mask,
    bend: u8,
    costs: &mut ActionCosts,
)
    requires rows { rows.now.job ≡ job.now }
    requires facts { facts.now ≡ job.now }
    requires mask { mask.0 < 2 ^ bend_count job.now }
    requires first { 1 ≤ bend }
    requires last { bend ≤ bend_count job.now }
    requires lead { IsTrue (is_lead job.now mask bend) }
    ensures { IsBendPut job.now rows.now.rows mask bend costs.old costs.new }
{
    job.recall_valid();
    let after = mask.union(group(job, mask, bend));
    let held = facts.attitude(mask, bend, Back::Parent);
    let parent = costs_at(job, rows, facts, after, held);
    costs.set_side(bend, Back::Parent, parent);
    let held = facts.attitude(mask, bend, Back::Child);
    let child = costs_at(job, rows, facts, after, held);
    costs.set_side(bend, Back::Child, child);
}

/// What is proved of the keys of a set in an attitude, by stage.
fn costs_at(job: &Job, rows: &RowTable, facts: &LaneFacts, mask: Mask, attitude: Turn) -> StageCosts
    requires rows { rows.now.job ≡ job.now }
    requires facts { facts.now ≡ job.now }
    requires mask { mask.0 < 2 ^ bend_count job.now }
    ensures { AreProvedLanes job.now rows.now.rows mask attitude (stage_count job.now) result.0 }
{
    job.recall_valid();
    let bounds = facts.bounds(mask);
    let mut costs = bounds;
    for stage in 0..job.stages() {
        let key = Key {
            mask,
            attitude,
            stage,
        };
        let cost = cost_at(rows, &key, bounds.cost(stage));
        costs = costs.with(stage, cost);
    }
    costs
}

/// What is proved of a key with this bound: the worth of its row, or the bound where it has none.
fn cost_at(rows: &RowTable, key: &Key, bound: u32) -> u32
    requires key { IsKeyOf rows.now.job key.now }
    requires bound { bound ≡ bound_of rows.now.job key.now }
    requires small { bound ≤ 18000000 }
    ensures { IsProvedCost rows.now.job rows.now.rows key.now result }
{
    match rows.worth(key) {
        Some(worth) => cost_of_worth(worth),
        None => bound,
    }
}

/// A worth as a cost: [`NO_WAY`] is that of a key from which there is no way on.
pub(crate) fn cost_of_worth(worth: Worth) -> u32
    requires { IsWorth worth }
    ensures { result ≡ worth_cost worth }
{
    match worth {
        Worth::Cost(cost) => cost as u32,
        Worth::Blocked => NO_WAY,
    }
}
