//! The table of what belongs to each set of folded bends, filled once, a lane for each stage.
ghost use Rattle.std.specs.Prelude.{◌≡◌, ℕ, ◌*◌, ◌<◌, ◌≤◌, ◌^◌, IfOk, length, slice_index, slice_index_or};
ghost use Rattle.stage_lanes.specs.Lanes.{AreLanes};
ghost use Rattle.machine_file.specs.Machine.{IsCosts};
ghost use Rattle.job_setup.specs.Setup.{bend_count, stage_count};
ghost use Rattle.handling_cost.specs.StepCost.{change, change_cost, distance, attitude_at};
ghost use Rattle.set_facts.specs.Facts.{AreLeads, HasNoneBeyond};
ghost use Rattle.set_facts.specs.LaneFacts.{within_stages, HasBounds, HasWays, AreChanges, AreWays, AreFilled};

use crate::facts::side_place;
use crate::set_lanes::SetLanes;
use crate::table::set_count;
use brake_base::{Back, Mask, Turn};
use handling_cost::change_cost;
use job_setup::Job;
use machine_file::Costs;
use stage_lanes::{BLOCKED, StageCosts};
use std::alloc::{AllocError, Global};
use std::marker::Model;

/// The row of the ways from the start: no bend is folded there, so none of them is paid.
const START: usize = 6;

/// What belongs to each set of a job's bends, a lane for each stage, found once for all sets.
/// Contracts see the table as its job.
#[derive(Drop)]
pub struct LaneFacts {
    job: Job,
    changes: Vec<[u32; 24]>,
    ways: [StageCosts; 7],
    sets: Vec<SetLanes>,
}

impl Model for LaneFacts {
    ghost use Rattle.job_setup.specs.Setup.{JobData};
    ghost use Rattle.set_facts.specs.LaneFacts.{IsLaneFacts};

    ghost Value = { JobData };

    ghost view = { λ t. t.job };

    ghost invariant = { λ t. IsLaneFacts t.job t.changes.items t.ways t.sets.items };
}

impl LaneFacts {
    /// The table of a job.
    pub fn open(alloc: Global, job: &Job) -> Result<LaneFacts, AllocError>
        ensures { IfOk result (λ facts. facts ≡ job.now) }
    {
        let mut changes = vec![in alloc; [0; 24]; 24]?;
        put_changes(&job.setup().cost, &mut changes);
        let mut sets = vec![in alloc; SetLanes::blank(); set_count(job)]?;
        fill(job, &mut sets);
        Ok(LaneFacts {
            job: job.copy(),
            changes,
            ways: ways_of(job),
            sets,
        })
    }

    /// The leads of the strokes that may come next where the bends of the mask are folded, and no
    /// other bend.
    pub fn leads(&self, mask: Mask) -> Mask
        requires { mask.0 < 2 ^ bend_count self.now }
        ensures leads { AreLeads self.now mask result }
        ensures only { HasNoneBeyond self.now result }
    {
        self.sets[usize::from(mask.0)].leads
    }

    /// At each stage the bound of the keys with this set, in tenths of a second; past the last stage
    /// [`BLOCKED`].
    pub fn bounds(&self, mask: Mask) -> StageCosts
        requires { mask.0 < 2 ^ bend_count self.now }
        ensures lanes { HasBounds self.now mask result.0 }
        ensures small { (stage : ℕ) → stage < 8 → slice_index result.0 stage ≤ 536870912 }
    {
        self.sets[usize::from(mask.0)].bounds
    }

    /// What the way from a stage to each stage costs where the bends of the mask are folded, in tenths
    /// of a second; past the last stage [`BLOCKED`].
    pub fn ways(&self, mask: Mask, stage: u8) -> StageCosts
        requires { stage < stage_count self.now }
        ensures lanes { HasWays self.now mask stage result.0 }
        ensures small { (to : ℕ) → to < 8 → slice_index result.0 to ≤ 536870912 }
    {
        if mask.is_empty() {
            self.ways[START]
        } else {
            self.ways[usize::from(stage)]
        }
    }

    /// What a change of attitude costs, in tenths of a second.
    pub fn change(&self, from: Turn, to: Turn) -> u32
        ensures value { result ≡ change_cost self.now.setup.cost (change from to) }
        ensures small { result ≤ 1000000 }
    {
        self.changes[usize::from(from.number())][usize::from(to.number())]
    }

    /// How the part is held in the strokes of a bend with this side at the back, where the bends of the
    /// mask are folded.
    pub fn attitude(&self, mask: Mask, bend: u8, back: Back) -> Turn
        requires mask { mask.0 < 2 ^ bend_count self.now }
        requires first { 1 ≤ bend }
        requires last { bend ≤ bend_count self.now }
        ensures { (stage : ℕ) → result ≡ attitude_at self.now mask
            (record { bend = bend; back = back; stage = stage }) }
    {
        self.sets[usize::from(mask.0)].attitudes[side_place(bend, back)]
    }
}

/// Puts what belongs to each set at its place, greater sets first.
fn fill(job: &Job, sets: &mut Vec<SetLanes>)
    requires { length sets.old.items ≡ 2 ^ bend_count job.now }
    ensures { AreFilled job.now 0 sets.new.items }
{
    let mut left = set_count(job);
    while left > 0 {
        left -= 1;
        let found = SetLanes::of(job, Mask(left as u16), sets);
        sets[left] = found;
    }
}

/// Puts what each change of attitude costs at its place.
fn put_changes(costs: &Costs, changes: &mut Vec<[u32; 24]>)
    requires costs { IsCosts costs.now }
    requires rows { length changes.old.items ≡ 24 }
    ensures { AreChanges costs.now changes.new.items }
{
    for from in 0..24 {
        changes[usize::from(from)] = changes_from(costs, Turn::from_number(from));
    }
}

/// What the change from an attitude to each attitude costs.
fn changes_from(costs: &Costs, from: Turn) -> [u32; 24]
    requires { IsCosts costs.now }
    ensures { (to d : ℕ) → to < 24
        → slice_index_or result to d ≡ change_cost costs.now (change from to) }
{
    let mut changes = [0; 24];
    for to in 0..24 {
        changes[usize::from(to)] = change_cost(costs, from, Turn::from_number(to)) as u32;
    }
    changes
}

/// What the ways from each stage to each stage cost, and behind them those from the start.
fn ways_of(job: &Job) -> [StageCosts; 7]
    ensures { AreWays job.now result }
{
    let price = way_price(job);
    let mut ways = [StageCosts::all(BLOCKED); 7];
    for from in 0..job.stages() {
        let row = ways_from(job, price, from);
        ways[usize::from(from)] = row;
    }
    let start = ways_from(job, 0, 0);
    ways[START] = start;
    ways
}

/// What the way from one stage to the next costs.
fn way_price(job: &Job) -> u64
    ensures value { result ≡ job.now.setup.cost.stage }
    ensures small { result ≤ 1000000 }
{
    job.setup().cost.stage
}

/// The ways from a stage to each stage, at so much for each stage that lies between two.
fn ways_from(job: &Job, cost: u64, from: u8) -> StageCosts
    requires { cost ≤ 1000000 }
    ensures { AreLanes result.0 (within_stages job.now (λ to. cost * distance from to)) }
{
    let mut ways = [BLOCKED; 8];
    for to in 0..job.stages() {
        ways[usize::from(to)] = (cost * u64::from(from.abs_diff(to))) as u32;
    }
    StageCosts(ways)
}
