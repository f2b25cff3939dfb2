//! What is kept of each set of folded bends, and what a test of an action tells.
ghost use Rattle.std.specs.Prelude.{◌≡◌, ◌≢◌, ℕ, ◌*◌, ◌<◌, ◌≤◌, ◌^◌, IfOk, IsTrue, None, Some, length, slice_get, slice_index};
ghost use Rattle.row_pool.specs.Rows.{empty_pool};
ghost use Rattle.brake_base.specs.Masks.{union};
ghost use Rattle.job_setup.specs.Setup.{JobData, shape_of, bend_count, stage_count};
ghost use Rattle.job_setup.specs.ValidJob.{IsJob};
ghost use Rattle.brake_base.specs.declared.stroke.Gauge.{Gauge};
ghost use Rattle.handling_cost.specs.StepCost.{IsKeyOf, IsActionAt};
ghost use Rattle.set_facts.specs.Facts.{IsFacts};
ghost use Rattle.handling_cost.specs.Bound.{bound_of};
ghost use Rattle.bb_search.specs.Tested.{IsTested};
ghost use Rattle.set_facts.specs.Facts.{AreLeads, HasNoneBeyond};
ghost use Rattle.set_facts.specs.LaneFacts.{HasWays};
ghost use Rattle.job_setup.specs.StrokeGroup.{group_of, is_lead};
ghost use Rattle.bb_search.specs.Groups.{AreGroups};
ghost use Rattle.bb_search.specs.KnownActions.{TableData, AreKnown, IsRefusal, IsLearnt, IsChangedAt};
ghost use Rattle.action_lanes.specs.Costs.{AreCosts};
ghost use Rattle.bb_search.specs.LaneSums.{AreSums, AreBendSums, AreStillSums, AreSideSums};
ghost use Rattle.brake_base.specs.Actions.{IsActionAmong};

use crate::known::KnownActions;
use crate::known_sets::KnownSets;
use action_lanes::ActionCosts;
use bend_state::BendState;
use brake_base::{Action, Back, Gauge, Key, Mask, Reason, Turn};
use job_setup::{Job, group};
use set_facts::{FactTable, LaneFacts, SetFacts};
use stage_lanes::StageCosts;
use std::alloc::{AllocError, Global};
use std::marker::Model;
use stroke_table::{StageStroke, StrokeTable};

/// What a test of an action tells: the first reason against it, or how the part is held and gauged.
#[derive(Clone, Copy, Debug)]
pub enum Tested {
    Refused(Reason),
    Free { attitude: Turn, gauge: Gauge },
}

/// What is kept of each set of folded bends: what belongs to it, its strokes, and what is known of
/// its actions. Contracts see the job, and what is known by set.
#[derive(Drop)]
pub struct SearchTable {
    strokes: StrokeTable,
    facts: FactTable,
    lanes: LaneFacts,
    /// The bends of the stroke of each bend where none is folded.
    groups: [Mask; 12],
    known: KnownSets,
}

impl Model for SearchTable {
    ghost use Rattle.std.specs.Prelude.{◌≡◌};
    ghost use Rattle.bb_search.specs.KnownActions.{TableData};
    ghost use Rattle.bb_search.specs.Groups.{AreGroups};

    ghost Value = { TableData };

    ghost view = { λ t. record { job = t.strokes; known = t.known } };

    ghost invariant = { λ t. (t.facts ≡ t.strokes) × (t.lanes ≡ t.strokes) × AreGroups t.strokes t.groups };
}

/// The number of the sets of a job's bends.
fn set_count(job: &Job) -> usize
    ensures value { result ≡ 2 ^ bend_count job.now }
    ensures few { result ≤ 4096 }
    ensures valid { IsJob job.now }
{
    1 << job.bends()
}

/// The bends of the stroke of each bend of a job where none is folded.
fn groups_of(job: &Job) -> [Mask; 12]
    ensures groups { AreGroups job.now result }
    ensures valid { IsJob job.now }
{
    job.recall_valid();
    let mut groups = [Mask::empty(); 12];
    for bend in 1..job.bends() + 1 {
        groups[usize::from(bend - 1)] = group(job, Mask::empty(), bend);
    }
    groups
}

/// The set after the stroke of a bend, by the groups of the job's bends where none is folded.
fn folded_after(groups: &[Mask; 12], mask: Mask, bend: u8) -> Mask
    requires first { 1 ≤ bend }
    requires last { bend ≤ 12 }
    ensures { (job : JobData) → AreGroups job groups.now → bend ≤ bend_count job
        → result ≡ union mask (group_of job mask bend) }
{
    mask.union(groups[usize::from(bend - 1)])
}

/// How the part is held and gauged in a stroke that no reason refuses.
fn held(stroke: &StageStroke) -> Tested
    requires { stroke.now.gauge ≢ None }
    ensures { (gauge : Gauge) × (stroke.now.gauge ≡ Some gauge)
        × (result ≡ Tested.Free stroke.now.attitude gauge) }
{
    match stroke.gauge {
        Some(gauge) => Tested::Free {
            attitude: stroke.attitude,
            gauge,
        },
        None => unreachable!(),
    }
}

impl SearchTable {
    /// A table for the job, in which nothing is known. It takes all memory that it will use.
    pub fn open(alloc: Global, job: &Job) -> Result<SearchTable, AllocError>
        ensures job { IfOk result (λ table. table.job ≡ job.now) }
        ensures known { IfOk result (λ table. (limit : ℕ)
            → AreKnown job.now (empty_pool limit (24 * stage_count job.now)) table) }
    {
        let strokes = StrokeTable::open(alloc, job)?;
        let facts = FactTable::open(alloc, job)?;
        let lanes = LaneFacts::open(alloc, job)?;
        let known = KnownSets::open(alloc, set_count(job))?;
        Ok(SearchTable {
            strokes,
            facts,
            lanes,
            groups: groups_of(job),
            known,
        })
    }

    /// What belongs to a set.
    pub fn facts(&mut self, mask: Mask) -> SetFacts
        requires { mask.0 < 2 ^ bend_count self.old.job }
        ensures facts { IsFacts self.old.job mask result }
        ensures table { self.new ≡ self.old }
    {
        self.facts.facts(mask)
    }

    /// The leads of the strokes that may come next where the bends of the mask are folded.
    pub fn leads(&self, mask: Mask) -> Mask
        requires { mask.0 < 2 ^ bend_count self.now.job }
        ensures leads { AreLeads self.now.job mask result }
        ensures only { HasNoneBeyond self.now.job result }
    {
        self.lanes.leads(mask)
    }

    /// The bound of a key, in tenths of a second.
    pub fn bound(&self, key: &Key) -> u32
        requires valid { IsJob self.now.job }
        requires key { IsKeyOf self.now.job key.now }
        ensures { result ≡ bound_of self.now.job key.now }
    {
        self.lanes.bounds(key.mask).cost(key.stage)
    }

    /// Puts the sum of each action at a key into costs that have no way on, in tenths of a second. At
    /// the other stages of the key's leads there is no way on then either.
    pub fn put_all_sums(&self, job: &Job, key: &Key, leads: Mask, sums: &mut ActionCosts)
        requires valid { IsJob job.now }
        requires job { job.now ≡ self.now.job }
        requires key { IsKeyOf job.now key.now }
        requires leads { AreLeads job.now key.now.mask leads }
        requires blocked { AreCosts sums.old (λ place. 536870912) }
        ensures { AreSums job.now key.now leads sums.new }
    {
        // A copy, since what is put might else be taken to change the key.
        let key = *key;
        let ways = self.lanes.ways(key.mask, key.stage);
        for bend in 1..job.bends() + 1 {
            if leads.contains(bend) {
                self.put_sums(job, &key, bend, ways, sums);
            }
        }
    }

    /// Puts the sums of a lead's actions at their places, by the ways to the stages.
    fn put_sums(&self, job: &Job, key: &Key, bend: u8, ways: StageCosts, sums: &mut ActionCosts)
        requires valid { IsJob job.now }
        requires job { job.now ≡ self.now.job }
        requires key { IsKeyOf job.now key.now }
        requires first { 1 ≤ bend }
        requires last { bend ≤ bend_count job.now }
        requires lead { IsTrue (is_lead job.now key.now.mask bend) }
        requires ways { HasWays job.now key.now.mask key.now.stage ways.0 }
        requires small { (stage : ℕ) → stage < 8 → slice_index ways.0 stage ≤ 536870912 }
        ensures { AreBendSums job.now key.now bend sums.old sums.new }
    {
        let onward = self.onward(job, key, bend, ways);
        let parent = self.turned(job, key, bend, Back::Parent, onward);
        let child = self.turned(job, key, bend, Back::Child, onward);
        sums.set_side(bend, Back::Parent, parent);
        sums.set_side(bend, Back::Child, child);
    }

    /// What a stroke of a lead and what comes after it cost at least, at each stage, by the ways to
    /// the stages and without the change of attitude.
    fn onward(&self, job: &Job, key: &Key, bend: u8, ways: StageCosts) -> StageCosts
        requires valid { IsJob job.now }
        requires job { job.now ≡ self.now.job }
        requires key { IsKeyOf job.now key.now }
        requires first { 1 ≤ bend }
        requires last { bend ≤ bend_count job.now }
        requires lead { IsTrue (is_lead job.now key.now.mask bend) }
        requires ways { HasWays job.now key.now.mask key.now.stage ways.0 }
        requires small { (stage : ℕ) → stage < 8 → slice_index ways.0 stage ≤ 536870912 }
        ensures { AreStillSums job.now key.now bend result.0 }
    {
        job.recall_valid();
        let after = self
            .lanes
            .bounds(folded_after(&self.groups, key.mask, bend));
        let stroke = StageCosts::all(job.setup().cost.stroke as u32);
        after.plus(ways).plus(stroke)
    }

    /// The sums of a lead's actions with this side at the back, from what they cost without the
    /// change of attitude.
    fn turned(&self, job: &Job, key: &Key, bend: u8, back: Back, onward: StageCosts) -> StageCosts
        requires valid { IsJob job.now }
        requires job { job.now ≡ self.now.job }
        requires key { IsKeyOf job.now key.now }
        requires first { 1 ≤ bend }
        requires last { bend ≤ bend_count job.now }
        requires onward { AreStillSums job.now key.now bend onward.0 }
        ensures { AreSideSums job.now key.now bend back result.0 }
    {
        let attitude = self.lanes.attitude(key.mask, bend, back);
        let change = self.lanes.change(key.attitude, attitude);
        onward.plus(StageCosts::all(change))
    }

    /// What is known of the actions at a set.
    pub fn known(&self, mask: Mask) -> &KnownActions
        requires { mask.0 < length self.now.known }
        ensures { slice_get self.now.known mask.0 ≡ Some result.now }
    {
        self.known.at(mask)
    }

    /// A reason refuses an action at a set.
    pub fn refuse(&mut self, mask: Mask, action: Action)
        requires mask { mask.0 < length self.old.known }
        requires action { IsActionAmong 12 8 action }
        ensures job { self.new.job ≡ self.old.job }
        ensures known { IsChangedAt (IsRefusal action) mask.0
            self.old.known self.new.known }
    {
        self.known.refuse(mask, action);
    }

    /// The slack of an action at a set is known.
    pub fn learn(&mut self, mask: Mask, action: Action, slack: u32)
        requires mask { mask.0 < length self.old.known }
        requires action { IsActionAmong 12 8 action }
        ensures job { self.new.job ≡ self.old.job }
        ensures known { IsChangedAt (IsLearnt action slack) mask.0
            self.old.known self.new.known }
    {
        self.known.learn(mask, action, slack);
    }

    /// What a test of an action tells at a key, whose bends are folded as the part stands.
    pub fn test(&mut self, job: &Job, state: &BendState, key: &Key, action: Action) -> Tested
        requires valid { IsJob job.now }
        requires job { job.now ≡ self.old.job }
        requires shape { state.now.shape ≡ shape_of job.now }
        requires mask { state.now.mask ≡ key.now.mask }
        requires key { IsKeyOf job.now key.now }
        requires action { IsActionAt job.now key.now action }
        ensures tested { IsTested job.now key.now action result }
        ensures table { self.new ≡ self.old }
    {
        match self
            .strokes
            .reason_at(job, state.places(), key.mask, action)
        {
            Some(reason) => Tested::Refused(reason),
            None => {
                let stroke = self
                    .strokes
                    .stroke_at(job, state.places(), key.mask, action);
                held(&stroke)
            }
        }
    }
}
