//! The worths of the keys of a set, for eight stages at once. The next keys of all keys of a set
//! are the same, and a step costs what its change of attitude and its way to a stage cost. So the
//! least is found in steps: by attitude and stage what is proved there, then over the attitudes,
//! then over the stages.
ghost use Rattle.std.specs.Prelude.{◌≡◌, ℕ, ◌+◌, ◌<◌, ◌≤◌, min, List, [], length, Option, Some, None, slice_index, slice_index_or};
ghost use Rattle.brake_base.specs.declared.stroke.Key.{Key};
ghost use Rattle.brake_base.specs.declared.stroke.Worth.TheVariants.{Blocked};
ghost use Rattle.job_setup.specs.Setup.{stage_count};
ghost use Rattle.handling_cost.specs.StepCost.{IsKeyOf};
ghost use Rattle.cert_lines.specs.Lines.{IsWorth};
ghost use Rattle.cert_merge.specs.Settled.{capped};
ghost use Rattle.cert_merge.specs.Settling.{AreReady, IsReady, IsLeastAfter, place_in_set};
ghost use Rattle.stage_lanes.specs.Lanes.{AreLanes};
ghost use Rattle.cert_merge.specs.SetWorths.{number_of, worth_of, lane_at, lanes_of, AreLaneRows, AreProved, cost_of_change, AreChangedFrom, AreChanged, IsSettledByLanes};

use crate::settled_sets::{NextKey, action_count};
use brake_base::{Key, Mask, Turn, Worth};
use job_setup::Job;
use set_facts::LaneFacts;
use stage_lanes::StageCosts;

/// The greatest number that a row may have, in tenths of a second.
const GREATEST_WORTH: u64 = 1_000_000_000;

/// What stands for no way on: above each sum of step costs and a worth of a row, and so low that a
/// sum with it fits a lane.
const NEVER: u32 = 1_500_000_000;

/// Above each sum of a step's costs and a worth of a row, and below each sum with [`NEVER`].
const ABOVE: u32 = 1_200_000_000;

/// The worths of the keys of a mask.
pub(crate) fn set_worths(
    job: &Job,
    facts: &LaneFacts,
    mask: Mask,
    nexts: &[Option<NextKey>; 144],
) -> [Worth; 144]
    requires facts { job.now ≡ facts.now }
    requires nexts { AreReady job.now nexts.now }
    ensures { (key : Key) → IsKeyOf job.now key → key.mask ≡ mask
        → IsLeastAfter job.now key nexts.now (slice_index_or result (place_in_set key) Blocked) }
{
    job.recall_valid();
    let proved = least_proved(job, nexts);
    let changed = all_changed(facts, &proved);
    let mut worths = [Worth::Blocked; 144];
    for place in 0..144u8 {
        if place % 6 < job.stages() {
            let key = Key {
                mask,
                attitude: Turn::from_number(place / 6),
                stage: place % 6,
            };
            worths[usize::from(place)] = settled_worth(job, facts, &key, &changed);
        }
    }
    worths
}

/// By attitude and stage the least that is proved of a next key there.
fn least_proved(job: &Job, nexts: &[Option<NextKey>; 144]) -> [StageCosts; 24]
    requires { AreReady job.now nexts.now }
    ensures rows { AreLaneRows result }
    ensures proved { AreProved nexts.now result }
{
    job.recall_valid();
    let mut proved = [StageCosts::all(NEVER); 24];
    for number in 0..action_count(job) {
        if let Some(next) = next_at(nexts, number) {
            lower(&mut proved, &next);
        }
    }
    proved
}

/// Where the action of a number leads.
fn next_at(nexts: &[Option<NextKey>; 144], number: u8) -> Option<NextKey>
    requires { number < 144 }
    ensures { result ≡ slice_index_or nexts.now number None }
{
    nexts[usize::from(number)]
}

/// Lowers the lane of a next key to what is proved of it, where that is less.
fn lower(proved: &mut [StageCosts; 24], next: &NextKey)
    requires stage { next.now.key.stage < 8 }
    requires worth { IsWorth next.now.proved }
    ensures count { length proved.new ≡ 24 }
    ensures attitude { next.now.key.attitude < 24 }
    ensures here { lane_at proved.new next.now.key.attitude next.now.key.stage
        ≡ min (lane_at proved.old next.now.key.attitude next.now.key.stage)
        (number_of next.now.proved) }
    ensures rest { (attitude stage : ℕ) → stage < 8
        → (attitude ≡ next.now.key.attitude → stage ≡ next.now.key.stage → ⊥)
        → lane_at proved.new attitude stage ≡ lane_at proved.old attitude stage }
{
    let attitude = usize::from(next.key.attitude.number());
    let lanes = proved[attitude];
    let least = lanes.cost(next.key.stage).min(number_of(next.proved));
    proved[attitude] = lanes.with(next.key.stage, least);
}

/// A worth that a row may have, as a number.
fn number_of(worth: Worth) -> u32
    requires { IsWorth worth }
    ensures { result ≡ number_of worth }
{
    match worth {
        Worth::Cost(cost) => cost as u32,
        Worth::Blocked => NEVER,
    }
}

/// By attitude and stage the least, over all attitudes, of what the change to one costs and is then
/// proved at the stage.
fn all_changed(facts: &LaneFacts, proved: &[StageCosts; 24]) -> [StageCosts; 24]
    requires { AreLaneRows proved.now }
    ensures rows { AreLaneRows result }
    ensures changed { AreChanged facts.now proved.now result }
{
    let mut changed = [StageCosts::all(NEVER); 24];
    for from in 0..24u8 {
        changed[usize::from(from)] = changed_from(facts, proved, Turn::from_number(from));
    }
    changed
}

/// The same from one attitude.
fn changed_from(facts: &LaneFacts, proved: &[StageCosts; 24], from: Turn) -> StageCosts
    requires { AreLaneRows proved.now }
    ensures changed { AreChangedFrom facts.now proved.now from result.0 }
    ensures small { (stage : ℕ) → stage < 8 → slice_index result.0 stage ≤ 1500000000 }
{
    let mut least = StageCosts::all(NEVER);
    for to in 0..24u8 {
        let costs = costs_after(facts, proved, from, to);
        least = least.lesser(costs);
    }
    least
}

/// By stage what a change between two attitudes costs and is then proved there.
fn costs_after(facts: &LaneFacts, proved: &[StageCosts; 24], from: Turn, to: u8) -> StageCosts
    requires rows { AreLaneRows proved.now }
    requires to { to < 24 }
    ensures { AreLanes result.0
        (λ stage. cost_of_change facts.now from to + lane_at proved.now to stage) }
{
    let change = StageCosts::all(facts.change(from, Turn::from_number(to)));
    change.plus(proved[usize::from(to)])
}

/// The worth of a key: that of the least over the stages.
fn settled_worth(job: &Job, facts: &LaneFacts, key: &Key, changed: &[StageCosts; 24]) -> Worth
    requires facts { job.now ≡ facts.now }
    requires stage { key.now.stage < stage_count job.now }
    requires rows { AreLaneRows changed.now }
    ensures { IsSettledByLanes job.now key.now (lanes_of changed.now key.now.attitude) result }
{
    let lanes = changed[usize::from(key.attitude.number())];
    let ways = facts.ways(key.mask, key.stage);
    worth_from(stroke_cost(job) + ways.plus(lanes).least())
}

/// What a stroke costs without a change of attitude and a way.
fn stroke_cost(job: &Job) -> u32
    ensures value { result ≡ job.now.setup.cost.stroke }
    ensures small { result ≤ 1000000 }
{
    job.setup().cost.stroke as u32
}

/// The worth, as a row may have it, that a number stands for.
fn worth_from(number: u32) -> Worth
    ensures { result ≡ capped (worth_of number) }
{
    if number < ABOVE {
        Worth::Cost(u64::from(number).min(GREATEST_WORTH))
    } else {
        Worth::Blocked
    }
}
