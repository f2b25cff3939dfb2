//! The kept plan: from key to key by the worths of the rows.
ghost use Rattle.std.specs.Prelude.{◌≡◌, ℕ, ◌+◌, ◌≤◌, [], length, IfSome, IfNone, Some};
ghost use Rattle.undo_region.specs.Room.{list_with_room};
ghost use Rattle.brake_base.specs.declared.stroke.Worth.{Worth};
ghost use Rattle.job_setup.specs.Setup.{shape_of};
ghost use Rattle.job_setup.specs.ValidJob.{IsJob};
ghost use Rattle.handling_cost.specs.StepCost.{IsKeyOf, IsActionAt, attitude_at, key_after};
ghost use Rattle.handling_cost.specs.Plan.{IsLegal, IsPlan, total, start};
ghost use Rattle.bb_search.specs.Tested.{IsFirstGauge};
ghost use Rattle.bb_search.specs.Settling.{IsKnown, IsSound};
ghost use Rattle.bb_search.specs.Onward.{IsOnward, NoneGoesOn};
ghost use Rattle.bb_search.specs.Orders.{AreOrders};
ghost use Rattle.bb_search.specs.Outcomes.{HaveFirstGauges};
ghost use Rattle.bb_search.specs.Table.{HasRow};

use crate::orders::{action_in, push_sorted_orders};
use crate::search_table::{SearchTable, Tested};
use crate::settle::key_with;
use arrayvec::ArrayVec;
use bend_state::BendState;
use brake_base::{Action, Gauge, Key, Mask, Place, Step, Turn, Worth};
use handling_cost::{cost_to, is_full, start_key};
use job_setup::{Job, group};
use row_pool::RowPool;
use undo_region::Region;

/// The most that a plan costs, in tenths of a second.
const MOST_COST: u64 = 1_000_000_000;

/// A step of the kept plan, the key to which it leads, and the cost of what comes after it.
#[derive(Clone, Copy, Debug)]
pub(crate) struct Onward {
    pub(crate) step: Step,
    pub(crate) next: Key,
    pub(crate) rest: u64,
}

/// The cost of a worth that was found and isn't Blocked.
fn cost_in(worth: Option<Worth>) -> Option<u64>
    ensures some { IfSome result (λ cost. worth ≡ Some (Worth.Cost cost)) }
    ensures only { (cost : ℕ) → worth ≡ Some (Worth.Cost cost) → result ≡ Some cost }
{
    match worth {
        Some(Worth::Cost(cost)) => Some(cost),
        _ => None,
    }
}

/// The cost of a key's worth, if it has one that isn't Blocked.
fn known_cost(job: &Job, pool: &RowPool, key: &Key) -> Option<u64>
    requires job { IsJob job.now }
    requires sound { IsSound job.now pool.now.rows }
    requires key { IsKeyOf job.now key.now }
    ensures known { IfSome result (λ cost.
        IsKnown job.now pool.now.rows key.now (Worth.Cost cost)) }
    ensures small { IfSome result (λ cost. cost ≤ MOST_COST) }
    ensures only { (cost : ℕ) → IsKnown job.now pool.now.rows key.now (Worth.Cost cost)
        → result ≡ Some cost }
{
    if is_full(job, key) {
        return Some(0);
    }
    let row = pool.find(*key)?;
    cost_in(pool.worth(row))
}

/// The step of an action held in this attitude with this gauge, if the rows give the worth by it.
fn onward_by(
    job: &Job,
    pool: &RowPool,
    key: &Key,
    worth: u64,
    action: Action,
    attitude: Turn,
    gauge: Gauge,
) -> Option<Onward>
    requires job { IsJob job.now }
    requires sound { IsSound job.now pool.now.rows }
    requires key { IsKeyOf job.now key.now }
    requires action { IsActionAt job.now key.now action }
    requires attitude { attitude ≡ attitude_at job.now key.now.mask action }
    requires legal { IsLegal job.now key.now (record { action = action; gauge = gauge }) }
    ensures onward { IfSome result (λ onward.
        IsOnward job.now pool.now.rows key.now worth onward.step onward.rest) }
    ensures step { IfSome result (λ onward.
        onward.step ≡ record { action = action; gauge = gauge }) }
    ensures next { IfSome result (λ onward. onward.next ≡ key_after job.now key.now action) }
    ensures none { IfNone result (NoneGoesOn job.now pool.now.rows key.now worth action) }
{
    let next = key_with(
        key,
        group(job, key.mask, action.bend),
        attitude,
        action.stage,
    );
    let rest = known_cost(job, pool, &next)?;
    if cost_to(job, key, attitude, action.stage) + rest != worth {
        return None;
    }
    let step = Step { action, gauge };
    Some(Onward { step, next, rest })
}

/// The step with this action, if the rows give the worth by it.
fn step_by(
    job: &Job,
    pool: &RowPool,
    table: &mut SearchTable,
    state: &BendState,
    key: &Key,
    worth: u64,
    action: Action,
) -> Option<Onward>
    requires job { IsJob job.now }
    requires sound { IsSound job.now pool.now.rows }
    requires table { job.now ≡ table.old.job }
    requires shape { state.now.shape ≡ shape_of job.now }
    requires mask { state.now.mask ≡ key.now.mask }
    requires key { IsKeyOf job.now key.now }
    requires action { IsActionAt job.now key.now action }
    ensures onward { IfSome result (λ onward.
        IsOnward job.now pool.now.rows key.now worth onward.step onward.rest) }
    ensures gauge { IfSome result (λ onward.
        IsFirstGauge job.now key.now.mask onward.step.action onward.step.gauge) }
    ensures next { IfSome result (λ onward.
        onward.next ≡ key_after job.now key.now onward.step.action) }
    ensures none { IfNone result (NoneGoesOn job.now pool.now.rows key.now worth action) }
    ensures table { table.new ≡ table.old }
{
    match table.test(job, state, key, action) {
        Tested::Refused(_reason) => None,
        Tested::Free { attitude, gauge } => {
            onward_by(job, pool, key, worth, action, attitude, gauge)
        }
    }
}

/// The step from a key on which the kept plan goes: the first in the order of the search by which
/// the rows give the key's worth.
fn next_step(
    job: &Job,
    pool: &RowPool,
    table: &mut SearchTable,
    state: &BendState,
    key: &Key,
    worth: u64,
) -> Onward
    requires job { IsJob job.now }
    requires sound { IsSound job.now pool.now.rows }
    requires table { job.now ≡ table.old.job }
    requires shape { state.now.shape ≡ shape_of job.now }
    requires mask { state.now.mask ≡ key.now.mask }
    requires key { IsKeyOf job.now key.now }
    requires row { HasRow pool.now.rows key.now (Worth.Cost worth) }
    ensures onward { IsOnward job.now pool.now.rows key.now worth result.step result.rest }
    ensures gauge { IsFirstGauge job.now key.now.mask result.step.action result.step.gauge }
    ensures next { result.next ≡ key_after job.now key.now result.step.action }
    ensures table { table.new ≡ table.old }
{
    let mut orders = ArrayVec::new();
    push_sorted_orders(job, table, key, &mut orders);
    first_onward(job, pool, table, state, key, worth, orders.as_slice())
}

/// The first step, in the order of these orders, by which the rows give the key's worth.
fn first_onward(
    job: &Job,
    pool: &RowPool,
    table: &mut SearchTable,
    state: &BendState,
    key: &Key,
    worth: u64,
    orders: &[u64],
) -> Onward
    requires job { IsJob job.now }
    requires sound { IsSound job.now pool.now.rows }
    requires table { job.now ≡ table.old.job }
    requires shape { state.now.shape ≡ shape_of job.now }
    requires mask { state.now.mask ≡ key.now.mask }
    requires key { IsKeyOf job.now key.now }
    requires row { HasRow pool.now.rows key.now (Worth.Cost worth) }
    requires orders { AreOrders job.now key.now orders.now }
    ensures onward { IsOnward job.now pool.now.rows key.now worth result.step result.rest }
    ensures gauge { IsFirstGauge job.now key.now.mask result.step.action result.step.gauge }
    ensures next { result.next ≡ key_after job.now key.now result.step.action }
    ensures table { table.new ≡ table.old }
{
    for order in orders {
        let action = action_in(job, key, *order);
        let found = step_by(job, pool, table, state, key, worth, action);
        if let Some(onward) = found {
            return onward;
        }
    }
    unreachable!()
}

/// The steps of the kept plan. They are folded, as the trail has it.
pub(crate) fn kept_plan(
    job: &Job,
    pool: &RowPool,
    table: &mut SearchTable,
    state: &mut BendState,
    trail: &mut Region<Place>,
    cost: u64,
) -> ArrayVec<Step, 12>
    requires job { IsJob job.now }
    requires sound { IsSound job.now pool.now.rows }
    requires table { job.now ≡ table.old.job }
    requires shape { state.old.shape ≡ shape_of job.now }
    requires mask { state.old.mask ≡ start.mask }
    requires known { IsKnown job.now pool.now.rows start (Worth.Cost cost) }
    requires room { trail.old ≡ list_with_room [] 156 }
    ensures plan { IsPlan job.now result.items }
    ensures cost { total job.now start result.items ≡ cost }
    ensures gauges { HaveFirstGauges job.now start result.items }
    ensures table { table.new ≡ table.old }
    ensures trail { trail.new.room + length trail.new.items ≡ 156 }
{
    let mut steps = ArrayVec::new();
    let mut key = start_key();
    let mut worth = cost;
    while !is_full(job, &key) {
        let onward = next_step(job, pool, table, state, &key, worth);
        steps.push(onward.step);
        state.fold(trail, group(job, key.mask, onward.step.action.bend));
        key = onward.next;
        worth = onward.rest;
    }
    steps
}
