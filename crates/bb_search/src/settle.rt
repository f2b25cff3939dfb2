//! The recursion that settles keys.
ghost use Rattle.std.specs.Prelude.{◌≡◌, ℕ, ◌+◌, ◌*◌, ◌<◌, ◌≤◌, ◌⊎◌, false, IfNone, IfSome, length, Contains};
ghost use Rattle.brake_base.specs.Masks.{union};
ghost use Rattle.fold_boxes.specs.Pose.{IsGroup};
ghost use Rattle.stage_lanes.specs.ActionSets.{place_of, has, IsNone};
ghost use Rattle.action_lanes.specs.Costs.{cost_at, IsCheapest};
ghost use Rattle.action_lanes.specs.Cheapest.{AreOf, AreCheapest};
ghost use Rattle.brake_base.specs.Worths.{IsAtMost};
ghost use Rattle.job_setup.specs.Setup.{shape_of, stage_count};
ghost use Rattle.job_setup.specs.ValidJob.{IsJob};
ghost use Rattle.set_facts.specs.Facts.{AreLeads, HasNoneBeyond};
ghost use Rattle.row_pool.specs.Rows.{Pool, keys};
ghost use Rattle.handling_cost.specs.StepCost.{IsKeyOf, IsActionAt, IsFull, left};
ghost use Rattle.handling_cost.specs.Bound.{bound_of, sum_of};
ghost use Rattle.handling_cost.specs.Reach.{IsNode};
ghost use Rattle.bb_search.specs.Settling.{IsSound, OpenAbove, IsSpent, IsFound, IsKnownAfter};
ghost use Rattle.bb_search.specs.KnownActions.{AreKnown, IsChoice, IsFloor, AreOpen, IsToldOf, IsSlack, HasLeast, HasSmallSlack, HasNoneBelow, IsWorthOf, slack_of};
ghost use Rattle.bb_search.specs.LaneSums.{AreSums, AreOpenSums};
ghost use Rattle.bb_search.specs.OpenRows.{IsSettlingBy, IsOpenFor, IsKnownSo, HasChanged, IsSameAbove, unknown_count};

use crate::search_table::{SearchTable, Tested};
use crate::totals::{least_total, tested_for};
use action_lanes::ActionCosts;
use bend_state::BendState;
use brake_base::{Action, Key, Mask, Place, Turn, Worth, action_number};
use handling_cost::is_full;
use job_setup::{Job, group};
use row_pool::RowPool;
use stage_lanes::{ActionSet, BLOCKED};
use undo_region::Region;

/// What a key's worth is by what is known of its actions, and which of them have to be tested.
#[derive(Clone, Copy, Debug)]
pub(crate) struct Choice {
    /// The least sum and slack of an action, in tenths of a second; [`BLOCKED`] where none is known.
    best: u32,
    /// The actions that a search by their sums tests until it has that.
    tested: ActionSet,
}

/// The worth of a key to which a group leads: 0 where every bend is folded, else that of its row,
/// if it has one, else the one that is found by settling it with the group folded. None where all
/// rows are used.
#[cycle(settling)]
fn worth_of(
    job: &Job,
    pool: &mut RowPool,
    table: &mut SearchTable,
    state: &mut BendState,
    trail: &mut Region<Place>,
    next: &Key,
    group: Mask,
) -> Option<Worth>
    requires job { IsJob job.now }
    requires known { AreKnown job.now pool.old table.old }
    requires sound { IsSound job.now pool.old.rows }
    requires range { IsKeyOf job.now next.now }
    requires node { (IsFull job.now next.now → ⊥) → IsNode job.now next.now }
    requires open { OpenAbove job.now pool.old.rows (left job.now next.now) }
    requires shape { state.old.shape ≡ shape_of job.now }
    requires group { IsGroup state.old.shape state.old.mask group }
    requires mask { next.now.mask ≡ union state.old.mask group }
    requires room { 13 * left job.now next.now + 13 ≤ trail.old.room }
    ensures found { IsFound job.now pool.old pool.new next.now result }
    ensures known { IfSome result (λ _. AreKnown job.now pool.new table.new) }
    ensures job { table.new.job ≡ table.old.job }
    ensures above { IsSameAbove job.now table.old table.new (left job.now next.now) }
    ensures state { state.new ≡ state.old }
    ensures trail { trail.new ≡ trail.old }
{
    if is_full(job, next) {
        return Some(Worth::Cost(0));
    }
    if let Some(row) = pool.find(*next) {
        return pool.worth(row);
    }
    if let Some(worth) = settle_known(job, pool, table, next) {
        return Some(worth);
    }
    state.fold(trail, group);
    let worth = settle(job, pool, table, state, trail, next);
    state.undo(trail);
    worth
}

/// Settles a key that has no row and whose bends are folded.
#[cycle(settling)]
pub(crate) fn settle(
    job: &Job,
    pool: &mut RowPool,
    table: &mut SearchTable,
    state: &mut BendState,
    trail: &mut Region<Place>,
    key: &Key,
) -> Option<Worth>
    requires job { IsJob job.now }
    requires known { AreKnown job.now pool.old table.old }
    requires sound { IsSound job.now pool.old.rows }
    requires range { IsKeyOf job.now key.now }
    requires node { IsNode job.now key.now }
    requires open { OpenAbove job.now pool.old.rows (left job.now key.now) }
    requires new_key { Contains (keys pool.old) key.now → ⊥ }
    requires shape { state.old.shape ≡ shape_of job.now }
    requires mask { state.old.mask ≡ key.now.mask }
    requires room { 13 * left job.now key.now ≤ trail.old.room }
    ensures found { IsFound job.now pool.old pool.new key.now result }
    ensures known { IfSome result (λ _. AreKnown job.now pool.new table.new) }
    ensures job { table.new.job ≡ table.old.job }
    ensures above { IsSameAbove job.now table.old table.new (left job.now key.now) }
    ensures state { state.new ≡ state.old }
    ensures trail { trail.new ≡ trail.old }
{
    let row = pool.add(*key)?;
    let leads = table.leads(key.mask);
    let mut sums = ActionCosts::all(BLOCKED);
    table.put_all_sums(job, key, leads, &mut sums);
    let mut choice = choose(table, key, leads, &sums);
    let mut untested = choice.tested.without(table.known(key.mask).known);
    while !untested.is_empty() {
        explore(
            job,
            pool,
            table,
            state,
            trail,
            key,
            leads,
            &sums,
            choice.best,
            untested,
        )?;
        choice = choose(table, key, leads, &sums);
        untested = choice.tested.without(table.known(key.mask).known);
    }
    let refused = table.known(key.mask).refused;
    pool.set_notes(row, choice.tested.intersection(refused));
    let worth = worth_from(choice.best);
    pool.set_worth(row, worth);
    Some(worth)
}

/// Settles a key that has no row by what is known, where that is enough: then none of its actions
/// has to be tested. None where it isn't, or all rows are used.
fn settle_known(job: &Job, pool: &mut RowPool, table: &SearchTable, key: &Key) -> Option<Worth>
    requires job { IsJob job.now }
    requires known { AreKnown job.now pool.old table.now }
    requires sound { IsSound job.now pool.old.rows }
    requires range { IsKeyOf job.now key.now }
    requires node { IsNode job.now key.now }
    requires new_key { Contains (keys pool.old) key.now → ⊥ }
    ensures found { IfSome result (IsKnownAfter job.now pool.old pool.new key.now) }
    ensures known { IfSome result (λ _. AreKnown job.now pool.new table.now) }
    ensures same { IfNone result (pool.new ≡ pool.old) }
{
    let leads = table.leads(key.mask);
    let mut sums = ActionCosts::all(BLOCKED);
    table.put_all_sums(job, key, leads, &mut sums);
    let choice = choose(table, key, leads, &sums);
    let known = table.known(key.mask);
    if !choice.tested.without(known.known).is_empty() {
        return None;
    }
    let notes = choice.tested.intersection(known.refused);
    let row = pool.add(*key)?;
    pool.set_notes(row, notes);
    let worth = worth_from(choice.best);
    pool.set_worth(row, worth);
    Some(worth)
}

/// What a key's worth is by what is known, and which of its actions have to be tested.
fn choose(table: &SearchTable, key: &Key, leads: Mask, sums: &ActionCosts) -> Choice
    requires valid { IsJob table.now.job }
    requires key { IsKeyOf table.now.job key.now }
    requires places { key.now.mask.0 < length table.now.known }
    requires leads { AreLeads table.now.job key.now.mask leads }
    requires only { HasNoneBeyond table.now.job leads }
    requires sums { AreSums table.now.job key.now leads sums.now }
    requires small { IsKnownSo table.now key.now.mask HasSmallSlack }
    ensures { IsKnownSo table.now key.now.mask (λ at. IsChoice table.now.job key.now at result) }
{
    let slack = &table.known(key.mask).slack;
    let best = least_total(sums, slack, leads);
    let tested = tested_for(sums, slack, leads, best);
    Choice { best, tested }
}

/// A cost as a worth: [`BLOCKED`] is that of no way on.
fn worth_from(cost: u32) -> Worth
    requires { cost ≤ 536870912 }
    ensures { IsWorthOf cost result }
{
    if cost < BLOCKED {
        Worth::Cost(u64::from(cost))
    } else {
        Worth::Blocked
    }
}

/// Tests untested actions by their sums, as long as one may give less than what is known.
#[cycle(settling)]
fn explore(
    job: &Job,
    pool: &mut RowPool,
    table: &mut SearchTable,
    state: &mut BendState,
    trail: &mut Region<Place>,
    key: &Key,
    leads: Mask,
    sums: &ActionCosts,
    best: u32,
    untested: ActionSet,
) -> Option<()>
    requires job { IsJob job.now }
    requires known { AreKnown job.now pool.old table.old }
    requires range { IsKeyOf job.now key.now }
    requires node { IsNode job.now key.now }
    requires settling { IsOpenFor job.now pool.old key.now table.old }
    requires shape { state.old.shape ≡ shape_of job.now }
    requires mask { state.old.mask ≡ key.now.mask }
    requires room { 13 * left job.now key.now ≤ trail.old.room }
    requires leads { AreLeads job.now key.now.mask leads }
    requires sums { AreSums job.now key.now leads sums.now }
    requires capped { best ≤ 536870912 }
    requires least { IsKnownSo table.old key.now.mask (HasLeast job.now key.now best) }
    requires open { IsKnownSo table.old key.now.mask
        (λ at. AreOpen job.now key.now at best untested) }
    requires some { IsNone untested → ⊥ }
    ensures spent { IfNone result (IsSpent job.now pool.old pool.new) }
    ensures found { IfSome result (λ _. (before : Pool)
        → IsSettlingBy job.now before pool.old key.now table.old
        → IsSettlingBy job.now before pool.new key.now table.new) }
    ensures known { IfSome result (λ _. AreKnown job.now pool.new table.new) }
    ensures fewer { IfSome result (λ _. HasChanged table.old table.new key.now.mask
        (λ old new. unknown_count new < unknown_count old)) }
    ensures job { table.new.job ≡ table.old.job }
    ensures above { IsSameAbove job.now table.old table.new (left job.now key.now) }
    ensures state { state.new ≡ state.old }
    ensures trail { trail.new ≡ trail.old }
{
    let mut untested = untested;
    let mut untested_sums = sums.only(untested);
    let mut cheapest = ActionSet::empty();
    let mut limit = best + 1;
    while let Some(action) = next_open(&untested_sums, leads, untested, &mut cheapest, limit) {
        let slack = try_action(job, pool, table, state, trail, key, action)?;
        limit = limit.min(sums.cost(action) + slack);
        untested = untested.except(action);
        cheapest = cheapest.except(action);
        untested_sums.set_cost(action, BLOCKED);
    }
    Some(())
}

/// The first of some leads' actions by their sums, if its sum is below the limit; the sums of all
/// others are [`BLOCKED`]. The cheapest are kept until each was the first, so that the sums are gone
/// through once for all of these.
fn next_open(
    sums: &ActionCosts,
    leads: Mask,
    untested: ActionSet,
    cheapest: &mut ActionSet,
    limit: u32,
) -> Option<Action>
    requires leads { AreOf leads untested }
    requires sums { AreOpenSums untested sums.now }
    requires cheapest { AreCheapest sums.now untested cheapest.old }
    ensures cheapest { AreCheapest sums.now untested cheapest.new }
    ensures some { IfSome result (IsCheapest sums.now untested) }
    ensures below { IfSome result (λ action. cost_at sums.now (place_of action) < limit) }
    ensures none { IfNone result (HasNoneBelow sums.now untested limit) }
{
    if cheapest.is_empty() {
        *cheapest = sums.cheapest(leads, untested);
    }
    let action = cheapest.first()?;
    if sums.cost(action) < limit {
        Some(action)
    } else {
        None
    }
}

/// Tests an action at a key: it is refused, or the worth of its next key is found. Answers how much
/// that worth is above its key's bound; [`BLOCKED`] where there is no way on.
#[cycle(settling)]
fn try_action(
    job: &Job,
    pool: &mut RowPool,
    table: &mut SearchTable,
    state: &mut BendState,
    trail: &mut Region<Place>,
    key: &Key,
    action: Action,
) -> Option<u32>
    requires job { IsJob job.now }
    requires known { AreKnown job.now pool.old table.old }
    requires range { IsKeyOf job.now key.now }
    requires node { IsNode job.now key.now }
    requires settling { IsOpenFor job.now pool.old key.now table.old }
    requires action { IsActionAt job.now key.now action }
    requires unknown { IsKnownSo table.old key.now.mask (λ at. has at.known action ≡ false) }
    requires floor { IsKnownSo table.old key.now.mask
        (λ at. IsFloor job.now key.now at (sum_of job.now key.now action)) }
    requires shape { state.old.shape ≡ shape_of job.now }
    requires mask { state.old.mask ≡ key.now.mask }
    requires room { 13 * left job.now key.now ≤ trail.old.room }
    ensures spent { IfNone result (IsSpent job.now pool.old pool.new) }
    ensures found { IfSome result (λ _. (before : Pool)
        → IsSettlingBy job.now before pool.old key.now table.old
        → IsSettlingBy job.now before pool.new key.now table.new) }
    ensures known { IfSome result (λ _. AreKnown job.now pool.new table.new) }
    ensures told { IfSome result (λ _. HasChanged table.old table.new key.now.mask
        (IsToldOf action)) }
    ensures slack { IfSome result (λ slack. IsKnownSo table.new key.now.mask
        (λ at. slack_of at action ≡ slack)) }
    ensures job { table.new.job ≡ table.old.job }
    ensures above { IsSameAbove job.now table.old table.new (left job.now key.now) }
    ensures state { state.new ≡ state.old }
    ensures trail { trail.new ≡ trail.old }
{
    match table.test(job, state, key, action) {
        Tested::Refused(reason) => {
            pool.set_common(key.mask, action_number(action, job.stages()), reason);
            table.refuse(key.mask, action);
            Some(BLOCKED)
        }
        Tested::Free { attitude, gauge: _ } => {
            let group = group(job, key.mask, action.bend);
            let next = key_with(key, group, attitude, action.stage);
            let worth = worth_of(job, pool, table, state, trail, &next, group)?;
            let slack = slack_above(table, &next, worth);
            table.learn(key.mask, action, slack);
            Some(slack)
        }
    }
}

/// How much a key's worth is above its bound; [`BLOCKED`] where there is no way on.
fn slack_above(table: &SearchTable, key: &Key, worth: Worth) -> u32
    requires valid { IsJob table.now.job }
    requires key { IsKeyOf table.now.job key.now }
    requires small { IsAtMost worth (Worth.Cost 500000000) ⊎ (worth ≡ Worth.Blocked) }
    requires bound { IsAtMost (Worth.Cost (bound_of table.now.job key.now)) worth }
    ensures slack { IsSlack table.now.job key.now worth result }
    ensures small { result ≤ 536870912 }
{
    match worth {
        Worth::Cost(cost) => cost as u32 - table.bound(key),
        Worth::Blocked => BLOCKED,
    }
}

/// The key after a stroke that folds a group, in this attitude and at this stage.
pub(crate) fn key_with(key: &Key, group: Mask, attitude: Turn, stage: u8) -> Key
    ensures mask { result.mask ≡ union key.now.mask group }
    ensures attitude { result.attitude ≡ attitude }
    ensures stage { result.stage ≡ stage }
{
    Key {
        mask: key.mask.union(group),
        attitude,
        stage,
    }
}
