//! The settling of all keys of a set of folded bends, over what is known of greater masks.
ghost use Rattle.std.specs.Prelude.{◌≡◌, ◌↔◌, ℕ, Option, IfSome, ◌+◌, ◌-◌, ◌*◌, ◌^◌, ◌<◌, ◌≤◌, IsTrue, Some, None, length, slice_get, slice_index_or, option_map};
ghost use Rattle.brake_base.specs.declared.stroke.Key.{Key};
ghost use Rattle.brake_base.specs.declared.reason.Reason.{Reason};
ghost use Rattle.fold_boxes.specs.Places.{ArePlaces};
ghost use Rattle.job_setup.specs.Setup.{bend_count, stage_count, shape_of};
ghost use Rattle.handling_cost.specs.StepCost.{IsKeyOf, IsActionAt, key_after};
ghost use Rattle.handling_cost.specs.Bound.{bound_of};
ghost use Rattle.cert_lines.specs.Lines.{action_at};
ghost use Rattle.plan_cert.specs.WellFormed.{AreRowsOf};
ghost use Rattle.cert_lines.specs.Lines.{IsWorth};
ghost use Rattle.cert_merge.specs.Settled.{AreFirstNoted, IsFirstNoted};
ghost use Rattle.cert_merge.specs.Settling.{AreNext, AreReady, AreSettled, IsAmong, IsNextOf, IsReady, IsSettledSet, place_in_set, proved_over, said_by, said_in, with_worth};

use crate::proved_keys::{greater, worth_of};
use crate::set_worths::set_worths;
use brake_base::{Action, Key, Mask, Place, Reason, Worth, action_of};
use fold_boxes::place;
use handling_cost::is_lead;
use job_setup::{Job, group};
use plan_cert::RowHead;
use set_facts::LaneFacts;
use stroke_table::StrokeTable;

/// The rows of all keys of a set.
#[derive(Clone, Copy, Debug)]
pub(crate) struct SettledSet {
    /// The first reason against each action, by its number. None for a legal one, and for the
    /// number of one that can't be tried.
    pub reasons: [Option<Reason>; 144],
    /// The worth of each key, by its number among those of the set.
    pub worths: [Worth; 144],
}

/// The rows of all keys of some sets, from the highest mask downwards.
#[derive(Drop)]
pub(crate) struct SettledSets {
    pub high: u16,
    pub sets: Vec<SettledSet>,
}

/// The key to which an action leads, and what is proved of it.
#[derive(Clone, Copy, Debug)]
pub(crate) struct NextKey {
    pub key: Key,
    pub proved: Worth,
}

/// The number of a key among those of its mask: by its attitude, and then by its stage.
fn place_in_set(key: &Key) -> usize
    requires { key.now.stage < 6 }
    ensures value { result ≡ place_in_set key.now }
    ensures few { result < 144 }
{
    usize::from(key.attitude.number()) * 6 + usize::from(key.stage)
}

impl SettledSet {
    /// The worth of a key of the set.
    pub fn worth(&self, key: &Key) -> Worth
        requires { key.now.stage < 6 }
        ensures { result ≡ (said_by self.now key.now).worth }
    {
        self.worths[place_in_set(key)]
    }
}

impl SettledSets {
    /// The worth that was settled of a key. None where its mask isn't settled.
    fn worth(&self, key: &Key) -> Option<Worth>
        requires { key.now.stage < 6 }
        ensures { result ≡ option_map (λ said. said.worth) (said_in self.now key.now) }
    {
        if self.is_settled(key.mask) {
            Some(self.set(key.mask).worth(key))
        } else {
            None
        }
    }

    /// Whether the keys of a mask are settled.
    fn is_settled(&self, mask: Mask) -> bool
        ensures { IsTrue result ↔ IsAmong self.now mask }
    {
        mask.0 <= self.high && usize::from(self.high - mask.0) < self.sets.len()
    }

    /// The set of a mask that is settled.
    pub fn set(&self, mask: Mask) -> &SettledSet
        requires { IsAmong self.now mask }
        ensures { slice_get self.now.sets.items (self.now.high - mask.0) ≡ Some result.now }
    {
        &self.sets[usize::from(self.high - mask.0)]
    }
}

/// The number of the actions of all bends at all stages.
pub(crate) fn action_count(job: &Job) -> u8
    ensures value { result ≡ 2 * bend_count job.now * stage_count job.now }
    ensures few { result ≤ 144 }
{
    2 * job.bends() * job.stages()
}

/// The action of a number.
fn action_at(job: &Job, number: u8) -> Action
    requires { number < 2 * bend_count job.now * stage_count job.now }
    ensures { result ≡ action_at (stage_count job.now) number }
{
    action_of(number, job.stages())
}

/// Settles all keys of a mask.
pub(crate) fn settle_set(
    job: &Job,
    strokes: &mut StrokeTable,
    facts: &LaneFacts,
    base: &[RowHead],
    settled: &SettledSets,
    mask: Mask,
) -> SettledSet
    requires strokes { job.now ≡ strokes.old }
    requires facts { job.now ≡ facts.now }
    requires base { AreRowsOf job.now base.now }
    requires settled { AreSettled job.now base.now settled.now }
    requires mask { mask.0 < 2 ^ bend_count job.now }
    ensures set { IsSettledSet job.now (proved_over job.now base.now settled.now) mask result }
    ensures strokes { strokes.new ≡ strokes.old }
{
    let reasons = first_reasons(job, strokes, mask);
    let nexts = next_keys(job, facts, base, settled, mask, &reasons);
    let worths = set_worths(job, facts, mask, &nexts);
    SettledSet { reasons, worths }
}

/// The first reason against each action where the bends of the mask are folded, by the numbers of
/// the actions. None for a legal one, and for the number of one that can't be tried.
fn first_reasons(job: &Job, strokes: &mut StrokeTable, mask: Mask) -> [Option<Reason>; 144]
    requires strokes { job.now ≡ strokes.old }
    requires mask { mask.0 < 2 ^ bend_count job.now }
    ensures reasons { (key : Key) → key.mask ≡ mask
        → AreFirstNoted job.now key (λ action. slice_index_or result action None) }
    ensures strokes { strokes.new ≡ strokes.old }
{
    let places = place(job.shape(), mask);
    let mut reasons = [None; 144];
    for number in 0..action_count(job) {
        reasons[usize::from(number)] = first_reason_of(
            job,
            strokes,
            places.as_slice(),
            mask,
            number,
        );
    }
    reasons
}

/// The first reason against the action of a number, where it can be tried.
fn first_reason_of(
    job: &Job,
    strokes: &mut StrokeTable,
    places: &[Place],
    mask: Mask,
    number: u8,
) -> Option<Reason>
    requires strokes { job.now ≡ strokes.old }
    requires mask { mask.0 < 2 ^ bend_count job.now }
    requires count { length places.now ≡ length job.now.part.faces }
    requires places { ArePlaces (shape_of job.now) mask places.now }
    requires number { number < 2 * bend_count job.now * stage_count job.now }
    ensures reason { (key : Key) → key.mask ≡ mask → IsFirstNoted job.now key number result }
    ensures strokes { strokes.new ≡ strokes.old }
{
    job.recall_valid();
    let action = action_at(job, number);
    if is_lead(job, mask, action.bend) {
        strokes.reason_at(job, places, mask, action)
    } else {
        None
    }
}

/// Where the legal actions lead, and what is proved there, by the numbers of the actions.
fn next_keys(
    job: &Job,
    facts: &LaneFacts,
    base: &[RowHead],
    settled: &SettledSets,
    mask: Mask,
    reasons: &[Option<Reason>; 144],
) -> [Option<NextKey>; 144]
    requires facts { job.now ≡ facts.now }
    requires base { AreRowsOf job.now base.now }
    requires settled { AreSettled job.now base.now settled.now }
    requires mask { mask.0 < 2 ^ bend_count job.now }
    ensures next { (key : Key) → key.mask ≡ mask → AreNext job.now
        (proved_over job.now base.now settled.now) key
        (λ action. slice_index_or reasons.now action None) result }
    ensures ready { AreReady job.now result }
{
    let mut nexts = [None; 144];
    for number in 0..action_count(job) {
        if is_unnoted(reasons, number) {
            nexts[usize::from(number)] = next_of(job, facts, base, settled, mask, number);
        }
    }
    nexts
}

/// Whether no reason is noted against the action of a number.
fn is_unnoted(reasons: &[Option<Reason>; 144], number: u8) -> bool
    requires { number < 144 }
    ensures { IsTrue result ↔ (slice_index_or reasons.now number None ≡ None) }
{
    reasons[usize::from(number)].is_none()
}

/// Where the action of a number leads, where it can be tried, and what is proved there.
fn next_of(
    job: &Job,
    facts: &LaneFacts,
    base: &[RowHead],
    settled: &SettledSets,
    mask: Mask,
    number: u8,
) -> Option<NextKey>
    requires facts { job.now ≡ facts.now }
    requires base { AreRowsOf job.now base.now }
    requires settled { AreSettled job.now base.now settled.now }
    requires mask { mask.0 < 2 ^ bend_count job.now }
    requires number { number < 2 * bend_count job.now * stage_count job.now }
    ensures next { (key : Key) (reasons : ℕ → Option Reason) → key.mask ≡ mask
        → reasons number ≡ None → IsNextOf job.now
        (proved_over job.now base.now settled.now) key reasons number result }
    ensures ready { IfSome result (IsReady job.now) }
{
    job.recall_valid();
    let action = action_at(job, number);
    if is_lead(job, mask, action.bend) {
        let key = key_behind(job, facts, mask, action);
        let proved = proved_over(job, facts, base, settled, &key);
        Some(NextKey { key, proved })
    } else {
        None
    }
}

/// The key to which an action leads where the bends of the mask are folded.
fn key_behind(job: &Job, facts: &LaneFacts, mask: Mask, action: Action) -> Key
    requires facts { job.now ≡ facts.now }
    requires mask { mask.0 < 2 ^ bend_count job.now }
    requires action { (key : Key) → key.mask ≡ mask → IsActionAt job.now key action }
    ensures key { (key : Key) → key.mask ≡ mask → result ≡ key_after job.now key action }
    ensures range { IsKeyOf job.now result }
{
    job.recall_valid();
    Key {
        mask: mask.union(group(job, mask, action.bend)),
        attitude: facts.attitude(mask, action.bend, action.back),
        stage: action.stage,
    }
}

/// What is proved of a key: the greatest of its bound, of the worth of its row in the base, and of
/// what is settled of it.
pub(crate) fn proved_over(
    job: &Job,
    facts: &LaneFacts,
    base: &[RowHead],
    settled: &SettledSets,
    key: &Key,
) -> Worth
    requires facts { job.now ≡ facts.now }
    requires base { AreRowsOf job.now base.now }
    requires settled { AreSettled job.now base.now settled.now }
    requires key { IsKeyOf job.now key.now }
    ensures value { result ≡ proved_over job.now base.now settled.now key.now }
    ensures small { IsWorth result }
{
    job.recall_valid();
    let bound = bound_at(job, facts, key);
    let by_base = at_least(Worth::Cost(bound), worth_of(base, key));
    let known = settled.worth(key);
    at_least(by_base, known)
}

/// The greater of a worth and of another, where there is one.
fn at_least(worth: Worth, other: Option<Worth>) -> Worth
    ensures { result ≡ with_worth worth other }
{
    match other {
        Some(other) => greater(worth, other),
        None => worth,
    }
}

/// What every rest from a key costs at least.
fn bound_at(job: &Job, facts: &LaneFacts, key: &Key) -> u64
    requires facts { job.now ≡ facts.now }
    requires key { IsKeyOf job.now key.now }
    ensures value { result ≡ bound_of job.now key.now }
    ensures small { result ≤ 1000000000 }
{
    job.recall_valid();
    u64::from(facts.bounds(key.mask).cost(key.stage))
}
