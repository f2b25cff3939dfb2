//! What every rest from a key costs at least.
ghost use Rattle.std.specs.Prelude.{◌≡◌, ◌+◌, ◌*◌, ◌<◌, ◌≤◌, max, List, length};
ghost use Rattle.brake_base.specs.declared.stroke.Step.{Step};
ghost use Rattle.job_setup.specs.ValidJob.{IsJob};
ghost use Rattle.handling_cost.specs.StepCost.{IsKeyOf};
ghost use Rattle.handling_cost.specs.Plan.{IsRest, total};
ghost use Rattle.handling_cost.specs.Nearest.{lesser};
ghost use Rattle.handling_cost.specs.Bound.{leads_left, meeting_stages, nearest, farthest, bound_with, bound_of};

use crate::leads::is_lead;
use brake_base::{Key, Mask};
use job_setup::{Job, meets_at};

/// What every rest from a key costs at least, in tenths of a second: a stroke for each lead left,
/// and, where a bend is folded, the way to the stage that is farthest among the nearest stages that
/// meet the group of a lead. It is 0 where every bend is folded.
pub fn bound(job: &Job, key: Key) -> u64
    requires key { IsKeyOf job.now key }
    ensures value { result ≡ bound_of job.now key }
    ensures admissible { (steps : List Step) → IsRest job.now key steps
        → result ≤ total job.now key steps }
    ensures small { result ≤ 18000000 }
{
    bound_at(job, &key)
}

fn bound_at(job: &Job, key: &Key) -> u64
    requires key { IsKeyOf job.now key.now }
    ensures value { result ≡ bound_of job.now key.now }
    ensures admissible { (steps : List Step) → IsRest job.now key.now steps
        → result ≤ total job.now key.now steps }
    ensures small { result ≤ 18000000 }
{
    let leads = leads_left(job, key.mask);
    let way = farthest(job, key.mask, key.stage);
    bound_with(job, key.mask, leads, way)
}

/// The cost of so many strokes, and, where a bend of the mask is folded, of a way over so many
/// stages, in tenths of a second. With the leads left at a mask and the farthest distance from a
/// stage it is the bound of each key of that mask and stage.
pub fn bound_with(job: &Job, mask: Mask, leads: u8, way: u8) -> u64
    ensures value { result ≡ bound_with job.now mask leads way }
    ensures small { result ≤ 1000000 * leads + 1000000 * way }
    ensures valid { IsJob job.now }
{
    let cost = &job.setup().cost;
    let strokes = cost.stroke * u64::from(leads);
    if mask.is_empty() {
        strokes
    } else {
        strokes + cost.stage * u64::from(way)
    }
}

/// The number of the leads left where the bends of the mask are folded: of the bends that are
/// unfolded and the least of their groups.
pub fn leads_left(job: &Job, mask: Mask) -> u8
    ensures value { result ≡ length (leads_left job.now mask) }
    ensures few { result ≤ 12 }
{
    let shape = job.shape();
    let mut leads = 0;
    for bend in 1..shape.faces() {
        if is_lead(job, mask, bend) {
            leads += 1;
        }
    }
    leads
}

/// The greatest, over the leads left where the bends of the mask are folded, of the distance from a
/// stage to the nearest one that meets the lead's group. A lead whose group no stage meets doesn't
/// count; 0 where none is left.
pub fn farthest(job: &Job, mask: Mask, stage: u8) -> u8
    requires stage { stage < length job.now.setup.stages }
    ensures value { result ≡ farthest job.now mask stage }
    ensures few { result ≤ 6 }
{
    let shape = job.shape();
    let mut farthest = 0;
    for bend in 1..shape.faces() {
        if is_lead(job, mask, bend) {
            farthest = greater(farthest, nearest(job, mask, bend, stage));
        }
    }
    farthest
}

/// The greater of the two distances.
fn greater(first: u8, second: u8) -> u8
    ensures { result ≡ max first second }
{
    first.max(second)
}

/// The distance from a stage to the nearest one that meets the bend's group; 0 where none does.
fn nearest(job: &Job, mask: Mask, bend: u8, from: u8) -> u8
    requires some { 0 < bend }
    requires bend { bend < length job.now.part.faces }
    requires from { from < length job.now.setup.stages }
    ensures { result ≡ nearest from (meeting_stages job.now mask bend) }
{
    if meets_at(job, mask, bend, from) {
        0
    } else {
        nearest_among(job, mask, bend, from)
    }
}

/// The same, for which every stage is looked at.
fn nearest_among(job: &Job, mask: Mask, bend: u8, from: u8) -> u8
    requires some { 0 < bend }
    requires bend { bend < length job.now.part.faces }
    ensures { result ≡ nearest from (meeting_stages job.now mask bend) }
{
    let mut nearest = None;
    for stage in 0..job.stages() {
        if meets_at(job, mask, bend, stage) {
            nearest = Some(lesser(nearest, from.abs_diff(stage)));
        }
    }
    nearest.unwrap_or(0)
}

/// The lesser of the two distances; the second alone, where there is no first.
fn lesser(first: Option<u8>, second: u8) -> u8
    ensures { result ≡ lesser first second }
{
    match first {
        Some(first) => first.min(second),
        None => second,
    }
}
