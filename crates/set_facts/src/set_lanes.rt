//! What belongs to a set of folded bends, a lane for each stage, and how it follows from a greater
//! set.
ghost use Rattle.std.specs.Prelude.{◌≡◌, ℕ, ◌+◌, ◌<◌, ◌≤◌, ◌^◌, false, max, filter, length, slice_index_or, IfSome, IfNone};
ghost use Rattle.std.specs.List.{range_with_len};
ghost use Rattle.brake_base.specs.Masks.{union};
ghost use Rattle.job_setup.specs.Setup.{bend_count, shape_of};
ghost use Rattle.job_setup.specs.ValidJob.{IsJob};
ghost use Rattle.job_setup.specs.StrokeGroup.{group_of};
ghost use Rattle.handling_cost.specs.Bound.{nearest, leads_left};
ghost use Rattle.handling_cost.specs.Nearest.{lesser};
ghost use Rattle.handling_cost.specs.StepCost.{IsFull};
ghost use Rattle.fold_boxes.specs.Pose.{attitude_of};
ghost use Rattle.set_facts.specs.Facts.{AreAttitudes};
ghost use Rattle.set_facts.specs.LaneFacts.{key_at, IsSetLanes, HasFarthest, HasBounds, AreFilled};
ghost use Rattle.set_facts.specs.FirstLeft.{IsFirstLeft, AreMeeting, AreNearest, AgreeTo};

use crate::facts::{attitudes_of, side_place};
use brake_base::{Back, Mask, Turn};
use fold_boxes::{Shape, attitude_from, place};
use handling_cost::bound_with;
use job_setup::{Job, group, meets_at};
use stage_lanes::{BLOCKED, StageCosts};

/// What belongs to a set of folded bends, a lane for each stage.
#[derive(Clone, Copy, Debug)]
pub(crate) struct SetLanes {
    /// The leads of the strokes that may come next, and no other bend.
    pub(crate) leads: Mask,
    /// The number of these leads.
    count: u8,
    /// At each stage the greatest, over these leads, of the distance to the nearest stage that meets
    /// the lead's group.
    farthest: [u8; 6],
    /// At each stage the bound of the keys with this set, in tenths of a second.
    pub(crate) bounds: StageCosts,
    /// How the part is held in the strokes of each bend, with the parent and with the child at the
    /// back.
    pub(crate) attitudes: [Turn; 24],
}

impl SetLanes {
    /// No lead and no cost: what stands in a table before it is filled.
    pub(crate) fn blank() -> SetLanes {
        SetLanes {
            leads: Mask::empty(),
            count: 0,
            farthest: [0; 6],
            bounds: StageCosts::all(0),
            attitudes: [Turn::from_number(0); 24],
        }
    }

    /// What belongs to a set, where what belongs to all greater ones is known.
    pub(crate) fn of(job: &Job, mask: Mask, sets: &[SetLanes]) -> SetLanes
        requires mask { mask.0 < 2 ^ bend_count job.now }
        requires greater { AreFilled job.now (mask.0 + 1) sets.now }
        ensures { IsSetLanes job.now mask result }
    {
        match first_left(job, mask) {
            None => SetLanes::of_all_folded(job, mask),
            Some(bend) => {
                let group = group(job, mask, bend);
                let ways = ways_to(job, mask, bend, group, sets);
                let attitudes = attitudes_before(job, mask, sets);
                let after = &sets[usize::from(mask.union(group).0)];
                SetLanes::before(job, mask, bend, &ways, attitudes, after)
            }
        }
    }

    /// What belongs to the set of all bends: no lead is left.
    fn of_all_folded(job: &Job, mask: Mask) -> SetLanes
        requires valid { IsJob job.now }
        requires full { IsFull job.now (key_at mask 0) }
        ensures { IsSetLanes job.now mask result }
    {
        SetLanes {
            leads: Mask::empty(),
            count: 0,
            farthest: [0; 6],
            bounds: bounds_from(job, mask, 0, &[0; 6]),
            attitudes: attitudes_of(job, mask),
        }
    }

    /// What belongs to a set before the stroke of its least unfolded bend, from the ways to the
    /// stages that meet the bend's group, from the attitudes, and from what belongs to the set after
    /// it: the bend is one more lead, and the others stay, with their groups.
    fn before(
        job: &Job,
        mask: Mask,
        bend: u8,
        ways: &[u8; 6],
        attitudes: [Turn; 24],
        after: &SetLanes,
    ) -> SetLanes
        requires valid { IsJob job.now }
        requires bend { IsFirstLeft job.now mask bend }
        requires ways { AreNearest job.now mask bend ways.now }
        requires held { AreAttitudes job.now mask attitudes }
        requires after { IsSetLanes job.now (union mask (group_of job.now mask bend)) after.now }
        ensures { IsSetLanes job.now mask result }
    {
        let farthest = farther(ways, &after.farthest);
        let count = after.count + 1;
        SetLanes {
            leads: after.leads.with(bend),
            count,
            farthest,
            bounds: bounds_from(job, mask, count, &farthest),
            attitudes,
        }
    }
}

/// The least bend of the job that isn't folded.
fn first_left(job: &Job, mask: Mask) -> Option<u8>
    ensures some { IfSome result (λ bend. IsFirstLeft job.now mask bend) }
    ensures none { IfNone result (IsFull job.now (key_at mask 0)) }
    ensures valid { IsJob job.now }
{
    Mask::full(job.bends()).without(mask).least()
}

/// The bound at each stage, with so many leads left and so far a way from it.
fn bounds_from(job: &Job, mask: Mask, leads: u8, farthest: &[u8; 6]) -> StageCosts
    requires leads { leads ≡ length (leads_left job.now mask) }
    requires farthest { HasFarthest job.now mask farthest.now }
    ensures { HasBounds job.now mask result.0 }
{
    let mut bounds = [BLOCKED; 8];
    for stage in 0..job.stages() {
        let place = usize::from(stage);
        bounds[place] = bound_with(job, mask, leads, farthest[place]) as u32;
    }
    StageCosts(bounds)
}

/// At each stage the distance to the nearest stage that meets the bend's group. Where all other
/// bends are folded the bend leads the same group, and no other is left, so the distances stand
/// there, unless this is that set.
fn ways_to(job: &Job, mask: Mask, bend: u8, group: Mask, sets: &[SetLanes]) -> [u8; 6]
    requires bend { IsFirstLeft job.now mask bend }
    requires group { group ≡ group_of job.now mask bend }
    requires greater { AreFilled job.now (mask.0 + 1) sets.now }
    ensures { AreNearest job.now mask bend result }
{
    let others = Mask::full(job.bends()).without(group);
    if mask.0 < others.0 {
        sets[usize::from(others.0)].farthest
    } else {
        ways_from_each(job, mask, bend)
    }
}

/// The greater of two distances, at each stage.
fn farther(first: &[u8; 6], second: &[u8; 6]) -> [u8; 6]
    ensures { (stage d : ℕ) → stage < 6 → slice_index_or result stage d
        ≡ max (slice_index_or first.now stage d) (slice_index_or second.now stage d) }
{
    let mut farther = [0; 6];
    for stage in 0..6 {
        farther[stage] = first[stage].max(second[stage]);
    }
    farther
}

/// At each stage the distance to the nearest stage that meets the bend's group, by looking at each.
fn ways_from_each(job: &Job, mask: Mask, bend: u8) -> [u8; 6]
    requires some { 0 < bend }
    requires bend { bend < length job.now.part.faces }
    ensures { AreNearest job.now mask bend result }
{
    let meeting = meeting_of(job, mask, bend);
    let stages = job.stages();
    let mut ways = [0; 6];
    for stage in 0..stages {
        ways[usize::from(stage)] = nearest(&meeting, stages, stage);
    }
    ways
}

/// How the part is held in the strokes of each bend, where it is known at all greater sets.
fn attitudes_before(job: &Job, mask: Mask, sets: &[SetLanes]) -> [Turn; 24]
    requires { AreFilled job.now (mask.0 + 1) sets.now }
    ensures { AreAttitudes job.now mask result }
{
    let mut attitudes = [Turn::from_number(0); 24];
    for bend in 1..job.bends() + 1 {
        let at = side_place(bend, Back::Parent);
        (attitudes[at], attitudes[at + 1]) = attitudes_at(job, mask, bend, sets);
    }
    attitudes
}

/// How the part is held in the strokes of a bend, with the parent and with the child at the back. It
/// depends on the bends up to the bend's parent alone, so it stands where all bends past these are
/// folded, unless this is that set.
fn attitudes_at(job: &Job, mask: Mask, bend: u8, sets: &[SetLanes]) -> (Turn, Turn)
    requires some { 0 < bend }
    requires bend { bend < length job.now.part.faces }
    requires greater { AreFilled job.now (mask.0 + 1) sets.now }
    ensures parent { result.0 ≡ attitude_of (shape_of job.now) mask bend Back.Parent }
    ensures child { result.1 ≡ attitude_of (shape_of job.now) mask bend Back.Child }
{
    let greater = folded_past(job, mask, job.shape().parent(bend));
    if mask.0 < greater.0 {
        let attitudes = &sets[usize::from(greater.0)].attitudes;
        let at = side_place(bend, Back::Parent);
        (attitudes[at], attitudes[at + 1])
    } else {
        attitudes_of_bend(job.shape(), mask, bend)
    }
}

/// The same, from where the faces lie.
fn attitudes_of_bend(shape: &Shape, mask: Mask, bend: u8) -> (Turn, Turn)
    requires some { 0 < bend }
    requires bend { bend < length shape.now.part.faces }
    ensures parent { result.0 ≡ attitude_of shape.now mask bend Back.Parent }
    ensures child { result.1 ≡ attitude_of shape.now mask bend Back.Child }
{
    let places = place(shape, mask);
    let parent = attitude_from(shape, places.as_slice(), mask, bend, Back::Parent);
    let child = attitude_from(shape, places.as_slice(), mask, bend, Back::Child);
    (parent, child)
}

/// The set that has the mask's bends up to a number, and all of the job's bends past it.
fn folded_past(job: &Job, mask: Mask, last: u8) -> Mask
    requires { last ≤ bend_count job.now }
    ensures same { AgreeTo last result mask }
    ensures within { result.0 < 2 ^ bend_count job.now }
{
    let bends = job.bends();
    let flat = Mask::full(last).without(mask);
    Mask::full(bends).without(flat)
}

/// Which stages meet the bend's group.
fn meeting_of(job: &Job, mask: Mask, bend: u8) -> [bool; 6]
    requires some { 0 < bend }
    requires bend { bend < length job.now.part.faces }
    ensures { AreMeeting job.now mask bend result }
{
    let mut meeting = [false; 6];
    for stage in 0..job.stages() {
        meeting[usize::from(stage)] = meets_at(job, mask, bend, stage);
    }
    meeting
}

/// The distance from a stage to the nearest of those of the first stages that are marked; 0 where
/// none is.
fn nearest(marked: &[bool; 6], stages: u8, from: u8) -> u8
    requires { stages ≤ 6 }
    ensures { result ≡ nearest from
        (filter (λ stage. slice_index_or marked.now stage false) (range_with_len 0 stages)) }
{
    let mut nearest = None;
    for stage in 0..stages {
        if marked[usize::from(stage)] {
            nearest = Some(lesser(nearest, from.abs_diff(stage)));
        }
    }
    nearest.unwrap_or(0)
}

/// The lesser of the two distances; the second alone, where there is no first.
fn lesser(first: Option<u8>, second: u8) -> u8
    ensures { result ≡ lesser first second }
{
    match first {
        Some(first) => first.min(second),
        None => second,
    }
}
