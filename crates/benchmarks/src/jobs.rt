//! How long making a job, asking for its strokes, and moving and copying its setup take.
ghost use Rattle.std.specs.Prelude.{◌<◌, ◌≤◌, length};

use crate::timing::nanoseconds;
use anyhow::anyhow;
use brake_base::Mask;
use job_setup::{Job, Setup, group, meets_at};
use part_gen::made_job;
use std::time::Instant;

/// How many jobs are made.
const JOBS: u32 = 1_000;

/// How often each stroke of a job is asked for.
const ROUNDS: u32 = 20_000;

/// How often a setup is copied, and how often it is moved.
const COPIES: u32 = 20_000;

/// Times made jobs, the strokes of the first one, and its setup.
pub fn time_jobs(rt: &HostRuntime) -> anyhow::Result<()> {
    let start = Instant::now(rt)?;
    let bends = sum_of_bends();
    let made = Instant::now(rt)?;
    let make_time = nanoseconds(start, made, JOBS);
    eprintln!(rt; "made_job of six to eight bends: {make_time} ns (sum {bends})")?;
    let job = made_job(0);
    time_strokes(rt, &job)?;
    time_setup(rt, job.setup())
}

/// The number of bends of all made jobs.
fn sum_of_bends() -> u32 {
    let mut sum = 0u32;
    for n in 0..JOBS {
        sum = sum.wrapping_add(u32::from(made_job(n).bends()));
    }
    sum
}

/// Times the groups of a job's bends and the stages that meet them.
fn time_strokes(rt: &HostRuntime, job: &Job) -> anyhow::Result<()> {
    let start = Instant::now(rt)?;
    let grouped = sum_of_groups(job);
    let middle = Instant::now(rt)?;
    let meetings = sum_of_meetings(job);
    let end = Instant::now(rt)?;
    let strokes = ROUNDS * u32::from(job.bends());
    let group_time = nanoseconds(start, middle, strokes);
    let meet_time = nanoseconds(middle, end, strokes * u32::from(job.stages()));
    eprintln!(rt; "group: {group_time} ns, meets_at: {meet_time} ns (sums {grouped}, {meetings})")?;
    Ok(())
}

/// The sum of all groups as numbers, over all rounds.
fn sum_of_groups(job: &Job) -> u32 {
    let mut sum = 0u32;
    for _ in 0..ROUNDS {
        sum = sum.wrapping_add(groups_of(job));
    }
    sum
}

/// The sum of the groups of all bends as numbers.
fn groups_of(job: &Job) -> u32 {
    let mut sum = 0u32;
    for bend in 1..job.bends() + 1 {
        sum = sum.wrapping_add(u32::from(group(job, Mask::empty(), bend).0));
    }
    sum
}

/// How many stages meet the groups of all bends, over all rounds.
fn sum_of_meetings(job: &Job) -> u32 {
    let mut sum = 0u32;
    for _ in 0..ROUNDS {
        sum = sum.wrapping_add(meetings_of(job));
    }
    sum
}

/// How many pairs of a bend and a stage meet.
fn meetings_of(job: &Job) -> u32 {
    let mut sum = 0u32;
    for bend in 1..job.bends() + 1 {
        sum = sum.wrapping_add(meetings_at(job, bend));
    }
    sum
}

/// How many stages meet the group of a bend.
fn meetings_at(job: &Job, bend: u8) -> u32
    requires some { 0 < bend }
    requires bend { bend < length job.now.part.faces }
{
    let mut sum = 0u32;
    for stage in 0..job.stages() {
        sum = sum.wrapping_add(u32::from(meets_at(job, Mask::empty(), bend, stage)));
    }
    sum
}

/// Times a copy of the setup, and a move of it out of a list and back.
fn time_setup(rt: &HostRuntime, setup: &Setup) -> anyhow::Result<()> {
    let mut setups = vec![in rt.alloc(); setup.copy()]?;
    let start = Instant::now(rt)?;
    let copies = sum_of_copies(setup);
    let middle = Instant::now(rt)?;
    let moves = sum_of_moves(&mut setups)?;
    let end = Instant::now(rt)?;
    let copy_time = nanoseconds(start, middle, COPIES);
    let move_time = nanoseconds(middle, end, COPIES);
    eprintln!(rt;
        "setup: a copy {copy_time} ns, out of a list and back {move_time} ns (sums {copies}, {moves})"
    )?;
    Ok(())
}

/// The sum of what the copies of a setup allow to be uncovered.
fn sum_of_copies(setup: &Setup) -> i64 {
    let mut sum = 0i64;
    for _ in 0..COPIES {
        sum = sum.wrapping_add(weight(&setup.copy()));
    }
    sum
}

/// A number of the setup that its last stage and its first field determine.
fn weight(setup: &Setup) -> i64 {
    let last = setup.stages.as_slice().last();
    setup
        .uncovered
        .wrapping_add(last.map_or(0, |stage| stage.x1))
}

/// Takes the setup out of the list and puts it back, often.
fn sum_of_moves(setups: &mut Vec<Setup>) -> anyhow::Result<i64> {
    let mut sum = 0i64;
    for _ in 0..COPIES {
        let setup = setups.pop().ok_or_else(|| anyhow!("no setup"))?;
        sum = sum.wrapping_add(weight(&setup));
        setups.push(setup)?;
    }
    Ok(sum)
}
