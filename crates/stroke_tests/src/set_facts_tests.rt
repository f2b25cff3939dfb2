//! What belongs to each set of a job's bends: each lane is what is found for its set and stage alone,
//! and prices are those of the machine's file.
ghost use Rattle.std.specs.Prelude.{◌≡◌, ◌<◌, ◌^◌};
ghost use Rattle.job_setup.specs.Setup.{bend_count};

use brake_base::{Back, Key, Mask, Turn};
use fold_boxes::attitude;
use handling_cost::{bound, is_lead};
use job_setup::Job;
use set_facts::LaneFacts;
use stage_lanes::BLOCKED;
use std::test::Fail;
use test_fixtures::{L_SECTION, LID, MACHINE, PAN, STAGE, TOOLS, TWO_FLANGES, U_CHANNEL, job_of};

/// Whether the bounds of a set are those of its keys, and blocked past the last stage.
fn bounds_agree(job: &Job, facts: &LaneFacts, mask: Mask) -> bool
    requires facts { facts.now ≡ job.now }
    requires mask { mask.0 < 2 ^ bend_count job.now }
{
    let bounds = facts.bounds(mask);
    for stage in 0..job.stages() {
        let attitude = Turn::from_number(0);
        let key = Key {
            mask,
            attitude,
            stage,
        };
        if u64::from(bounds.cost(stage)) != bound(job, key) {
            return false;
        }
    }
    bounds.cost(job.stages()) == BLOCKED && bounds.cost(7) == BLOCKED
}

/// Whether the leads of a set and how the part is held in its strokes are those found for it alone.
fn strokes_agree(job: &Job, facts: &LaneFacts, mask: Mask) -> bool
    requires facts { facts.now ≡ job.now }
    requires mask { mask.0 < 2 ^ bend_count job.now }
{
    let shape = job.shape();
    let leads = facts.leads(mask);
    for bend in 1..shape.faces() {
        if leads.contains(bend) != is_lead(job, mask, bend) {
            return false;
        }
        let parent = attitude(shape, mask, bend, Back::Parent);
        let child = attitude(shape, mask, bend, Back::Child);
        if facts.attitude(mask, bend, Back::Parent) != parent
            || facts.attitude(mask, bend, Back::Child) != child
        {
            return false;
        }
    }
    true
}

/// Whether all sets of the job's bends agree with what is found for them alone.
fn all_sets_agree(job: &Job, facts: &LaneFacts) -> bool
    requires { facts.now ≡ job.now }
{
    for number in 0..1u16 << job.bends() {
        let mask = Mask(number);
        if !bounds_agree(job, facts, mask) || !strokes_agree(job, facts, mask) {
            return false;
        }
    }
    true
}

/// What the way from one stage to another costs; None where there is no such stage to start from.
fn way(job: &Job, facts: &LaneFacts, mask: Mask, from: u8, to: u8) -> Option<u32>
    requires facts { facts.now ≡ job.now }
    requires to { to < 8 }
{
    if from < job.stages() {
        Some(facts.ways(mask, from).cost(to))
    } else {
        None
    }
}

/// Two further stages of that machine, shorter than the first.
const SHORTER: &str = "[[stage]]
punch = \"P100\"
die = \"D16\"
at = 600000
pieces = [70000]
[[stage]]
punch = \"P100\"
die = \"D16\"
at = 1200000
pieces = [45000]
";

#[test]
fn sets_on_one_stage(rt: HostRuntime) -> Result<(), Fail> {
    let alloc = rt.alloc();
    let machine = format!(in alloc; "{MACHINE}{STAGE}")?;
    for part in [L_SECTION, U_CHANNEL, PAN, LID] {
        let job = job_of(alloc, part, TOOLS, &machine)?;
        let facts = LaneFacts::open(alloc, &job)?;
        assert!(rt; all_sets_agree(&job, &facts));
    }
    Ok(())
}

#[test]
fn sets_on_three_stages(rt: HostRuntime) -> Result<(), Fail> {
    let alloc = rt.alloc();
    let machine = format!(in alloc; "{MACHINE}{STAGE}{SHORTER}")?;
    for part in [U_CHANNEL, PAN, LID] {
        let job = job_of(alloc, part, TOOLS, &machine)?;
        let facts = LaneFacts::open(alloc, &job)?;
        assert!(rt; all_sets_agree(&job, &facts));
    }
    Ok(())
}

#[test]
fn sets_with_gangs(rt: HostRuntime) -> Result<(), Fail> {
    let alloc = rt.alloc();
    let machine = format!(in alloc; "gang = 1\n{MACHINE}{STAGE}{SHORTER}")?;
    for part in [TWO_FLANGES, PAN, LID] {
        let job = job_of(alloc, part, TOOLS, &machine)?;
        let facts = LaneFacts::open(alloc, &job)?;
        assert!(rt; all_sets_agree(&job, &facts));
    }
    Ok(())
}

#[test]
fn prices(rt: HostRuntime) -> Result<(), Fail> {
    let alloc = rt.alloc();
    let machine = format!(in alloc; "{MACHINE}{STAGE}{SHORTER}")?;
    let job = job_of(alloc, U_CHANNEL, TOOLS, &machine)?;
    let facts = LaneFacts::open(alloc, &job)?;
    let first = Mask(1);
    assert!(rt; way(&job, &facts, first, 2, 2) == Some(0));
    assert!(rt; way(&job, &facts, first, 2, 0) == Some(80));
    assert!(rt; way(&job, &facts, first, 0, 1) == Some(40));
    assert!(rt; way(&job, &facts, first, 0, 3) == Some(BLOCKED));
    assert!(rt; way(&job, &facts, Mask::empty(), 2, 0) == Some(0));
    assert!(rt; way(&job, &facts, Mask::empty(), 2, 7) == Some(BLOCKED));
    let upright = Turn::from_number(0);
    assert!(rt; facts.change(upright, upright) == 0);
    assert!(rt; facts.change(Turn::from_number(3), upright) == 20);
    assert!(rt; facts.change(upright, Turn::from_number(2)) == 30);
    assert!(rt; facts.change(upright, Turn::from_number(4)) == 60);
    assert!(rt; facts.change(Turn::from_number(8), upright) == 80);
    Ok(())
}
