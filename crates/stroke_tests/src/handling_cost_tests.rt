//! Costs of the worked parts, worked out by hand.

use brake_base::{Action, Back, Gauge, Step};
use handling_cost::{is_action_at, next_key, plan_cost, start_key, step_cost};
use job_setup::Job;
use std::test::Fail;
use test_fixtures::{L_SECTION, MACHINE, STAGE, TOOLS, TWO_FLANGES, U_CHANNEL, job_of};

/// An action at stage 0.
fn action(bend: u8, back: Back) -> Action {
    Action {
        bend,
        back,
        stage: 0,
    }
}

/// What the first action costs; None where it isn't one at the start.
fn first_cost(job: &Job, first: Action) -> Option<u64> {
    let start = start_key();
    is_action_at(job, &start, first).then(|| step_cost(job, start, first))
}

/// What the two actions cost, one after the other; None where one of them isn't one at its key.
fn cost_of_two(job: &Job, first: Action, second: Action) -> Option<u64> {
    let start = start_key();
    if !is_action_at(job, &start, first) {
        return None;
    }
    let key = next_key(job, start, first);
    if !is_action_at(job, &key, second) {
        return None;
    }
    let steps = [
        Step {
            action: first,
            gauge: Gauge::default(),
        },
        Step {
            action: second,
            gauge: Gauge::default(),
        },
    ];
    Some(plan_cost(job, &steps))
}

#[test]
fn costs(rt: HostRuntime) -> Result<(), Fail> {
    let alloc = rt.alloc();
    let alone = format!(in alloc; "{MACHINE}{STAGE}")?;
    let gangs = format!(in alloc; "gang = 1\n{MACHINE}{STAGE}")?;
    let up = "side = \"S\"\nat = 0\nwidth = 100000\nlength = 30000\ndir = \"up\"";
    let down = "side = \"S\"\nat = 0\nwidth = 100000\nlength = 30000\ndir = \"down\"";
    let z_section = U_CHANNEL.replacen(alloc, up, down, 1)?;
    let l = job_of(alloc, L_SECTION, TOOLS, &alone)?;
    let u = job_of(alloc, U_CHANNEL, TOOLS, &alone)?;
    let z = job_of(alloc, &z_section, TOOLS, &alone)?;
    let two = job_of(alloc, TWO_FLANGES, TOOLS, &gangs)?;
    let one_child = action(1, Back::Child);
    let two_child = action(2, Back::Child);
    assert!(rt; first_cost(&l, one_child) == Some(100));
    assert!(rt; first_cost(&l, action(1, Back::Parent)) == Some(130));
    assert!(rt; cost_of_two(&u, action(2, Back::Parent), one_child) == Some(200));
    assert!(rt; cost_of_two(&u, one_child, two_child) == Some(230));
    assert!(rt; cost_of_two(&z, one_child, two_child) == Some(260));
    assert!(rt; cost_of_two(&z, two_child, one_child) == Some(320));
    assert!(rt; first_cost(&two, one_child) == Some(100));
    assert!(rt; first_cost(&two, two_child).is_none());
    Ok(())
}
