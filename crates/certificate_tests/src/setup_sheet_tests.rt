//! The order sheets of the worked parts, worked out by hand.

use crate::asserts::assert_equal;
use crate::first_stage::step;
use brake_base::{Back, Gauge, Step};
use job_setup::Job;
use setup_sheet::{are_steps, order_sheet};
use std::alloc::Global;
use std::test::Fail;
use test_fixtures::{L_SECTION, MACHINE, STAGE, TOOLS, TWO_FLANGES, U_CHANNEL, job_of};

/// The order sheet; None where it can't tell the steps.
fn sheet_of(alloc: Global, job: &Job, steps: &[Step]) -> Result<Option<Vec<u8>>, Fail> {
    if are_steps(job, steps) {
        Ok(Some(order_sheet(alloc, job, steps)?))
    } else {
        Ok(None)
    }
}

/// The sheet of the U channel's least plan.
const U_SHEET: &str = "order 2
step 1 bend 2 south back parent stage 0 turn none gauge 84243 fingers 1 205000 1 285000 cost 100
step 2 bend 1 north back child stage 0 turn none gauge 28081 fingers 1 205000 1 285000 cost 100
total 200
";

/// The sheet of the Z section's least plan.
const Z_SHEET: &str = "order 2
step 1 bend 1 north back child stage 0 turn none gauge 28081 fingers 1 205000 1 285000 cost 100
step 2 bend 2 south back child stage 0 turn flip gauge 28081 fingers 2 205000 2 285000 cost 160
total 260
";

/// The sheet of two flanges that are bent in one stroke, both fingers at the left one.
const LEFT_SHEET: &str = "order 1
step 1 bend 1 left with 2 back child stage 0 turn none gauge 28081 fingers 1 205000 1 230000 cost 100
total 100
";

/// The same with a finger at each flange.
const GANG_SHEET: &str = "order 1
step 1 bend 1 left with 2 back child stage 0 turn none gauge 28081 fingers 1 205000 2 285000 cost 100
total 100
";

#[test]
fn order_sheets(rt: HostRuntime) -> Result<(), Fail> {
    let alloc = rt.alloc();
    let alone = format!(in alloc; "{MACHINE}{STAGE}")?;
    let gangs = format!(in alloc; "gang = 1\n{MACHINE}{STAGE}")?;
    let up = "side = \"S\"\nat = 0\nwidth = 100000\nlength = 30000\ndir = \"up\"";
    let down = "side = \"S\"\nat = 0\nwidth = 100000\nlength = 30000\ndir = \"down\"";
    let z_section = U_CHANNEL.replacen(alloc, up, down, 1)?;
    let u = job_of(alloc, U_CHANNEL, TOOLS, &alone)?;
    let z = job_of(alloc, &z_section, TOOLS, &alone)?;
    let two = job_of(alloc, TWO_FLANGES, TOOLS, &gangs)?;
    let both = Step {
        gauge: Gauge {
            left_face: 1,
            right_face: 2,
        },
        ..step(1, Back::Child, 1)
    };
    let u_steps = [step(2, Back::Parent, 1), step(1, Back::Child, 1)];
    let z_steps = [step(1, Back::Child, 1), step(2, Back::Child, 2)];
    let u_sheet = sheet_of(alloc, &u, &u_steps)?.expect(&rt, "a sheet");
    let z_sheet = sheet_of(alloc, &z, &z_steps)?.expect(&rt, "a sheet");
    let left_sheet = sheet_of(alloc, &two, &[step(1, Back::Child, 1)])?.expect(&rt, "a sheet");
    let gang_sheet = sheet_of(alloc, &two, &[both])?.expect(&rt, "a sheet");
    assert_equal(&rt, &u_sheet.as_slice(), &U_SHEET.as_bytes());
    assert_equal(&rt, &z_sheet.as_slice(), &Z_SHEET.as_bytes());
    assert_equal(&rt, &left_sheet.as_slice(), &LEFT_SHEET.as_bytes());
    assert_equal(&rt, &gang_sheet.as_slice(), &GANG_SHEET.as_bytes());
    Ok(())
}

#[test]
fn steps_that_are_none(rt: HostRuntime) -> Result<(), Fail> {
    let alloc = rt.alloc();
    let machine = format!(in alloc; "{MACHINE}{STAGE}")?;
    let job = job_of(alloc, L_SECTION, TOOLS, &machine)?;
    let first = step(1, Back::Child, 1);
    assert!(rt; are_steps(&job, &[first]));
    assert!(rt; !are_steps(&job, &[first, first]));
    assert!(rt; !are_steps(&job, &[step(2, Back::Child, 1)]));
    assert!(rt; !are_steps(&job, &[step(1, Back::Child, 2)]));
    Ok(())
}
