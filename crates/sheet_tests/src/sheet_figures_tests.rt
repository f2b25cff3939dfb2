//! The first stroke of the U channel, as its worked page has it.

use crate::asserts::assert_equal;
use crate::first_stroke::{south, start, u_channel};
use crate::worked::{ABOVE, AFTER, BED, BEFORE, BLANK, CARD, FRONT, PART_AFTER, PART_BEFORE};
use brake_base::Gauge;
use handling_cost::is_action_at;
use sheet_figures::{
    flat_blank, put_above, put_bed, put_blank, put_bodies, put_card, put_front, put_sides,
};
use sheet_views::{drawing_of, fingers_at};
use std::test::Fail;

#[test]
fn flat(rt: HostRuntime) -> Result<(), Fail> {
    let job = u_channel(rt.alloc())?;
    let mut out = Vec::new(rt.alloc());
    let flat = flat_blank(&job);
    put_blank(&mut out, &job, &flat, 2, 1)?;
    assert_equal(&rt, &out.as_slice(), &BLANK.as_bytes());
    Ok(())
}

#[test]
fn bed(rt: HostRuntime) -> Result<(), Fail> {
    let job = u_channel(rt.alloc())?;
    let mut out = Vec::new(rt.alloc());
    put_bed(&mut out, &job, 2)?;
    assert_equal(&rt, &out.as_slice(), &BED.as_bytes());
    let mut out = Vec::new(rt.alloc());
    put_front(&mut out, &job, 3)?;
    assert_equal(&rt, &out.as_slice(), &FRONT.as_bytes());
    assert!(rt; job.stages() == 1);
    let mut out = Vec::new(rt.alloc());
    put_card(&mut out, &job, 0, 4)?;
    assert_equal(&rt, &out.as_slice(), &CARD.as_bytes());
    Ok(())
}

#[test]
fn stroke(rt: HostRuntime) -> Result<(), Fail> {
    let job = u_channel(rt.alloc())?;
    let key = start();
    let action = south();
    assert!(rt; is_action_at(&job, &key, action));
    let drawing = drawing_of(&job, &key, action);
    assert!(rt; drawing.pose.boxes.len() == 3 && job.stages() == 1 && action.stage == 0);
    let gauge = Gauge {
        left_face: 1,
        right_face: 1,
    };
    let fingers = fingers_at(&job, &drawing.pose, gauge);
    let mut out = Vec::new(rt.alloc());
    let count = put_sides(&mut out, &job, action, &drawing, &fingers, 5)?;
    assert_equal(&rt, &count, &2);
    let sides = format!(in rt.alloc(); "{BEFORE}{AFTER}")?;
    assert_equal(&rt, &out.as_slice(), &sides.as_bytes());
    let mut out = Vec::new(rt.alloc());
    put_above(&mut out, &job, action, &drawing, &fingers, 7)?;
    assert_equal(&rt, &out.as_slice(), &ABOVE.as_bytes());
    let mut out = Vec::new(rt.alloc());
    put_bodies(&mut out, &drawing, 8)?;
    let parts = format!(in rt.alloc(); "{PART_BEFORE}{PART_AFTER}")?;
    assert_equal(&rt, &out.as_slice(), &parts.as_bytes());
    Ok(())
}
