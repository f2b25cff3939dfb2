//! The table against the rules that it answers from, over all sets of bends, strokes and stages.
ghost use Rattle.std.specs.Prelude.{◌≡◌, ◌-◌, ◌^◌, ◌<◌, ◌≤◌, length, false};
ghost use Rattle.brake_base.specs.Masks.{has};
ghost use Rattle.fold_boxes.specs.Places.{ArePlaces};
ghost use Rattle.job_setup.specs.Setup.{shape_of};

use crate::asserts::assert_equal;
use brake_base::{Back, Mask, Place, Reason};
use fold_boxes::{attitude, is_group, place};
use gauge_rules::first_legal;
use job_setup::{Job, group};
use std::test::Fail;
use stroke_table::{StrokeTable, pose_at};
use sweep_check::first_reason;
use test_fixtures::{MACHINE, PAN, STAGE, TOOLS, TWO_FLANGES, job_of};

/// A strip of seven faces, each bent onto the one before.
const CHAIN: &str = "material = \"S235\"
thickness = 2000
radius = 2000
[[face]]
name = \"base\"
width = 60000
length = 40000
[[face]]
name = \"first\"
on = \"base\"
side = \"N\"
at = 0
width = 60000
length = 40000
dir = \"up\"
[[face]]
name = \"second\"
on = \"first\"
side = \"N\"
at = 0
width = 60000
length = 30000
dir = \"down\"
[[face]]
name = \"third\"
on = \"second\"
side = \"N\"
at = 0
width = 60000
length = 30000
dir = \"up\"
[[face]]
name = \"fourth\"
on = \"third\"
side = \"N\"
at = 0
width = 60000
length = 30000
dir = \"down\"
[[face]]
name = \"fifth\"
on = \"fourth\"
side = \"N\"
at = 0
width = 60000
length = 30000
dir = \"up\"
[[face]]
name = \"sixth\"
on = \"fifth\"
side = \"N\"
at = 0
width = 60000
length = 20000
dir = \"up\"
";

/// A second stage, shorter than the first.
const SHORT_STAGE: &str = "[[stage]]
punch = \"P100\"
die = \"D16\"
at = 600000
pieces = [60000]
";

/// Whether the table's stroke is what the rules say, at each stage.
fn is_stroke_right(
    table: &mut StrokeTable,
    job: &Job,
    places: &[Place],
    mask: Mask,
    lead: u8,
    back: Back,
) -> bool
    requires job { job.now ≡ table.old }
    requires count { length places.now ≡ length job.now.part.faces }
    requires places { ArePlaces (shape_of job.now) mask places.now }
    requires mask { mask.0 < 2 ^ (length job.now.part.faces - 1) }
    requires first { 1 ≤ lead }
    requires last { lead < length job.now.part.faces }
    requires flat { has mask lead ≡ false }
    ensures job { table.new ≡ table.old }
{
    let stroke = table.stroke(job, places, mask, lead, back);
    let group = group(job, mask, lead);
    if !is_group(job.shape(), mask, group) {
        return false;
    }
    let mut is_right = stroke.attitude == attitude(job.shape(), mask, lead, back);
    for stage in 0..job.stages() {
        let pose = pose_at(job, places, mask, group, back, stage);
        let gauge = first_legal(job, &pose);
        let other = first_reason(job, &pose, stage);
        let reason = if other.is_none() && gauge.is_none() {
            Some(Reason::NoGauge)
        } else {
            other
        };
        is_right = is_right && stroke.gauge == gauge && stroke.reason(stage) == reason;
    }
    is_right
}

/// With how many sides at the back the table has a bend's stroke right.
fn right_sides(table: &mut StrokeTable, job: &Job, places: &[Place], mask: Mask, lead: u8) -> u32
    requires job { job.now ≡ table.old }
    requires count { length places.now ≡ length job.now.part.faces }
    requires places { ArePlaces (shape_of job.now) mask places.now }
    requires mask { mask.0 < 2 ^ (length job.now.part.faces - 1) }
    requires first { 1 ≤ lead }
    requires last { lead < length job.now.part.faces }
    requires flat { has mask lead ≡ false }
    ensures job { table.new ≡ table.old }
{
    let parent = is_stroke_right(table, job, places, mask, lead, Back::Parent);
    let child = is_stroke_right(table, job, places, mask, lead, Back::Child);
    u32::from(parent).wrapping_add(u32::from(child))
}

/// How many strokes of a set of bends the table has right, in the order of the bends or against it.
fn right_strokes(table: &mut StrokeTable, job: &Job, mask: Mask, backwards: bool) -> u32
    requires job { job.now ≡ table.old }
    requires mask { mask.0 < 2 ^ (length job.now.part.faces - 1) }
    ensures job { table.new ≡ table.old }
{
    let places = place(job.shape(), mask);
    let mut right = 0u32;
    for bend in 1..job.bends() + 1 {
        let lead = if backwards {
            job.bends() + 1 - bend
        } else {
            bend
        };
        if !mask.contains(lead) {
            right = right.wrapping_add(right_sides(table, job, places.as_slice(), mask, lead));
        }
    }
    right
}

/// How many strokes of all sets of bends the table has right.
fn all_right_strokes(table: &mut StrokeTable, job: &Job, backwards: bool) -> u32
    requires job { job.now ≡ table.old }
    ensures job { table.new ≡ table.old }
{
    let sets = 1u16 << job.bends();
    let mut right = 0u32;
    for number in 0..sets {
        let mask = Mask(if backwards { sets - 1 - number } else { number });
        right = right.wrapping_add(right_strokes(table, job, mask, backwards));
    }
    right
}

#[test]
fn the_table_says_what_the_rules_say(rt: HostRuntime) -> Result<(), Fail> {
    let alloc = rt.alloc();
    let alone = format!(in alloc; "{MACHINE}{STAGE}{SHORT_STAGE}")?;
    let gangs = format!(in alloc; "gang = 1\n{alone}")?;
    let cases = [
        (PAN, alone.as_str(), 64),
        (CHAIN, alone.as_str(), 384),
        (TWO_FLANGES, gangs.as_str(), 8),
    ];
    for (part, machine, strokes) in cases {
        let job = job_of(alloc, part, TOOLS, machine)?;
        let mut table = StrokeTable::open(alloc, &job)?;
        assert_equal(&rt, &all_right_strokes(&mut table, &job, false), &strokes);
        assert_equal(&rt, &all_right_strokes(&mut table, &job, true), &strokes);
    }
    Ok(())
}
