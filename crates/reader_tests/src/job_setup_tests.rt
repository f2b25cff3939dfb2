//! Jobs of three files, and their refusals.

use brake_base::{Mask, Rect};
use job_setup::{Group, Job, JobFault, Obstacle, group, meets_at, obstacles};
use std::alloc::Global;
use std::test::Fail;
use test_fixtures::{EAST_FLANGE, L_SECTION, MACHINE, STAGE, TOOLS, TWO_FLANGES, made_of};

const LOAD: &str = "[[load]]
material = \"S235\"
thickness = 2000
v = 16000
load = 300
";

const TWO_LOADS: &str = "[[load]]
material = \"S235\"
thickness = 2000
v = 16000
load = 300
[[load]]
material = \"S235\"
thickness = 2000
v = 16000
load = 300
";

const OTHER_LOAD: &str = "[[load]]
material = \"S235\"
thickness = 2000
v = 12000
load = 300
";

/// What comes of the L section with these load rows and stages.
fn made_with(alloc: Global, loads: &str, stages: &str) -> Result<Result<Job, JobFault>, Fail> {
    let tools = format!(in alloc; "{TOOLS}{loads}")?;
    let machine = format!(in alloc; "{MACHINE}{stages}")?;
    made_of(alloc, L_SECTION, tools.as_str(), machine.as_str())
}

#[test]
fn l_section(rt: HostRuntime) -> Result<(), Fail> {
    let made = made_with(rt.alloc(), LOAD, STAGE)?;
    let job = made.ok().expect(&rt, "a job");
    assert!(rt; job.q() == 1919 && job.bends() == 1 && job.stages() == 1);
    assert!(rt; job.part().thickness == 2000);
    let stage = job.setup().stages.as_slice().first().expect(&rt, "a stage");
    assert!(rt; stage.x0 == 200_000 && stage.x1 == 300_000);
    assert!(rt; stage.load == 300 && stage.limit == 0);
    Ok(())
}

/// A stage with a punch that no tools file has.
const UNKNOWN_PUNCH: &str = "[[stage]]
punch = \"P9\"
die = \"D16\"
at = 200000
pieces = [100000]
";

/// A stage of more pieces than the tools file has.
const SHORT_STOCK: &str = "[[stage]]
punch = \"P100\"
die = \"D16\"
at = 200000
pieces = [100000, 100000, 100000]
";

#[test]
fn refusals(rt: HostRuntime) -> Result<(), Fail> {
    for (loads, stages, fault) in [
        ("", UNKNOWN_PUNCH, JobFault::UnknownTool { stage: 0 }),
        ("", "", JobFault::NoStage),
        ("", SHORT_STOCK, JobFault::StockShort { stage: 0 }),
        (OTHER_LOAD, STAGE, JobFault::NoLoad { stage: 0 }),
        (TWO_LOADS, STAGE, JobFault::TwoLoads { stage: 0 }),
    ] {
        let made = made_with(rt.alloc(), loads, stages)?;
        assert!(rt; made.err() == Some(fault));
    }
    Ok(())
}

/// The group of bend 1 of the unfolded part, and whether stage 0 meets it; None where there is no
/// bend or no stage.
fn first_stroke(job: &Job) -> Option<(Mask, bool)> {
    if job.bends() == 0 || job.stages() == 0 {
        return None;
    }
    Some((
        group(job, Mask::empty(), 1),
        meets_at(job, Mask::empty(), 1, 0),
    ))
}

/// The first stroke of a part with one length replaced, on the machine with these lines before its
/// own and with these pieces at its stage; None where there is no job.
fn stroke_of(
    alloc: Global,
    part: &str,
    (length, other): (&str, &str),
    lines: &str,
    pieces: &str,
) -> Result<Option<(Mask, bool)>, Fail> {
    let part = part.replacen(alloc, length, other, 1)?;
    let stage = STAGE.replacen(alloc, "100000", pieces, 1)?;
    let machine = format!(in alloc; "{lines}{MACHINE}{stage}")?;
    let made = made_of(alloc, part.as_str(), TOOLS, machine.as_str())?;
    Ok(made.ok().and_then(|job| first_stroke(&job)))
}

#[test]
fn first_strokes(rt: HostRuntime) -> Result<(), Fail> {
    let same = ("", "");
    for (part, length, lines, pieces, stroke) in [
        (TWO_FLANGES, same, "", "100000", (Mask(1), true)),
        (TWO_FLANGES, same, "gang = 1\n", "100000", (Mask(3), true)),
        (TWO_FLANGES, same, "gang = 1\n", "70000", (Mask(3), false)),
        (L_SECTION, same, "", "90000", (Mask(1), true)),
        (L_SECTION, same, "", "60000", (Mask(1), false)),
        (L_SECTION, ("30000", "12919"), "", "100000", (Mask(1), true)),
        (
            L_SECTION,
            ("30000", "12918"),
            "",
            "100000",
            (Mask(1), false),
        ),
        (
            EAST_FLANGE,
            ("20000", "12919"),
            "",
            "100000",
            (Mask(1), true),
        ),
        (
            EAST_FLANGE,
            ("20000", "12918"),
            "",
            "100000",
            (Mask(1), false),
        ),
    ] {
        let found = stroke_of(rt.alloc(), part, length, lines, pieces)?;
        assert!(rt; found == Some(stroke));
    }
    Ok(())
}

/// The machine's beam and bed, along the whole bed.
fn along_the_bed(index: u8, y: (i64, i64), z: (i64, i64), group: Group) -> Obstacle {
    Obstacle {
        index,
        x0: 0,
        x1: 3_000_000,
        rect: rect(y, z),
        group,
    }
}

/// A box of a tool, along the stage.
fn along_the_stage(index: u8, y: (i64, i64), z: (i64, i64), group: Group) -> Obstacle {
    Obstacle {
        index,
        x0: 200_000,
        x1: 300_000,
        rect: rect(y, z),
        group,
    }
}

fn rect(y: (i64, i64), z: (i64, i64)) -> Rect {
    Rect {
        y0: y.0,
        y1: y.1,
        z0: z.0,
        z1: z.1,
    }
}

/// The beam lies on the punch, 100,000 high; the bed under the die, 60,000 high. Lower boxes are
/// lowered by the thickness, 2,000, and their tops raised by half the opening, 8,000. A groove that
/// is a micrometre less deep than that half isn't sunk.
#[test]
fn obstacles_of_a_stroke(rt: HostRuntime) -> Result<(), Fail> {
    let alloc = rt.alloc();
    let machine = format!(in alloc; "{MACHINE}{STAGE}")?;
    for (groove, top, sunk) in [("-8000]", -2000, true), ("-7999]", -1999, false)] {
        let tools = TOOLS.replacen(alloc, "-8000]", groove, 1)?;
        let job = made_of(alloc, L_SECTION, &tools, &machine)??;
        assert!(rt; job.stages() > 0);
        let mut given = obstacles(&job, 0);
        let (upper, sunk_lower) = (Group::Upper, Group::Lower { sunk: true });
        for wanted in [
            along_the_bed(0, (-60_000, 60_000), (100_000, 400_000), upper),
            along_the_stage(1, (-6000, 6000), (6000, 100_000), upper),
            along_the_bed(0, (-30_000, 30_000), (-362_000, -54_000), sunk_lower),
            along_the_stage(1, (-20_000, -8000), (-62_000, 6000), sunk_lower),
            along_the_stage(2, (-8000, 8000), (-62_000, top), Group::Lower { sunk }),
            along_the_stage(3, (8000, 20_000), (-62_000, 6000), sunk_lower),
        ] {
            assert!(rt; given.next() == Some(wanted));
        }
        assert!(rt; given.next().is_none());
    }
    Ok(())
}
