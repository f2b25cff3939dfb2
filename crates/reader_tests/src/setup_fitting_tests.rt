//! Setups on the common machine, with the common tools.

use allowance::AllowFault;
use job_setup::{Job, JobFault};
use machine_file::read_machine;
use part_file::read_part;
use setup_choice::{Fit, fit, read_setups};
use std::alloc::Global;
use std::test::Fail;
use test_fixtures::{FLAT_OVERLAP, L_SECTION, MACHINE, TOOLS};
use tool_library::read_tools;
use unfolder::UnfoldFault;

/// What becomes of the setup of this list of stages for a part, with these lines behind those of
/// the tools file.
fn fitted(
    alloc: Global,
    part: &str,
    lines: &str,
    stages: &str,
) -> Result<Result<Fit, JobFault>, Fail> {
    let part = read_part(alloc, part.as_bytes())?;
    let tools = format!(in alloc; "{TOOLS}{lines}")?;
    let tools = read_tools(alloc, tools.as_bytes())?;
    let machine = read_machine(alloc, MACHINE.as_bytes())?;
    let setups = format!(in alloc; "setup = [{{name = 'a', stage = [{stages}]}}]")?;
    let setups = read_setups(alloc, setups.as_bytes())?;
    let one = &setups.list.as_slice()[0];
    Ok(fit(&part, &tools, &machine, one))
}

/// The job of a setup that is ready; None where it is short.
fn job_of(fitted: &Fit) -> Option<&Job> {
    match fitted {
        Fit::Ready(job) => Some(job),
        Fit::Short => None,
    }
}

/// The pieces of the stages of a setup that is ready, stage by stage; None where it is short.
fn pieces_of(alloc: Global, fitted: &Fit) -> Result<Option<Vec<Vec<i64>>>, Fail> {
    let Some(job) = job_of(fitted) else {
        return Ok(None);
    };
    let mut pieces = Vec::new(alloc);
    for stage in job.setup().stages.as_slice() {
        let mut of_stage = Vec::new(alloc);
        of_stage.extend_from_slice(stage.pieces.as_slice())?;
        pieces.push(of_stage)?;
    }
    Ok(Some(pieces))
}

/// A stage with the common tools.
fn stage(alloc: Global, at: i64, length: i64) -> Result<String, Fail> {
    Ok(format!(in alloc; "{{punch = 'P100', die = 'D16', at = {at}, length = {length}}}, ")?)
}

#[test]
fn one_stage(rt: HostRuntime) -> Result<(), Fail> {
    let all = [100_000, 100_000, 90_000, 70_000, 60_000, 56_000, 45_000];
    for (length, pieces) in [
        (60_000, [60_000].as_slice()),
        (105_000, [60_000, 45_000].as_slice()),
        (521_000, all.as_slice()),
    ] {
        let stages = stage(rt.alloc(), 200_000, length)?;
        let fitted = fitted(rt.alloc(), L_SECTION, "", stages.as_str())??;
        let found = pieces_of(rt.alloc(), &fitted)?.expect(&rt, "a choice");
        assert!(rt; found.len() == 1 && found[0].as_slice() == pieces);
        let job = job_of(&fitted).expect(&rt, "a job");
        let stage = job.setup().stages.as_slice().first().expect(&rt, "a stage");
        assert!(rt; stage.x0 == 200_000 && stage.x1 == 200_000 + length);
        assert!(rt; job.q() == 1919 && job.setup().cost.stroke == 100);
    }
    Ok(())
}

#[test]
fn short(rt: HostRuntime) -> Result<(), Fail> {
    for length in [1, 50_000, 521_001, 2_800_000] {
        let stages = stage(rt.alloc(), 200_000, length)?;
        let fitted = fitted(rt.alloc(), L_SECTION, "", stages.as_str())??;
        assert!(rt; pieces_of(rt.alloc(), &fitted)?.is_none());
    }
    Ok(())
}

/// The pieces for two stages of these lengths.
fn two_stages(alloc: Global, first: i64, second: i64) -> Result<Option<Vec<Vec<i64>>>, Fail> {
    let mut stages = stage(alloc, 0, first)?;
    stages.push_str(stage(alloc, first, second)?.as_str())?;
    let fitted = fitted(alloc, L_SECTION, "", stages.as_str())??;
    pieces_of(alloc, &fitted)
}

#[test]
fn stages_share_the_stock(rt: HostRuntime) -> Result<(), Fail> {
    let found = two_stages(rt.alloc(), 200_000, 105_000)?.expect(&rt, "a choice");
    let (first, second) = ([100_000, 100_000], [60_000, 45_000]);
    assert!(rt; found.len() == 2 && found[0].as_slice() == first.as_slice());
    assert!(rt; found.len() == 2 && found[1].as_slice() == second.as_slice());
    assert!(rt; two_stages(rt.alloc(), 200_000, 200_000)?.is_none());
    Ok(())
}

/// A taller punch, and a die with another opening.
const OTHER_TOOLS: &str = "[[punch]]
name = 'P200'
height = 200000
nose = 6000
body = []
sections = [[100000, 1]]
[[die]]
name = 'D12'
height = 60000
v = 12000
least_flange = 11000
body = []
sections = []
";

/// A load row for the die D16.
const LOAD: &str = "[[load]]
material = 'S235'
thickness = 2000
v = 16000
load = 300
";

/// A list of stages, and its refusal beside the other tools and two rows of loads for the die D16.
/// The lengths of the last four are none that the stock has.
const REFUSALS: [(&str, JobFault); 9] = [
    (
        "{punch = 'P9', die = 'D16', at = 0, length = 60000}",
        JobFault::UnknownTool { stage: 0 },
    ),
    (
        "{punch = 'P100', die = 'D16', at = -1, length = 60000},
         {punch = 'P100', die = 'D9', at = 0, length = 60000}",
        JobFault::UnknownTool { stage: 1 },
    ),
    (
        "{punch = 'P100', die = 'D16', at = 0, length = 60000},
         {punch = 'P200', die = 'D16', at = 0, length = 100000}",
        JobFault::UnequalHeight { stage: 1 },
    ),
    (
        "{punch = 'P100', die = 'D16', at = -1, length = 60000},
         {punch = 'P100', die = 'D16', at = 59998, length = 45000}",
        JobFault::StageOverlap { a: 0, b: 1 },
    ),
    (
        "{punch = 'P100', die = 'D16', at = 0, length = 60000},
         {punch = 'P100', die = 'D16', at = 2955001, length = 45000}",
        JobFault::OffBed { stage: 1 },
    ),
    (
        "{punch = 'P100', die = 'D16', at = 0, length = 20000000}",
        JobFault::OffBed { stage: 0 },
    ),
    (
        "{punch = 'P100', die = 'D16', at = 0, length = 50000},
         {punch = 'P100', die = 'D12', at = 50000, length = 50000}",
        JobFault::NoLoad { stage: 1 },
    ),
    (
        "{punch = 'P100', die = 'D16', at = 0, length = 50000}",
        JobFault::TwoLoads { stage: 0 },
    ),
    (
        "{punch = 'P100', die = 'D16', at = 0, length = 600000}",
        JobFault::TwoLoads { stage: 0 },
    ),
];

#[test]
fn refusals(rt: HostRuntime) -> Result<(), Fail> {
    let lines = format!(in rt.alloc(); "{OTHER_TOOLS}{LOAD}{LOAD}")?;
    for (stages, fault) in REFUSALS {
        let found = fitted(rt.alloc(), L_SECTION, lines.as_str(), stages)?;
        assert!(rt; found.err() == Some(fault));
    }
    Ok(())
}

#[test]
fn refusals_of_the_part_come_first(rt: HostRuntime) -> Result<(), Fail> {
    let stages = "{punch = 'P9', die = 'D16', at = 0, length = 50000}";
    let other = L_SECTION.replacen(rt.alloc(), "S235", "S355", 1)?;
    for (part, fault) in [
        (other.as_str(), JobFault::Allow(AllowFault::NoRow)),
        (
            FLAT_OVERLAP,
            JobFault::Unfold(UnfoldFault::FlatOverlap { a: 1, b: 4 }),
        ),
    ] {
        let found = fitted(rt.alloc(), part, "", stages)?;
        assert!(rt; found.err() == Some(fault));
    }
    Ok(())
}

#[test]
fn one_row_of_loads(rt: HostRuntime) -> Result<(), Fail> {
    let stages = stage(rt.alloc(), 200_000, 60_000)?;
    let fitted = fitted(rt.alloc(), L_SECTION, LOAD, stages.as_str())??;
    let job = job_of(&fitted).expect(&rt, "a job");
    let stage = job.setup().stages.as_slice().first().expect(&rt, "a stage");
    assert!(rt; stage.load == 300);
    Ok(())
}
