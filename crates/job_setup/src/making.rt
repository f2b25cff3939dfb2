//! The job of a part, tools and a machine.
ghost use Rattle.std.specs.Prelude.{◌≡◌, ◌≤ℤ◌, pos, map, length, ◌≤◌, Ok, IsOk, IfOk, OnOk};
ghost use Rattle.part_file.specs.Part.{part_data, IsPart, half_thickness};
ghost use Rattle.allowance.specs.AllowTable.{half_deduction_in};
ghost use Rattle.unfolder.specs.Blank.{blank_data, blank_of_part};
ghost use Rattle.tool_library.specs.Tools.{tools_data, IsTools};
ghost use Rattle.machine_file.specs.Machine.{machine_data, IsMachine};
ghost use Rattle.toml_fields.specs.Results.{Gives};
ghost use Rattle.job_setup.specs.Setup.{stage_data, setup_data};
ghost use Rattle.job_setup.specs.Places.{places_fit};
ghost use Rattle.job_setup.specs.ValidJob.{IsJob};
ghost use Rattle.job_setup.specs.JobOf.{refusing, unfolds, setup_of, stages_fit, job_with, job_in};

use crate::fault::JobFault;
use crate::job::Job;
use crate::loads::check_loads;
use crate::places::check_places;
use crate::setup::{Setup, Stage};
use crate::stages::stages_of;
use crate::stock::check_stock;
use allowance::find;
use arrayvec::ArrayVec;
use machine_file::Machine;
use part_file::Part;
use tool_library::Tools;
use unfolder::unfold;

/// Half of what the part loses at each bend, by the shop's table.
fn half_deduction_of(part: &Part, tools: &Tools) -> Result<i64, JobFault>
    requires { IsTools (tools_data tools.now) }
    ensures value { result ≡ refusing JobFault.Allow
        (half_deduction_in (tools_data tools.now).allow (part_data part.now)) }
    ensures low { IfOk result (λ q. half_thickness (part_data part.now) ≤ℤ q) }
    ensures high { IfOk result (λ q. q ≤ℤ pos 100000) }
{
    match find(&tools.allow, part) {
        Ok(q) => Ok(q),
        Err(fault) => Err(JobFault::Allow(fault)),
    }
}

/// Refuses a part that doesn't unfold.
fn check_blank(part: &Part, q: i64) -> Result<(), JobFault>
    requires part { IsPart (part_data part.now) }
    requires low { half_thickness (part_data part.now) ≤ℤ q }
    requires high { q ≤ℤ pos 100000 }
    ensures value { Gives (λ u. u) result (unfolds (part_data part.now) q) }
    ensures fit { IfOk result (λ u. IsOk (blank_of_part (part_data part.now) q)) }
{
    match unfold(part, q) {
        Ok(_) => Ok(()),
        Err(fault) => Err(JobFault::Unfold(fault)),
    }
}

/// The machine with these stages.
fn setup_of(machine: &Machine, stages: ArrayVec<Stage, 6>) -> Setup
    ensures { setup_data result
        ≡ setup_of (machine_data machine.now) (map stage_data stages.items) }
{
    let mut frames = ArrayVec::new();
    let _ = frames.try_extend_from_slice(machine.frames.as_slice());
    let mut upper = ArrayVec::new();
    let _ = upper.try_extend_from_slice(machine.upper.as_slice());
    let mut lower = ArrayVec::new();
    let _ = lower.try_extend_from_slice(machine.lower.as_slice());
    Setup {
        bed: machine.bed,
        frames,
        upper,
        lower,
        uncovered: machine.uncovered,
        gauge: machine.gauge,
        cost: machine.cost,
        stages,
        gang: machine.gang,
        force: machine.force,
        fine: machine.fine,
    }
}

/// The job whose checks passed.
fn checked(part: &Part, q: i64, machine: &Machine, stages: ArrayVec<Stage, 6>) -> Job
    requires { IsJob (record {
      part = part_data part.now;
      q = q;
      setup = setup_of (machine_data machine.now) (map stage_data stages.items);
    }) }
    ensures { result ≡ record {
      part = part_data part.now;
      q = q;
      setup = setup_of (machine_data machine.now) (map stage_data stages.items);
    } }
{
    Job::new(part, q, setup_of(machine, stages))
}

/// Refuses stages that don't fit the bed, the stock or the load table.
fn check_stages(
    part: &Part,
    tools: &Tools,
    machine: &Machine,
    stages: &[Stage],
) -> Result<(), JobFault>
    requires few { length stages.now ≤ 6 }
    requires few_texts { length machine.now.stages.items ≤ 6 }
    ensures value { result ≡ stages_fit (part_data part.now) (tools_data tools.now)
        (machine_data machine.now) (map stage_data stages.now) }
    ensures placed { OnOk result (places_fit machine.now.bed (map stage_data stages.now) ≡ Ok tt) }
{
    check_places(&machine.bed, stages)?;
    check_stock(tools, machine.stages.as_slice())?;
    check_loads(part, &tools.loads, stages)
}

/// The job of a part that has this half deduction.
fn job_with(part: &Part, q: i64, tools: &Tools, machine: &Machine) -> Result<Job, JobFault>
    requires part { IsPart (part_data part.now) }
    requires q_low { half_thickness (part_data part.now) ≤ℤ q }
    requires q_high { q ≤ℤ pos 100000 }
    requires tools { IsTools (tools_data tools.now) }
    requires machine { IsMachine (machine_data machine.now) }
    ensures { result ≡ job_with (part_data part.now) q (tools_data tools.now)
        (machine_data machine.now) }
{
    check_blank(part, q)?;
    let stages = stages_of(part, tools, machine.stages.as_slice())?;
    check_stages(part, tools, machine, stages.as_slice())?;
    Ok(checked(part, q, machine, stages))
}

/// The job of a part, a shop's tools and a machine, or the first refusal in the order of
/// [`JobFault`], each tried over all stages before the next. It takes no memory.
#[tactic(auto, using(crate::proofs::Lists::seen), unfolding(crate::specs::JobOf::job_in))]
pub fn make_job(part: Part, tools: &Tools, machine: &Machine) -> Result<Job, JobFault>
    requires part { IsPart (part_data part) }
    requires tools { IsTools (tools_data tools.now) }
    requires machine { IsMachine (machine_data machine.now) }
    ensures { result ≡ job_in (part_data part) (tools_data tools.now) (machine_data machine.now) }
{
    let q = half_deduction_of(&part, tools)?;
    job_with(&part, q, tools, machine)
}
