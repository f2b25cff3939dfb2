//! The refusals of a setup, whatever pieces its stages are made of.
ghost use Rattle.std.specs.Prelude.{◌≡◌};
ghost use Rattle.part_file.specs.Part.{part_data, IsPart};
ghost use Rattle.tool_library.specs.Tools.{tools_data, IsTools};
ghost use Rattle.machine_file.specs.Machine.{machine_data, IsMachine};
ghost use Rattle.setup_choice.specs.Setups.{one_setup_data, IsOneSetup};
ghost use Rattle.setup_choice.specs.Fitting.{part_fits, stages_stand, setup_fits};

use crate::made::in_long_pieces;
use crate::setups::OneSetup;
use allowance::find;
use job_setup::{JobFault, check_loads, check_places, stages_of};
use machine_file::Machine;
use part_file::Part;
use tool_library::Tools;
use unfolder::unfold;

/// Refuses a part that has no half deduction by the shop's table, and then one that doesn't unfold.
#[tactic(auto, unfolding(crate::specs::Fitting::part_fits))]
fn check_part(part: &Part, tools: &Tools) -> Result<(), JobFault>
    requires part { IsPart (part_data part.now) }
    requires tools { IsTools (tools_data tools.now) }
    ensures { result ≡ part_fits (part_data part.now) (tools_data tools.now) }
{
    let q = match find(&tools.allow, part) {
        Ok(q) => q,
        Err(fault) => return Err(JobFault::Allow(fault)),
    };
    match unfold(part, q) {
        Ok(_) => Ok(()),
        Err(fault) => Err(JobFault::Unfold(fault)),
    }
}

/// Refuses stages whose tools the shop doesn't have, that don't fit the bed, or for which the load
/// table has no row or two.
fn check_stages(
    part: &Part,
    tools: &Tools,
    machine: &Machine,
    one: &OneSetup,
) -> Result<(), JobFault>
    requires setup { IsOneSetup (one_setup_data one.now) }
    ensures { result ≡ stages_stand (part_data part.now) (tools_data tools.now)
        (machine_data machine.now) (one_setup_data one.now) }
{
    let made = in_long_pieces(one.stages.as_slice());
    let stages = stages_of(part, tools, made.as_slice())?;
    check_places(&machine.bed, stages.as_slice())?;
    check_loads(part, &tools.loads, stages.as_slice())
}

/// Refuses a setup, whatever pieces its stages are made of.
#[tactic(auto, unfolding(crate::specs::Fitting::setup_fits))]
pub fn check(part: &Part, tools: &Tools, machine: &Machine, one: &OneSetup) -> Result<(), JobFault>
    requires part { IsPart (part_data part.now) }
    requires tools { IsTools (tools_data tools.now) }
    requires machine { IsMachine (machine_data machine.now) }
    requires setup { IsOneSetup (one_setup_data one.now) }
    ensures { result ≡ setup_fits (part_data part.now) (tools_data tools.now)
        (machine_data machine.now) (one_setup_data one.now) }
{
    check_part(part, tools)?;
    check_stages(part, tools, machine, one)
}
