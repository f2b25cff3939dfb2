//! What becomes of a setup on the machine.
ghost use Rattle.std.specs.Prelude.{◌≡◌, map, option_map, All, Some};
ghost use Rattle.part_file.specs.Part.{part_data, IsPart};
ghost use Rattle.tool_library.specs.Tools.{tools_data, IsTools};
ghost use Rattle.machine_file.specs.Machine.{machine_data, IsMachine};
ghost use Rattle.piece_pick.specs.Choice.{IsWant, IsPick};
ghost use Rattle.setup_choice.specs.Setups.{one_setup_data, IsOneSetup};
ghost use Rattle.setup_choice.specs.Fitting.{IsFit, setup_fits, wants_of, job_of_choice};

use crate::checks::check;
use crate::made::made_of_choice;
use crate::outcome::Fit;
use crate::setups::OneSetup;
use crate::wants::wants_of;
use job_setup::{Job, JobFault, make_job};
use machine_file::Machine;
use part_file::Part;
use piece_pick::{Picked, pick};
use tool_library::Tools;

/// The job of a setup whose stages are made of the pieces of a choice.
fn job_of_choice(
    part: &Part,
    tools: &Tools,
    machine: &Machine,
    one: &OneSetup,
    choice: &Picked,
) -> Result<Job, JobFault>
    requires part { IsPart (part_data part.now) }
    requires tools { IsTools (tools_data tools.now) }
    requires machine { IsMachine (machine_data machine.now) }
    requires setup { IsOneSetup (one_setup_data one.now) }
    requires choice { IsPick (tools_data tools.now)
        (wants_of (tools_data tools.now) (one_setup_data one.now).stages)
        (Some (map (λ pieces. pieces.items) choice.now.items)) }
    ensures { result ≡ job_of_choice (part_data part.now) (tools_data tools.now)
        (machine_data machine.now) (one_setup_data one.now)
        (map (λ pieces. pieces.items) choice.now.items) }
{
    let stages = made_of_choice(one.stages.as_slice(), choice.as_slice());
    make_job(part.copy(), tools, &machine.with_stages(stages))
}

/// The first choice of pieces for the stages of a setup whose tools are there, if there is one.
fn choice_for(tools: &Tools, one: &OneSetup) -> Option<Picked>
    requires tools { IsTools (tools_data tools.now) }
    requires setup { IsOneSetup (one_setup_data one.now) }
    requires wants { All (IsWant (tools_data tools.now))
        (wants_of (tools_data tools.now) (one_setup_data one.now).stages) }
    ensures { IsPick (tools_data tools.now)
        (wants_of (tools_data tools.now) (one_setup_data one.now).stages)
        (option_map (λ choice. map (λ pieces. pieces.items) choice.items) result) }
{
    let wants = wants_of(tools, one.stages.as_slice());
    pick(tools, wants.as_slice())
}

/// Fits a setup on the machine, in place of the machine's own stages; each of its stages runs from
/// `at` to `at + length`. The refusals are those of [`make_job`] but for that of the stock, in
/// their order, whatever pieces the stages are made of; else Short exactly where the stock has no
/// choice of pieces; else the job with the first choice. It takes no memory.
pub fn fit(part: &Part, tools: &Tools, machine: &Machine, one: &OneSetup) -> Result<Fit, JobFault>
    requires part { IsPart (part_data part.now) }
    requires tools { IsTools (tools_data tools.now) }
    requires machine { IsMachine (machine_data machine.now) }
    requires setup { IsOneSetup (one_setup_data one.now) }
    ensures { IsFit (part_data part.now) (tools_data tools.now) (machine_data machine.now)
        (one_setup_data one.now) result }
{
    check(part, tools, machine, one)?;
    match choice_for(tools, one) {
        Some(choice) => {
            let job = job_of_choice(part, tools, machine, one, &choice)?;
            Ok(Fit::Ready(job))
        }
        None => Ok(Fit::Short),
    }
}
