//! What the four files of `setups` give, and how a run of it stops early.
ghost use Rattle.std.specs.Prelude.{◌≡◌, ◌≤◌, length, map, All, IfOk};
ghost use Rattle.std.specs.Vec.{vec_items};
ghost use Rattle.setup_choice.specs.Setups.{setups_data, one_setup_data, IsOneSetup, IsSetups};
ghost use Rattle.command_runner.specs.Answers.{answer_data};
ghost use Rattle.brake_commands.specs.SetupList.{IsJobFiles, job_files_of, list_of, list_of_files, list_refused};
ghost use Rattle.brake_commands.specs.SetupStops.{job_files_data, ReadsJobFiles, ReadsList, IsFaultAnd, FitsList};

use crate::job_files::content_at;
use crate::refusal::{ReadStop, Refusal, stopped};
use brake_base::Name;
use command_runner::{Answer, Status, refusal};
use machine_file::{Machine, read_machine};
use part_file::{Part, read_part};
use setup_choice::{Fit, OneSetup, SetupFault, Setups, fit, read_setups};
use std::alloc::{AllocError, AllocFailed, Global};
use tool_library::{Tools, read_tools};

/// Why a run of `setups` stops early.
#[derive(Clone, Copy, Debug, PartialEq, Eq)]
pub enum SetupsStop {
    /// The part's file, the tools file or the machine file is refused.
    File(Refusal),
    /// The setups file or one of its setups is refused.
    Setups(SetupFault),
    /// Memory ran out.
    NoMemory,
}

impl From<ReadStop> for SetupsStop {
    ghost use Rattle.std.specs.Prelude.{◌≡◌};
    ghost use Rattle.brake_commands.specs.SetupStops.{of_read_stop};

    ghost from_gives = { λ stop setups_stop. setups_stop ≡ of_read_stop stop };

    fn from(stop: ReadStop) -> Self {
        match stop {
            ReadStop::Refused(refusal) => SetupsStop::File(refusal),
            ReadStop::NoMemory => SetupsStop::NoMemory,
        }
    }
}

impl From<SetupFault> for SetupsStop {
    ghost use Rattle.std.specs.Prelude.{◌≡◌};
    ghost use Rattle.brake_commands.specs.SetupStops.{of_setup_fault};

    ghost from_gives = { λ fault setups_stop. setups_stop ≡ of_setup_fault fault };

    fn from(fault: SetupFault) -> Self {
        match fault {
            SetupFault::NoMemory => SetupsStop::NoMemory,
            _ => SetupsStop::Setups(fault),
        }
    }
}

impl<T: Drop> From<AllocFailed<T>> for SetupsStop {
    ghost use Rattle.std.specs.Prelude.{◌≡◌};
    ghost use Rattle.brake_commands.specs.declared.setup_list.SetupsStop.TheVariants.{NoMemory};

    ghost from_gives = { λ _ stop. stop ≡ NoMemory };

    fn from(_: AllocFailed<T>) -> Self {
        SetupsStop::NoMemory
    }
}

/// The answer to such a stop, unless memory ran out.
pub fn setups_stopped(alloc: Global, stop: SetupsStop) -> Result<Answer, AllocError>
    ensures answer { IfOk result (λ answer.
        IsFaultAnd stop (λ fault. answer_data answer ≡ list_refused fault)) }
    ensures status { IfOk result (λ answer. answer.status ≡ Status.Refused) }
{
    match stop {
        SetupsStop::File(file) => stopped(alloc, ReadStop::Refused(file)),
        SetupsStop::Setups(fault) => {
            let numbers = fault.numbers();
            refusal(
                alloc,
                Status::Refused,
                b"refused setups",
                numbers.as_slice(),
            )
        }
        SetupsStop::NoMemory => Err(AllocError),
    }
}

/// A part, tools and a machine, whose own stages aren't used.
#[derive(Drop)]
pub struct JobFiles {
    pub part: Part,
    pub tools: Tools,
    pub machine: Machine,
}

/// The same, with the setups that are to be tried.
#[derive(Drop)]
pub struct SetupList {
    pub files: JobFiles,
    pub setups: Setups,
}

/// The part, the tools and the machine of three files, or the first refusal.
#[tactic(auto, unfolding(crate::specs::SetupList::job_files_of))]
fn read_job_files(
    alloc: Global,
    part: &[u8],
    tools: &[u8],
    machine: &[u8],
) -> Result<JobFiles, ReadStop>
    ensures value { ReadsJobFiles result (job_files_of part.now tools.now machine.now) }
    ensures fit { IfOk result (λ files. IsJobFiles (job_files_data files)) }
{
    let part = read_part(alloc, part)?;
    let tools = read_tools(alloc, tools)?;
    let machine = read_machine(alloc, machine)?;
    Ok(JobFiles {
        part,
        tools,
        machine,
    })
}

/// These and the setups of a fourth, or the first refusal.
#[tactic(auto, unfolding(crate::specs::SetupList::list_of))]
fn read_list(
    alloc: Global,
    part: &[u8],
    tools: &[u8],
    machine: &[u8],
    setups: &[u8],
) -> Result<SetupList, SetupsStop>
    ensures value { ReadsList result (list_of part.now tools.now machine.now setups.now) }
    ensures files { IfOk result (λ list. IsJobFiles (job_files_data list.files)) }
    ensures setups { IfOk result (λ list. IsSetups (setups_data list.setups)) }
{
    let files = read_job_files(alloc, part, tools, machine)?;
    let setups = read_setups(alloc, setups)?;
    Ok(SetupList { files, setups })
}

/// The list of the contents of the part's file, the tools file, the machine file and the setups
/// file, or the first refusal.
pub fn list_at(alloc: Global, contents: &[Vec<u8>]) -> Result<SetupList, SetupsStop>
    requires { length contents.now ≡ 4 }
    ensures value { ReadsList result (list_of_files (map vec_items contents.now)) }
    ensures files { IfOk result (λ list. IsJobFiles (job_files_data list.files)) }
    ensures setups { IfOk result (λ list. IsSetups (setups_data list.setups)) }
{
    let part = content_at(contents, 0);
    let tools = content_at(contents, 1);
    let machine = content_at(contents, 2);
    let setups = content_at(contents, 3);
    read_list(alloc, part, tools, machine, setups)
}

/// A setup by its name, and what becomes of it on the machine.
#[derive(Drop)]
pub struct FittedSetup {
    pub name: Name,
    pub fit: Fit,
}

/// Fits the setups in order, up to the first that is refused.
pub fn fit_all(
    alloc: Global,
    files: &JobFiles,
    setups: &[OneSetup],
) -> Result<Vec<FittedSetup>, SetupsStop>
    requires files { IsJobFiles (job_files_data files.now) }
    requires setups { All IsOneSetup (map one_setup_data setups.now) }
    requires few { length setups.now ≤ 16 }
    ensures { FitsList (job_files_data files.now) (map one_setup_data setups.now) result }
{
    let mut fits = Vec::new(alloc);
    for (place, one) in setups.iter().enumerate() {
        match fit(&files.part, &files.tools, &files.machine, one) {
            Ok(fit) => fits.push(FittedSetup {
                name: one.name,
                fit,
            })?,
            Err(fault) => {
                return Err(SetupsStop::Setups(SetupFault::Job {
                    setup: place as u8,
                    fault,
                }));
            }
        }
    }
    Ok(fits)
}
