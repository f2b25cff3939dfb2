//! The job of three files, and whether two jobs are one.
ghost use Rattle.std.specs.Prelude.{◌≡◌, ◌↔◌, ◌+◌, ◌<◌, ◌≤◌, length, map, IfOk, IsTrue};
ghost use Rattle.std.specs.Vec.{vec_items};
ghost use Rattle.job_setup.specs.JobOf.{job_of};
ghost use Rattle.command_runner.specs.Fetching.{word_at};
ghost use Rattle.brake_commands.specs.JobAnswer.{ReadsJob, job_of_files};

use crate::refusal::{ReadStop, Refusal};
use job_setup::{Job, make_job};
use machine_file::read_machine;
use part_file::read_part;
use plan_cert::write_job;
use std::alloc::{AllocError, Global};
use tool_library::read_tools;

/// The job of a part's file, a tools file and a machine file, or the first refusal: of the part, of
/// the tools, of the machine, of the job.
#[tactic(auto, unfolding(job_setup::specs::JobOf::job_of))]
fn read_job(alloc: Global, part: &[u8], tools: &[u8], machine: &[u8]) -> Result<Job, ReadStop>
    ensures { ReadsJob result (job_of part.now tools.now machine.now) }
{
    let part = read_part(alloc, part)?;
    let tools = read_tools(alloc, tools)?;
    let machine = read_machine(alloc, machine)?;
    match make_job(part, &tools, &machine) {
        Ok(job) => Ok(job),
        Err(fault) => Err(ReadStop::Refused(Refusal::Job(fault))),
    }
}

/// The content of a command's file.
pub fn content_at(contents: &[Vec<u8>], place: usize) -> &[u8]
    requires { place < length contents.now }
    ensures { result.now ≡ word_at (map vec_items contents.now) place }
{
    contents[place].as_slice()
}

/// The job of the three files from a place on, or the first refusal.
pub fn job_at(alloc: Global, contents: &[Vec<u8>], place: usize) -> Result<Job, ReadStop>
    requires { place + 3 ≤ length contents.now }
    ensures { ReadsJob result (job_of_files place (map vec_items contents.now)) }
{
    let part = content_at(contents, place);
    let tools = content_at(contents, place + 1);
    let machine = content_at(contents, place + 2);
    read_job(alloc, part, tools, machine)
}

/// Whether two jobs are one, as they are where they have one text.
pub fn is_one_job(alloc: Global, job: &Job, other: &Job) -> Result<bool, AllocError>
    ensures { IfOk result (λ same. IsTrue same ↔ (job.now ≡ other.now)) }
{
    other.recall_valid();
    let text = write_job(alloc, job)?;
    let other_text = write_job(alloc, other)?;
    Ok(text.as_slice() == other_text.as_slice())
}
