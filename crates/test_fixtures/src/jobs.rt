//! The jobs of tests, made from the texts of files.

ghost use Rattle.std.specs.Prelude.{◌≡◌, Ok, IfOk};
ghost use Rattle.job_setup.specs.JobOf.{refusing, job_refused, job_of};

use job_setup::{Job, JobFault, make_job};
use machine_file::read_machine;
use part_file::read_part;
use std::alloc::Global;
use std::test::Fail;
use tool_library::read_tools;

/// What comes of the texts of a part file, a tools file and a machine file: their job, or why they
/// give none. A text that is refused by its reader fails the test, as want of memory does.
#[tactic(auto, unfolding(job_setup::specs::JobOf::job_of))]
pub fn made_of(
    alloc: Global,
    part: &str,
    tools: &str,
    machine: &str,
) -> Result<Result<Job, JobFault>, Fail>
    ensures { IfOk result (λ made.
        job_of part.now tools.now machine.now ≡ refusing job_refused made) }
{
    let part = read_part(alloc, part.as_bytes())?;
    let tools = read_tools(alloc, tools.as_bytes())?;
    let machine = read_machine(alloc, machine.as_bytes())?;
    Ok(make_job(part, &tools, &machine))
}

/// The job of these texts. That they give none fails the test.
pub fn job_of(alloc: Global, part: &str, tools: &str, machine: &str) -> Result<Job, Fail>
    ensures { IfOk result (λ job. job_of part.now tools.now machine.now ≡ Ok job) }
{
    let job = made_of(alloc, part, tools, machine)??;
    Ok(job)
}
