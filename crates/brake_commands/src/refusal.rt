//! Why the reading of files stops early, and the answer that tells a refusal.
ghost use Rattle.std.specs.Prelude.{◌≡◌, IfOk};
ghost use Rattle.command_runner.specs.Answers.{answer_data};
ghost use Rattle.brake_commands.specs.FaultNumbers.{refused_file, fault_numbers, file_refused};
ghost use Rattle.brake_commands.specs.Stops.{refusal_data, IsRefusalAnd};

use allowance::AllowFault;
use command_runner::{Answer, Status, refusal};
use job_setup::JobFault;
use machine_file::MachineFault;
use part_file::PartFault;
use refusal_numbers::Numbers;
use std::alloc::{AllocError, AllocFailed, Global};
use tool_library::ToolFault;
use unfolder::UnfoldFault;

/// Why files are refused.
#[derive(Clone, Copy, Debug, PartialEq, Eq)]
pub enum Refusal {
    /// The part's file is refused.
    Part(PartFault),
    /// The tools file is refused.
    Tools(ToolFault),
    /// The machine file is refused.
    Machine(MachineFault),
    /// The files give no job.
    Job(JobFault),
}

/// Why the reading of files stops early.
#[derive(Clone, Copy, Debug, PartialEq, Eq)]
pub enum ReadStop {
    /// The files are refused.
    Refused(Refusal),
    /// Memory ran out.
    NoMemory,
}

impl From<PartFault> for ReadStop {
    ghost use Rattle.std.specs.Prelude.{◌≡◌};
    ghost use Rattle.brake_commands.specs.Stops.{of_part};

    ghost from_gives = { λ fault stop. stop ≡ of_part fault };

    fn from(fault: PartFault) -> Self {
        match fault {
            PartFault::NoMemory => ReadStop::NoMemory,
            _ => ReadStop::Refused(Refusal::Part(fault)),
        }
    }
}

impl From<ToolFault> for ReadStop {
    ghost use Rattle.std.specs.Prelude.{◌≡◌};
    ghost use Rattle.brake_commands.specs.Stops.{of_tools};

    ghost from_gives = { λ fault stop. stop ≡ of_tools fault };

    fn from(fault: ToolFault) -> Self {
        match fault {
            ToolFault::NoMemory => ReadStop::NoMemory,
            _ => ReadStop::Refused(Refusal::Tools(fault)),
        }
    }
}

impl From<MachineFault> for ReadStop {
    ghost use Rattle.std.specs.Prelude.{◌≡◌};
    ghost use Rattle.brake_commands.specs.Stops.{of_machine};

    ghost from_gives = { λ fault stop. stop ≡ of_machine fault };

    fn from(fault: MachineFault) -> Self {
        match fault {
            MachineFault::NoMemory => ReadStop::NoMemory,
            _ => ReadStop::Refused(Refusal::Machine(fault)),
        }
    }
}

impl From<JobFault> for ReadStop {
    ghost use Rattle.std.specs.Prelude.{◌≡◌};
    ghost use Rattle.brake_commands.specs.Stops.{of_job};

    ghost from_gives = { λ fault stop. stop ≡ of_job fault };

    fn from(fault: JobFault) -> Self {
        ReadStop::Refused(Refusal::Job(fault))
    }
}

impl From<AllowFault> for ReadStop {
    ghost use Rattle.std.specs.Prelude.{◌≡◌};
    ghost use Rattle.job_setup.specs.declared.fault.JobFault.TheVariants.{Allow};
    ghost use Rattle.brake_commands.specs.Stops.{of_job};

    ghost from_gives = { λ fault stop. stop ≡ of_job (Allow fault) };

    fn from(fault: AllowFault) -> Self {
        ReadStop::Refused(Refusal::Job(JobFault::Allow(fault)))
    }
}

impl From<UnfoldFault> for ReadStop {
    ghost use Rattle.std.specs.Prelude.{◌≡◌};
    ghost use Rattle.job_setup.specs.declared.fault.JobFault.TheVariants.{Unfold};
    ghost use Rattle.brake_commands.specs.Stops.{of_job};

    ghost from_gives = { λ fault stop. stop ≡ of_job (Unfold fault) };

    fn from(fault: UnfoldFault) -> Self {
        ReadStop::Refused(Refusal::Job(JobFault::Unfold(fault)))
    }
}

impl<T: Drop> From<AllocFailed<T>> for ReadStop {
    ghost use Rattle.std.specs.Prelude.{◌≡◌};
    ghost use Rattle.brake_commands.specs.declared.refusal.ReadStop.TheVariants.{NoMemory};

    ghost from_gives = { λ _ stop. stop ≡ NoMemory };

    fn from(_: AllocFailed<T>) -> Self {
        ReadStop::NoMemory
    }
}

impl Refusal {
    /// What is refused, as the line has it.
    fn file(self) -> &'static [u8]
        ensures { result.now ≡ refused_file (refusal_data self) }
    {
        match self {
            Refusal::Part(_) => b"refused part",
            Refusal::Tools(_) => b"refused tools",
            Refusal::Machine(_) => b"refused machine",
            Refusal::Job(_) => b"refused job",
        }
    }

    /// The numbers behind it on the line.
    fn numbers(self) -> Numbers
        ensures { result.items ≡ fault_numbers (refusal_data self) }
    {
        match self {
            Refusal::Part(fault) => fault.numbers(),
            Refusal::Tools(fault) => fault.numbers(),
            Refusal::Machine(fault) => fault.numbers(),
            Refusal::Job(fault) => fault.numbers(),
        }
    }

    /// The answer that puts its line.
    fn answer(self, alloc: Global) -> Result<Answer, AllocError>
        ensures answer { IfOk result (λ answer.
            answer_data answer ≡ file_refused (refusal_data self)) }
        ensures status { IfOk result (λ answer. answer.status ≡ Status.Refused) }
    {
        let numbers = self.numbers();
        refusal(alloc, Status::Refused, self.file(), numbers.as_slice())
    }
}

/// The answer to a stop of the reading, unless memory ran out.
pub fn stopped(alloc: Global, stop: ReadStop) -> Result<Answer, AllocError>
    ensures answer { IfOk result (λ answer.
        IsRefusalAnd stop (λ fault. answer_data answer ≡ file_refused fault)) }
    ensures status { IfOk result (λ answer. answer.status ≡ Status.Refused) }
{
    match stop {
        ReadStop::Refused(refused) => refused.answer(alloc),
        ReadStop::NoMemory => Err(AllocError),
    }
}
