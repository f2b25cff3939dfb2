//! How a run ends.
ghost use Rattle.std.specs.Prelude.{◌≡◌};
ghost use Rattle.std.specs.Process.{exit_status};
ghost use Rattle.command_runner.specs.Program.{status_number};

use std::process::ExitCode;

/// How a run ended. The program's exit status is the number of the variant, from 0.
#[derive(Clone, Copy, Debug, PartialEq, Eq)]
pub enum Status {
    /// The work is done, and its text is put.
    Done,
    /// There is no plan.
    NoPlan,
    /// The words have the form of no command.
    Usage,
    /// A file or its job is refused.
    Refused,
    /// The budget is spent.
    Spent,
    /// A certificate or a table is refused.
    CertRefused,
    /// Reading or writing failed.
    Fault,
    /// Memory ran out.
    NoMemory,
}

impl Status {
    /// How the process ends after a run that ended so: with the number of its status.
    pub fn exit_code(self) -> ExitCode
        ensures { exit_status result ≡ status_number self }
    {
        ExitCode::from(self as u8)
    }
}
