//! The numbers of a refusal of a job.
ghost use Rattle.std.specs.Prelude.{◌≡◌};
ghost use Rattle.job_setup.specs.FaultNumbers.{job_numbers};

use crate::fault::JobFault;
use refusal_numbers::{Numbers, number_before, numbers};

impl JobFault {
    /// The number of the refusal, and then its own numbers. A refusal of the deduction or of the
    /// blank has its own behind that of the job.
    pub fn numbers(self) -> Numbers
        ensures { result.items ≡ job_numbers self }
    {
        match self {
            JobFault::Allow(fault) => numbers(&[1, fault.number()]),
            JobFault::Unfold(fault) => number_before(2, &fault.numbers()),
            JobFault::UnknownTool { stage } => numbers(&[3, u32::from(stage)]),
            JobFault::UnequalHeight { stage } => numbers(&[4, u32::from(stage)]),
            JobFault::StageOverlap { a, b } => numbers(&[5, u32::from(a), u32::from(b)]),
            JobFault::OffBed { stage } => numbers(&[6, u32::from(stage)]),
            JobFault::NoStage => numbers(&[7]),
            JobFault::StockShort { stage } => numbers(&[8, u32::from(stage)]),
            JobFault::NoLoad { stage } => numbers(&[9, u32::from(stage)]),
            JobFault::TwoLoads { stage } => numbers(&[10, u32::from(stage)]),
        }
    }
}
