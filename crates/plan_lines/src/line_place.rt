//! Where a reader stands in a text behind the job.
ghost use Rattle.std.specs.Prelude.{◌≡◌};
ghost use Rattle.plan_lines.specs.Facts.{HasFew};
ghost use Rattle.plan_lines.specs.Items.{next_number};
ghost use Rattle.plan_lines.specs.NoteLines.{numbers_on};

use crate::job_facts::JobFacts;
use crate::section::Section;

/// Where a reader stands in a text behind the job: the number of its next line, where that line
/// stands, and what is kept of the job.
#[derive(Clone, Copy)]
pub struct LinePlace {
    pub number: u32,
    pub section: Section,
    pub facts: JobFacts,
}

impl LinePlace {
    /// A place before a job is known.
    pub fn none() -> LinePlace
        ensures { HasFew result.facts }
    {
        LinePlace {
            number: 1,
            section: Section::Over,
            facts: JobFacts::none(),
        }
    }
}

/// The number of the line behind a line, which stands still at the greatest number.
pub fn next_number(number: u32) -> u32
    ensures { result ≡ next_number number }
{
    number.saturating_add(1)
}

/// The number of the line behind so many lines.
#[tactic(auto, using(crate::proofs::NoteRuns::numbers_are))]
pub fn number_behind(number: u32, count: u8) -> u32
    ensures { result ≡ numbers_on count number }
{
    number.saturating_add(u32::from(count))
}
