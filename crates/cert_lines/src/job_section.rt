//! How far the job lines go, and which line may follow.
ghost use Rattle.std.specs.Prelude.{◌≡◌};
ghost use Rattle.cert_lines.specs.JobLineReading.{line_of};
ghost use Rattle.cert_lines.specs.JobFold.{admits, section_behind};

use crate::job_line::JobLine;

/// What the last job line belongs to. Behind the rules stand the stages; the depth ends the rules,
/// and a load ends a stage.
#[derive(Clone, Copy)]
pub enum JobSection {
    Start,
    Part,
    Fixtures,
    Uncovered,
    Gauge,
    Costs,
    Gang,
    Rules,
    Stages,
    Stage,
    Punch,
    Die,
    Pieces,
}

impl JobSection {
    /// Whether the line may follow in this section.
    pub fn admits(self, line: &JobLine) -> bool
        ensures { result ≡ admits self (line_of line.now) }
    {
        match self {
            JobSection::Start => matches!(line, JobLine::Part { .. }),
            JobSection::Part => matches!(line, JobLine::Face(_) | JobLine::Bed(_)),
            JobSection::Fixtures => matches!(
                line,
                JobLine::Frame(_) | JobLine::Upper(_) | JobLine::Lower(_) | JobLine::Uncovered(_)
            ),
            JobSection::Uncovered => matches!(line, JobLine::Gauge(_)),
            JobSection::Gauge => matches!(line, JobLine::Cost(_)),
            JobSection::Costs => matches!(line, JobLine::Gang(_)),
            JobSection::Gang => matches!(line, JobLine::Force(_)),
            JobSection::Rules => matches!(line, JobLine::Fine(_) | JobLine::Stage(_)),
            JobSection::Stages => matches!(line, JobLine::Stage(_)),
            JobSection::Stage => matches!(line, JobLine::Punch { .. }),
            JobSection::Punch => matches!(line, JobLine::Box(_) | JobLine::Die { .. }),
            JobSection::Die => matches!(line, JobLine::Box(_) | JobLine::Pieces(_)),
            JobSection::Pieces => matches!(line, JobLine::Load(_)),
        }
    }

    /// The section that the line leads to.
    pub fn behind(self, line: &JobLine) -> JobSection
        ensures { result ≡ section_behind self (line_of line.now) }
    {
        match line {
            JobLine::Part { .. } => JobSection::Part,
            JobLine::Bed(_) => JobSection::Fixtures,
            JobLine::Uncovered(_) => JobSection::Uncovered,
            JobLine::Gauge(_) => JobSection::Gauge,
            JobLine::Cost(_) => JobSection::Costs,
            JobLine::Gang(_) => JobSection::Gang,
            JobLine::Force(_) => JobSection::Rules,
            JobLine::Fine(_) | JobLine::Load(_) => JobSection::Stages,
            JobLine::Stage(_) => JobSection::Stage,
            JobLine::Punch { .. } => JobSection::Punch,
            JobLine::Die { .. } => JobSection::Die,
            JobLine::Pieces(_) => JobSection::Pieces,
            _ => self,
        }
    }
}
