//! What the lines of refusals speak of.
ghost use Rattle.std.specs.Prelude.{◌≡◌, map};
ghost use Rattle.refusal_words.specs.Sentences.{rows_of};

use crate::rows::{CERTIFICATE, JOB, MACHINE, OTHER, PART, SETUPS, TABLE, TOOLS};

/// What a line refuses. The rows of a job are ends of lines alone.
#[derive(Clone, Copy, Debug, PartialEq, Eq)]
pub enum Subject {
    Other,
    Part,
    Tools,
    Machine,
    /// Files that make no job.
    Job,
    /// A setup with which the files make no job.
    SetupJob,
    Setups,
    Certificate,
    Table,
}

/// All of them.
pub const SUBJECTS: [Subject; 9] = [
    Subject::Other,
    Subject::Part,
    Subject::Tools,
    Subject::Machine,
    Subject::Job,
    Subject::SetupJob,
    Subject::Setups,
    Subject::Certificate,
    Subject::Table,
];

impl Subject {
    /// The rows of its refusals.
    #[tactic(auto, unfolding(crate::specs::Sentences::rows_of))]
    pub fn rows(self) -> &'static [&'static str]
        ensures { map (λ row. row.now) result.now ≡ rows_of self }
    {
        match self {
            Subject::Other => &OTHER,
            Subject::Part => &PART,
            Subject::Tools => &TOOLS,
            Subject::Machine => &MACHINE,
            Subject::Job | Subject::SetupJob => &JOB,
            Subject::Setups => &SETUPS,
            Subject::Certificate => &CERTIFICATE,
            Subject::Table => &TABLE,
        }
    }
}
