//! The lines behind the job of a certificate or a table file, read one by one; and notes whose lines
//! are known, taken at once.
#![tactic(auto)]

mod item;
mod job_answers;
mod job_facts;
mod leading_row;
mod line_place;
mod note;
mod note_lines;
mod note_run;
mod plan_answers;
mod plan_reader;
mod plan_reading;
mod section;

pub use item::{CertFault, Item, PlanItem};
pub use job_answers::first_answer;
pub use job_facts::{JobFacts, SetLeads};
pub use line_place::LinePlace;
pub use note::{KnownNote, Note};
pub use note_lines::NoteLines;
pub use note_run::{NoteBlock, NoteRun};
pub use plan_answers::answer_behind_job;
pub use plan_reader::PlanReader;
pub use section::{PlanLine, Section};
