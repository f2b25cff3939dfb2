//! The lines of certificates and table files: their grammar, and those of a job, written and read.
#![tactic(auto)]

mod begun_values;
mod first_line;
mod format;
mod job_line;
mod job_lines;
mod job_reading;
mod job_section;
mod row_head;
mod words;

pub use first_line::whole_line;
pub use format::{Format, TextKind, format_of};
pub use job_line::JobLine;
pub use job_lines::put_job;
pub use job_reading::JobLines;
pub use job_section::JobSection;
pub use row_head::RowHead;
pub use words::{put_count, put_spaced};
