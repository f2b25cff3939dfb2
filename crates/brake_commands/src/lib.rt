//! The commands of `brake`: what each is given, what it answers and stores, and the run of any of
//! them by its words.
#![tactic(auto)]

mod attempts;
mod blank;
mod check;
mod command;
mod form;
mod in_pieces;
mod job_files;
mod merge;
mod plan;
mod program;
mod prove;
mod refusal;
mod run;
mod settle;
mod setup_list;
mod setups;
mod table_answer;
mod table_check;
mod trial;
mod usage;
mod why;

pub use command::{Command, read_words};
pub use program::run_program;
pub use run::brake;
