//! The words of the lines of a certificate or a table file behind their keywords, read from the
//! front: each is a value by its one spelling and its range.
#![tactic(auto)]

mod front_number;
mod job_words;
mod line_words;
mod plan_words;

pub use front_number::leading_number;
pub use job_words::{child, costs_of, fine_of, gang_of, named, signed_numbers};
pub use line_words::split_word;
pub use plan_words::{claim, note, row, step};
