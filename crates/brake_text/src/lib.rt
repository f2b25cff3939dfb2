//! The small parts of every text: words, numbers with one spelling each, and lines.
#![tactic(auto)]

mod line_reader;
mod reading;
mod writing;

pub use line_reader::{Line, Lines};
pub use reading::{number, signed};
pub use writing::{put_number, put_word};
