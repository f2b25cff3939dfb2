//! Rows and notes as text, from lines that are written once for each set of folded bends and then
//! copied.
#![tactic(auto)]

mod block;
mod row_end;
mod row_words;
mod row_writer;
mod short_text;

pub use row_writer::RowWriter;
