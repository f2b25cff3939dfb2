//! Tables of settled states: the rows and notes of several runs on one job, joined in any order.
#![tactic(auto)]

mod base_rows;
mod beginning;
mod merged;
mod merged_rows;
mod merged_text;
mod merged_texts;
mod proved;
mod proved_keys;
mod read_rows;
mod row_reasons;
mod row_texts;
mod set_worths;
mod set_writer;
mod settled;
mod settled_pieces;
mod settled_sets;
mod settled_text;
mod united_rows;

pub use merged_rows::MergedRows;
pub use merged_text::MergedText;
pub use merged_texts::{MergedTexts, merge_texts};
pub use proved::{ProveFault, ProvedTable, TableFault, prove_text, prove_text_from};
pub use settled_pieces::SettledPieces;
pub use settled_text::{SettledText, settle_text, settle_text_over};
