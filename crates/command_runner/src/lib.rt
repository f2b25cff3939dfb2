//! The run of a command: its words are read by their kinds, its files fetched, and its answer stored
//! and put.
#![tactic(auto)]

mod answer;
mod delivery;
mod fetching;
mod form;
mod program;
mod reading;
mod running;
mod status;
mod word_kind;

pub use answer::{Answer, StoredText, refusal};
pub use delivery::{deliver, store_all, store_pieces};
pub use fetching::word_at;
pub use form::is_form;
pub use program::words_of;
pub use reading::{ReadingCommand, run_reading};
pub use running::{Command, run};
pub use status::Status;
pub use word_kind::{Keyword, WordKind, number_in};
