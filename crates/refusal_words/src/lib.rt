//! A printed refusal in words.
#![tactic(auto)]

mod mark;
mod refusal;
mod row;
mod rows;
mod sentences;
mod subject;

pub use sentences::sentence;
