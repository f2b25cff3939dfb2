//! The text of a page: exact decimals, texts that can't become markup, and lines made of a form
//! whose holes are filled.
#![tactic(auto)]

mod decimal;
mod escape;
mod form;

pub use decimal::put_decimal;
pub use escape::put_escaped;
pub use form::{Hole, put_line};
