//! Reasons against strokes that hold in many states: on which folded bends a reason depends, and
//! the book of all nogoods of a job, from which each refusal of a stroke follows but for that by
//! NoGauge.
#![tactic(auto)]

mod book;
mod deciding;
mod learning;
mod nogood;
mod verifying;

pub use book::Book;
pub use deciding::support;
pub use learning::learn;
pub use nogood::Nogood;
pub use verifying::verify;
