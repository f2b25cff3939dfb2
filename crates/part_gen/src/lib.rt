//! Jobs that are made from a number, for trials: a rectangle of sheet with a flange or two on each
//! side, in sizes and directions that are drawn, on one setup. Each number gives one valid job,
//! the same at each call.
#![tactic(auto)]

mod draws;
mod faces;
mod job;
mod setup;

pub use job::made_job;
