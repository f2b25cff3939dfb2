//! A job: a part, its half deduction, and the setup of the machine on which it is bent.
#![tactic(auto)]

mod fault;
mod fault_numbers;
mod job;
mod loads;
mod making;
mod obstacle;
mod places;
mod setup;
mod stage_reasons;
mod stages;
mod stock;
mod strokes;
mod valid;

pub use fault::JobFault;
pub use job::Job;
pub use loads::check_loads;
pub use making::make_job;
pub use obstacle::{
    Group, Obstacle, ObstacleIter, lower_boxes, lower_group, obstacles, upper_boxes, upper_group,
};
pub use places::check_places;
pub use setup::{Setup, Stage};
pub use stage_reasons::{is_overloaded_at, is_uncovered_at, lacks_rest_at, lines_total};
pub use stages::stages_of;
pub use strokes::{group, meets_at};
pub use valid::job_from;
