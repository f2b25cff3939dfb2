//! A press brake: its bed, frames, fixed boxes, backgauge, handling costs and stages, and its file.
#![tactic(auto)]

pub mod bounds;
mod boxes;
mod fault;
mod fault_numbers;
mod machine;
mod reader;
mod stages;
mod tables;

pub use boxes::is_bed_range;
pub use fault::MachineFault;
pub use machine::{Costs, Fixed, GaugeRule, Machine, StageText};
pub use reader::read_machine;
pub use stages::are_within;
