//! Whether a stroke is free of tools, machine and the part itself, and if not, the first reason.
#![tactic(auto)]

mod frames;
mod hits;
mod kinds;
mod named;
mod noses;
mod pieces;
mod ranges;
mod reasons;
mod self_hits;
mod sides;
mod surroundings;

pub use kinds::{first_at_lines, first_of_boxes, first_of_halves, load_reason};
pub use reasons::{first_reason, holds};
pub use surroundings::Surroundings;
