//! A sheet metal part: flat rectangular faces joined by right-angle bends, and its file.
#![tactic(auto)]

mod bounds;
mod faces;
mod fault;
mod fault_numbers;
mod part;
mod reader;
mod rows;
mod rules;
mod tree;

pub use bounds::{
    GREATEST_RADIUS, GREATEST_SIZE, GREATEST_THICKNESS, LEAST_RADIUS, LEAST_SIZE, LEAST_THICKNESS,
    MOST_FACES,
};
pub use fault::PartFault;
pub use part::{Dir, Face, Joint, Part, Side};
pub use reader::read_part;
pub use tree::{bent, path, side_of};
