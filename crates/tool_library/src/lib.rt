//! The tools of a shop, and the file that lists them.
#![tactic(auto)]

pub mod bounds;
mod fault;
mod fault_numbers;
mod lists;
mod names;
mod opening;
mod reader;
mod row;
mod rows;
pub mod stock;
mod tools;

pub use fault::ToolFault;
pub use reader::read_tools;
pub use tools::{Die, LoadRow, Punch, Tools};
