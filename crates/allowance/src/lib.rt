//! Half of one bend's deduction, by the shop's table of materials.
#![tactic(auto)]

mod bounds;
mod deduction;
mod fault_numbers;
mod table;

pub use bounds::{
    GREATEST_FACTOR, GREATEST_HALF_DEDUCTION, LEAST_FACTOR, LEAST_MEASURED, MOST_ROWS,
};
pub use deduction::half_deduction;
pub use table::{AllowFault, AllowRow, AllowTable, Factor, find};
