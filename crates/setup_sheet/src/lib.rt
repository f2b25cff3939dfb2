//! The sheets that the program prints.
#![tactic(auto)]

mod blank;
mod order;
mod setup;
mod words;

pub use blank::blank_sheet;
pub use order::{are_steps, order_sheet};
pub use setup::setup_sheet;
