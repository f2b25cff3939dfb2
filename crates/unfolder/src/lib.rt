//! The blank of a part: its faces laid flat, each less what its bends take.
#![tactic(auto)]

mod blank;
mod bounds;
pub mod cores;
mod fault_numbers;
mod frame;
mod layout;
mod refusals;

pub use blank::{BendLine, Blank, FlatFace, FlatRect, UnfoldFault};
pub use bounds::extent;
pub use layout::unfold;
