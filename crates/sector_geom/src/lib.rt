//! The space that a bend sweeps: each moving piece of the part is covered by an annular sector, which is tested
//! against tools and machine in whole numbers. Lengths are micrometres, within 2^30 of 0. No call takes memory.
#![tactic(auto)]

mod clearance;
mod covers;
mod halving;
mod noses;
mod pieces;
mod sector;
mod special_points;

pub use clearance::clear;
pub use covers::cover;
pub use halving::free;
pub use noses::clear_nose;
pub use pieces::{split, widened};
pub use sector::{Sector, Sweep};
