//! The part as it stands between two strokes: groups of bends are folded, and the last one unfolded.
#![tactic(auto)]

mod moves;
mod state;

pub use state::{BendState, Fold};
