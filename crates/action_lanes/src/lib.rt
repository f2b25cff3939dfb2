//! A cost for each action of twelve bends at eight stages, in lanes, and which actions a search has to
//! test at a key.
#![tactic(auto)]

mod costs;
mod tested;

pub use costs::ActionCosts;
pub use tested::tested_by;
