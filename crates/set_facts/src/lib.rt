//! What all keys of one set of folded bends have in common, found once for each set: the leads of the
//! strokes that may come next, the bound at each stage, and how the part is held in each stroke.
#![tactic(auto)]

mod facts;
mod lane_facts;
mod set_lanes;
mod table;

pub use facts::SetFacts;
pub use lane_facts::LaneFacts;
pub use table::FactTable;
