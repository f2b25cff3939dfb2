//! Eight stages at once: a cost for each, a code for each, a set of them, and sets of actions as
//! three words.
#![tactic(auto)]

mod actions;
mod codes;
mod costs;
mod reasons;
mod stages;

pub use actions::{ActionSet, place, side};
pub use codes::StageCodes;
pub use costs::{BLOCKED, StageCosts};
pub use reasons::{FREE, code_of, reason_of};
pub use stages::StageSet;
