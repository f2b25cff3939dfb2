//! The setups that a shop may build for a job: their file, what becomes of each on the machine, and
//! which is the cheapest. Lengths are in micrometres.
#![tactic(auto)]

pub mod bounds;
mod cheapest;
mod checks;
mod fault;
mod fault_numbers;
mod fitting;
mod made;
mod outcome;
mod reader;
mod setups;
mod stages;
mod wants;

pub use cheapest::{Tried, best};
pub use fault::SetupFault;
pub use fitting::fit;
pub use outcome::Fit;
pub use reader::read_setups;
pub use setups::{OneSetup, Setups, StageWant};
