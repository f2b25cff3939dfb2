//! Where the two fingers of the backgauge may stand behind a part on the machine.
#![tactic(auto)]

mod fingers;
mod flat_faces;
mod pairs;

pub use fingers::{finger_box, left_finger, right_finger};
pub use pairs::{are_legal, first_legal, legal};
