//! Boxes as bodies: where their points are drawn, and the order in which they are painted.
#![tactic(auto)]

mod order;
mod projection;

pub use order::{Order, must_precede, painting_order};
pub use projection::{Face, FaceKind, drawn, faces_of};
