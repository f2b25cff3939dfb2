//! What is found out about the strokes of a job, each once: the attitude of the part, where the
//! fingers stand, and why the stroke is refused at each stage.
#![tactic(auto)]

mod box_reasons;
mod codes;
mod deciding;
mod finding;
mod gathering;
mod gauging;
mod holding;
mod keys;
mod known;
mod records;
mod stroke;
mod table;

pub use finding::pose_at;
pub use stroke::{StageStroke, Stroke};
pub use table::StrokeTable;
