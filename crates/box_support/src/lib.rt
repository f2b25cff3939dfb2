//! The bends that decide where a box of the part lies in the strokes of a group, and the lemma that
//! sets of folded bends which agree on them have the box at one place.
#![tactic(auto)]

mod deciding;

pub use deciding::{face_of_box, is_deciding};
