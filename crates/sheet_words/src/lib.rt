//! The words of a drawn sheet: of faces and boxes, tools, turns and reasons.
#![tactic(auto)]

mod faces;
mod flanges;
mod frames;
mod lists;
mod loads;
mod phrases;
mod reasons;
mod tools;
mod turns;

pub use faces::{name_of, put_bend_label, put_box, put_face, put_faces};
pub use lists::{mm, put_mm, put_plural, put_seconds, separator};
pub use reasons::{kind_words, put_reason};
pub use tools::{put_die, put_lower, put_punch, put_upper};
pub use turns::{Movement, Movements, looks, movements_of, put_turn};
