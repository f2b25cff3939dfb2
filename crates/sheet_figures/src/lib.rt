//! The figures of a drawn sheet: the blank, the bed and its stations, the views of a stroke, and
//! what a refused stroke would hit.
#![tactic(auto)]

mod above;
mod above_area;
mod above_marks;
mod after;
mod bed;
mod bend_words;
mod blank;
mod bodies;
mod body;
mod card;
mod distance_marks;
mod distances;
mod face_corner;
mod face_names;
mod forms;
mod front;
mod front_ends;
mod numbers;
mod parts;
mod places;
mod refusal;
mod side;
mod sides;
mod sweep;
mod titles;
mod tools;
mod windows;

pub use above::put_above;
pub use bed::put_bed;
pub use bend_words::{put_bends, put_number_list};
pub use blank::{Flat, flat_blank, put_blank};
pub use bodies::put_bodies;
pub use card::put_card;
pub use front::put_front;
pub use refusal::put_refusal;
pub use sides::put_sides;
