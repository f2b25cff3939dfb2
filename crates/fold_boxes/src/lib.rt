//! The folded part: where its faces lie and which boxes they fill, for every set of folded bends.
#![tactic(auto)]

mod groups;
mod halves;
mod hinge;
mod part_boxes;
mod places;
mod pose_map;
mod posed_part;
mod posing;
mod shape;

pub use groups::{is_group, mates, span};
pub use halves::faces_beyond;
pub use part_boxes::{PartBox, boxes};
pub use places::{child_place, place};
pub use pose_map::{attitude, attitude_from, start_of_span};
pub use posed_part::{Pose, PoseBox, PosedStroke};
pub use posing::{pose, pose_box, pose_from};
pub use shape::{Shape, core, line_length};
