//! The drawing as values: which boxes of the part and the tools and which stop fingers stand in the
//! views of a stroke, and what these show. Lengths are in micrometres: x along the bed, y to the
//! back, z up.
#![tactic(auto)]

mod drawing;
mod fingers;
mod hazards;
mod part_views;
mod side_view;
mod stations;
mod swept;

pub use drawing::{Drawing, drawing_of};
pub use fingers::{Fingers, fingers_at};
pub use hazards::{Finger, Hazard, Warning, Warnings, warnings};
pub use part_views::{DrawnBox, DrawnBoxes};
pub use side_view::{Point, across, side_area};
pub use stations::{Tool, Tools, die_boxes, lower_tools, upper_tools};
pub use swept::{Struck, Swept, swept_by};
