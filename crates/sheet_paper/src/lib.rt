//! Pictures on paper: their scale and window, the labels beside them, and the lines of their text.
#![tactic(auto)]

mod dimension;
mod figure;
mod forms;
mod labels;
mod marks;
mod scale;
mod shapes;
mod spreading;
mod window;

pub use dimension::put_dimension;
pub use figure::{put_figure, put_figure_end, put_frame, put_shapes_end};
pub use labels::{Label, put_label, put_label_upright, put_noted, put_noted_upright};
pub use marks::{put_leader, put_triangle};
pub use scale::least_scale;
pub use shapes::{Dashes, put_circle, put_group_end, put_line_between, put_rectangle};
pub use spreading::{Places, spread};
pub use window::{Area, Paper, Window};
