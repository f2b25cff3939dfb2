//! The bends on which the place of a box depends.
ghost use Rattle.std.specs.Prelude.{◌≡◌, ◌<◌, length};
ghost use Rattle.part_file.specs.Part.{part_data, IsPart};
ghost use Rattle.fold_boxes.specs.Pose.{face_of_box};
ghost use Rattle.box_support.specs.Deciding.{is_on_path, is_deciding};

use part_file::{Part, side_of};

/// Whether a bend decides where the box of a number lies as seen from a face. The box is one of the
/// part's faces or of its bends' corners.
pub fn is_deciding(part: &Part, from: u8, number: u8, bend: u8) -> bool
    requires fit { IsPart (part_data part.now) }
    requires from { from < length part.now.faces.items }
    requires number { face_of_box number < length part.now.faces.items }
    requires first { 0 < bend }
    requires last { bend < length part.now.faces.items }
    ensures { result ≡ is_deciding (part_data part.now).faces from number bend }
{
    let face = face_of_box(number);
    is_on_path(part, from, face, bend) || (number > 12 && face == bend)
}

/// Whether a bend is on the path between two faces.
fn is_on_path(part: &Part, from: u8, to: u8, bend: u8) -> bool
    requires fit { IsPart (part_data part.now) }
    requires from { from < length part.now.faces.items }
    requires to { to < length part.now.faces.items }
    requires first { 0 < bend }
    requires last { bend < length part.now.faces.items }
    ensures { result ≡ is_on_path (part_data part.now).faces from to bend }
{
    side_of(part, bend, from) != side_of(part, bend, to)
}

/// The face whose core the box is, or the child of the bend whose corner it is.
pub fn face_of_box(number: u8) -> u8
    ensures { result ≡ face_of_box number }
{
    if number <= 12 { number } else { number - 12 }
}
