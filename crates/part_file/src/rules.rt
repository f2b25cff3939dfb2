//! The rules of a part file for the sheet and for each face, for the reader and for any part.
ghost use Rattle.std.specs.Prelude.{◌≡◌, ◌↔◌, ℕ, ◌<◌, ◌%◌, ◌==◌, pos, ◌+ℤ◌, int_le, ◌&&◌, unsigned_abs, length, map, bytes_eq, Some, IsTrue};
ghost use Rattle.std.specs.List.{list_any};
ghost use Rattle.part_file.specs.Part.{part_data, face_data, joint_at, IsThickness, IsRadius, IsSheet, IsSize, HasSizes, StandsWithin, HasNewName, IsJointOf, IsJoined, IsPlaced, IsFaceOf};
ghost use Rattle.part_file.specs.Rules.{has_namesake, lacks_parent, has_bad_size, may_carry};

use crate::bounds::{
    GREATEST_RADIUS, GREATEST_SIZE, GREATEST_THICKNESS, LEAST_RADIUS, LEAST_SIZE, LEAST_THICKNESS,
};
use crate::part::{Face, Joint, Part, Side};
use brake_base::Name;
use toml_fields::{is_name, is_within};

/// Whether the number is even.
pub fn is_even(n: i64) -> bool
    ensures value { result ≡ (unsigned_abs n % 2 == 0) }
    ensures is { IsTrue result ↔ (unsigned_abs n % 2 ≡ 0) }
{
    n % 2 == 0
}

/// Whether the thickness is even and in range.
fn is_thickness(thickness: i64) -> bool
    ensures { IsTrue result ↔ IsThickness thickness }
{
    is_within(thickness, LEAST_THICKNESS, GREATEST_THICKNESS) && is_even(thickness)
}

/// Whether the inner radius is in range.
fn is_radius(radius: i64) -> bool
    ensures { IsTrue result ↔ IsRadius radius }
{
    is_within(radius, LEAST_RADIUS, GREATEST_RADIUS)
}

/// Whether the material is a name, and the thickness and the radius are in range.
pub fn is_sheet(part: &Part) -> bool
    ensures { IsTrue result ↔ IsSheet (part_data part.now) }
{
    is_name(part.material.as_str()) && is_thickness(part.thickness) && is_radius(part.radius)
}

/// Whether a size of a face is in range.
fn is_size(n: i64) -> bool
    ensures { IsTrue result ↔ IsSize n }
{
    is_within(n, LEAST_SIZE, GREATEST_SIZE)
}

/// Whether both sizes of the face are in range.
fn has_sizes(face: &Face) -> bool
    ensures { IsTrue result ↔ HasSizes (face_data face.now) }
{
    is_size(face.width) && is_size(face.length)
}

/// Whether some face has this name.
fn has_name(faces: &[Face], name: &Name) -> bool
    ensures { result ≡ list_any (λ face. bytes_eq face.name.bytes name.now.bytes) faces.now }
{
    faces.iter().any(|face| face.name == *name)
}

/// Whether an earlier face has the name of the face of this number.
pub fn has_namesake(faces: &[Face], face: usize) -> bool
    requires { face < length faces.now }
    ensures { result ≡ has_namesake (map face_data faces.now) face }
{
    has_name(&faces[..face], &faces[face].name)
}

/// Whether no earlier face has the name of the face of this number.
fn has_new_name(faces: &[Face], face: usize) -> bool
    requires { face < length faces.now }
    ensures { IsTrue result ↔ HasNewName (map face_data faces.now) face }
{
    !has_namesake(faces, face)
}

/// Whether the face of this number isn't face 0 and has no joint.
#[tactic(auto, using(crate::proofs::RowData::rows))]
pub fn lacks_parent(faces: &[Face], face: usize) -> bool
    requires { face < length faces.now }
    ensures { result ≡ lacks_parent (map face_data faces.now) face }
{
    face != 0 && faces[face].joint.is_none()
}

/// Whether a range of this width from `at` lies within 0 to `most`.
fn is_along(at: i64, width: i64, most: i64) -> bool
    ensures { result ≡ (int_le (pos 0) at && int_le (at +ℤ width) most) }
{
    0 <= at && at as i128 + width as i128 <= most as i128
}

/// Whether a face may stand on this side of the face of a number: on an S side only of face 0.
fn may_carry(parent: usize, side: Side) -> bool
    ensures { result ≡ may_carry parent side }
{
    match side {
        Side::S => parent == 0,
        _ => true,
    }
}

/// Whether a face of this width stands within the side of its parent, which isn't the S side of
/// a face other than face 0.
fn stands_within(parent: &Face, width: i64, joint: &Joint) -> bool
    ensures { IsTrue result ↔ StandsWithin (face_data parent.now) width joint.now }
{
    let most = parent.side_length(joint.side);
    is_along(joint.at, width, most) && may_carry(usize::from(joint.on), joint.side)
}

/// Whether the joint of the face of this number leads to an earlier face, within whose side the
/// face stands.
fn is_joint_of(faces: &[Face], face: usize, joint: &Joint) -> bool
    requires within { face < length faces.now }
    requires has { joint_at (map face_data faces.now) face ≡ Some joint.now }
    ensures { IsTrue result ↔ IsJointOf (map face_data faces.now) face joint.now }
{
    let parent = usize::from(joint.on);
    parent < face && stands_within(&faces[parent], faces[face].width, joint)
}

/// Whether the face of this number has no joint where it is face 0, and else is joined to an
/// earlier face.
fn is_joined(faces: &[Face], face: usize) -> bool
    requires { face < length faces.now }
    ensures { IsTrue result ↔ IsJoined (map face_data faces.now) face }
{
    match &faces[face].joint {
        Some(joint) => is_joint_of(faces, face, joint),
        None => face == 0,
    }
}

/// Whether the face of this number has its sizes in range, and is joined as it has to be.
fn is_placed(faces: &[Face], face: usize) -> bool
    requires { face < length faces.now }
    ensures { IsTrue result ↔ IsPlaced (map face_data faces.now) face }
{
    has_sizes(&faces[face]) && is_joined(faces, face)
}

/// Whether the face of this number has a size out of range, or isn't within a side of an earlier
/// face.
pub fn has_bad_size(faces: &[Face], face: usize) -> bool
    requires { face < length faces.now }
    ensures { result ≡ has_bad_size (map face_data faces.now) face }
{
    !is_placed(faces, face)
}

/// Whether the face of this number meets the rules of a face.
fn is_face_of(faces: &[Face], face: usize) -> bool
    requires { face < length faces.now }
    ensures { IsTrue result ↔ IsFaceOf (map face_data faces.now) face }
{
    is_name(faces[face].name.as_str()) && has_new_name(faces, face) && is_placed(faces, face)
}

/// Whether each face meets the rules of a face.
pub fn are_faces(faces: &[Face]) -> bool
    ensures { IsTrue result
        ↔ ((b : ℕ) → b < length faces.now → IsFaceOf (map face_data faces.now) b) }
{
    (0..faces.len()).all(|face| is_face_of(faces, face))
}
