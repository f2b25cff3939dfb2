//! What each bend takes from a face, and where the bend lines lie on it.
ghost use Rattle.std.specs.Prelude.{◌≡◌, ◌-◌, ◌<◌, ◌≤◌, ◌≤ℤ◌, ◌+ℤ◌, ◌+◌, pos, length, map, All, Some};
ghost use Rattle.std.specs.List.{range_with_len};
ghost use Rattle.brake_base.specs.Vectors.{vector};
ghost use Rattle.part_file.specs.Part.{IsPart, IsSize, IsJointOf, part_data, face_data, face_at, is_bent};
ghost use Rattle.unfolder.specs.Near.{IsWithin, IsRectWithin, IsLineWithin};
ghost use Rattle.unfolder.specs.Cores.{joint_of, side_point, if_bent, core, parent_line};
ghost use Rattle.unfolder.specs.Blank.{face_numbers, bend_numbers};

use crate::blank::{BendLine, FlatRect};
use arrayvec::ArrayVec;
use part_file::{Face, Joint, Part, Side, bent};

/// The number of faces.
pub fn face_count(part: &Part) -> u8
    requires { IsPart (part_data part.now) }
    ensures value { result ≡ length part.now.faces.items }
    ensures few { result ≤ 13 }
{
    part.faces.len() as u8
}

/// The face of this number.
pub fn face_of(part: &Part, face: u8) -> &Face
    requires part { IsPart (part_data part.now) }
    requires face { face < length part.now.faces.items }
    ensures value { face_data result.now ≡ face_at (part_data part.now).faces face }
    ensures wide { IsSize result.now.width }
    ensures long { IsSize result.now.length }
{
    &part.faces.as_slice()[usize::from(face)]
}

/// The joint of a bend.
pub fn joint_of(part: &Part, bend: u8) -> Joint
    requires part { IsPart (part_data part.now) }
    requires some { 0 < bend }
    requires bend { bend < length part.now.faces.items }
    ensures value { result ≡ joint_of (part_data part.now).faces bend }
    ensures rules { IsJointOf (part_data part.now).faces bend result }
    ensures at { IsWithin 10000000 result.at }
    ensures end { IsWithin 10000000 (result.at +ℤ (face_at (part_data part.now).faces bend).width) }
{
    let child = face_of(part, bend);
    match child.joint {
        Some(joint) => joint,
        None => unreachable!(),
    }
}

/// What a face loses at a side: q where a bend joins it there.
fn lost(part: &Part, q: i64, face: u8, side: Side) -> i64
    requires face { face < length part.now.faces.items }
    requires q { IsWithin 100000 q }
    ensures value { result ≡ if_bent (is_bent (part_data part.now).faces face side) q }
    ensures within { IsWithin 100000 result }
{
    if bent(part, face, side) { q } else { 0 }
}

/// The core of a face: its outside rectangle less q at each bent side.
fn core(part: &Part, q: i64, face: u8) -> FlatRect
    requires part { IsPart (part_data part.now) }
    requires face { face < length part.now.faces.items }
    requires q { IsWithin 100000 q }
    ensures value { result ≡ core (part_data part.now).faces q face }
    ensures within { IsRectWithin 21000000 result }
{
    let outside = face_of(part, face);
    FlatRect {
        x0: lost(part, q, face, Side::W),
        x1: outside.width - lost(part, q, face, Side::E),
        y0: lost(part, q, face, Side::S),
        y1: outside.length - lost(part, q, face, Side::N),
    }
}

/// The cores of all faces.
pub fn cores(part: &Part, q: i64) -> ArrayVec<FlatRect, 13>
    requires part { IsPart (part_data part.now) }
    requires q { IsWithin 100000 q }
    ensures value { result.items
        ≡ map (core (part_data part.now).faces q) (face_numbers (part_data part.now).faces) }
    ensures count { length result.items ≡ length part.now.faces.items }
    ensures within { All (IsRectWithin 21000000) result.items }
{
    let mut cores = ArrayVec::new();
    for face in 0..face_count(part) {
        cores.push(core(part, q, face));
    }
    cores
}

/// The point of a face that lies so far along a side from its start, and so far inside it.
pub fn side_point(side: Side, face: &Face, distance: i64, depth: i64) -> (i64, i64)
    requires wide { IsSize face.now.width }
    requires long { IsSize face.now.length }
    requires distance { IsWithin 10200000 distance }
    requires depth { IsWithin 200000 depth }
    ensures value { vector result.0 result.1 (pos 0)
        ≡ side_point side (face_data face.now) distance depth }
    ensures near_x { IsWithin 21000000 result.0 }
    ensures near_y { IsWithin 21000000 result.1 }
{
    match side {
        Side::N => (distance, face.length - depth),
        Side::E => (face.width - depth, face.length - distance),
        Side::S => (face.width - distance, depth),
        Side::W => (depth, distance),
    }
}

/// The line of a bend in the frame of its parent: q inside the side, over the child's core width.
fn parent_line(part: &Part, q: i64, bend: u8) -> BendLine
    requires part { IsPart (part_data part.now) }
    requires some { 0 < bend }
    requires bend { bend < length part.now.faces.items }
    requires q { IsWithin 100000 q }
    ensures value { result ≡ parent_line (part_data part.now).faces q bend }
    ensures within { IsLineWithin 21000000 result }
{
    let joint = joint_of(part, bend);
    let parent = face_of(part, joint.on);
    let child = face_of(part, bend);
    let start = joint.at + lost(part, q, bend, Side::W);
    let end = joint.at + child.width - lost(part, q, bend, Side::E);
    BendLine {
        bend,
        from: side_point(joint.side, parent, start, q),
        to: side_point(joint.side, parent, end, q),
        dir: joint.dir,
    }
}

/// The lines of all bends, each in the frame of its parent.
pub fn parent_lines(part: &Part, q: i64) -> ArrayVec<BendLine, 12>
    requires part { IsPart (part_data part.now) }
    requires q { IsWithin 100000 q }
    ensures value { result.items
        ≡ map (parent_line (part_data part.now).faces q) (bend_numbers (part_data part.now).faces) }
    ensures count { length result.items + 1 ≡ length part.now.faces.items }
    ensures within { All (IsLineWithin 21000000) result.items }
{
    let mut lines = ArrayVec::new();
    for bend in 1..face_count(part) {
        lines.push(parent_line(part, q, bend));
    }
    lines
}
