//! The boxes that the part fills.
ghost use Rattle.std.specs.Prelude.{◌≡◌, ◌<◌, ◌≤◌, ◌++◌, map, filter, All, length};
ghost use Rattle.brake_base.specs.Masks.{has};
ghost use Rattle.unfolder.specs.Blank.{face_numbers, bend_numbers};
ghost use Rattle.fold_boxes.specs.Folded.{boxes_of, face_box, corner_box, IsNearBox, IsBoxId};
ghost use Rattle.fold_boxes.specs.Corners.{CornersTouch};
ghost use Rattle.fold_boxes.specs.Places.{ArePlaces};
ghost use Rattle.fold_boxes.specs.Pose.{IsNumberOfBox, part_box};

use crate::places::place_faces;
use crate::shape::Shape;
use arrayvec::ArrayVec;
use brake_base::{Box3, Mask, Place};

/// A box of the part: number i, up to 12, is the core of face i; number 12 + b is the corner of bend b.
#[derive(Clone, Copy, Debug, Default, PartialEq, Eq)]
pub struct PartBox {
    pub id: u8,
    pub body: Box3,
}

/// The boxes of the part when the bends of the mask are folded, in ascending order of their numbers.
pub fn boxes(shape: &Shape, mask: Mask) -> ArrayVec<PartBox, 25>
    ensures value { result.items ≡ boxes_of shape.now mask }

    // All coordinates lie within 300,000,000 micrometres of 0.
    ensures near { All IsNearBox result.items }

    // The corner of each folded bend touches both cores that the bend joins.
    ensures corners { CornersTouch shape.now mask }
{
    let places = place_faces(shape, mask);
    boxes_at(shape, mask, places.as_slice())
}

/// The boxes of the part, from the places of its faces.
pub(crate) fn boxes_at(shape: &Shape, mask: Mask, places: &[Place]) -> ArrayVec<PartBox, 25>
    requires count { length places.now ≡ length shape.now.part.faces }
    requires places { ArePlaces shape.now mask places.now }
    ensures value { result.items ≡ boxes_of shape.now mask }
    ensures near { All IsNearBox result.items }
    ensures ids { All IsBoxId result.items }
    ensures room { length result.items ≤ 25 }
{
    let mut boxes = face_boxes(shape, mask, places);
    put_corner_boxes(shape, mask, places, &mut boxes);
    boxes
}

/// The boxes of all faces.
fn face_boxes(shape: &Shape, mask: Mask, places: &[Place]) -> ArrayVec<PartBox, 25>
    requires count { length places.now ≡ length shape.now.part.faces }
    requires places { ArePlaces shape.now mask places.now }
    ensures value { result.items
        ≡ map (face_box shape.now mask) (face_numbers shape.now.part.faces) }
    ensures near { All IsNearBox result.items }
    ensures ids { All IsBoxId result.items }
    ensures count { length result.items ≡ length shape.now.part.faces }
    ensures few { length result.items ≤ 13 }
{
    let mut boxes = ArrayVec::new();
    for face in 0..shape.faces() {
        boxes.push(face_box(shape, mask, places, face));
    }
    boxes
}

/// Appends the boxes of the corners of the folded bends.
fn put_corner_boxes(shape: &Shape, mask: Mask, places: &[Place], boxes: &mut ArrayVec<PartBox, 25>)
    requires count { length places.now ≡ length shape.now.part.faces }
    requires places { ArePlaces shape.now mask places.now }
    requires near { All IsNearBox boxes.old.items }
    requires ids { All IsBoxId boxes.old.items }
    requires room { length boxes.old.items ≤ 13 }
    ensures value { boxes.new.items
        ≡ boxes.old.items
        ++ map (corner_box shape.now mask) (filter (has mask) (bend_numbers shape.now.part.faces)) }
    ensures near { All IsNearBox boxes.new.items }
    ensures ids { All IsBoxId boxes.new.items }
    ensures room { length boxes.new.items ≤ 25 }
{
    for bend in 1..shape.faces() {
        if mask.contains(bend) {
            boxes.push(corner_box(shape, mask, places, bend));
        }
    }
}

/// The box of this number, from the places of the faces.
pub(crate) fn box_at(shape: &Shape, mask: Mask, places: &[Place], number: u8) -> PartBox
    requires count { length places.now ≡ length shape.now.part.faces }
    requires places { ArePlaces shape.now mask places.now }
    requires number { IsNumberOfBox shape.now mask number }
    ensures value { result ≡ part_box shape.now mask number }
    ensures near { IsNearBox result }
    ensures id { IsBoxId result }
{
    if number < shape.faces() {
        face_box(shape, mask, places, number)
    } else {
        corner_box(shape, mask, places, number - 12)
    }
}

/// The box of a face.
fn face_box(shape: &Shape, mask: Mask, places: &[Place], face: u8) -> PartBox
    requires count { length places.now ≡ length shape.now.part.faces }
    requires places { ArePlaces shape.now mask places.now }
    requires face { face < length shape.now.part.faces }
    requires few { length shape.now.part.faces ≤ 13 }
    ensures value { result ≡ face_box shape.now mask face }
    ensures near { IsNearBox result }
    ensures id { IsBoxId result }
{
    let place = &places[usize::from(face)];
    PartBox {
        id: face,
        body: place.map_box(shape.core_box(face)),
    }
}

/// The box of the corner of a folded bend.
fn corner_box(shape: &Shape, mask: Mask, places: &[Place], bend: u8) -> PartBox
    requires count { length places.now ≡ length shape.now.part.faces }
    requires places { ArePlaces shape.now mask places.now }
    requires some { 0 < bend }
    requires bend { bend < length shape.now.part.faces }
    requires few { length shape.now.part.faces ≤ 13 }
    ensures value { result ≡ corner_box shape.now mask bend }
    ensures near { IsNearBox result }
    ensures id { IsBoxId result }
{
    let hinge = shape.hinge(bend);
    let place = &places[usize::from(hinge.parent)];
    PartBox {
        id: 12 + bend,
        body: place.map_box(hinge.corner),
    }
}
