//! The part is moved onto the machine for a stroke.
ghost use Rattle.std.specs.Prelude.{◌≡◌, ℕ, ◌^◌, ◌<◌, ◌≤◌, ◌<ℤ◌, map, length, All, IsTrue};
ghost use Rattle.brake_base.specs.Masks.{has};
ghost use Rattle.brake_base.specs.Vectors.{IsWithin};
ghost use Rattle.brake_base.specs.Turns.{Map, map_of, after};
ghost use Rattle.unfolder.specs.Near.{IsWithin as IsNear};
ghost use Rattle.fold_boxes.specs.Shapes.{IsShape};
ghost use Rattle.fold_boxes.specs.Places.{ArePlaces};
ghost use Rattle.fold_boxes.specs.Folded.{IsNearBox, IsBoxId};
ghost use Rattle.fold_boxes.specs.Pose.{IsGroup, IsNumberOfBox, IsPoseMap, face_of_box, lead_of, pose_box, pose_map, pose_of, pose_data, posed_place};
ghost use Rattle.fold_boxes.specs.Posing.{moved_box, IsNearShift, IsNearPoseBox};

use crate::halves::{face_of_box, faces_beyond, half_of};
use crate::part_boxes::{PartBox, box_at, boxes_at};
use crate::places::{onto, place_faces};
use crate::pose_map::pose_map;
use crate::posed_part::{Pose, PoseBox, PosedStroke};
use crate::shape::Shape;
use arrayvec::ArrayVec;
use brake_base::{Back, Mask, Place};

/// The part on the machine before the group is bent, where the bends of the mask are folded, with the
/// span of the group's lines centred on the range from `x0` to `x1`.
pub fn pose(shape: &Shape, mask: Mask, group: Mask, back: Back, x0: i64, x1: i64) -> Pose
    requires group { IsGroup shape.now mask group }
    requires range { x0 <ℤ x1 }
    requires from { IsNear 1000000000 x0 }
    requires to { IsNear 1000000000 x1 }
    ensures value { pose_data result ≡ pose_of shape.now mask group back x0 x1 }
    ensures effect { IsPoseMap shape.now mask group back x0 x1
        (pose_map shape.now mask group back x0 x1) }

    // No other map has that effect.
    ensures sole { (m : Map) → IsPoseMap shape.now mask group back x0 x1 m
        → m ≡ pose_map shape.now mask group back x0 x1 }

    // x lies within 2^31 micrometres of 0, y and z within 600,000,000.
    ensures near { All IsNearPoseBox result.boxes.items }
{
    pose_from(
        shape,
        place_faces(shape, mask).as_slice(),
        mask,
        group,
        back,
        x0,
        x1,
    )
}

/// The same, from the places of the faces where the bends of the mask are folded.
pub fn pose_from(
    shape: &Shape,
    places: &[Place],
    mask: Mask,
    group: Mask,
    back: Back,
    x0: i64,
    x1: i64,
) -> Pose
    requires count { length places.now ≡ length shape.now.part.faces }
    requires places { ArePlaces shape.now mask places.now }
    requires group { IsGroup shape.now mask group }
    requires range { x0 <ℤ x1 }
    requires from { IsNear 1000000000 x0 }
    requires to { IsNear 1000000000 x1 }
    ensures value { pose_data result ≡ pose_of shape.now mask group back x0 x1 }
    ensures effect { IsPoseMap shape.now mask group back x0 x1
        (pose_map shape.now mask group back x0 x1) }
    ensures sole { (m : Map) → IsPoseMap shape.now mask group back x0 x1 m
        → m ≡ pose_map shape.now mask group back x0 x1 }
    ensures near { All IsNearPoseBox result.boxes.items }
{
    let stroke = PosedStroke {
        mask,
        group,
        back,
        x0,
        x1,
    };
    let to_machine = machine_map(shape, places, &stroke);
    let boxes = boxes_at(shape, mask, places);
    Pose {
        bend: lead_of(shape, group),
        group,
        boxes: moved_boxes(
            &to_machine,
            faces_beyond(shape, group),
            back,
            boxes.as_slice(),
        ),
        places: moved_places(&to_machine, places),
        x0,
        x1,
    }
}

/// The box of this number in a pose, and where the pose has the face whose half the box shares, from
/// the places of the faces where the bends of the mask are folded.
pub fn pose_box(
    shape: &Shape,
    places: &[Place],
    stroke: &PosedStroke,
    number: u8,
) -> (PoseBox, Place)
    requires count { length places.now ≡ length shape.now.part.faces }
    requires places { ArePlaces shape.now stroke.now.mask places.now }
    requires group { IsGroup shape.now stroke.now.mask stroke.now.group }
    requires range { stroke.now.x0 <ℤ stroke.now.x1 }
    requires from { IsNear 1000000000 stroke.now.x0 }
    requires to { IsNear 1000000000 stroke.now.x1 }
    requires number { IsNumberOfBox shape.now stroke.now.mask number }
    ensures value { result.0 ≡ pose_box shape.now stroke.now.mask stroke.now.group stroke.now.back
        stroke.now.x0 stroke.now.x1 number }
    ensures place { map_of result.1 ≡ posed_place shape.now stroke.now.mask stroke.now.group
        stroke.now.back stroke.now.x0 stroke.now.x1 (face_of_box number) }
    ensures near { IsNearPoseBox result.0 }
{
    let to_machine = machine_map(shape, places, stroke);
    let beyond = faces_beyond(shape, stroke.group);
    let part_box = box_at(shape, stroke.mask, places, number);
    (
        moved_box(&to_machine, beyond, stroke.back, &part_box),
        onto(&to_machine, &places[usize::from(face_of_box(number))]),
    )
}

/// The map of a pose, from the places of the faces.
fn machine_map(shape: &Shape, places: &[Place], stroke: &PosedStroke) -> Place
    requires count { length places.now ≡ length shape.now.part.faces }
    requires places { ArePlaces shape.now stroke.now.mask places.now }
    requires group { IsGroup shape.now stroke.now.mask stroke.now.group }
    requires from { IsNear 1000000000 stroke.now.x0 }
    requires to { IsNear 1000000000 stroke.now.x1 }
    ensures value { map_of result ≡ pose_map shape.now stroke.now.mask stroke.now.group
        stroke.now.back stroke.now.x0 stroke.now.x1 }
    ensures turn { result.turn < 24 }
    ensures near { IsNearShift result.at }
    ensures rules { IsShape shape.now }
{
    let lead = lead_of(shape, stroke.group);
    let parent = &places[usize::from(shape.hinge(lead).parent)];
    pose_map(
        shape,
        parent,
        stroke.group,
        stroke.back,
        lead,
        stroke.x0,
        stroke.x1,
    )
}

/// The least bend of a group.
fn lead_of(shape: &Shape, group: Mask) -> u8
    requires { IsTrue (has group (lead_of shape.now group)) }
    ensures value { result ≡ lead_of shape.now group }
    ensures some { 0 < result }
    ensures bend { result < length shape.now.part.faces }
{
    match group.least() {
        Some(lead) => lead,
        None => unreachable!(),
    }
}

/// The boxes of the part under the map of a pose, each with its half.
fn moved_boxes(
    to_machine: &Place,
    beyond: Mask,
    back: Back,
    boxes: &[PartBox],
) -> ArrayVec<PoseBox, 25>
    requires to_machine { IsNearShift to_machine.now.at }
    requires turn { to_machine.now.turn < 24 }
    requires near { All IsNearBox boxes.now }
    requires ids { All IsBoxId boxes.now }
    requires room { length boxes.now ≤ 25 }
    ensures value { result.items
        ≡ map (moved_box (map_of to_machine.now) (has beyond) back) boxes.now }
    ensures near { All IsNearPoseBox result.items }
{
    let mut moved = ArrayVec::new();
    for part_box in boxes {
        moved.push(moved_box(to_machine, beyond, back, part_box));
    }
    moved
}

/// A box of the part under the map of a pose, with its half.
fn moved_box(to_machine: &Place, beyond: Mask, back: Back, part_box: &PartBox) -> PoseBox
    requires to_machine { IsNearShift to_machine.now.at }
    requires turn { to_machine.now.turn < 24 }
    requires near { IsNearBox part_box.now }
    requires id { IsBoxId part_box.now }
    ensures value { result ≡ moved_box (map_of to_machine.now) (has beyond) back part_box.now }
    ensures near { IsNearPoseBox result }
{
    PoseBox {
        id: part_box.id,
        half: half_of(beyond, back, part_box.id),
        body: to_machine.map_box(part_box.body),
    }
}

/// The places of the faces under the map of a pose.
fn moved_places(to_machine: &Place, places: &[Place]) -> ArrayVec<Place, 13>
    requires to_machine { IsWithin (2 ^ 40) to_machine.now.at }
    requires near { All (λ place. IsWithin (2 ^ 40) place.at) places.now }
    requires few { length places.now ≤ 13 }
    ensures { map map_of result.items
        ≡ map (λ place. after (map_of to_machine.now) (map_of place)) places.now }
{
    let mut moved = ArrayVec::new();
    for place in places {
        moved.push(onto(to_machine, place));
    }
    moved
}
