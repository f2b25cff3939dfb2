//! The faces that a fold moves, and that are moved back.
ghost use Rattle.std.specs.Prelude.{◌≡◌, ◌+◌, ◌<◌, ◌≤◌, length, take};
ghost use Rattle.fold_boxes.specs.Places.{ArePlaces};
ghost use Rattle.brake_base.specs.Masks.{union};
ghost use Rattle.bend_state.specs.State.{AreKept, IsKept};

use crate::state::Fold;
use brake_base::{Mask, Place};
use fold_boxes::{Shape, child_place, faces_beyond};
use undo_region::Region;

/// Moves the faces beyond any bend of the group, each from its parent's place by one step, and puts
/// their old places on the trail.
pub(crate) fn move_faces(
    shape: &Shape,
    before: Mask,
    group: Mask,
    places: &mut [Place],
    trail: &mut Region<Place>,
)
    requires count { length places.old ≡ length shape.now.part.faces }
    requires each { ArePlaces shape.now before places.old }
    requires room { 13 ≤ trail.old.room }
    ensures count { length places.new ≡ length places.old }
    ensures each { ArePlaces shape.now (union before group) places.new }
    ensures first { take (length trail.old.items) trail.new.items ≡ trail.old.items }
    ensures kept { AreKept shape.now before group (length trail.old.items) trail.new.items }
    ensures left { trail.new.room + length trail.new.items
        ≡ trail.old.room + length trail.old.items }
{
    let after = before.union(group);
    let beyond = faces_beyond(shape, group);
    for face in 1..shape.faces() {
        if beyond.contains(face) {
            let index = usize::from(face);
            trail.push(places[index]);
            let parent = places[usize::from(shape.parent(face))];
            places[index] = child_place(shape, after, face, &parent);
        }
    }
}

/// Moves the faces beyond any bend of the group back to the places that the trail has from a mark on.
pub(crate) fn restore_faces(shape: &Shape, fold: &Fold, places: &mut [Place], trail: &Region<Place>)
    requires count { length places.old ≡ length shape.now.part.faces }
    requires kept { IsKept shape.now fold.now trail.now.items }
    requires each { ArePlaces shape.now (union fold.now.before fold.now.group) places.old }
    ensures count { length places.new ≡ length places.old }
    ensures each { ArePlaces shape.now fold.now.before places.new }
{
    let beyond = faces_beyond(shape, fold.group);
    let end = trail.mark();
    let mut left = end - fold.mark;
    for face in 1..shape.faces() {
        if beyond.contains(face) {
            places[usize::from(face)] = trail.get(end - left);
            left -= 1;
        }
    }
}
