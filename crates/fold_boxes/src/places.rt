//! Where the faces lie.
ghost use Rattle.std.specs.Prelude.{◌≡◌, ℕ, ◌+◌, ◌^◌, ◌<◌, ◌≤◌, map, All, length};
ghost use Rattle.brake_base.specs.Vectors.{IsWithin};
ghost use Rattle.brake_base.specs.Turns.{map_of, after, stay};
ghost use Rattle.fold_boxes.specs.Shapes.{IsShape};
ghost use Rattle.fold_boxes.specs.Folded.{places_of};
ghost use Rattle.unfolder.specs.Cores.{joint_of};
ghost use Rattle.fold_boxes.specs.Places.{IsPlaceOf, ArePlaces};

use crate::shape::Shape;
use arrayvec::ArrayVec;
use brake_base::{Mask, Place, Turn, V3};

/// Where each face lies when the bends of the mask are folded, in the coordinates of face 0, which
/// are the outside coordinates of that face with its mid-plane at z = 0.
pub fn place(shape: &Shape, mask: Mask) -> ArrayVec<Place, 13>
    ensures value { map map_of result.items ≡ places_of shape.now mask }
    ensures each { ArePlaces shape.now mask result.items }
    ensures count { length result.items ≡ length shape.now.part.faces }

    // All coordinates lie within 1,000,000,000 micrometres of 0.
    ensures near { All (λ place. IsWithin 1000000000 place.at) result.items }
{
    place_faces(shape, mask)
}

/// The places of all faces, by their numbers.
pub(crate) fn place_faces(shape: &Shape, mask: Mask) -> ArrayVec<Place, 13>
    ensures each { ArePlaces shape.now mask result.items }
    ensures turns { All (λ place. place.turn < 24) result.items }
    ensures rules { IsShape shape.now }
    ensures count { length result.items ≡ length shape.now.part.faces }
    ensures few { length result.items ≤ 13 }
{
    let mut places: ArrayVec<Place, 13> = ArrayVec::new();
    places.push(root());
    for bend in 1..shape.faces() {
        let parent = &places.as_slice()[usize::from(shape.parent(bend))];
        let child = child_place(shape, mask, bend, parent);
        places.push(child);
    }
    places
}

/// Where the child of a bend lies, from where its parent lies.
pub fn child_place(shape: &Shape, mask: Mask, bend: u8, parent: &Place) -> Place
    requires some { 0 < bend }
    requires bend { bend < length shape.now.part.faces }
    requires parent { IsPlaceOf shape.now mask (joint_of shape.now.part.faces bend).on parent.now }
    ensures { IsPlaceOf shape.now mask bend result }
{
    onto(parent, shape.hinge(bend).child(mask.contains(bend)))
}

/// Where face 0 lies: it stays.
fn root() -> Place
    ensures value { map_of result ≡ stay }
    ensures near { IsWithin 0 result.at }
    ensures turn { result.turn < 24 }
{
    Place {
        at: V3 { x: 0, y: 0, z: 0 },
        turn: Turn::from_number(0),
    }
}

/// Where a child lies, from where its parent lies and where it lies on its parent.
pub(crate) fn onto(parent: &Place, child: &Place) -> Place
    requires parent { IsWithin (2 ^ 40) parent.now.at }
    requires child { IsWithin (2 ^ 40) child.now.at }
    ensures value { map_of result ≡ after (map_of parent.now) (map_of child.now) }
    ensures turn { result.turn < 24 }
    ensures near { (a b : ℕ) → IsWithin a parent.now.at → IsWithin b child.now.at
        → IsWithin (a + b) result.at }
{
    Place {
        at: parent.map(child.at),
        turn: child.turn.then(parent.turn),
    }
}
