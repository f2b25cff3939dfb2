//! The two halves into which a stroke divides the part.
ghost use Rattle.std.specs.Prelude.{false, ◌≡◌, ◌≤◌, ◌<◌, ◌||◌, ℕ, length};
ghost use Rattle.brake_base.specs.Masks.{has};
ghost use Rattle.unfolder.specs.Cores.{joint_of};
ghost use Rattle.fold_boxes.specs.Pose.{is_beyond_some, face_of_box, half_by, half_of_child, half_of_parent};

use crate::shape::Shape;
use brake_base::{Back, Half, Mask};

/// The bends whose children lie beyond some bend of the group: a child has the number of its bend.
/// No bend past the part's last is in the set.
pub fn faces_beyond(shape: &Shape, group: Mask) -> Mask
    ensures faces { (f : ℕ) → f < length shape.now.part.faces
        → has result f ≡ is_beyond_some shape.now.part.faces (has group) f }
    ensures past { (f : ℕ) → length shape.now.part.faces ≤ f → has result f ≡ false }
{
    let mut beyond = Mask::empty();
    for bend in 1..shape.faces() {
        if is_beyond(shape, group, beyond, bend) {
            beyond = beyond.with(bend);
        }
    }
    beyond
}

/// Whether a bend is in the group, or its parent is among those beyond.
fn is_beyond(shape: &Shape, group: Mask, beyond: Mask, bend: u8) -> bool
    requires some { 0 < bend }
    requires bend { bend < length shape.now.part.faces }
    requires few { length shape.now.part.faces ≤ 13 }
    ensures { result ≡ (has group bend || has beyond (joint_of shape.now.part.faces bend).on) }
{
    group.contains(bend) || holds_face(beyond, shape.hinge(bend).parent)
}

/// Whether a face is the child of a bend of the set.
fn holds_face(bends: Mask, face: u8) -> bool
    requires { face ≤ 16 }
    ensures { result ≡ has bends face }
{
    face > 0 && bends.contains(face)
}

/// The half of a box, from the bends whose children are on the child's side.
pub(crate) fn half_of(beyond: Mask, back: Back, id: u8) -> Half
    requires { id ≤ 24 }
    ensures { result ≡ half_by (has beyond) back id }
{
    if holds_face(beyond, face_of_box(id)) {
        half_of_child(back)
    } else {
        half_of_parent(back)
    }
}

/// The face whose half a box shares: its own, or for a corner the child of its bend.
pub(crate) fn face_of_box(id: u8) -> u8
    requires { id ≤ 24 }
    ensures value { result ≡ face_of_box id }
    ensures few { result ≤ 12 }
{
    if id <= 12 { id } else { id - 12 }
}

/// The half of the child's side.
fn half_of_child(back: Back) -> Half
    ensures { result ≡ half_of_child back }
{
    match back {
        Back::Child => Half::Back,
        Back::Parent => Half::Front,
    }
}

/// The half of the parent's side.
fn half_of_parent(back: Back) -> Half
    ensures { result ≡ half_of_parent back }
{
    match back {
        Back::Child => Half::Front,
        Back::Parent => Half::Back,
    }
}
