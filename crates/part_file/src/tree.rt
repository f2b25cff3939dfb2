//! The tree of a part's faces.
ghost use Rattle.std.specs.Prelude.{◌≡◌, ◌+◌, ◌<◌, ◌≤◌, ◌==◌, ◌&&◌, not, length, ◌++◌, reverse, map, Some, IsTrue, ◌↔◌};
ghost use Rattle.std.specs.List.{list_any};
ghost use Rattle.part_file.specs.Part.{part_data, face_data, joint_at, IsPart, same_side, is_joint_on, is_bent, IsBeyond, IsPath};

use crate::part::{Face, Part, Side};
use arrayvec::ArrayVec;

/// Whether the face is joined to that side of the face of a number.
fn is_joined_to(child: &Face, face: u8, side: Side) -> bool
    ensures { result ≡ is_joint_on face side child.now.joint }
{
    match child.joint {
        Some(joint) => joint.on == face && joint.side == side,
        None => false,
    }
}

/// Whether a face is joined to that side of the face of a number.
fn has_child(faces: &[Face], face: u8, side: Side) -> bool
    ensures { result ≡ list_any (λ child. is_joint_on face side child.joint) faces.now }
{
    faces.iter().any(|child| is_joined_to(child, face, side))
}

/// Whether the side is that at which the face is joined to its parent.
fn is_own(face: u8, side: Side) -> bool
    ensures { result ≡ (same_side Side.S side && not (face == 0)) }
{
    match side {
        Side::S => face != 0,
        _ => false,
    }
}

/// Whether some bend joins the face at that side, its own S side included for every face but
/// face 0.
#[tactic(auto, using(crate::proofs::Joints::faces))]
pub fn bent(part: &Part, face: u8, side: Side) -> bool
    requires { face < length part.now.faces.items }
    ensures { result ≡ is_bent (part_data part.now).faces face side }
{
    is_own(face, side) || has_child(&part.faces, face, side)
}

/// The face on which a face other than face 0 stands.
fn parent(part: &Part, face: u8) -> u8
    requires fit { IsPart (part_data part.now) }
    requires low { 0 < face }
    requires high { face < length part.now.faces.items }
    ensures earlier { result < face }
    ensures is { (joint : _) × (joint_at (part_data part.now).faces face ≡ Some joint)
        × (joint.on ≡ result) }
{
    match part.faces[usize::from(face)].joint {
        Some(joint) => joint.on,
        None => 0,
    }
}

/// Whether the face lies beyond the bend, seen from face 0.
pub fn side_of(part: &Part, bend: u8, face: u8) -> bool
    requires fit { IsPart (part_data part.now) }
    requires bend { bend < length part.now.faces.items }
    requires face { face < length part.now.faces.items }
    ensures { IsTrue result ↔ IsBeyond (part_data part.now).faces bend face }
{
    let mut inner = face;
    while inner > bend {
        inner = parent(part, inner);
    }
    inner == bend
}

/// The inward bends, and then the onward ones from the last to the first.
fn connected(inward: ArrayVec<u8, 12>, mut onward: ArrayVec<u8, 12>) -> ArrayVec<u8, 12>
    requires { length inward.items + length onward.items ≤ 12 }
    ensures { result.items ≡ inward.items ++ reverse onward.items }
{
    let mut bends = inward;
    while let Some(bend) = onward.pop() {
        bends.push(bend);
    }
    bends
}

/// The bends of the path from face `a` to face `b` in the tree of faces, in order. A parent's
/// number is below its child's, so the greater end of what is left of the path moves inwards.
pub fn path(part: &Part, a: u8, b: u8) -> ArrayVec<u8, 12>
    requires fit { IsPart (part_data part.now) }
    requires a { a < length part.now.faces.items }
    requires b { b < length part.now.faces.items }
    ensures { IsPath (part_data part.now).faces a result.items b }
{
    let mut from = a;
    let mut to = b;
    let mut inward: ArrayVec<u8, 12> = ArrayVec::new();
    let mut onward: ArrayVec<u8, 12> = ArrayVec::new();
    while from != to {
        if from > to {
            inward.push(from);
            from = parent(part, from);
        } else {
            onward.push(to);
            to = parent(part, to);
        }
    }
    connected(inward, onward)
}
