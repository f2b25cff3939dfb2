//! How the part is turned and moved onto the machine for a stroke.
ghost use Rattle.std.specs.Prelude.{◌≡◌, ◌<◌, ℤ, IsTrue, ◌-ℤ◌, ◌*ℤ◌, neg_ℤ, pos, negsuc, length, if◌then◌else◌};
ghost use Rattle.brake_base.specs.declared.mask.Mask.{Mask};
ghost use Rattle.brake_base.specs.Masks.{has};
ghost use Rattle.brake_base.specs.Vectors.{IsWithin};
ghost use Rattle.brake_base.specs.Turns.{map_of, turn_of, multiply, transpose, identity, after};
ghost use Rattle.part_file.specs.declared.part.Side.{Side};
ghost use Rattle.unfolder.specs.Near.{IsWithin as IsNear};
ghost use Rattle.unfolder.specs.Blank.{flat_step};
ghost use Rattle.unfolder.specs.Design.{fold_sign};
ghost use Rattle.fold_boxes.specs.Places.{ArePlaces};
ghost use Rattle.fold_boxes.specs.Spans.{IsNearRange};
ghost use Rattle.fold_boxes.specs.Pose.{lead_of, IsGroup, posed_place, back_sign, start_of_span, frame_turn, posed, posed_frame, inverse_of, attitude_turn, attitude_of};
ghost use Rattle.fold_boxes.specs.Posing.{IsNearShift};

use crate::groups::span;
use crate::hinge::{half_thickness, side_turn};
use crate::places::place_faces;
use crate::shape::Shape;
use brake_base::{Back, Mask, Place, Turn, V3};
use part_file::{Dir, Joint};
use unfolder::cores::joint_of;

/// The turn of face 0 in the pose of a stroke of that bend. It is the same for every group whose
/// least bend it is, and for every bend of such a group.
pub fn attitude(shape: &Shape, mask: Mask, bend: u8, back: Back) -> Turn
    requires some { 0 < bend }
    requires bend { bend < length shape.now.part.faces }
    ensures turn { turn_of result ≡ attitude_turn shape.now mask bend back }
    ensures value { result ≡ attitude_of shape.now mask bend back }
    ensures held { (group : Mask) (x0 x1 : ℤ) → IsGroup shape.now mask group
        → IsTrue (has group bend)
        → (posed_place shape.now mask group back x0 x1 0).turn ≡ turn_of result }
{
    attitude_from(shape, place_faces(shape, mask).as_slice(), mask, bend, back)
}

/// The same, from the places of the faces where the bends of the mask are folded.
pub fn attitude_from(shape: &Shape, places: &[Place], mask: Mask, bend: u8, back: Back) -> Turn
    requires count { length places.now ≡ length shape.now.part.faces }
    requires places { ArePlaces shape.now mask places.now }
    requires some { 0 < bend }
    requires bend { bend < length shape.now.part.faces }
    ensures turn { turn_of result ≡ attitude_turn shape.now mask bend back }
    ensures value { result ≡ attitude_of shape.now mask bend back }
    ensures held { (group : Mask) (x0 x1 : ℤ) → IsGroup shape.now mask group
        → IsTrue (has group bend)
        → (posed_place shape.now mask group back x0 x1 0).turn ≡ turn_of result }
{
    let parent = &places[usize::from(shape.hinge(bend).parent)];
    pose_turn(&joint_of(shape.part(), bend), back, parent.turn)
}

/// The turn of a pose, from the turn of the parent's place.
fn pose_turn(joint: &Joint, back: Back, parent: Turn) -> Turn
    ensures value { turn_of result
        ≡ multiply (frame_turn joint.now.side joint.now.dir back) (transpose (turn_of parent)) }
    ensures below { result < 24 }
    ensures undone { multiply (transpose (turn_of parent)) (turn_of parent) ≡ identity }
{
    let out_of_side = side_turn(joint.side).inverse();
    parent
        .inverse()
        .then(out_of_side)
        .then(north_turn(joint.dir, back))
}

/// The turn of the frame of a face that is bent at its N side, whose x runs along that side and whose
/// y points out of it.
fn north_turn(dir: Dir, back: Back) -> Turn
    ensures { turn_of result ≡ frame_turn Side.N dir back }
{
    match back {
        Back::Child => match dir {
            Dir::Up => Turn::from_number(0),
            Dir::Down => Turn::from_number(6),
        },
        Back::Parent => match dir {
            Dir::Up => Turn::from_number(2),
            Dir::Down => Turn::from_number(4),
        },
    }
}

/// Where a pose takes the coordinates of face 0, from where the lead's parent lies in them: its turn,
/// and the shift that brings the corner at which the lead's child lies flat to its place.
pub(crate) fn pose_map(
    shape: &Shape,
    parent: &Place,
    group: Mask,
    back: Back,
    lead: u8,
    x0: i64,
    x1: i64,
) -> Place
    requires some { 0 < lead }
    requires bend { lead < length shape.now.part.faces }
    requires lead { lead ≡ lead_of shape.now group }
    requires parent { IsWithin 252000000 parent.now.at }
    requires from { IsNear 1000000000 x0 }
    requires to { IsNear 1000000000 x1 }
    ensures value { map_of result
        ≡ after (posed_frame shape.now group back x0 x1) (inverse_of (map_of parent.now)) }
    ensures turn { result.turn < 24 }
    ensures near { IsNearShift result.at }
{
    let turn = pose_turn(&joint_of(shape.part(), lead), back, parent.turn);
    let corner = turn.apply(parent.map(shape.hinge(lead).flat.at));
    let posed = posed_corner(shape, group, back, lead, x0, x1);
    Place {
        at: V3 {
            x: posed.x - corner.x,
            y: posed.y - corner.y,
            z: posed.z - corner.z,
        },
        turn,
    }
}

/// Where a pose has the corner at which the lead's child lies flat on its parent: as far along the
/// span as it lies along the side, q on the parent's side of the lines, in the parent's mid-plane.
fn posed_corner(shape: &Shape, group: Mask, back: Back, lead: u8, x0: i64, x1: i64) -> V3
    requires some { 0 < lead }
    requires bend { lead < length shape.now.part.faces }
    requires lead { lead ≡ lead_of shape.now group }
    requires from { IsNear 1000000000 x0 }
    requires to { IsNear 1000000000 x1 }
    ensures value { result ≡ posed shape.now group back x0 x1
        (flat_step shape.now.part.faces shape.now.q lead).shift }
    ensures near_x { IsNear 1250000000 result.x }
    ensures near_y { IsNear 100000 result.y }
    ensures near_z { IsNear 100000 result.z }
{
    let joint = joint_of(shape.part(), lead);
    let lines = span(shape, group);
    V3 {
        x: start_of_span(lines, x0, x1) + from_left(lines, joint.at, runs_right(joint.dir, back)),
        y: from_lines(shape.q(), back),
        z: -half_thickness(shape.part()),
    }
}

/// Whether the direction along the side comes to point to the right.
fn runs_right(dir: Dir, back: Back) -> bool
    ensures { back_sign back *ℤ fold_sign dir ≡ (if result then pos 1 else negsuc 0) }
{
    match dir {
        Dir::Up => back == Back::Child,
        Dir::Down => back == Back::Parent,
    }
}

/// How far from the left end of a span a point lies that lies so far along the side.
fn from_left(lines: (i64, i64), at: i64, right: bool) -> i64
    requires lines { IsNearRange lines }
    requires at { IsNear 10000000 at }
    ensures value { result ≡ (if right then at -ℤ lines.0 else lines.1 -ℤ at) }
    ensures near { IsNear 110000000 result }
{
    if right { at - lines.0 } else { lines.1 - at }
}

/// How far to the back of the lines a point lies that lies so far on the parent's side of them.
fn from_lines(distance: i64, back: Back) -> i64
    requires { IsNear 100000 distance }
    ensures value { result ≡ back_sign back *ℤ neg_ℤ distance }
    ensures near { IsNear 100000 result }
{
    match back {
        Back::Child => -distance,
        Back::Parent => distance,
    }
}

/// Where a span of lines begins that lies in the middle of a range of the bed, in micrometres, rounded
/// down.
pub fn start_of_span(lines: (i64, i64), x0: i64, x1: i64) -> i64
    requires lines { IsNearRange lines }
    requires from { IsNear 1000000000 x0 }
    requires to { IsNear 1000000000 x1 }
    ensures value { result ≡ start_of_span lines x0 x1 }
    ensures near { IsNear 1130000000 result }
{
    x0 + (x1 - x0 - (lines.1 - lines.0)).div_euclid(2)
}
