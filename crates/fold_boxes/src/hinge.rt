//! What a bend does to its child.
ghost use Rattle.std.specs.Prelude.{◌≡◌, ◌<◌, ◌≤ℤ◌, ◌+ℤ◌, ◌*ℤ◌, pos, neg_ℤ, length, if◌then◌else◌};
ghost use Rattle.brake_base.specs.Vectors.{IsWithin, vector, plus, times};
ghost use Rattle.brake_base.specs.Turns.{turn_of, map_of};
ghost use Rattle.brake_base.specs.Boxes.{IsBoxWithin};
ghost use Rattle.part_file.specs.Part.{IsPart, IsSize, part_data, face_data, half_thickness, outward};
ghost use Rattle.unfolder.specs.Near.{IsWithin as IsNear, IsLineWithin};
ghost use Rattle.unfolder.specs.Cores.{parent_line, side_point};
ghost use Rattle.unfolder.specs.Blank.{side_matrix, flat_step};
ghost use Rattle.unfolder.specs.Design.{design_step, fold_sign};
ghost use Rattle.fold_boxes.specs.Hinges.{folded_matrix, column_over, IsHingeOf};

use brake_base::{Box3, Place, Turn, V3, box_of};
use part_file::{Dir, Part, Side};
use unfolder::BendLine;
use unfolder::cores::{face_of, joint_of, side_point};

/// A bend's parent, where its child stands on it flat and folded, and the column that covers the
/// folded bend, in the parent's frame.
#[derive(Clone, Copy, Debug, Default)]
pub(crate) struct Hinge {
    pub(crate) parent: u8,
    pub(crate) flat: Place,
    pub(crate) folded: Place,
    pub(crate) corner: Box3,
}

impl Hinge {
    /// The hinge of a bend with half deduction `q`, whose line is given in the parent's frame.
    pub(crate) fn new(part: &Part, q: i64, bend: u8, line: &BendLine) -> Hinge
        requires part { IsPart (part_data part.now) }
        requires q_low { half_thickness (part_data part.now) ≤ℤ q }
        requires q_high { q ≤ℤ pos 100000 }
        requires some { 0 < bend }
        requires bend { bend < length part.now.faces.items }
        requires line { line.now ≡ parent_line (part_data part.now).faces q bend }
        requires near { IsLineWithin 21000000 line.now }
        ensures { IsHingeOf (record { part = part_data part.now; q = q }) bend result }
    {
        let joint = joint_of(part, bend);
        Hinge {
            parent: joint.on,
            flat: flat_place(part, q, bend),
            folded: folded_place(part, bend),
            corner: corner(joint.side, line, q, half_thickness(part)),
        }
    }

    /// Where the child lies on its parent, folded or flat.
    pub(crate) fn child(&self, folded: bool) -> &Place
        ensures { result.now ≡ (if folded then self.now.folded else self.now.flat) }
    {
        if folded { &self.folded } else { &self.flat }
    }
}

/// Where a child lies flat on its parent: their cores abut, so that it lies 2q inside the side.
fn flat_place(part: &Part, q: i64, bend: u8) -> Place
    requires part { IsPart (part_data part.now) }
    requires q_low { pos 0 ≤ℤ q }
    requires q_high { q ≤ℤ pos 100000 }
    requires some { 0 < bend }
    requires bend { bend < length part.now.faces.items }
    ensures value { map_of result ≡ flat_step (part_data part.now).faces q bend }
    ensures near { IsWithin 21000000 result.at }
{
    let joint = joint_of(part, bend);
    let parent = face_of(part, joint.on);
    let (x, y) = side_point(joint.side, parent, joint.at, 2 * q);
    Place {
        at: V3 { x, y, z: 0 },
        turn: side_turn(joint.side),
    }
}

/// Where a folded child stands on its parent: tau inside the side, and its y from tau on the side of
/// the mid-plane away from which it folds.
fn folded_place(part: &Part, bend: u8) -> Place
    requires part { IsPart (part_data part.now) }
    requires some { 0 < bend }
    requires bend { bend < length part.now.faces.items }
    ensures value { map_of result
        ≡ design_step (part_data part.now).faces (half_thickness (part_data part.now)) bend }
    ensures near { IsWithin 21000000 result.at }
{
    let joint = joint_of(part, bend);
    let parent = face_of(part, joint.on);
    let tau = half_thickness(part);
    let (x, y) = side_point(joint.side, parent, joint.at, tau);
    Place {
        at: V3 {
            x,
            y,
            z: along_normal(joint.dir, -tau),
        },
        turn: folded_turn(joint.side, joint.dir),
    }
}

/// The quarter turns about z that take x to the direction of a side.
pub(crate) fn side_turn(side: Side) -> Turn
    ensures { turn_of result ≡ side_matrix side }
{
    match side {
        Side::N => Turn::from_number(0),
        Side::E => Turn::from_number(3),
        Side::S => Turn::from_number(2),
        Side::W => Turn::from_number(1),
    }
}

/// The turn of a folded child: a quarter turn about its S side, then that of the side.
fn folded_turn(side: Side, dir: Dir) -> Turn
    ensures { turn_of result ≡ folded_matrix side dir }
{
    upright(dir).then(side_turn(side))
}

/// The turn of a child that is folded at a side N.
fn upright(dir: Dir) -> Turn
    ensures { turn_of result ≡ folded_matrix Side.N dir }
{
    match dir {
        Dir::Up => Turn::from_number(20),
        Dir::Down => Turn::from_number(16),
    }
}

/// How far up a point lies that is so far on the side to which a bend folds.
fn along_normal(dir: Dir, distance: i64) -> i64
    requires low { neg_ℤ (pos 100000) ≤ℤ distance }
    requires high { distance ≤ℤ pos 100000 }
    ensures value { result ≡ fold_sign dir *ℤ distance }
    ensures near { IsNear 100000 result }
{
    match dir {
        Dir::Up => distance,
        Dir::Down => -distance,
    }
}

/// The column that covers a folded bend, in the parent's frame: along its line, from the core's edge
/// to `q` beyond it, and from `tau` on the one side of the mid-plane to `q - tau` on that to which
/// the bend folds.
fn corner(side: Side, line: &BendLine, q: i64, tau: i64) -> Box3
    requires tau_low { pos 0 ≤ℤ tau }
    requires q_low { tau ≤ℤ q }
    requires q_high { q ≤ℤ pos 100000 }
    requires near { IsLineWithin 21000000 line.now }
    ensures value { result ≡ column_over side line.now q tau }
    ensures near { IsBoxWithin 22000000 result }
{
    let near_edge = V3 {
        x: line.from.0,
        y: line.from.1,
        z: along_normal(line.dir, -tau),
    };
    let (x, y) = point_beyond(side, line.to, q);
    let far_edge = V3 {
        x,
        y,
        z: along_normal(line.dir, q - tau),
    };
    box_of(&near_edge, &far_edge)
}

/// The point of the parent's plane that lies so far beyond another, out of a side.
fn point_beyond(side: Side, point: (i64, i64), distance: i64) -> (i64, i64)
    requires low { pos 0 ≤ℤ distance }
    requires high { distance ≤ℤ pos 100000 }
    requires near_x { IsNear 21000000 point.0 }
    requires near_y { IsNear 21000000 point.1 }
    ensures value { vector result.0 result.1 (pos 0)
        ≡ plus (vector point.0 point.1 (pos 0)) (times distance (outward side)) }
    ensures near_x { IsNear 21100000 result.0 }
    ensures near_y { IsNear 21100000 result.1 }
{
    match side {
        Side::N => (point.0, point.1 + distance),
        Side::E => (point.0 + distance, point.1),
        Side::S => (point.0, point.1 - distance),
        Side::W => (point.0 - distance, point.1),
    }
}

/// Half the thickness of the sheet, in micrometres.
pub(crate) fn half_thickness(part: &Part) -> i64
    requires { IsPart (part_data part.now) }
    ensures value { result ≡ half_thickness (part_data part.now) }
    ensures low { pos 1 ≤ℤ result }
    ensures high { result ≤ℤ pos 25000 }
{
    part.thickness / 2
}
