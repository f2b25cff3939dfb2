//! A part with its half deduction, and what the fold keeps of it.
ghost use Rattle.std.specs.Prelude.{◌≡◌, ◌+◌, ◌<◌, ◌≤◌, ◌≤ℤ◌, pos, length, IsOk};
ghost use Rattle.brake_base.specs.Boxes.{IsBoxWithin};
ghost use Rattle.part_file.specs.Part.{IsPart, part_data, half_thickness};
ghost use Rattle.unfolder.specs.Cores.{core, joint_of};
ghost use Rattle.unfolder.specs.Near.{IsRectWithin};
ghost use Rattle.unfolder.specs.Blank.{blank_of_part};
ghost use Rattle.fold_boxes.specs.Shapes.{core_width, core_length, line_length, IsShape};
ghost use Rattle.fold_boxes.specs.Folded.{core_box};
ghost use Rattle.fold_boxes.specs.Hinges.{IsHingeOf, AreHinges};

use crate::hinge::{Hinge, half_thickness};
use arrayvec::ArrayVec;
use brake_base::{Box3, V3};
use part_file::Part;
use std::marker::Model;
use unfolder::FlatRect;
use unfolder::cores::{cores, face_count, parent_lines};

/// A part that unfolds with half deduction `q`, in micrometres, seen as the part and its q.
#[derive(Drop)]
pub struct Shape {
    part: Part,
    q: i64,
    cores: ArrayVec<FlatRect, 13>,
    hinges: ArrayVec<Hinge, 12>,
}

impl Model for Shape {
    ghost use Rattle.part_file.specs.Part.{part_data};
    ghost use Rattle.fold_boxes.specs.Shapes.{ShapeData};

    ghost Value = { ShapeData };

    ghost use Rattle.fold_boxes.specs.Hinges.{Keeps};

    ghost view = { λ s. record { part = part_data s.part; q = s.q } };

    ghost invariant = { λ s. Keeps (record { part = part_data s.part; q = s.q }) s.cores.items s.hinges.items };
}

impl Shape {
    /// The shape of a part that unfolds with half deduction `q`.
    pub fn new(part: &Part, q: i64) -> Shape
        requires part { IsPart (part_data part.now) }
        requires q_low { half_thickness (part_data part.now) ≤ℤ q }
        requires q_high { q ≤ℤ pos 100000 }
        requires unfolds { IsOk (blank_of_part (part_data part.now) q) }
        ensures { result ≡ record { part = part_data part.now; q = q } }
    {
        Shape {
            part: part.copy(),
            q,
            cores: cores(part, q),
            hinges: hinges(part, q),
        }
    }

    /// A copy of the shape. It takes no memory.
    pub fn copy(&self) -> Shape
        ensures { result ≡ self.now }
    {
        let mut cores = ArrayVec::new();
        let _ = cores.try_extend_from_slice(self.cores.as_slice());
        let mut hinges = ArrayVec::new();
        let _ = hinges.try_extend_from_slice(self.hinges.as_slice());
        Shape {
            part: self.part.copy(),
            q: self.q,
            cores,
            hinges,
        }
    }

    /// The part.
    pub fn part(&self) -> &Part
        ensures value { part_data result.now ≡ self.now.part }
        ensures rules { IsShape self.now }
    {
        &self.part
    }

    /// The half deduction, in micrometres.
    pub fn q(&self) -> i64
        ensures value { result ≡ self.now.q }
        ensures rules { IsShape self.now }
    {
        self.q
    }

    /// The number of faces.
    pub fn faces(&self) -> u8
        ensures value { result ≡ length self.now.part.faces }
        ensures some { 0 < result }
        ensures few { result ≤ 13 }
        ensures rules { IsShape self.now }
    {
        face_count(&self.part)
    }

    /// What is kept of a bend.
    pub(crate) fn hinge(&self, bend: u8) -> &Hinge
        requires some { 0 < bend }
        requires bend { bend < length self.now.part.faces }
        ensures value { IsHingeOf self.now bend result.now }
        ensures earlier { result.now.parent < bend }
        ensures rules { IsShape self.now }
    {
        &self.hinges.as_slice()[usize::from(bend - 1)]
    }

    /// The parent of a bend.
    pub fn parent(&self, bend: u8) -> u8
        requires some { 0 < bend }
        requires bend { bend < length self.now.part.faces }
        ensures value { result ≡ (joint_of self.now.part.faces bend).on }
        ensures earlier { result < bend }
    {
        self.hinge(bend).parent
    }

    /// The core of a face.
    pub(crate) fn core(&self, face: u8) -> &FlatRect
        requires { face < length self.now.part.faces }
        ensures value { result.now ≡ core self.now.part.faces self.now.q face }
        ensures near { IsRectWithin 21000000 result.now }
        ensures rules { IsShape self.now }
    {
        &self.cores.as_slice()[usize::from(face)]
    }

    /// The core of a face, as thick as the sheet.
    pub(crate) fn core_box(&self, face: u8) -> Box3
        requires { face < length self.now.part.faces }
        ensures value { result ≡ core_box self.now face }
        ensures near { IsBoxWithin 21000000 result }
    {
        let core = self.core(face);
        let tau = half_thickness(self.part());
        Box3 {
            lo: V3 {
                x: core.x0,
                y: core.y0,
                z: -tau,
            },
            hi: V3 {
                x: core.x1,
                y: core.y1,
                z: tau,
            },
        }
    }
}

/// The hinges of all bends.
fn hinges(part: &Part, q: i64) -> ArrayVec<Hinge, 12>
    requires part { IsPart (part_data part.now) }
    requires q_low { half_thickness (part_data part.now) ≤ℤ q }
    requires q_high { q ≤ℤ pos 100000 }
    ensures count { length result.items + 1 ≡ length part.now.faces.items }
    ensures each { AreHinges (record { part = part_data part.now; q = q }) result.items }
{
    let lines = parent_lines(part, q);
    let mut hinges = ArrayVec::new();
    for bend in 1..face_count(part) {
        let line = &lines.as_slice()[usize::from(bend - 1)];
        hinges.push(Hinge::new(part, q, bend, line));
    }
    hinges
}

/// Width and length of the core of a face, in micrometres.
pub fn core(shape: &Shape, face: u8) -> (i64, i64)
    requires { face < length shape.now.part.faces }
    ensures width { result.0 ≡ core_width shape.now face }
    ensures length { result.1 ≡ core_length shape.now face }
{
    let core = shape.core(face);
    (core.x1 - core.x0, core.y1 - core.y0)
}

/// The length of a bend's line, in micrometres.
pub fn line_length(shape: &Shape, bend: u8) -> i64
    requires some { 0 < bend }
    requires bend { bend < length shape.now.part.faces }
    ensures { result ≡ line_length shape.now bend }
{
    core(shape, bend).0
}
