//! Where the faces lie flat.
ghost use Rattle.std.specs.Prelude.{◌≡◌, ℕ, ◌+◌, ◌*◌, ◌<◌, pos, length, All};
ghost use Rattle.brake_base.specs.Vectors.{vector};
ghost use Rattle.brake_base.specs.Turns.{mapped, after, quarter_turns};
ghost use Rattle.part_file.specs.Part.{IsPart, part_data};
ghost use Rattle.unfolder.specs.Near.{IsWithin, IsRectWithin, IsLineWithin};
ghost use Rattle.unfolder.specs.Blank.{side_matrix, flat_step, flat_image, line_image};
ghost use Rattle.unfolder.specs.Extent.{IsNearRect, IsNearLine};
ghost use Rattle.unfolder.specs.Frames.{frame_map, IsFrameWithin, AreFrames};

use crate::blank::{BendLine, FlatRect};
use crate::cores::{face_count, face_of, joint_of, side_point};
use arrayvec::ArrayVec;
use part_file::{Part, Side};

/// Where a face lies flat: turned by so many quarter turns about z (x to y), then shifted so that
/// its origin lies at x, y.
#[derive(Clone, Copy, Debug, Default)]
pub(crate) struct Frame {
    pub(crate) turn: u8,
    pub(crate) x: i64,
    pub(crate) y: i64,
}

impl Frame {
    /// Where a point of the face lies.
    pub(crate) fn point(&self, x: i64, y: i64) -> (i64, i64)
        requires frame { IsFrameWithin 12 self.now }
        requires x { IsWithin 21000000 x }
        requires y { IsWithin 21000000 y }
        ensures value { vector result.0 result.1 (pos 0)
            ≡ mapped (frame_map self.now) (vector x y (pos 0)) }
        ensures near_x { (bends : ℕ) → IsFrameWithin bends self.now
            → IsWithin (bends * 21000000 + 21000000) result.0 }
        ensures near_y { (bends : ℕ) → IsFrameWithin bends self.now
            → IsWithin (bends * 21000000 + 21000000) result.1 }
    {
        match self.turn {
            0 => (self.x + x, self.y + y),
            1 => (self.x - y, self.y + x),
            2 => (self.x - x, self.y - y),
            _ => (self.x + y, self.y - x),
        }
    }

    /// Where a rectangle of the face lies.
    pub(crate) fn rect(&self, r: &FlatRect) -> FlatRect
        requires frame { IsFrameWithin 12 self.now }
        requires within { IsRectWithin 21000000 r.now }
        ensures value { result ≡ flat_image (frame_map self.now) r.now }
        ensures near { IsNearRect result }
    {
        let (ax, ay) = self.point(r.x0, r.y0);
        let (cx, cy) = self.point(r.x1, r.y1);
        FlatRect {
            x0: ax.min(cx),
            x1: ax.max(cx),
            y0: ay.min(cy),
            y1: ay.max(cy),
        }
    }

    /// Where a line of the face lies.
    pub(crate) fn line(&self, line: &BendLine) -> BendLine
        requires frame { IsFrameWithin 12 self.now }
        requires within { IsLineWithin 21000000 line.now }
        ensures value { result ≡ line_image (frame_map self.now) line.now }
        ensures near { IsNearLine result }
    {
        BendLine {
            bend: line.bend,
            from: self.point(line.from.0, line.from.1),
            to: self.point(line.to.0, line.to.1),
            dir: line.dir,
        }
    }

    /// The frame of a child, from its frame on this face.
    fn then(&self, child: &Frame) -> Frame
        requires frame { IsFrameWithin 12 self.now }
        requires child { IsFrameWithin 1 child.now }
        ensures value { frame_map result ≡ after (frame_map self.now) (frame_map child.now) }
        ensures within { (bends : ℕ) → IsFrameWithin bends self.now
            → IsFrameWithin (bends + 1) result }
    {
        let (x, y) = self.point(child.x, child.y);
        Frame {
            turn: (self.turn + child.turn) % 4,
            x,
            y,
        }
    }
}

/// The quarter turns that take x to the direction of a side.
fn quarter_turns_of(side: Side) -> u8
    ensures value { quarter_turns result ≡ side_matrix side }
    ensures few { result < 4 }
{
    match side {
        Side::N => 0,
        Side::E => 3,
        Side::S => 2,
        Side::W => 1,
    }
}

/// The frame of a child on its parent: their cores abut, so that it lies 2q inside its side.
fn frame_on_parent(part: &Part, q: i64, bend: u8) -> Frame
    requires part { IsPart (part_data part.now) }
    requires some { 0 < bend }
    requires bend { bend < length part.now.faces.items }
    requires q { IsWithin 100000 q }
    ensures value { frame_map result ≡ flat_step (part_data part.now).faces q bend }
    ensures within { IsFrameWithin 1 result }
{
    let joint = joint_of(part, bend);
    let parent = face_of(part, joint.on);
    let (x, y) = side_point(joint.side, parent, joint.at, 2 * q);
    Frame {
        turn: quarter_turns_of(joint.side),
        x,
        y,
    }
}

/// The frames of all faces, in the coordinates of face 0.
pub(crate) fn frames(part: &Part, q: i64) -> ArrayVec<Frame, 13>
    requires part { IsPart (part_data part.now) }
    requires q { IsWithin 100000 q }
    ensures count { length result.items ≡ length part.now.faces.items }
    ensures each { AreFrames (part_data part.now).faces q result.items }
    ensures within { All (IsFrameWithin 12) result.items }
{
    let mut frames: ArrayVec<Frame, 13> = ArrayVec::new();
    frames.push(Frame::default());
    for bend in 1..face_count(part) {
        let joint = joint_of(part, bend);
        let parent = frames.as_slice()[usize::from(joint.on)];
        let on_parent = frame_on_parent(part, q, bend);
        frames.push(parent.then(&on_parent));
    }
    frames
}
