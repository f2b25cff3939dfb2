//! A blank: the flat sheet of a part before bending.

use arrayvec::ArrayVec;
use part_file::Dir;

/// A rectangle of the sheet, in micrometres.
#[derive(Clone, Copy, Debug, Default, PartialEq, Eq)]
pub struct FlatRect {
    pub x0: i64,
    pub x1: i64,
    pub y0: i64,
    pub y1: i64,
}

/// The core of a face in the blank, and by how many quarter turns about z (x to y), 0 to 3, the
/// face is turned there.
#[derive(Clone, Copy, Debug, Default, PartialEq, Eq)]
pub struct FlatFace {
    pub rect: FlatRect,
    pub turn: u8,
}

/// A bend line of the blank, from its end with the smaller value along the parent's side.
#[derive(Clone, Copy, Debug, PartialEq, Eq)]
pub struct BendLine {
    pub bend: u8,
    pub from: (i64, i64),
    pub to: (i64, i64),
    pub dir: Dir,
}

impl Default for BendLine {
    fn default() -> Self {
        BendLine {
            bend: 0,
            from: (0, 0),
            to: (0, 0),
            dir: Dir::Up,
        }
    }
}

/// The flat sheet: a face for each face of the part, and a line for each bend, in order.
#[derive(Debug, Drop)]
pub struct Blank {
    pub faces: ArrayVec<FlatFace, 13>,
    pub bends: ArrayVec<BendLine, 12>,
}

/// Why a part has no blank.
#[derive(Clone, Copy, Debug, PartialEq, Eq)]
pub enum UnfoldFault {
    /// The first face whose core has a size below 1.
    CoreTooSmall { face: u8 },
    /// The first bend whose line isn't within the parent's core edge.
    BendOffFace { bend: u8 },
    /// The first two faces, in order of a and then b, whose cores overlap in the blank.
    FlatOverlap { a: u8, b: u8 },
}
