//! The part on the machine before a stroke.

use arrayvec::ArrayVec;
use brake_base::{Back, Box3, Half, Mask, Place};

/// A box of the part on the machine, and the half of the part to which it belongs.
#[derive(Clone, Copy, Debug, Default, PartialEq, Eq)]
pub struct PoseBox {
    pub id: u8,
    pub half: Half,
    pub body: Box3,
}

/// Where the part lies before a stroke: which bends are folded, which ones are bent, which side is
/// at the back, and the range of the bed in whose middle their span lies, in micrometres.
#[derive(Clone, Copy)]
pub struct PosedStroke {
    pub mask: Mask,
    pub group: Mask,
    pub back: Back,
    pub x0: i64,
    pub x1: i64,
}

/// The part on the machine before a stroke over a range of the bed: the boxes and places of the
/// part, moved so that the bends of the group lie on the x axis, their span centred on the range
/// from `x0` to `x1`. The axes are x along the bed, y to the back, z up.
#[derive(Debug, Drop)]
pub struct Pose {
    /// The least bend of the group.
    pub bend: u8,
    pub group: Mask,
    pub boxes: ArrayVec<PoseBox, 25>,
    pub places: ArrayVec<Place, 13>,
    pub x0: i64,
    pub x1: i64,
}
