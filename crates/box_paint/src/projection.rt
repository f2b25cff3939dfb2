//! The drawn place of a point. The rows of the projection are orthogonal and both have length 25,
//! in 25ths, so the picture is a true view and all its numbers are whole.

ghost use Rattle.std.specs.Prelude.{◌≡◌, ◌^◌, pos};
ghost use Rattle.brake_base.specs.Vectors.{IsWithin};
ghost use Rattle.box_paint.specs.Projection.{drawn, rightwards, upwards, eye, IsTrueView, faces_of};

use brake_base::{Box3, V3};

/// Where a point is drawn, to the right and upwards, in hundredths of a micrometre.
pub fn drawn(point: V3) -> (i64, i64)
    requires { IsWithin (2 ^ 40) point }
    ensures value { result ≡ drawn point }
    ensures true_view { IsTrueView rightwards upwards eye (pos 25) }
{
    (
        80 * point.x + 60 * point.y,
        -36 * point.x + 48 * point.y + 80 * point.z,
    )
}

/// A face of a box that looks towards the eye.
#[derive(Clone, Copy, Debug, PartialEq, Eq)]
pub enum FaceKind {
    Right,
    Front,
    Top,
}

/// A face of a box: which it is, and its corners in order.
#[derive(Clone, Copy, Debug)]
pub struct Face {
    pub kind: FaceKind,
    pub corners: [V3; 4],
}

/// The three faces of a box that look towards the eye, in the order in which they are painted.
pub fn faces_of(body: &Box3) -> [Face; 3]
    ensures { result ≡ faces_of body.now }
{
    let Box3 { lo, hi } = *body;
    [
        Face {
            kind: FaceKind::Right,
            corners: [
                V3 { x: hi.x, ..lo },
                V3 { z: lo.z, ..hi },
                hi,
                V3 { y: lo.y, ..hi },
            ],
        },
        Face {
            kind: FaceKind::Front,
            corners: [
                lo,
                V3 { x: hi.x, ..lo },
                V3 { y: lo.y, ..hi },
                V3 { z: hi.z, ..lo },
            ],
        },
        Face {
            kind: FaceKind::Top,
            corners: [
                V3 { z: hi.z, ..lo },
                V3 { y: lo.y, ..hi },
                hi,
                V3 { x: lo.x, ..hi },
            ],
        },
    ]
}
