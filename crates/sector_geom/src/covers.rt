//! The cover of a piece: the annular sector in which each of its points stays while it is swept.

ghost use Rattle.std.specs.Prelude.{◌≡◌, ◌≤◌, ◌^◌, unsigned_abs};
ghost use Rattle.sector_geom.specs.Plane.{norm_of, HasInterior, IsInRange, IsCornerInRange};
ghost use Rattle.sector_geom.specs.Pieces.{LiesIn};
ghost use Rattle.sector_geom.specs.Corners.{least_angle, greatest_angle, nearest_corner, farthest_corner};
ghost use Rattle.sector_geom.specs.Covers.{swept, cover_of, IsCoverBy, IsCover, HoldsTurned};

use crate::sector::{Sector, Sweep};
use brake_base::{Quarter, Rect};

/// The sector that holds each point of the piece throughout the sweep. The piece lies in the quarter and has an interior.
pub fn cover(r: Rect, quarter: Quarter, sweep: Sweep) -> Sector
    requires in_range { IsInRange r }
    requires in_quarter { LiesIn quarter r }
    requires interior { HasInterior r }
    ensures value { result ≡ cover_of quarter sweep r }
    ensures holds { HoldsTurned r sweep result }
    ensures by { IsCoverBy sweep result }
    ensures some { IsCover result }
{
    let corners = corners_of(r, quarter);
    Sector {
        near2: squared_distance(corners.nearest),
        far2: squared_distance(corners.farthest),
        lower: corners.least_angle,
        upper: direction_after(sweep, corners.greatest_angle),
    }
}

/// The corners of a piece that bound it, as seen from the origin.
#[derive(Clone, Copy)]
struct Corners {
    least_angle: (i64, i64),
    greatest_angle: (i64, i64),
    nearest: (i64, i64),
    farthest: (i64, i64),
}

fn corners_of(r: Rect, quarter: Quarter) -> Corners
    ensures least_angle { result.least_angle ≡ least_angle quarter r }
    ensures greatest_angle { result.greatest_angle ≡ greatest_angle quarter r }
    ensures nearest { result.nearest ≡ nearest_corner quarter r }
    ensures farthest { result.farthest ≡ farthest_corner quarter r }
{
    let Rect { y0, y1, z0, z1 } = r;
    match quarter {
        Quarter::Q1 => Corners {
            least_angle: (y1, z0),
            greatest_angle: (y0, z1),
            nearest: (y0, z0),
            farthest: (y1, z1),
        },
        Quarter::Q2 => Corners {
            least_angle: (y1, z1),
            greatest_angle: (y0, z0),
            nearest: (y1, z0),
            farthest: (y0, z1),
        },
        Quarter::Q3 => Corners {
            least_angle: (y0, z1),
            greatest_angle: (y1, z0),
            nearest: (y1, z1),
            farthest: (y0, z0),
        },
        Quarter::Q4 => Corners {
            least_angle: (y0, z0),
            greatest_angle: (y1, z1),
            nearest: (y0, z1),
            farthest: (y1, z0),
        },
    }
}

/// The direction of the corner after the whole sweep: turned by 45 degrees and scaled, or turned by 90.
fn direction_after(sweep: Sweep, corner: (i64, i64)) -> (i64, i64)
    requires in_range { IsCornerInRange corner }
    ensures value { result ≡ swept sweep corner }
{
    let (y, z) = corner;
    match sweep {
        Sweep::Eighth => (y - z, y + z),
        Sweep::Fourth => (-z, y),
    }
}

/// In square micrometres, from the origin.
pub fn squared_distance(corner: (i64, i64)) -> i128
    requires in_range { IsCornerInRange corner }
    ensures value { result ≡ norm_of corner }
{
    let (y, z) = corner;
    (y * y + z * z) as i128
}
