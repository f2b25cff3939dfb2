//! Sectors against rectangles.

ghost use Rattle.std.specs.Prelude.{◌≡◌, ◌⊎◌, pos, neg_ℤ, ◌≤ℤ◌, ◌↔◌, IsTrue, ◌≤◌, ◌^◌, unsigned_abs};
ghost use Rattle.std.specs.Int.{int_max};
ghost use Rattle.sector_geom.specs.Plane.{cross_of, HasInterior, IsInRange};
ghost use Rattle.sector_geom.specs.Covers.{IsCover};
ghost use Rattle.sector_geom.specs.Clear.{EachCorner, AllBeyond, AllWithin, IsClear, IsApart};
ghost use Rattle.sector_geom.specs.SpecialPoints.{IsRayInRange, IsBeside, IsPast, IsNoNearer, IsNoFarther};

use crate::covers::squared_distance;
use crate::sector::Sector;
use crate::special_points::{Bound, all_meet};
use brake_base::Rect;

/// Whether the sector, which came from `cover`, is clear of the rectangle, which has an interior: they share no point that
/// is inside the rectangle. Touching is clear. The cheap tests come first.
pub fn clear(s: &Sector, r: &Rect) -> bool
    requires cover { IsCover s.now }
    requires in_range { IsInRange r.now }
    requires interior { HasInterior r.now }
    ensures exact { IsTrue result ↔ IsClear s.now r.now }
    ensures law { IsTrue result → IsApart s.now r.now }
{
    passes_by(s, r) || special_points_pass(s, r)
}

/// Whether the rectangle lies beyond the outer circle, within the inner one, or beside the wedge.
fn passes_by(s: &Sector, r: &Rect) -> bool
    requires cover { IsCover s.now }
    requires in_range { IsInRange r.now }
    requires interior { HasInterior r.now }
    ensures sound { IsTrue result → IsClear s.now r.now }
    ensures complete { IsBeside s.now r.now → IsTrue result }
{
    is_out_of_reach(s, r) || is_beside(s, r)
}

fn is_out_of_reach(s: &Sector, r: &Rect) -> bool
    requires in_range { IsInRange r.now }
    requires interior { HasInterior r.now }
    ensures sound { IsTrue result → IsPast s.now r.now }
{
    nearest2(r) >= s.far2 || farthest2(r) <= s.near2
}

fn is_beside(s: &Sector, r: &Rect) -> bool
    requires cover { IsCover s.now }
    requires in_range { IsInRange r.now }
    ensures exact { IsTrue result ↔ IsBeside s.now r.now }
{
    is_clockwise_of(s.lower, r) || is_counterclockwise_of(s.upper, r)
}

fn special_points_pass(s: &Sector, r: &Rect) -> bool
    requires cover { IsCover s.now }
    requires in_range { IsInRange r.now }
    requires interior { HasInterior r.now }
    ensures exact { IsTrue result ↔ IsPast s.now r.now }
{
    all_meet(s, r, Bound::AtLeast(s.far2)) || all_meet(s, r, Bound::AtMost(s.near2))
}

/// The squared distance of the rectangle's point nearest the origin.
fn nearest2(r: &Rect) -> i128
    requires in_range { IsInRange r.now }
    requires interior { HasInterior r.now }
    ensures bound { IsNoNearer r.now result }
{
    squared_distance((gap(r.y0, r.y1), gap(r.z0, r.z1)))
}

/// The squared distance of the rectangle's point farthest from the origin.
fn farthest2(r: &Rect) -> i128
    requires in_range { IsInRange r.now }
    ensures bound { IsNoFarther r.now result }
{
    squared_distance((reach(r.y0, r.y1), reach(r.z0, r.z1)))
}

/// How far 0 is from the range.
fn gap(low: i64, high: i64) -> i64
    requires low { unsigned_abs low ≤ 2 ^ 30 }
    requires high { unsigned_abs high ≤ 2 ^ 30 }
    ensures value { result ≡ int_max (int_max low (neg_ℤ high)) (pos 0) }
    ensures in_range { unsigned_abs result ≤ 2 ^ 30 }
{
    low.max(-high).max(0)
}

/// How far the range reaches from 0.
fn reach(low: i64, high: i64) -> i64
    requires low { unsigned_abs low ≤ 2 ^ 30 }
    requires high { unsigned_abs high ≤ 2 ^ 30 }
    ensures value { result ≡ int_max high (neg_ℤ low) }
    ensures in_range { unsigned_abs result ≤ 2 ^ 30 }
{
    high.max(-low)
}

/// Whether each corner of the rectangle lies clockwise of the ray or on its line.
fn is_clockwise_of(ray: (i64, i64), r: &Rect) -> bool
    requires ray { IsRayInRange ray }
    requires rect { IsInRange r.now }
    ensures exact { IsTrue result ↔ EachCorner r.now (λ corner. cross_of ray corner ≤ℤ pos 0) }
{
    let (y, z) = ray;
    (y * r.z0).max(y * r.z1) <= (z * r.y0).min(z * r.y1)
}

/// Whether each corner of the rectangle lies counterclockwise of the ray or on its line.
fn is_counterclockwise_of(ray: (i64, i64), r: &Rect) -> bool
    requires ray { IsRayInRange ray }
    requires rect { IsInRange r.now }
    ensures exact { IsTrue result ↔ EachCorner r.now (λ corner. pos 0 ≤ℤ cross_of ray corner) }
{
    let (y, z) = ray;
    (y * r.z0).min(y * r.z1) >= (z * r.y0).max(z * r.y1)
}
