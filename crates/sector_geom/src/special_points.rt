//! The points of a rectangle at which its distance from the origin, within a sector's wedge, can be least or greatest.

ghost use Rattle.std.specs.Prelude.{◌≡◌, pos, ◌≤ℤ◌, ◌↔◌, IsTrue, MatchOption, ◌≤◌, ◌^◌, unsigned_abs};
ghost use Rattle.sector_geom.specs.Plane.{cross_of, HasInterior, IsInRange, IsCornerInRange};
ghost use Rattle.sector_geom.specs.Clear.{IsInWedge};
ghost use Rattle.sector_geom.specs.SpecialPoints.{IsBoundMet, IsBoundInRange, IsCrossingInRange, IsRayInRange, IsSectorInRange, PointMeetsBound, PairIsMet, CornersAreMet, LevelFeetAreMet, SideFeetAreMet, FeetAreMet, OriginIsMet, AxisPointsAreMet, PointsAreMet, EdgeIsMet, LinesAreMet, RayIsMet, CrossingsAreMet, AllMeet, MissesLine, IsCrossing, IsBetween};

use crate::covers::squared_distance;
use crate::sector::Sector;
use brake_base::Rect;

/// How far points are to be from the origin, squared.
#[derive(Clone, Copy)]
pub enum Bound {
    AtMost(i128),
    AtLeast(i128),
}

/// Whether each special point of the rectangle meets the bound: its corners in the wedge, where its edges cross the rays,
/// the feet of the perpendiculars from the origin to its edges, and the origin.
pub fn all_meet(s: &Sector, r: &Rect, bound: Bound) -> bool
    requires sector { IsSectorInRange s.now }
    requires rect { IsInRange r.now }
    requires interior { HasInterior r.now }
    requires bound { IsBoundInRange bound }
    ensures exact { IsTrue result ↔ AllMeet s.now.lower s.now.upper r.now bound }
{
    points_meet(s, r, bound) && crossings_meet(s, r, bound)
}

fn points_meet(s: &Sector, r: &Rect, bound: Bound) -> bool
    requires sector { IsSectorInRange s.now }
    requires rect { IsInRange r.now }
    requires bound { IsBoundInRange bound }
    ensures exact { IsTrue result ↔ PointsAreMet s.now r.now bound }
{
    corners_meet(s, r, bound) && axis_points_meet(s, r, bound)
}

fn corners_meet(s: &Sector, r: &Rect, bound: Bound) -> bool
    requires sector { IsSectorInRange s.now }
    requires rect { IsInRange r.now }
    requires bound { IsBoundInRange bound }
    ensures exact { IsTrue result ↔ CornersAreMet s.now r.now bound }
{
    pair_meets(s, (r.y0, r.z0), (r.y0, r.z1), bound)
        && pair_meets(s, (r.y1, r.z0), (r.y1, r.z1), bound)
}

fn axis_points_meet(s: &Sector, r: &Rect, bound: Bound) -> bool
    requires sector { IsSectorInRange s.now }
    requires rect { IsInRange r.now }
    requires bound { IsBoundInRange bound }
    ensures exact { IsTrue result ↔ AxisPointsAreMet s.now r.now bound }
{
    feet_meet(s, r, bound) && origin_meets(s, r, bound)
}

fn feet_meet(s: &Sector, r: &Rect, bound: Bound) -> bool
    requires sector { IsSectorInRange s.now }
    requires rect { IsInRange r.now }
    requires bound { IsBoundInRange bound }
    ensures exact { IsTrue result ↔ FeetAreMet s.now r.now bound }
{
    level_feet_meet(s, r, bound) && side_feet_meet(s, r, bound)
}

/// The feet on the lower and the upper edge.
fn level_feet_meet(s: &Sector, r: &Rect, bound: Bound) -> bool
    requires sector { IsSectorInRange s.now }
    requires rect { IsInRange r.now }
    requires bound { IsBoundInRange bound }
    ensures exact { IsTrue result ↔ LevelFeetAreMet s.now r.now bound }
{
    r.y0 > 0 || (r.y1 < 0 || pair_meets(s, (0, r.z0), (0, r.z1), bound))
}

/// The feet on the two sides.
fn side_feet_meet(s: &Sector, r: &Rect, bound: Bound) -> bool
    requires sector { IsSectorInRange s.now }
    requires rect { IsInRange r.now }
    requires bound { IsBoundInRange bound }
    ensures exact { IsTrue result ↔ SideFeetAreMet s.now r.now bound }
{
    r.z0 > 0 || (r.z1 < 0 || pair_meets(s, (r.y0, 0), (r.y1, 0), bound))
}

fn origin_meets(s: &Sector, r: &Rect, bound: Bound) -> bool
    requires sector { IsSectorInRange s.now }
    requires rect { IsInRange r.now }
    requires bound { IsBoundInRange bound }
    ensures exact { IsTrue result ↔ OriginIsMet s.now r.now bound }
{
    r.y0 > 0 || (r.y1 < 0 || (r.z0 > 0 || (r.z1 < 0 || point_meets(s, (0, 0), bound))))
}

fn pair_meets(s: &Sector, first: (i64, i64), second: (i64, i64), bound: Bound) -> bool
    requires sector { IsSectorInRange s.now }
    requires first { IsCornerInRange first }
    requires second { IsCornerInRange second }
    requires bound { IsBoundInRange bound }
    ensures exact { IsTrue result ↔ PairIsMet s.now bound first second }
{
    point_meets(s, first, bound) && point_meets(s, second, bound)
}

/// Whether the point lies outside the wedge or meets the bound.
fn point_meets(s: &Sector, point: (i64, i64), bound: Bound) -> bool
    requires sector { IsSectorInRange s.now }
    requires point { IsCornerInRange point }
    requires bound { IsBoundInRange bound }
    ensures exact { IsTrue result ↔ PointMeetsBound s.now bound point }
{
    !is_in_wedge(s, point) || distance_meets(point, bound)
}

fn is_in_wedge(s: &Sector, point: (i64, i64)) -> bool
    requires sector { IsSectorInRange s.now }
    requires point { IsCornerInRange point }
    ensures exact { IsTrue result ↔ IsInWedge s.now.lower s.now.upper point }
{
    is_counterclockwise(s.lower, point) && is_clockwise(s.upper, point)
}

/// Whether the point lies counterclockwise of the ray, by at most half a turn, or on its line.
fn is_counterclockwise(ray: (i64, i64), point: (i64, i64)) -> bool
    requires ray { IsRayInRange ray }
    requires point { IsCornerInRange point }
    ensures exact { IsTrue result ↔ pos 0 ≤ℤ cross_of ray point }
{
    ray.0 * point.1 >= ray.1 * point.0
}

/// Whether it lies clockwise of the ray.
fn is_clockwise(ray: (i64, i64), point: (i64, i64)) -> bool
    requires ray { IsRayInRange ray }
    requires point { IsCornerInRange point }
    ensures exact { IsTrue result ↔ cross_of ray point ≤ℤ pos 0 }
{
    ray.0 * point.1 <= ray.1 * point.0
}

fn distance_meets(point: (i64, i64), bound: Bound) -> bool
    requires point { IsCornerInRange point }
    requires bound { IsBoundInRange bound }
    ensures exact { IsTrue result ↔ IsBoundMet bound point (pos 1) }
{
    let distance2 = squared_distance(point);
    match bound {
        Bound::AtMost(n) => distance2 <= n,
        Bound::AtLeast(n) => distance2 >= n,
    }
}

fn crossings_meet(s: &Sector, r: &Rect, bound: Bound) -> bool
    requires sector { IsSectorInRange s.now }
    requires rect { IsInRange r.now }
    requires bound { IsBoundInRange bound }
    ensures exact { IsTrue result ↔ CrossingsAreMet s.now r.now bound }
{
    ray_meets(s.lower, r, bound) && ray_meets(s.upper, r, bound)
}

/// Whether each point in which the ray crosses an edge of the rectangle meets the bound.
fn ray_meets(ray: (i64, i64), r: &Rect, bound: Bound) -> bool
    requires ray { IsRayInRange ray }
    requires rect { IsInRange r.now }
    requires bound { IsBoundInRange bound }
    ensures exact { IsTrue result ↔ RayIsMet ray r.now bound }
{
    let (y, z) = ray;
    let (across, along) = ((r.y0, r.y1), (r.z0, r.z1));
    lines_meet((y, z), across, along, bound) && lines_meet((z, y), along, across, bound)
}

fn lines_meet(ray: (i64, i64), lines: (i64, i64), range: (i64, i64), bound: Bound) -> bool
    requires ray { IsRayInRange ray }
    requires lines { IsCornerInRange lines }
    requires range { IsCornerInRange range }
    requires bound { IsBoundInRange bound }
    ensures exact { IsTrue result ↔ LinesAreMet ray lines range bound }
{
    line_meets(ray, lines.0, range, bound) && line_meets(ray, lines.1, range, bound)
}

/// Whether the point in which the ray crosses the line y = `at`, if its z is in the range, meets the bound.
fn line_meets(ray: (i64, i64), at: i64, range: (i64, i64), bound: Bound) -> bool
    requires ray { IsRayInRange ray }
    requires at { unsigned_abs at ≤ 2 ^ 30 }
    requires range { IsCornerInRange range }
    requires bound { IsBoundInRange bound }
    ensures exact { IsTrue result ↔ EdgeIsMet ray at range bound }
{
    match crossing_at(ray, at) {
        None => true,
        Some(point) => !is_between(range, point) || crossing_distance_meets(point, bound),
    }
}

/// The point (y/d, z/d), with d above 0.
#[derive(Clone, Copy)]
pub struct Crossing {
    pub y: i64,
    pub z: i64,
    pub d: i64,
}

/// Where the ray crosses the line y = `at`, unless it runs along it or away from it.
fn crossing_at(ray: (i64, i64), at: i64) -> Option<Crossing>
    requires ray { IsRayInRange ray }
    requires at { unsigned_abs at ≤ 2 ^ 30 }
    ensures exact { MatchOption result (MissesLine ray at) (IsCrossing ray at) }
{
    if ray.0 > 0 && at >= 0 {
        Some(Crossing {
            y: ray.0 * at,
            z: ray.1 * at,
            d: ray.0,
        })
    } else if ray.0 < 0 && at <= 0 {
        Some(Crossing {
            y: -ray.0 * at,
            z: -ray.1 * at,
            d: -ray.0,
        })
    } else {
        None
    }
}

fn is_between(range: (i64, i64), point: Crossing) -> bool
    requires range { IsCornerInRange range }
    requires point { IsCrossingInRange point }
    ensures exact { IsTrue result ↔ IsBetween range point.z point.d }
{
    range.0 * point.d <= point.z && point.z <= range.1 * point.d
}

fn crossing_distance_meets(point: Crossing, bound: Bound) -> bool
    requires point { IsCrossingInRange point }
    requires bound { IsBoundInRange bound }
    ensures exact { IsTrue result ↔ IsBoundMet bound (point.y, point.z) point.d }
{
    let distance2 = point.y as i128 * point.y as i128 + point.z as i128 * point.z as i128;
    let scale = point.d as i128 * point.d as i128;
    match bound {
        Bound::AtMost(n) => distance2 <= n * scale,
        Bound::AtLeast(n) => distance2 >= n * scale,
    }
}
