//! Rectangles widened for the sweep, and split by the quarters of the plane.

ghost use Rattle.std.specs.Prelude.{◌≡◌, pos, ◌≤◌, ◌^◌, ◌≤ℤ◌, unsigned_abs};
ghost use Rattle.sector_geom.specs.Plane.{Holds, IsInRange};
ghost use Rattle.sector_geom.specs.Pieces.{start_widened_by, end_widened_by, widened_by, with_interior, pieces_of, HoldTogether, HoldsAll};

use brake_base::Rect;

/// The rectangle grown by `by` at both ends of its range of y, but not past y = 0 where it lies on
/// one side of it. A box of the part is widened by the difference of half deduction and thickness.
pub fn widened(r: Rect, by: i64) -> Rect
    requires in_range { IsInRange r }
    requires not_negative { pos 0 ≤ℤ by }
    requires by_in_range { by ≤ℤ pos (2 ^ 30) }
    ensures value { result ≡ widened_by by r }
    ensures holds { HoldsAll result r }
{
    Rect {
        y0: lowered(r.y0, by),
        y1: raised(r.y1, by),
        ..r
    }
}

fn lowered(low: i64, by: i64) -> i64
    requires low { unsigned_abs low ≤ 2 ^ 30 }
    requires not_negative { pos 0 ≤ℤ by }
    requires by_in_range { by ≤ℤ pos (2 ^ 30) }
    ensures value { result ≡ start_widened_by by low }
{
    if low >= 0 {
        (low - by).max(0)
    } else {
        low - by
    }
}

fn raised(high: i64, by: i64) -> i64
    requires high { unsigned_abs high ≤ 2 ^ 30 }
    requires not_negative { pos 0 ≤ℤ by }
    requires by_in_range { by ≤ℤ pos (2 ^ 30) }
    ensures value { result ≡ end_widened_by by high }
{
    if high <= 0 {
        (high + by).min(0)
    } else {
        high + by
    }
}

/// The parts of the rectangle in the quarters Q1 to Q4, each where it has an interior.
pub fn split(r: Rect) -> [Option<Rect>; 4]
    ensures value { result ≡ pieces_of r }
    ensures holds { HoldTogether r result }
{
    let right = r.y0.max(0);
    let left = r.y1.min(0);
    let above = r.z0.max(0);
    let below = r.z1.min(0);
    [
        some_with_interior(Rect {
            y0: right,
            z0: above,
            ..r
        }),
        some_with_interior(Rect {
            y1: left,
            z0: above,
            ..r
        }),
        some_with_interior(Rect {
            y1: left,
            z1: below,
            ..r
        }),
        some_with_interior(Rect {
            y0: right,
            z1: below,
            ..r
        }),
    ]
}

fn some_with_interior(r: Rect) -> Option<Rect>
    ensures value { result ≡ with_interior r }
{
    if r.y0 < r.y1 && r.z0 < r.z1 {
        Some(r)
    } else {
        None
    }
}
