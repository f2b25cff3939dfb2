//! Pieces that are halved where their own covers aren't clear.
ghost use Rattle.std.specs.Prelude.{◌≡◌, ◌↔◌, ℕ, IsTrue, ◌≤◌, ◌^◌, unsigned_abs};
ghost use Rattle.sector_geom.specs.Plane.{HasInterior, IsInRange};
ghost use Rattle.sector_geom.specs.Pieces.{LiesIn};
ghost use Rattle.sector_geom.specs.Free.{is_short, is_wide, middle, halves_along_y, halves_along_z, halves_of, IsFree, StaysApart};

use crate::clearance::clear;
use crate::covers::cover;
use crate::sector::Sweep;
use brake_base::{Quarter, Rect};

/// A piece in two, which share the edge along which it is cut.
#[derive(Clone, Copy)]
pub struct Halves {
    pub lower: Rect,
    pub upper: Rect,
}

/// Whether the piece is free of the rectangle, which has an interior: its cover is clear of it, or
/// the covers of its halves are, or of their halves, and so on up to `depth` times. The piece lies in
/// the quarter and has an interior. At most `2^(depth + 1) - 1` covers are tested, the whole piece's
/// first.
pub fn free(r: Rect, quarter: Quarter, sweep: Sweep, o: &Rect, depth: u8) -> bool
    requires in_range { IsInRange r }
    requires in_quarter { LiesIn quarter r }
    requires interior { HasInterior r }
    requires other_in_range { IsInRange o.now }
    requires other_interior { HasInterior o.now }
    requires depth { depth ≤ 12 }
    ensures exact { IsTrue result ↔ IsFree depth quarter sweep r o.now }

    // No point of the piece is inside the rectangle at any turn of the sweep.
    ensures law { IsTrue result → StaysApart sweep r o.now }

    // A greater depth never makes a free piece unfree.
    ensures deeper { IsTrue result → (more : ℕ) → depth ≤ more → IsFree more quarter sweep r o.now }
{
    if clear(&cover(r, quarter, sweep), o) {
        return true;
    }
    if depth == 0 {
        return false;
    }
    match halved(&r) {
        Some(halves) => {
            free(halves.lower, quarter, sweep, o, depth - 1)
                && free(halves.upper, quarter, sweep, o, depth - 1)
        }
        None => false,
    }
}

/// The piece cut in the middle of its longer side, of two equal ones that along y. None where that
/// side is below 2.
fn halved(r: &Rect) -> Option<Halves>
    requires { IsInRange r.now }
    ensures { result ≡ halves_of r.now }
{
    if is_short(r) {
        None
    } else if is_wide(r) {
        Some(halves_along_y(r))
    } else {
        Some(halves_along_z(r))
    }
}

/// Whether its longer side is below 2.
fn is_short(r: &Rect) -> bool
    requires { IsInRange r.now }
    ensures { result ≡ is_short r.now }
{
    (r.y1 - r.y0).max(r.z1 - r.z0) < 2
}

/// Whether its side along y is the longer one, or both are equal.
fn is_wide(r: &Rect) -> bool
    requires { IsInRange r.now }
    ensures { result ≡ is_wide r.now }
{
    r.y1 - r.y0 >= r.z1 - r.z0
}

fn halves_along_y(r: &Rect) -> Halves
    requires { IsInRange r.now }
    ensures { result ≡ halves_along_y r.now }
{
    let at = middle(r.y0, r.y1);
    Halves {
        lower: Rect { y1: at, ..*r },
        upper: Rect { y0: at, ..*r },
    }
}

fn halves_along_z(r: &Rect) -> Halves
    requires { IsInRange r.now }
    ensures { result ≡ halves_along_z r.now }
{
    let at = middle(r.z0, r.z1);
    Halves {
        lower: Rect { z1: at, ..*r },
        upper: Rect { z0: at, ..*r },
    }
}

/// The middle of a range, rounded down.
fn middle(low: i64, high: i64) -> i64
    requires low { unsigned_abs low ≤ 2 ^ 30 }
    requires high { unsigned_abs high ≤ 2 ^ 30 }
    ensures value { result ≡ middle low high }
{
    (low + high).div_euclid(2)
}
