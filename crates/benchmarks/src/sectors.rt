//! How long it takes to test a swept piece against an obstacle.
ghost use Rattle.std.specs.Prelude.{◌≡◌, ◌≤◌, ◌^◌, pos, ◌≤ℤ◌, ◌<ℤ◌, unsigned_abs, All};
ghost use Rattle.sector_geom.specs.Covers.{IsCover};
ghost use Rattle.sector_geom.specs.Plane.{IsInRange, HasInterior};

use crate::timing::nanoseconds;
use brake_base::{Quarter, Rect};
use sector_geom::{Sector, Sweep, clear, cover};
use std::time::Instant;

/// How often all pieces are tested against all obstacles.
const ROUNDS: u32 = 5_000;

/// The pieces by the obstacles.
const PAIRS: u32 = 132;

/// Times the test of 12 swept pieces against 11 obstacles, whose widths differ from round to round.
pub fn time_sectors(rt: &HostRuntime) -> anyhow::Result<()> {
    let pieces = pieces();
    let start = Instant::now(rt)?;
    let clear = rounds(&pieces);
    let tested = Instant::now(rt)?;
    let time = nanoseconds(start, tested, ROUNDS * PAIRS);
    eprintln!(rt; "swept pieces: clear {time} ns a pair ({clear} clear)")?;
    Ok(())
}

/// How many pairs are clear of each other, over all rounds.
fn rounds(pieces: &[Sector]) -> u64
    requires { All IsCover pieces.now }
{
    let mut count = 0u64;
    for round in 0..ROUNDS {
        let obstacles = obstacles(i64::from(round % 100));
        count = count.wrapping_add(clear_pairs(pieces, &obstacles));
    }
    count
}

/// How many pairs are clear of each other.
fn clear_pairs(pieces: &[Sector], obstacles: &[Rect]) -> u64
    requires pieces { All IsCover pieces.now }
    requires in_range { All IsInRange obstacles.now }
    requires interior { All HasInterior obstacles.now }
{
    let mut count = 0u64;
    for piece in pieces {
        count = count.wrapping_add(clear_obstacles(piece, obstacles));
    }
    count
}

/// How many obstacles a piece clears.
fn clear_obstacles(piece: &Sector, obstacles: &[Rect]) -> u64
    requires piece { IsCover piece.now }
    requires in_range { All IsInRange obstacles.now }
    requires interior { All HasInterior obstacles.now }
{
    let mut count = 0u64;
    for obstacle in obstacles {
        count = count.wrapping_add(u64::from(clear(piece, obstacle)));
    }
    count
}

/// Flanges, rims and corners of bent sheets, as they are swept by a stroke.
fn pieces() -> [Sector; 12]
    ensures { All IsCover result }
{
    [
        cover(rect(0, 28000, -2000, 0), Quarter::Q4, Sweep::Eighth),
        cover(rect(0, 98000, -2000, 0), Quarter::Q4, Sweep::Eighth),
        cover(rect(56000, 58162, 0, 28000), Quarter::Q1, Sweep::Eighth),
        cover(rect(56000, 58162, 0, 78000), Quarter::Q1, Sweep::Eighth),
        cover(rect(20000, 22162, 0, 15000), Quarter::Q1, Sweep::Eighth),
        cover(rect(40000, 42000, -30000, 0), Quarter::Q4, Sweep::Eighth),
        cover(rect(30000, 56000, 26000, 28000), Quarter::Q1, Sweep::Eighth),
        cover(rect(-10000, 0, 28000, 30000), Quarter::Q2, Sweep::Eighth),
        cover(rect(0, 46000, 28000, 30000), Quarter::Q1, Sweep::Eighth),
        cover(rect(-162, 0, -2000, 0), Quarter::Q3, Sweep::Eighth),
        cover(rect(0, 28000, -2000, 0), Quarter::Q4, Sweep::Fourth),
        cover(rect(28000, 30000, 0, 30000), Quarter::Q1, Sweep::Fourth),
    ]
}

/// Punch, die and table, so much wider to the back.
fn obstacles(wider: i64) -> [Rect; 11]
    requires low { pos 0 ≤ℤ wider }
    requires high { wider ≤ℤ pos 100 }
    ensures in_range { All IsInRange result }
    ensures interior { All HasInterior result }
{
    [
        rect(-6000, 6000 + wider, 6000, 100000),
        rect(-60000, 60000 + wider, 100000, 400000),
        rect(-6000, 6000 + wider, 6000, 30000),
        rect(-20000, 6000 + wider, 30000, 60000),
        rect(-10000, 14000 + wider, 60000, 100000),
        rect(8000, 20000 + wider, -62000, 6000),
        rect(-8000, 8000 + wider, -62000, -2000),
        rect(-20000, -8000 + wider, -62000, 6000),
        rect(-30000, 30000 + wider, -362000, -54000),
        rect(-60000, -200 + wider, -2000, 0),
        rect(-62000, -60000 + wider, 0, 30000),
    ]
}

/// The rectangle between these ends.
fn rect(y0: i64, y1: i64, z0: i64, z1: i64) -> Rect
    requires left { unsigned_abs y0 ≤ 2 ^ 30 }
    requires right { unsigned_abs y1 ≤ 2 ^ 30 }
    requires low { unsigned_abs z0 ≤ 2 ^ 30 }
    requires top { unsigned_abs z1 ≤ 2 ^ 30 }
    requires wide { y0 <ℤ y1 }
    requires high { z0 <ℤ z1 }
    ensures value { result ≡ record { y0 = y0; y1 = y1; z0 = z0; z1 = z1 } }
    ensures in_range { IsInRange result }
    ensures interior { HasInterior result }
{
    Rect { y0, y1, z0, z1 }
}
