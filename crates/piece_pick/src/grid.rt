//! Grids on which the lengths of most pieces lie. A want whose length is off a grid needs a piece
//! that is off it.
ghost use Rattle.std.specs.Prelude.{◌≡◌, ◌<◌, ◌≤◌, count_by, length, IsFalse};
ghost use Rattle.piece_pick.specs.Grid.{is_off, is_beside, is_off_beside, HasFewOff};

use crate::want::Want;

/// The grids that are tried, in micrometres.
const GRIDS: [u64; 4] = [10_000, 20_000, 50_000, 100_000];

/// Whether the length is no multiple of the grid's.
fn is_off(length: &i64, grid: u64) -> bool
    requires { 0 < grid }
    ensures { result ≡ is_off grid length.now }
{
    length.unsigned_abs() % grid != 0
}

/// How many of the pieces are off the grid.
fn pieces_off(pieces: &[i64], grid: u64) -> usize
    requires { 0 < grid }
    ensures { result ≡ count_by (is_off grid) pieces.now }
{
    pieces.iter().filter(|piece| is_off(piece, grid)).count()
}

/// Whether another want has the want's tools, and its length is off the grid.
fn is_off_beside(want: &Want, other: &Want, grid: u64) -> bool
    requires { 0 < grid }
    ensures { result ≡ is_off_beside grid want.now other.now }
{
    other.punch == want.punch && other.die == want.die && is_off(&other.length, grid)
}

/// How many of the wants have a want's tools and a length off the grid.
fn wants_off(wants: &[Want], want: &Want, grid: u64) -> usize
    requires { 0 < grid }
    ensures { result ≡ count_by (is_off_beside grid want.now) wants.now }
{
    wants
        .iter()
        .filter(|other| is_off_beside(want, other, grid))
        .count()
}

/// Whether on each grid as many pieces of the supply are off it as wants of the want's tools.
pub fn has_pieces_off(wants: &[Want], want: &Want, supply: &[i64]) -> bool
    ensures { IsFalse result → HasFewOff wants.now want.now supply.now }
{
    for grid in &GRIDS {
        if pieces_off(supply, *grid) < wants_off(wants, want, *grid) {
            return false;
        }
    }
    true
}
