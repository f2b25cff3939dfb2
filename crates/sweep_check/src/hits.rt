//! The first of some pieces that meets one of some obstacles.
ghost use Rattle.std.specs.Prelude.{◌≡◌, ◌↔◌, ◌<◌, ◌&&◌, IsTrue, All, AllPairs};
ghost use Rattle.sweep_check.specs.Hits.{is_sunk_group, IsPieceNear, IsPieceFree, IsPieceMet, IsSolidObstacle, IsCovered, PieceIsBefore, IsLeastNumber, IsFirstHit};

use crate::pieces::{Piece, seen_from};
use crate::ranges::is_overlap;
use brake_base::Quarter;
use job_setup::{Group, Obstacle};
use sector_geom::{clear, free};

/// What meets what: the piece of a box in a quarter, and the other one's number.
#[derive(Clone, Copy)]
pub struct Hit {
    pub body: u8,
    pub quarter: Quarter,
    pub other: u8,
}

/// The first hit by the piece's box, its quarter and the obstacle's number.
pub(crate) fn first_hit(pieces: &[Piece], obstacles: &[Obstacle]) -> Option<Hit>
    requires covered { All IsCovered pieces.now }
    requires solid { All IsSolidObstacle obstacles.now }
    requires pieces_ascend { AllPairs PieceIsBefore pieces.now }
    requires obstacles_ascend { AllPairs (λ a b. a.index < b.index) obstacles.now }
    ensures { IsFirstHit (λ obstacle. obstacle.index) IsPieceMet pieces.now obstacles.now result }
{
    for piece in pieces {
        if let Some(other) = first_met(piece, obstacles) {
            return Some(Hit {
                body: piece.body,
                quarter: piece.quarter,
                other,
            });
        }
    }
    None
}

/// The number of the first obstacle that the piece meets.
fn first_met(piece: &Piece, obstacles: &[Obstacle]) -> Option<u8>
    requires covered { IsCovered piece.now }
    requires solid { All IsSolidObstacle obstacles.now }
    requires ascend { AllPairs (λ a b. a.index < b.index) obstacles.now }
    ensures { IsLeastNumber (λ obstacle. obstacle.index) (IsPieceMet piece.now) obstacles.now result }
{
    for obstacle in obstacles {
        if is_met(piece, obstacle) {
            return Some(obstacle.index);
        }
    }
    None
}

/// Whether the piece meets the obstacle while it turns upwards. The cheap tests come first.
pub(crate) fn is_met(piece: &Piece, obstacle: &Obstacle) -> bool
    requires covered { IsCovered piece.now }
    requires solid { IsSolidObstacle obstacle.now }
    ensures { IsTrue result ↔ IsPieceMet piece.now obstacle.now }
{
    is_near(piece, obstacle) && !is_free(piece, obstacle)
}

/// Whether the piece's range along the bed meets the obstacle's, and the obstacle isn't a sunk one
/// that the piece can't meet.
fn is_near(piece: &Piece, obstacle: &Obstacle) -> bool
    ensures { IsTrue result ↔ IsPieceNear piece.now obstacle.now }
{
    is_overlap((piece.x0, piece.x1), (obstacle.x0, obstacle.x1)) && !is_untested(piece, obstacle)
}

/// Whether the obstacle is sunk, and the piece lies so high that it can't meet it.
fn is_untested(piece: &Piece, obstacle: &Obstacle) -> bool
    ensures { result ≡ (is_sunk_group obstacle.now.group && piece.now.is_high) }
{
    is_sunk(obstacle.group) && piece.is_high
}

/// Whether the obstacle is a sunk one.
fn is_sunk(group: Group) -> bool
    ensures { result ≡ is_sunk_group group }
{
    match group {
        Group::Upper => false,
        Group::Lower { sunk } => sunk,
    }
}

/// Whether the piece is free of the obstacle, which is seen as the piece's half is. The cover of the
/// whole piece is kept and comes first; the piece is only halved where that isn't clear.
fn is_free(piece: &Piece, obstacle: &Obstacle) -> bool
    requires covered { IsCovered piece.now }
    requires solid { IsSolidObstacle obstacle.now }
    ensures { IsTrue result ↔ IsPieceFree piece.now obstacle.now }
{
    let other = seen_from(piece.half, &obstacle.rect);
    if clear(&piece.cover, &other) {
        return true;
    }
    if piece.depth == 0 {
        return false;
    }
    free(piece.rect, piece.quarter, piece.sweep, &other, piece.depth)
}
