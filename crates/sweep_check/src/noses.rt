//! The first of some pieces that meets the nose of a stage's punch.
ghost use Rattle.std.specs.Prelude.{◌≡◌, ◌↔◌, ◌<◌, ◌≤◌, IsTrue, All, AllPairs, length, map};
ghost use Rattle.std.specs.List.{enumerate_from};
ghost use Rattle.sector_geom.specs.Clear.{IsClearOfNose};
ghost use Rattle.job_setup.specs.Places.{is_overlap};
ghost use Rattle.sweep_check.specs.Hits.{IsNoseMet, IsNose, IsEighth, PieceIsBefore, IsLeastNumber, IsFirstHit, stage_nose};

use crate::hits::Hit;
use crate::pieces::Piece;
use crate::ranges::is_overlap;
use arrayvec::ArrayVec;
use job_setup::Stage;
use sector_geom::clear_nose;

/// The nose of a stage's punch: the stage's number and range along the bed, and the nose's size.
#[derive(Clone, Copy, Default)]
pub struct PunchNose {
    pub stage: u8,
    pub x0: i64,
    pub x1: i64,
    pub size: i64,
}

/// The noses of stages, numbered from 0.
pub(crate) fn noses(stages: &[Stage]) -> ArrayVec<PunchNose, 6>
    requires few { length stages.now ≤ 6 }
    ensures { result.items ≡ map stage_nose (enumerate_from 0 stages.now) }
{
    let mut noses = ArrayVec::new();
    for stage in stages {
        noses.push(nose_of(noses.len() as u8, stage));
    }
    noses
}

/// The nose of a stage's punch.
fn nose_of(number: u8, stage: &Stage) -> PunchNose
    ensures { result ≡ stage_nose (number, stage.now) }
{
    PunchNose {
        stage: number,
        x0: stage.x0,
        x1: stage.x1,
        size: stage.punch.nose,
    }
}

/// The first hit by the piece's box, its quarter and the stage's number.
pub(crate) fn first_nose_hit(pieces: &[Piece], noses: &[PunchNose]) -> Option<Hit>
    requires covered { All IsEighth pieces.now }
    requires noses { All IsNose noses.now }
    requires pieces_ascend { AllPairs PieceIsBefore pieces.now }
    requires noses_ascend { AllPairs (λ a b. a.stage < b.stage) noses.now }
    ensures { IsFirstHit (λ nose. nose.stage) IsNoseMet pieces.now noses.now result }
{
    for piece in pieces {
        if let Some(other) = first_nose_met(piece, noses) {
            return Some(Hit {
                body: piece.body,
                quarter: piece.quarter,
                other,
            });
        }
    }
    None
}

/// The stage of the first nose that the piece meets.
fn first_nose_met(piece: &Piece, noses: &[PunchNose]) -> Option<u8>
    requires covered { IsEighth piece.now }
    requires noses { All IsNose noses.now }
    requires ascend { AllPairs (λ a b. a.stage < b.stage) noses.now }
    ensures { IsLeastNumber (λ nose. nose.stage) (IsNoseMet piece.now) noses.now result }
{
    for nose in noses {
        if is_nose_met(piece, nose) {
            return Some(nose.stage);
        }
    }
    None
}

/// Whether the piece meets the nose while it turns upwards.
pub(crate) fn is_nose_met(piece: &Piece, nose: &PunchNose) -> bool
    requires covered { IsEighth piece.now }
    requires nose { IsNose nose.now }
    ensures { IsTrue result ↔ IsNoseMet piece.now nose.now }
{
    is_along(piece, nose) && !is_clear(piece, nose)
}

/// Whether the piece's range along the bed meets that of the nose's stage.
fn is_along(piece: &Piece, nose: &PunchNose) -> bool
    ensures { result ≡ is_overlap (piece.now.x0, piece.now.x1) (nose.now.x0, nose.now.x1) }
{
    is_overlap((piece.x0, piece.x1), (nose.x0, nose.x1))
}

/// Whether the piece's cover is clear of the nose.
fn is_clear(piece: &Piece, nose: &PunchNose) -> bool
    requires covered { IsEighth piece.now }
    requires nose { IsNose nose.now }
    ensures { IsTrue result ↔ IsClearOfNose piece.now.cover nose.now.size }
{
    clear_nose(&piece.cover, nose.size)
}
