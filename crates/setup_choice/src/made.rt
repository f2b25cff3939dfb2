//! A machine whose stages are made of given pieces.
ghost use Rattle.std.specs.Prelude.{◌≡◌, ◌≤◌, length, map, All};
ghost use Rattle.machine_file.specs.declared.bounds.TheConstants.{MOST_PIECES, MOST_STAGES};
ghost use Rattle.machine_file.specs.Machine.{stage_text_data, IsStageText};
ghost use Rattle.setup_choice.specs.Setups.{stage_want_data, IsStageWant};
ghost use Rattle.setup_choice.specs.Fitting.{made_of, made_of_choice};
ghost use Rattle.setup_choice.specs.Wanted.{wanted_by};

use crate::setups::StageWant;
use arrayvec::ArrayVec;
use machine_file::StageText;
use machine_file::bounds::{GREATEST_PIECE, MOST_PIECES, MOST_STAGES};
use piece_pick::Pieces;

/// The stage of a machine that a wanted stage becomes when it is made of these pieces.
fn made_of(stage: &StageWant, pieces: &[i64]) -> StageText
    requires { length pieces.now ≤ MOST_PIECES }
    ensures { stage_text_data result ≡ made_of (stage_want_data stage.now, pieces.now) }
{
    let mut copy = ArrayVec::new();
    let _ = copy.try_extend_from_slice(pieces);
    StageText {
        punch: stage.punch,
        die: stage.die,
        at: stage.at,
        pieces: copy,
    }
}

/// The wanted stages, each made of the pieces of its place.
pub fn made_of_choice(stages: &[StageWant], choice: &[Pieces]) -> ArrayVec<StageText, MOST_STAGES>
    requires few { length stages.now ≤ MOST_STAGES }
    requires each { length choice.now ≡ length stages.now }
    ensures { map stage_text_data result.items
        ≡ made_of_choice (map stage_want_data stages.now)
        (map (λ pieces. pieces.items) choice.now) }
{
    let mut made = ArrayVec::new();
    for (i, stage) in stages.iter().enumerate() {
        made.push(made_of(stage, choice[i].as_slice()));
    }
    made
}

/// The wanted stage, made of pieces as long as a piece may be, whatever the stock holds.
fn made_of_long_pieces(stage: &StageWant) -> StageText
    requires { IsStageWant (stage_want_data stage.now) }
    ensures wanted { wanted_by (stage_text_data result) ≡ stage_want_data stage.now }
    ensures fit { IsStageText (stage_text_data result) }
{
    if stage.length <= GREATEST_PIECE {
        made_of(stage, &[stage.length])
    } else {
        made_of(stage, &[GREATEST_PIECE, stage.length - GREATEST_PIECE])
    }
}

/// The wanted stages, each made of pieces as long as a piece may be, whatever the stock holds.
pub fn in_long_pieces(stages: &[StageWant]) -> ArrayVec<StageText, MOST_STAGES>
    requires few { length stages.now ≤ MOST_STAGES }
    requires fit { All IsStageWant (map stage_want_data stages.now) }
    ensures wanted { map wanted_by (map stage_text_data result.items)
        ≡ map stage_want_data stages.now }
    ensures fit { All IsStageText (map stage_text_data result.items) }
{
    let mut made = ArrayVec::new();
    for stage in stages {
        made.push(made_of_long_pieces(stage));
    }
    made
}
