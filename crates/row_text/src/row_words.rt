//! The parts of the lines of rows and notes.
ghost use Rattle.std.specs.Prelude.{◌≡◌, ◌<◌, ◌++◌, OnOk, IfOk};
ghost use Rattle.std.specs.List.{flat_map};
ghost use Rattle.cert_lines.specs.Lines.{spaced, back_word, action_words, line_text, note_line};
ghost use Rattle.stage_lanes.specs.Codes.{IsCoded};
ghost use Rattle.row_text.specs.RowWords.{row_start, key_words};

use crate::short_text::ShortText;
use brake_base::{Action, Back, Mask, Reason};
use brake_text::put_word;
use plan_cert::{put_count, put_reason};
use std::alloc::AllocError;

/// The beginning of the lines of a set's rows.
pub(crate) fn row_start(line: &mut Vec<u8>, mask: Mask) -> Result<ShortText, AllocError>
    ensures { IfOk result (λ text. text ≡ row_start mask.0) }
{
    line.clear();
    put_word(line, b"row")?;
    put_count(line, u64::from(mask.0))?;
    Ok(ShortText::of(line.as_slice()))
}

/// The words of an attitude and a stage.
#[tactic(auto, using(cert_lines::proofs::Texts::pieces))]
pub(crate) fn key_words(
    line: &mut Vec<u8>,
    attitude: u8,
    stage: u8,
) -> Result<ShortText, AllocError>
    requires attitude { attitude < 24 }
    requires stage { stage < 6 }
    ensures { IfOk result (λ text. text ≡ key_words attitude stage) }
{
    line.clear();
    put_count(line, u64::from(attitude))?;
    put_count(line, u64::from(stage))?;
    Ok(ShortText::of(line.as_slice()))
}

/// The side at the back, behind a space.
fn back_word(back: Back) -> &'static [u8]
    ensures { result.now ≡ spaced (back_word back) }
{
    match back {
        Back::Parent => b" P",
        Back::Child => b" C",
    }
}

/// The words of an action.
#[tactic(auto, using(cert_lines::proofs::Texts::pieces))]
fn put_action(out: &mut Vec<u8>, action: Action) -> Result<(), AllocError>
    ensures { OnOk result (out.new.items ≡ out.old.items ++ flat_map spaced (action_words action)) }
{
    put_count(out, u64::from(action.bend))?;
    put_word(out, back_word(action.back))?;
    put_count(out, u64::from(action.stage))
}

/// The line of a note.
#[tactic(auto, using(cert_lines::proofs::Texts::pieces), unfolding(cert_lines::specs::Lines::line_text))]
fn put_note(out: &mut Vec<u8>, action: Action, reason: Reason) -> Result<(), AllocError>
    ensures { OnOk result (out.new.items ≡ out.old.items ++ line_text (note_line action reason)) }
{
    put_word(out, b"x")?;
    put_action(out, action)?;
    put_reason(out, reason)?;
    put_word(out, b"\n")
}

/// The line of a note.
pub(crate) fn note_line(
    line: &mut Vec<u8>,
    action: Action,
    reason: Reason,
) -> Result<ShortText, AllocError>
    requires { IsCoded reason }
    ensures { IfOk result (λ text. text ≡ line_text (note_line action reason)) }
{
    line.clear();
    put_note(line, action, reason)?;
    Ok(ShortText::of(line.as_slice()))
}
