//! Two rows of one key with one worth, and the notes of both.
ghost use Rattle.std.specs.Prelude.{◌≡◌, ◌++◌, ◌<◌, ◌≤◌, ℕ, All, IfOk, IfSome, List, None, OnOk, Some, drop, slice_index_or};
ghost use Rattle.brake_base.specs.declared.stroke.Action.{Action};
ghost use Rattle.brake_base.specs.declared.stroke.Key.{Key};
ghost use Rattle.brake_base.specs.declared.reason.Reason.{Reason};
ghost use Rattle.brake_base.specs.Actions.{number_of_action};
ghost use Rattle.job_setup.specs.Setup.{JobData};
ghost use Rattle.cert_words.specs.LineWords.{word_length};
ghost use Rattle.cert_words.specs.PlanWords.{note_in};
ghost use Rattle.plan_lines.specs.declared.note.Note.{Note};
ghost use Rattle.cert_merge.specs.Entries.{Settled, united};
ghost use Rattle.cert_merge.specs.RowTexts.{said_text};
ghost use Rattle.cert_merge.specs.UnitedRows.{AreNotesOf, AreOfOneRow, AreReasonsOf};

use crate::merged::united;
use crate::row_reasons::{put_reasons, reasons_in};
use crate::row_texts::RowText;
use brake_base::{Reason, action_number};
use cert_words::{note, split_word};
use plan_cert::{Note, put_rows, whole_line};
use std::alloc::{AllocError, Global};

/// The note of its line, as one of the first row, in a job of so many bends and stages. None where the
/// line is that of no note.
fn note_of(line: &[u8], bends: u8, stages: u8) -> Option<Note>
    requires bends { bends ≤ 12 }
    requires stages { stages ≤ 6 }
    ensures read { (action : Action) (reason : Reason)
        → note_in bends stages (drop (word_length line.now) line.now) ≡ Some (action, reason)
        → result ≡ Some (record {
          row = 0;
          action = number_of_action stages action;
          reason = reason;
        }) }
    ensures few { IfSome result (λ note. note.action < 144) }
{
    let (_, words) = split_word(line);
    let (action, reason) = note(words, bends, stages)?;
    Some(Note {
        row: 0,
        action: action_number(action, stages),
        reason,
    })
}

/// Appends the notes of their lines.
fn push_notes(notes: &mut Vec<Note>, text: &[u8], bends: u8, stages: u8) -> Result<(), AllocError>
    requires bends { bends ≤ 12 }
    requires stages { stages ≤ 6 }
    requires few { All (λ note. note.action < 144) notes.old.items }
    ensures few { OnOk result (All (λ note. note.action < 144) notes.new.items) }
    ensures notes { OnOk result ((job : JobData) (own : List Note)
        → AreNotesOf job bends stages own text.now
        → notes.new.items ≡ notes.old.items ++ own) }
{
    let mut rest = text;
    while let Some((line, behind)) = whole_line(rest) {
        if let Some(note) = note_of(line, bends, stages) {
            notes.push(note)?;
        }
        rest = behind;
    }
    Ok(())
}

/// The reasons of the notes of their lines, by the numbers of their actions.
fn reasons_of(
    alloc: Global,
    text: &[u8],
    bends: u8,
    stages: u8,
) -> Result<[Option<Reason>; 144], AllocError>
    requires bends { bends ≤ 12 }
    requires stages { stages ≤ 6 }
    ensures { IfOk result (AreReasonsOf bends stages text.now) }
{
    let mut notes = Vec::new(alloc);
    push_notes(&mut notes, text, bends, stages)?;
    Ok(reasons_in(notes.as_slice()))
}

/// Appends the row with the notes of both, of two reasons against one action the first.
pub(crate) fn put_united(
    alloc: Global,
    out: &mut Vec<u8>,
    first: &RowText,
    second: &RowText,
    bends: u8,
    stages: u8,
) -> Result<(), AllocError>
    requires bends { bends ≤ 12 }
    requires stages { stages ≤ 6 }
    requires rows { (job : JobData) × (x : Key × Settled) × (y : Key × Settled)
        × AreOfOneRow job bends stages x y first.now second.now }
    ensures { OnOk result ((job : JobData) (x y : Key × Settled)
        → AreOfOneRow job bends stages x y first.now second.now
        → out.new.items ≡ out.old.items ++ said_text stages (x.0, united x.1 y.1)) }
{
    let own = reasons_of(alloc, first.notes, bends, stages)?;
    let other = reasons_of(alloc, second.notes, bends, stages)?;
    let reasons = united(&own, &other);
    let mut notes = Vec::new(alloc);
    put_reasons(&mut notes, 0, &reasons)?;
    put_rows(out, stages, &[first.head], notes.as_slice())
}
