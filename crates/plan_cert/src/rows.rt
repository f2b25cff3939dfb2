//! The lines of the rows of a certificate, and of their notes.
ghost use Rattle.std.specs.Prelude.{◌≡◌, ◌++◌, ◌∷◌, [], ◌<◌, ◌≤◌, ◌*◌, ◌^◌, ◌==◌, take, drop, All, AllPairs, OnOk};
ghost use Rattle.std.specs.List.{flat_map, prefix_len};
ghost use Rattle.cert_lines.specs.Lines.{back_word, half_word, worth_word, spaced, action_words, meeting_words, argument_words, reason_words, action_at, line_text, lines_text, row_line, note_line};
ghost use Rattle.cert_lines.specs.Lines.{IsWorth};
ghost use Rattle.plan_cert.specs.WellFormed.{NoteIsBefore};
ghost use Rattle.plan_cert.specs.CertText.{line_of_note, rows_lines};

use brake_base::{Action, Back, Half, Quarter, Reason, Worth, action_of};
use brake_text::put_word;
use cert_lines::{RowHead, put_count, put_spaced};
use plan_lines::Note;
use std::alloc::AllocError;

/// A cost, or that there is no way on.
pub fn put_worth(out: &mut Vec<u8>, worth: Worth) -> Result<(), AllocError>
    requires { IsWorth worth }
    ensures { OnOk result (out.new.items ≡ out.old.items ++ spaced (worth_word worth)) }
{
    match worth {
        Worth::Cost(cost) => put_count(out, cost),
        Worth::Blocked => put_spaced(out, b"none"),
    }
}

/// The word for the side at the back, behind a space.
fn put_back(out: &mut Vec<u8>, back: Back) -> Result<(), AllocError>
    ensures { OnOk result (out.new.items ≡ out.old.items ++ spaced (back_word back)) }
{
    match back {
        Back::Parent => put_word(out, b" P"),
        Back::Child => put_word(out, b" C"),
    }
}

/// The word for a half.
fn half_word(half: Half) -> &'static [u8]
    ensures { result.now ≡ half_word half }
{
    match half {
        Half::Back => b"B",
        Half::Front => b"F",
    }
}

/// The words of an action.
#[tactic(auto, using(cert_lines::proofs::Texts::pieces))]
pub(crate) fn put_action(out: &mut Vec<u8>, action: &Action) -> Result<(), AllocError>
    ensures { OnOk result (out.new.items
        ≡ out.old.items ++ flat_map spaced (action_words action.now)) }
{
    put_count(out, u64::from(action.bend))?;
    put_back(out, action.back)?;
    put_count(out, u64::from(action.stage))
}

/// A box of the part in a quarter, and what it meets there.
#[tactic(auto, using(cert_lines::proofs::Texts::pieces))]
fn put_meeting(out: &mut Vec<u8>, body: u8, quarter: Quarter, other: u8) -> Result<(), AllocError>
    ensures { OnOk result (out.new.items
        ≡ out.old.items ++ flat_map spaced (meeting_words body quarter other)) }
{
    put_count(out, u64::from(body))?;
    put_count(out, u64::from(quarter.number()))?;
    put_count(out, u64::from(other))
}

/// What a reason names.
#[tactic(auto, using(cert_lines::proofs::Texts::pieces))]
fn put_arguments(out: &mut Vec<u8>, reason: Reason) -> Result<(), AllocError>
    ensures { OnOk result (out.new.items
        ≡ out.old.items ++ flat_map spaced (argument_words reason)) }
{
    match reason {
        Reason::Cover => Ok(()),
        Reason::Rest(half) => put_spaced(out, half_word(half)),
        Reason::Frame(body) => put_count(out, u64::from(body)),
        Reason::Upper(body, quarter, index) => put_meeting(out, body, quarter, index),
        Reason::Nose(body, quarter, stage) => put_meeting(out, body, quarter, stage),
        Reason::Lower(body, quarter, index) => put_meeting(out, body, quarter, index),
        Reason::SelfHit(body, quarter, other) => put_meeting(out, body, quarter, other),
        Reason::NoGauge => Ok(()),
        Reason::Load => Ok(()),
    }
}

/// The words of a reason.
#[tactic(auto, using(cert_lines::proofs::Texts::pieces))]
pub fn put_reason(out: &mut Vec<u8>, reason: Reason) -> Result<(), AllocError>
    ensures { OnOk result (out.new.items ≡ out.old.items ++ flat_map spaced (reason_words reason)) }
{
    put_count(out, u64::from(reason.kind()))?;
    put_arguments(out, reason)
}

/// The action of a number.
#[tactic(auto, using(plan_lines::proofs::Actions::action_is))]
fn action_at(stages: u8, number: u8) -> Action
    requires number { number < 24 * stages }
    requires stages { stages ≤ 6 }
    ensures { result ≡ action_at stages number }
{
    action_of(number, stages)
}

/// The line of a note.
#[tactic(auto, using(cert_lines::proofs::Texts::pieces), unfolding(cert_lines::specs::Lines::line_text))]
fn put_note(out: &mut Vec<u8>, stages: u8, note: &Note) -> Result<(), AllocError>
    requires action { note.now.action < 24 * stages }
    requires stages { stages ≤ 6 }
    ensures { OnOk result (out.new.items
        ≡ out.old.items ++ line_text (line_of_note stages note.now)) }
{
    let action = action_at(stages, note.action);
    put_word(out, b"x")?;
    put_action(out, &action)?;
    put_reason(out, note.reason)?;
    put_word(out, b"\n")
}

/// A line for each note.
fn put_notes(out: &mut Vec<u8>, stages: u8, notes: &[Note]) -> Result<(), AllocError>
    requires actions { All (λ note. note.action < 24 * stages) notes.now }
    requires stages { stages ≤ 6 }
    ensures { OnOk result (out.new.items
        ≡ out.old.items ++ flat_map (λ note. line_text (line_of_note stages note)) notes.now) }
{
    for note in notes {
        put_note(out, stages, note)?;
    }
    Ok(())
}

/// The line of a row.
#[tactic(auto, using(cert_lines::proofs::Texts::pieces), unfolding(cert_lines::specs::Lines::line_text))]
fn put_row(out: &mut Vec<u8>, row: &RowHead) -> Result<(), AllocError>
    requires { IsWorth row.now.worth }
    ensures { OnOk result (out.new.items ≡ out.old.items ++ line_text (row_line row.now)) }
{
    put_word(out, b"row")?;
    put_count(out, u64::from(row.key.mask.0))?;
    put_count(out, u64::from(row.key.attitude.number()))?;
    put_count(out, u64::from(row.key.stage))?;
    put_worth(out, row.worth)?;
    put_word(out, b"\n")
}

/// The notes from the front on that are of the row, and the notes behind them.
fn split_notes(notes: &[Note], row: usize) -> (&[Note], &[Note])
    ensures front { result.0.now ≡ take (prefix_len (λ note. note.row == row) notes.now) notes.now }
    ensures rest { result.1.now ≡ drop (prefix_len (λ note. note.row == row) notes.now) notes.now }
{
    notes.split_at(front_count(notes, row))
}

/// How many notes from the front on are of the row.
fn front_count(notes: &[Note], row: usize) -> usize
    ensures { result ≡ prefix_len (λ note. note.row == row) notes.now }
{
    notes
        .iter()
        .take_while(|note| note.row as usize == row)
        .count()
}

/// The rows in order, each with its notes.
pub fn put_rows(
    out: &mut Vec<u8>,
    stages: u8,
    rows: &[RowHead],
    notes: &[Note],
) -> Result<(), AllocError>
    requires stages { stages ≤ 6 }
    requires worths { All (λ row. IsWorth row.worth) rows.now }
    requires actions { All (λ note. note.action < 24 * stages) notes.now }
    requires order { AllPairs NoteIsBefore notes.now }
    ensures { OnOk result (out.new.items
        ≡ out.old.items ++ lines_text (rows_lines stages rows.now notes.now)) }
{
    let mut rest = notes;
    for (i, row) in rows.iter().enumerate() {
        let (own, later) = split_notes(rest, i);
        put_row(out, row)?;
        put_notes(out, stages, own)?;
        rest = later;
    }
    Ok(())
}
