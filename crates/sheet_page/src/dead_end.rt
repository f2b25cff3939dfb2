//! A state of the part at which every stroke is refused.
ghost use Rattle.std.specs.Prelude.{◌≡◌, ◌^◌, ◌<◌, ◌≤◌, [], ◌++◌, pos, ◌+ℤ◌, ◌≤ℤ◌, int_lt, unsigned_abs, ◌&&◌, IsTrue, length, take, drop, slice_index_or, IfOk, OnOk};
ghost use Rattle.plan_lines.specs.declared.note.Note.{Note};
ghost use Rattle.sheet_page.specs.Kept.{AreNotesAt};
ghost use Rattle.sheet_page.specs.NoPlan.{folded_words, dead_end_text, IsDeadEnd, IsPictureCount};
ghost use Rattle.sheet_page.specs.Pictured.{hitting_box, is_one_box, is_one_hit, is_pictured, AreOfNote, GoesOn, AreLast};
ghost use Rattle.sheet_page.specs.Refused.{is_one_row, is_first, row_firsts, AreRefusals};

use crate::forms::{DIV_END, FLOW, H3, REFUSAL_HEAD, ROW, SECTION, SECTION_END, TABLE, TABLE_END};
use crate::lists::put_labels;
use crate::refusal_table::{Refusals, key_of};
use brake_base::{Mask, Reason};
use brake_text::put_word;
use job_setup::Job;
use plan_cert::Note;
use sheet_figures::put_refusal;
use sheet_views::drawing_of;
use std::alloc::AllocError;
use svg_text::{Hole, put_line};

const NOTHING_FOLDED: &[u8] = b"Nothing folded";

/// The bends that are folded at a state.
#[tactic(auto, using(sheet_paper::proofs::Texts::pieces), unfolding(crate::specs::NoPlan::folded_words))]
fn put_folded(out: &mut Vec<u8>, job: &Job, mask: Mask) -> Result<(), AllocError>
    ensures { OnOk result (out.new.items ≡ out.old.items ++ folded_words job.now mask) }
{
    if mask.is_empty() {
        return put_word(out, NOTHING_FOLDED);
    }
    put_word(out, b"Folded: ")?;
    put_labels(out, job, mask.bends().as_slice())
}

/// What a state says: its folded bends, and the table of its refusals.
#[tactic(auto, using(sheet_paper::proofs::Texts::pieces), unfolding(crate::specs::NoPlan::dead_end_text))]
fn put_words(out: &mut Vec<u8>, refusals: &Refusals) -> Result<(), AllocError>
    requires { AreRefusals refusals.now }
    ensures { OnOk result (out.new.items ≡ out.old.items
        ++ dead_end_text refusals.now.job.now refusals.now.mask refusals.now.notes.now) }
{
    let mut folded = Vec::new(*out.allocator());
    put_folded(&mut folded, refusals.job, refusals.mask)?;
    put_line(out, SECTION, &[Hole::Word(FLOW)])?;
    put_line(out, H3, &[Hole::Text(folded.as_slice())])?;
    put_line(out, TABLE, &[])?;
    put_line(out, REFUSAL_HEAD, &[])?;
    refusals.put_rows(out)?;
    put_line(out, TABLE_END, &[])
}

/// The box that a reason names as hitting something.
fn hitting_box(reason: Reason) -> Option<u8>
    ensures { result ≡ hitting_box reason }
{
    match reason {
        Reason::Upper(id, _, _)
        | Reason::Nose(id, _, _)
        | Reason::Lower(id, _, _)
        | Reason::SelfHit(id, _, _) => Some(id),
        _ => None,
    }
}

/// Whether two boxes are there and are one.
fn is_one_box(a: Option<u8>, b: Option<u8>) -> bool
    ensures { result ≡ is_one_box a b }
{
    match (a, b) {
        (Some(a), Some(b)) => a == b,
        _ => false,
    }
}

/// Whether two notes are of one bend and of one box that hits something.
fn is_one_hit(refusals: &Refusals, a: usize, b: usize) -> bool
    requires refusals { AreRefusals refusals.now }
    requires a { a < length refusals.now.notes.now }
    requires b { b < length refusals.now.notes.now }
    ensures { (d : Note) → result ≡ is_one_hit refusals.now.job.now
        (slice_index_or refusals.now.notes.now a d) (slice_index_or refusals.now.notes.now b d) }
{
    let (first, second) = (refusals.notes[a].reason, refusals.notes[b].reason);
    is_one_box(hitting_box(first), hitting_box(second))
        && refusals.action(a).bend == refusals.action(b).bend
}

/// Whether a note is the first of its row, and of the same bend and box as another.
fn is_first_with_hit(refusals: &Refusals, first: usize, at: usize) -> bool
    requires refusals { AreRefusals refusals.now }
    requires first { first < length refusals.now.notes.now }
    requires at { at < length refusals.now.notes.now }
    ensures { (d : Note) → result ≡ (is_one_hit refusals.now.job.now
        (slice_index_or refusals.now.notes.now first d) (slice_index_or refusals.now.notes.now at d)
        && is_first (is_one_row refusals.now.job.now refusals.now.mask)
        (take first refusals.now.notes.now) (slice_index_or refusals.now.notes.now first d)) }
{
    is_one_hit(refusals, first, at) && refusals.is_first_of_row(first)
}

/// Whether no earlier note that is the first of its row is of the same bend and box.
fn is_first_hit(refusals: &Refusals, at: usize) -> bool
    requires refusals { AreRefusals refusals.now }
    requires at { at < length refusals.now.notes.now }
    ensures { (d : Note) → result ≡ is_first (is_one_hit refusals.now.job.now)
        (row_firsts refusals.now.job.now refusals.now.mask (take at refusals.now.notes.now))
        (slice_index_or refusals.now.notes.now at d) }
{
    for before in 0..at {
        if is_first_with_hit(refusals, before, at) {
            return false;
        }
    }
    true
}

/// Whether a note has a picture: a box hits something, the note is the first of its row, and no
/// earlier one that is the first of its row is of the same bend and box.
fn is_pictured(refusals: &Refusals, at: usize) -> bool
    requires refusals { AreRefusals refusals.now }
    requires at { at < length refusals.now.notes.now }
    ensures { (d : Note) → result ≡ is_pictured refusals.now.job.now refusals.now.mask
        (take at refusals.now.notes.now) (slice_index_or refusals.now.notes.now at d) }
{
    hitting_box(refusals.notes[at].reason).is_some()
        && refusals.is_first_of_row(at)
        && is_first_hit(refusals, at)
}

/// The pictures of a note, numbered from `figure`, and how many.
fn put_picture(
    out: &mut Vec<u8>,
    refusals: &Refusals,
    at: usize,
    figure: i64,
) -> Result<i64, AllocError>
    requires refusals { AreRefusals refusals.now }
    requires at { at < length refusals.now.notes.now }
    requires figure { unsigned_abs figure ≤ 2 ^ 10 }
    ensures value { IfOk result (λ count. (d : Note) → AreOfNote refusals.now.job.now
        refusals.now.mask (slice_index_or refusals.now.notes.now at d) figure count
        out.old.items out.new.items) }
    ensures count { IfOk result (λ count. (pos 0 ≤ℤ count) × (count ≤ℤ pos 2)) }
{
    refusals.job.recall_valid();
    let action = refusals.action(at);
    let drawing = drawing_of(refusals.job, &key_of(refusals.mask), action);
    let reason = refusals.note(at).reason;
    put_refusal(out, refusals.job, action, &drawing, reason, figure)
}

/// Whether the pictures of a note are put, where `put` of earlier notes are put.
fn is_shown(refusals: &Refusals, at: usize, put: i64) -> bool
    requires refusals { AreRefusals refusals.now }
    requires at { at < length refusals.now.notes.now }
    ensures value { (d : Note) → result ≡ (int_lt put (pos 2)
        && is_pictured refusals.now.job.now refusals.now.mask (take at refusals.now.notes.now)
        (slice_index_or refusals.now.notes.now at d)) }
    ensures few { IsTrue result → put ≤ℤ pos 1 }
{
    put < 2 && is_pictured(refusals, at)
}

/// The pictures of a note where `put` of earlier notes are put, numbered behind them from `figure`,
/// and how many there are then: none behind the second picture, and none where the note has none.
fn put_picture_at(
    out: &mut Vec<u8>,
    refusals: &Refusals,
    at: usize,
    put: i64,
    figure: i64,
) -> Result<i64, AllocError>
    requires refusals { AreRefusals refusals.now }
    requires at { at < length refusals.now.notes.now }
    requires put { IsPictureCount put }
    requires figure { unsigned_abs figure ≤ 2 ^ 9 }
    ensures value { IfOk result (λ count. (d : Note) → GoesOn
        (int_lt put (pos 2) && is_pictured refusals.now.job.now refusals.now.mask
        (take at refusals.now.notes.now) (slice_index_or refusals.now.notes.now at d))
        refusals.now.job.now refusals.now.mask (slice_index_or refusals.now.notes.now at d)
        figure put count out.old.items out.new.items) }
    ensures count { IfOk result IsPictureCount }
{
    if !is_shown(refusals, at, put) {
        return Ok(put);
    }
    let more = put_picture(out, refusals, at, figure + put)?;
    Ok(put + more)
}

/// The pictures of the notes from a place on, where `put` of earlier notes are put, and how many
/// there are then: those of at most two refusals, of which each may have a second picture.
fn put_last_pictures(
    out: &mut Vec<u8>,
    refusals: &Refusals,
    at: usize,
    put: i64,
    figure: i64,
) -> Result<i64, AllocError>
    requires refusals { AreRefusals refusals.now }
    requires put { IsPictureCount put }
    requires figure { unsigned_abs figure ≤ 2 ^ 9 }
    ensures value { IfOk result (λ count. AreLast refusals.now.job.now refusals.now.mask
        (take at refusals.now.notes.now) (drop at refusals.now.notes.now) figure put count
        out.old.items out.new.items) }
    ensures count { IfOk result IsPictureCount }
{
    if at >= refusals.notes.len() {
        return Ok(put);
    }
    let next = put_picture_at(out, refusals, at, put, figure)?;
    put_last_pictures(out, refusals, at + 1, next, figure)
}

/// The pictures of a state in a row, numbered from `figure`, and how many.
fn put_pictures(out: &mut Vec<u8>, refusals: &Refusals, figure: i64) -> Result<i64, AllocError>
    requires refusals { AreRefusals refusals.now }
    requires figure { unsigned_abs figure ≤ 2 ^ 9 }
    ensures value { IfOk result (λ count. AreLast refusals.now.job.now refusals.now.mask
        [] refusals.now.notes.now figure (pos 0) count out.old.items out.new.items) }
    ensures count { IfOk result IsPictureCount }
{
    put_last_pictures(out, refusals, 0, 0, figure)
}

/// A state at which every stroke is refused, its pictures in a row and numbered from `figure`, and
/// how many.
pub fn put_dead_end(
    out: &mut Vec<u8>,
    job: &Job,
    mask: Mask,
    notes: &[Note],
    figure: i64,
) -> Result<i64, AllocError>
    requires notes { AreNotesAt job.now mask notes.now }
    requires figure { unsigned_abs figure ≤ 2 ^ 9 }
    ensures value { IfOk result (λ count.
        IsDeadEnd job.now mask notes.now figure count out.old.items out.new.items) }
    ensures count { IfOk result IsPictureCount }
{
    let refusals = Refusals::new(*out.allocator(), job, mask, notes)?;
    put_words(out, &refusals)?;
    put_line(out, ROW, &[])?;
    let count = put_pictures(out, &refusals, figure)?;
    put_line(out, DIV_END, &[])?;
    put_line(out, SECTION_END, &[])?;
    Ok(count)
}
