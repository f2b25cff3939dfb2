//! The writer of rows.
ghost use Rattle.std.specs.Prelude.{◌≡◌, ◌≤◌, ◌<◌, ◌+◌, ◌*◌, ◌++◌, ◌∷◌, ◌&&◌, ◌||◌, ◌==◌, not, length, map, if◌then◌else◌, ℕ, OnOk, OnErr, IfOk};
ghost use Rattle.brake_base.specs.Actions.{IsActionAmong, number_of_action};
ghost use Rattle.cert_lines.specs.Lines.{line_text, lines_text, row_line};
ghost use Rattle.plan_cert.specs.CertText.{line_of_note};
ghost use Rattle.cert_lines.specs.Lines.{IsWorth};
ghost use Rattle.stage_lanes.specs.ActionSets.{has_place, place_of, ArePlaces, IsNone};
ghost use Rattle.stage_lanes.specs.Codes.{IsCoded};
ghost use Rattle.row_text.specs.Notes.{IsAmong, reason_at, notes_of, GoOnAs};
ghost use Rattle.row_text.specs.RowWords.{row_start, key_words};
ghost use Rattle.row_text.specs.Writer.{AreKeyWords};

use crate::block::NoteBlock;
use crate::row_end::RowEnd;
use crate::row_words::{key_words, note_line, row_start};
use crate::short_text::ShortText;
use brake_base::{Action, Key, Mask, Reason, action_number};
use brake_text::put_word;
use plan_cert::RowHead;
use stage_lanes::{ActionSet, place};
use std::alloc::{AllocError, Global};
use std::marker::Model;

/// Room for the lines of a row's notes, of which there are at most 144 of 19 bytes, and for one of 32
/// bytes that is cut.
const BLOCK_ROOM: usize = 2_816;

/// Writes the rows of a job, one set of folded bends after the other, each row with its notes. What
/// is written more than once is kept: the beginning of the set's rows, the words of each attitude
/// and stage, the line of each note, and the lines of the last row's notes as one block.
///
/// A writer is seen as the number of stages, the set, the actions that have a reason there, and the
/// reasons by the actions' numbers.
#[derive(Drop)]
pub struct RowWriter {
    stages: u8,
    mask: Mask,
    known: ActionSet,
    reasons: [Reason; 144],
    start: ShortText,
    keys: Vec<ShortText>,
    lines: Vec<ShortText>,
    block: NoteBlock,
    line: Vec<u8>,
}

impl Model for RowWriter {
    ghost use Rattle.row_text.specs.Notes.{SetNotes, set_notes};
    ghost use Rattle.row_text.specs.Writer.{IsWriter};

    ghost Value = { SetNotes };

    ghost view = { λ w. set_notes w.stages w.mask w.known w.reasons };

    ghost invariant = { λ w. IsWriter (set_notes w.stages w.mask w.known w.reasons)
        w.start w.keys.items w.lines.items w.block };
}

/// The words of each attitude and stage.
fn all_key_words(alloc: Global, line: &mut Vec<u8>) -> Result<Vec<ShortText>, AllocError>
    ensures { IfOk result (λ keys. AreKeyWords keys.items) }
{
    let mut keys = Vec::with_capacity(alloc, 144)?;
    for place in 0..144u8 {
        keys.push(key_words(line, place / 6, place % 6)?)?;
    }
    Ok(keys)
}

/// The place of a key's attitude and stage among the words of all.
fn key_place(key: &Key) -> usize
    requires { key.now.stage < 6 }
    ensures value { result ≡ key.now.attitude * 6 + key.now.stage }
    ensures few { result < 144 }
{
    usize::from(key.attitude.number()) * 6 + usize::from(key.stage)
}

/// A text of no byte for each place of an action in sets.
fn no_lines(alloc: Global) -> Result<Vec<ShortText>, AllocError>
    ensures { IfOk result (λ lines. length lines.items ≡ 192) }
{
    let mut lines = Vec::with_capacity(alloc, 192)?;
    for _ in 0..192u8 {
        lines.push(ShortText::empty())?;
    }
    Ok(lines)
}

/// Appends the line of a row whose line begins so.
fn put_row_line(
    out: &mut Vec<u8>,
    start: &ShortText,
    key: &ShortText,
    row: &RowHead,
) -> Result<(), AllocError>
    requires start { start.now ≡ row_start row.now.key.mask.0 }
    requires key { key.now ≡ key_words row.now.key.attitude row.now.key.stage }
    requires worth { IsWorth row.now.worth }
    ensures { OnOk result (out.new.items ≡ out.old.items ++ line_text (row_line row.now)) }
{
    start.put(out)?;
    key.put(out)?;
    RowEnd::of(row.worth).put(out)
}

impl RowWriter {
    /// A writer for a machine of so many stages, begun with a set of folded bends. It takes all memory
    /// that it will use, but that of the text.
    pub fn open(alloc: Global, stages: u8, mask: Mask) -> Result<RowWriter, AllocError>
        requires { stages ≤ 6 }
        ensures stages { IfOk result (λ writer. writer.stages ≡ stages) }
        ensures mask { IfOk result (λ writer. writer.mask ≡ mask) }
        ensures known { IfOk result (λ writer. IsNone writer.known) }
    {
        let mut line = Vec::with_capacity(alloc, 32)?;
        let keys = all_key_words(alloc, &mut line)?;
        let start = row_start(&mut line, mask)?;
        let text = Vec::with_capacity(alloc, BLOCK_ROOM)?;
        Ok(RowWriter {
            stages,
            mask,
            known: ActionSet::empty(),
            reasons: [Reason::Cover; 144],
            start,
            keys,
            lines: no_lines(alloc)?,
            block: NoteBlock {
                notes: ActionSet::empty(),
                text,
            },
            line,
        })
    }

    /// The set of folded bends that is begun.
    pub fn mask(&self) -> Mask
        ensures { result ≡ self.now.mask }
    {
        self.mask
    }

    /// Begins another set of folded bends: no action has a reason there yet. After a refusal the
    /// writer is as it was.
    pub fn begin(&mut self, mask: Mask) -> Result<(), AllocError>
        ensures stages { self.new.stages ≡ self.old.stages }
        ensures mask { OnOk result (self.new.mask ≡ mask) }
        ensures known { OnOk result (IsNone self.new.known) }
        ensures err { OnErr result (self.new ≡ self.old) }
    {
        let start = row_start(&mut self.line, mask)?;
        self.mask = mask;
        self.start = start;
        self.known = ActionSet::empty();
        Ok(())
    }

    /// Those of some actions that have no reason yet.
    pub fn unknown(&self, notes: ActionSet) -> ActionSet
        ensures places { ArePlaces result
            (λ place. has_place notes place && not (has_place self.now.known place)) }
    {
        notes.without(self.known)
    }

    /// From now on this is the reason against the action where the set's bends are folded. After a
    /// refusal the writer is as it was.
    pub fn set_reason(&mut self, action: Action, reason: Reason) -> Result<(), AllocError>
        requires action { IsActionAmong 12 self.old.stages action }
        requires reason { IsCoded reason }
        ensures stages { self.new.stages ≡ self.old.stages }
        ensures mask { self.new.mask ≡ self.old.mask }
        ensures known { OnOk result (ArePlaces self.new.known
            (λ place. has_place self.old.known place || place == place_of action)) }
        ensures reasons { OnOk result ((number : ℕ) → reason_at self.new number
            ≡ (if number == number_of_action self.old.stages action
            then reason else reason_at self.old number)) }
        ensures err { OnErr result (self.new ≡ self.old) }
    {
        let line = note_line(&mut self.line, action, reason)?;
        let number = usize::from(action_number(action, self.stages));
        self.lines[usize::from(place(action))] = line;
        self.reasons[number] = reason;
        self.known = self.known.with(action);
        self.block.clear();
        Ok(())
    }

    /// Appends the line of a row of the set, and the lines of its notes: one for each of these
    /// actions, in the order of their numbers, with its reason. Rows that are written so one after
    /// the other, and nothing between them, are the rows of a certificate's text.
    pub fn put_row(
        &mut self,
        out: &mut Vec<u8>,
        row: &RowHead,
        notes: ActionSet,
    ) -> Result<(), AllocError>
        requires mask { row.now.key.mask ≡ self.old.mask }
        requires stage { row.now.key.stage < self.old.stages }
        requires worth { IsWorth row.now.worth }
        requires notes { IsAmong notes self.old.known }
        ensures same { self.new ≡ self.old }
        ensures text { OnOk result (out.new.items ≡ out.old.items
            ++ lines_text (row_line row.now
            ∷ map (line_of_note self.old.stages) (notes_of self.old 0 notes))) }
        ensures rows { OnOk result (GoOnAs self.old row.now notes out.old.items out.new.items) }
    {
        self.block.turn_to(self.lines.as_slice(), notes)?;
        put_row_line(out, &self.start, &self.keys[key_place(&row.key)], row)?;
        put_word(out, self.block.text.as_slice())
    }
}
