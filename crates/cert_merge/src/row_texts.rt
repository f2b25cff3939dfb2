//! The rows of a table's text, one by one as they stand. The text is known to be that of a table.
ghost use Rattle.std.specs.Prelude.{◌≡◌, ◌+◌, ◌++◌, ◌<◌, ◌≤◌, drop, length, take, true, IfSome, IsNone, IsSome};
ghost use Rattle.job_setup.specs.Setup.{JobData};
ghost use Rattle.cert_words.specs.LineWords.{Reads, word_length};
ghost use Rattle.cert_words.specs.PlanWords.{row_in};
ghost use Rattle.cert_merge.specs.MergeSteps.{Rows};
ghost use Rattle.cert_merge.specs.RowTexts.{AreLeft, AreNoteLines, IsSide, TakesRow, begins_with_note, next_key, note_bytes, size_of_side};

use brake_base::Key;
use cert_words::{row, split_word};
use plan_cert::{RowHead, whole_line};

/// A row of a table's text: its key with what is proved of it, its lines, and those of its notes, which
/// are the last of them.
#[derive(Clone, Copy)]
pub(crate) struct RowText<'a> {
    pub head: RowHead,
    pub lines: &'a [u8],
    pub notes: &'a [u8],
}

/// The rows of a table's text that are still to be read, up to its end.
#[derive(Clone, Copy)]
pub(crate) struct RowTexts<'a> {
    pub bends: u8,
    pub stages: u8,
    pub rest: &'a [u8],
    /// The lines of the notes of the row before; mostly the next row has the same.
    pub notes: &'a [u8],
}

/// The row of its line, in a job of so many bends and stages. None where the line is the last one.
fn row_of(line: &[u8], bends: u8, stages: u8) -> Option<RowHead>
    requires { bends ≤ 12 }
    ensures { Reads (λ row. (row.key, row.worth)) result
        (row_in bends stages (drop (word_length line.now) line.now)) }
{
    let (_, words) = split_word(line);
    let (key, worth) = row(words, bends, stages)?;
    Some(RowHead { key, worth })
}

/// How many bytes stand before the first line that doesn't begin as a note's does.
fn note_length(text: &[u8]) -> usize
    ensures bytes { take result text.now ≡ note_bytes true text.now }
    ensures within { result ≤ length text.now }
{
    let mut at_start = true;
    for (i, byte) in text.iter().enumerate() {
        if at_start && *byte != b'x' {
            return i;
        }
        at_start = *byte == b'\n';
    }
    text.len()
}

/// Whether the text begins as a note's line does.
fn begins_with_note(text: &[u8]) -> bool
    ensures { result ≡ begins_with_note text.now }
{
    matches!(text, [b'x', ..])
}

/// The lines of notes at the front of the text, and what stands behind them. Where they are those of the
/// row before, they are compared and not looked through.
fn split_notes<'a>(text: &'a [u8], last: &[u8]) -> (&'a [u8], &'a [u8])
    requires { AreNoteLines true last.now }
    ensures notes { result.0.now ≡ note_bytes true text.now }
    ensures whole { text.now ≡ result.0.now ++ result.1.now }
{
    match text.strip_prefix(last) {
        Some(rest) if !begins_with_note(rest) => (&text[..last.len()], rest),
        _ => text.split_at(note_length(text)),
    }
}

impl<'a> RowTexts<'a> {
    /// Takes the next row. None where none is left.
    pub fn take(&mut self) -> Option<RowText<'a>>
        requires { (job : JobData) × (rows : Rows) × AreLeft job rows self.old }
        ensures taken { (job : JobData) (rows : Rows) → AreLeft job rows self.old
            → TakesRow job rows result self.new }
        ensures shorter { IfSome result
            (λ _. length self.new.rest.now < length self.old.rest.now) }
        ensures none { IsNone result → self.new ≡ self.old }
        ensures bends { self.new.bends ≡ self.old.bends }
        ensures stages { self.new.stages ≡ self.old.stages }
    {
        let text = self.rest;
        let (line, behind) = whole_line(text)?;
        let head = row_of(line, self.bends, self.stages)?;
        let (notes, rest) = split_notes(behind, self.notes);
        self.rest = rest;
        self.notes = notes;
        let (lines, _) = text.split_at(text.len() - rest.len());
        Some(RowText { head, lines, notes })
    }
}

/// What is left of the rows of a table's text: the next one, and those behind it.
#[derive(Clone, Copy)]
pub(crate) struct Side<'a> {
    pub next: Option<RowText<'a>>,
    pub texts: RowTexts<'a>,
}

impl<'a> Side<'a> {
    /// All rows that are still to be read.
    pub fn of(texts: RowTexts<'a>) -> Side<'a>
        requires { (job : JobData) × (rows : Rows) × AreLeft job rows texts }
        ensures side { (job : JobData) (rows : Rows) → AreLeft job rows texts.entry
            → IsSide job rows result }
        ensures bends { result.texts.bends ≡ texts.entry.bends }
        ensures stages { result.texts.stages ≡ texts.entry.stages }
    {
        let mut rest = texts;
        let next = rest.take();
        Side { next, texts: rest }
    }

    /// The key of the next row. None where none is left.
    pub fn key(&self) -> Option<Key>
        ensures { result ≡ next_key self.now }
    {
        match &self.next {
            Some(row) => Some(row.head.key),
            None => None,
        }
    }

    /// Goes on with the rows behind the next one.
    pub fn advance(&mut self)
        requires { (job : JobData) × (rows : Rows) × AreLeft job rows self.old.texts }
        ensures side { (job : JobData) (rows : Rows) → AreLeft job rows self.old.texts
            → IsSide job rows self.new }
        ensures fewer { size_of_side self.new < length self.old.texts.rest.now + 1 }
        ensures bends { self.new.texts.bends ≡ self.old.texts.bends }
        ensures stages { self.new.texts.stages ≡ self.old.texts.stages }
    {
        self.next = self.texts.take();
    }
}
