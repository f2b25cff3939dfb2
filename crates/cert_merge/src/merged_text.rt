//! The text of the rows of two tables together, made in pieces.
ghost use Rattle.std.specs.Prelude.{◌≡◌, ◌<◌, ◌≤◌, All, IfOk, drop, length};
ghost use Rattle.plan_cert.specs.CertText.{table_text};
ghost use Rattle.cert_merge.specs.Table.{TableData};
ghost use Rattle.cert_merge.specs.MergedRows.{IsWithin, PartsGoOn};
ghost use Rattle.cert_merge.specs.MergedTexts.{IsToldOf};

use crate::beginning::{FULL, beginning};
use crate::merged_rows::{Part, text_of};
use crate::merged_texts::MergedTexts;
use brake_io::Pieces;
use brake_text::put_word;
use job_setup::Job;
use std::alloc::{AllocError, Global};
use std::marker::Model;

/// The text of the rows of two tables together, made in pieces, row by row. It is seen as what is left
/// of the text.
#[derive(Drop)]
pub struct MergedText<'a> {
    /// The text up to the rows, until it is given.
    beginning: Vec<u8>,
    parts: &'a [Part<'a>],
    joined: &'a [u8],
    /// The number of the part that comes next.
    next: usize,
    is_ended: bool,
}

impl<'a> Model for MergedText<'a> {
    ghost use Rattle.std.specs.Prelude.{ℕ, List, All, drop};
    ghost use Rattle.cert_merge.specs.TextLeft.{text_left};
    ghost use Rattle.cert_merge.specs.MergedRows.{IsWithin, parts_text};

    ghost Value = { List ℕ };

    ghost view = { λ t. text_left t.beginning.items
        (parts_text t.joined.now (drop t.next t.parts.now)) t.is_ended };

    ghost invariant = { λ t. All (IsWithin t.joined.now) t.parts.now };
}

/// Appends the parts from one on, up to the first with which the piece is full, and gives the number of
/// the part that comes next.
fn put_parts(
    parts: &[Part],
    joined: &[u8],
    from: usize,
    out: &mut Vec<u8>,
) -> Result<usize, AllocError>
    requires { All (IsWithin joined.now) parts.now }
    ensures text { IfOk result (λ next. PartsGoOn joined.now parts.now from next
        out.old.items out.new.items) }
    ensures more { IfOk result (λ next. next < length parts.now
        → length out.old.items < length out.new.items) }
{
    let start = out.len();
    let mut next = from;
    while out.len() - start < FULL {
        if next >= parts.len() {
            return Ok(next);
        }
        let part = parts[next];
        put_word(out, text_of(joined, part))?;
        next += 1;
    }
    Ok(next)
}

impl<'a> MergedText<'a> {
    /// The text of the merge of two tables of a job. It takes all memory that it will use, but that of
    /// the pieces.
    pub fn open(
        alloc: Global,
        job: &Job,
        merged: &'a MergedTexts<'a>,
    ) -> Result<MergedText<'a>, AllocError>
        requires { (table : TableData) × IsToldOf job.now table merged.now }
        ensures { IfOk result (λ text. (table : TableData) → IsToldOf job.now table merged.now
            → text ≡ table_text job.now table.rows table.notes) }
    {
        let beginning = beginning(alloc, job)?;
        Ok(MergedText {
            beginning,
            parts: merged.rows.parts.as_slice(),
            joined: merged.rows.joined.as_slice(),
            next: 0,
            is_ended: false,
        })
    }
}

impl<'a> Pieces for MergedText<'a> {
    ghost left = { λ text. text };

    /// The text up to the rows is the first piece, and the last line ends the last one.
    fn next(&mut self, out: &mut Vec<u8>) -> Result<bool, AllocError> {
        if !self.beginning.is_empty() {
            put_word(out, self.beginning.as_slice())?;
            self.beginning.clear();
            return Ok(true);
        }
        self.next = put_parts(self.parts, self.joined, self.next, out)?;
        if self.next < self.parts.len() {
            return Ok(true);
        }
        if !self.is_ended {
            put_word(out, b"end\n")?;
            self.is_ended = true;
        }
        Ok(false)
    }
}
