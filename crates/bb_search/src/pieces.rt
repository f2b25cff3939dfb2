//! The text of a certificate, made in pieces from the rows of a search.
ghost use Rattle.std.specs.Prelude.{◌≡◌, ◌<◌, length, IfOk, OnOk, IsSome};
ghost use Rattle.job_setup.specs.Setup.{stage_count};
ghost use Rattle.row_pool.specs.Rows.{IsPool};
ghost use Rattle.plan_cert.specs.WellFormed.{IsWellFormed};
ghost use Rattle.bb_search.specs.WrittenRows.{without_rows, AreWritable, IsWriterOf, CanGoOn, GoesOnTo, IsWholeText};

use crate::written::{put_row, text_before_rows};
use arrayvec::ArrayVec;
use brake_base::{Mask, Step, Worth};
use brake_io::{PIECE, Pieces};
use brake_text::put_word;
use job_setup::Job;
use row_pool::RowPool;
use row_text::RowWriter;
use std::alloc::{AllocError, Global};
use std::marker::Model;

/// Room for a row with its notes, in bytes: they have at most 2,761.
const ROW_ROOM: usize = 2_816;

/// A piece ends with the first row behind which it has so many bytes.
const FULL: usize = PIECE - ROW_ROOM;

/// The text of a certificate, made in pieces from the rows that a search has left, in the order of
/// their keys. It is seen as what is left of the text.
#[derive(Drop)]
pub struct CertPieces {
    pool: RowPool,
    stages: u8,
    writer: RowWriter,
    /// The text up to the rows, until it is given.
    beginning: Vec<u8>,
    /// The row that comes next.
    next: Option<u32>,
    is_ended: bool,
}

impl Model for CertPieces {
    ghost use Rattle.std.specs.Prelude.{ℕ, List};
    ghost use Rattle.bb_search.specs.WrittenRows.{text_left, CanGoOn};

    ghost Value = { List ℕ };

    ghost view = { λ p. text_left p.beginning.items p.pool p.stages p.next p.is_ended };

    ghost invariant = { λ p. CanGoOn p.pool p.stages p.writer p.next };
}

/// Appends the rows from one on in the order of their keys, up to the first with which the piece is
/// full, and says which comes next.
fn put_rows(
    pool: &RowPool,
    stages: u8,
    from: Option<u32>,
    writer: &mut RowWriter,
    out: &mut Vec<u8>,
) -> Result<Option<u32>, AllocError>
    requires goes_on { CanGoOn pool.now stages writer.old from }
    ensures writer { IsWriterOf pool.now stages writer.new }
    ensures rows { IfOk result (λ next.
        GoesOnTo pool.now stages from next out.old.items out.new.items) }
    ensures some { IfOk result (λ next. IsSome next
        → length out.old.items < length out.new.items) }
{
    let start = out.len();
    let mut next = from;
    while out.len() - start < FULL {
        let Some(row) = next else {
            return Ok(None);
        };
        put_row(pool, row, stages, writer, out)?;
        next = pool.next_in_order(Some(row));
    }
    Ok(next)
}

impl CertPieces {
    /// The text of the certificate with this claim, these steps and the rows of a pool. It takes all
    /// memory that it will use, but that of the pieces.
    pub(crate) fn open(
        alloc: Global,
        job: &Job,
        claim: Worth,
        steps: &ArrayVec<Step, 12>,
        pool: RowPool,
    ) -> Result<CertPieces, AllocError>
        requires begins { IsWellFormed job.now (without_rows claim steps.now.items) }
        requires writable { AreWritable (stage_count job.now) pool }
        ensures text { IfOk result (IsWholeText job.now claim steps.now.items pool) }
        ensures pool { OnOk result (IsPool pool) }
    {
        let stages = job.stages();
        let writer = RowWriter::open(alloc, stages, Mask::empty())?;
        let beginning = text_before_rows(alloc, job, claim, steps)?;
        let _rows = pool.len();
        let next = pool.next_in_order(None);
        Ok(CertPieces {
            pool,
            stages,
            writer,
            beginning,
            next,
            is_ended: false,
        })
    }

    /// All that is left of the text.
    pub fn gather(mut self, alloc: Global) -> Result<Vec<u8>, AllocError>
        ensures { IfOk result (λ text. text.items ≡ self) }
    {
        let mut text = Vec::new(alloc);
        let mut is_more = true;
        while is_more {
            is_more = self.next(&mut text)?;
        }
        Ok(text)
    }
}

impl Pieces for CertPieces {
    ghost left = { λ text. text };

    /// The text up to the rows is the first piece, and the last line ends the last one.
    fn next(&mut self, out: &mut Vec<u8>) -> Result<bool, AllocError> {
        if !self.beginning.is_empty() {
            put_word(out, self.beginning.as_slice())?;
            self.beginning.clear();
            return Ok(true);
        }
        self.next = put_rows(&self.pool, self.stages, self.next, &mut self.writer, out)?;
        if self.next.is_some() {
            return Ok(true);
        }
        if !self.is_ended {
            put_word(out, b"end\n")?;
            self.is_ended = true;
        }
        Ok(false)
    }
}
