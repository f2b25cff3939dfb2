//! The text of what is settled over a base, made in pieces.
ghost use Rattle.std.specs.Prelude.{◌≡◌, ◌+◌, ◌^◌, ◌<◌, ◌≤◌, ◌++◌, length, IfOk, OnOk};
ghost use Rattle.brake_base.specs.declared.stroke.Key.{Key};
ghost use Rattle.brake_base.specs.declared.stroke.Worth.{Worth};
ghost use Rattle.job_setup.specs.Setup.{bend_count};
ghost use Rattle.cert_merge.specs.Settling.{AreSettledBy, HasSets};
ghost use Rattle.cert_merge.specs.SetRows.{IsWriterOf};
ghost use Rattle.cert_merge.specs.SettledPieces.{place_text, CanGoOn, GoesOnTo, IsWholeText};

use crate::base_rows::BaseRows;
use crate::beginning::{FULL, beginning};
use crate::set_writer::SetWriter;
use crate::settled::key_of;
use crate::settled_sets::SettledSets;
use brake_base::Mask;
use brake_io::Pieces;
use brake_text::put_word;
use job_setup::Job;
use std::alloc::{AllocError, Global};
use std::marker::Model;

/// The text of the table of a range that is settled over a base, made in pieces: the base's rows before
/// the range as they stand, the settled sets in the order of their keys, and the base's rows behind
/// them. It is seen as what is left of the text.
#[derive(Drop)]
pub struct SettledPieces<'a> {
    settled: SettledSets,
    stages: u8,
    writer: SetWriter,
    /// The text up to the rows, until it is given.
    beginning: Vec<u8>,
    /// The base's rows before the range that are still to be given.
    before: &'a [u8],
    /// Those behind it.
    behind: &'a [u8],
    /// The number of the key that comes next.
    next: usize,
    /// The number behind that of the last key.
    end: usize,
    is_ended: bool,
}

impl<'a> Model for SettledPieces<'a> {
    ghost use Rattle.std.specs.Prelude.{ℕ, ◌-◌, ◌++◌, List};
    ghost use Rattle.cert_merge.specs.TextLeft.{text_left};
    ghost use Rattle.cert_merge.specs.SettledPieces.{rest_text, CanGoOn};

    ghost Value = { List ℕ };

    ghost view = { λ p. text_left p.beginning.items (p.before.now
        ++ (rest_text p.settled p.stages p.next (p.end - p.next) ++ p.behind.now)) p.is_ended };

    ghost invariant = { λ p. CanGoOn p.settled p.stages p.writer p.next p.end };
}

/// Appends the row of the key of a number, with its notes. Nothing where the machine hasn't so many
/// stages.
fn put_place(
    settled: &SettledSets,
    stages: u8,
    place: usize,
    end: usize,
    writer: &mut SetWriter,
    out: &mut Vec<u8>,
) -> Result<(), AllocError>
    requires goes_on { CanGoOn settled.now stages writer.old place end }
    requires less { place < end }
    ensures writer { OnOk result (IsWriterOf stages settled.now writer.new) }
    ensures text { OnOk result (out.new.items
        ≡ out.old.items ++ place_text settled.now stages place) }
{
    let key = key_of(place);
    if key.stage < stages {
        writer.turn_to(stages, settled, key.mask)?;
        writer.put_row(settled, &key, out)?;
    }
    Ok(())
}

/// Appends the rows of the keys from a number on, up to the first with which the piece is full, and
/// gives the number of the next.
fn put_rows(
    settled: &SettledSets,
    stages: u8,
    from: usize,
    end: usize,
    writer: &mut SetWriter,
    out: &mut Vec<u8>,
) -> Result<usize, AllocError>
    requires goes_on { CanGoOn settled.now stages writer.old from end }
    ensures goes_on { IfOk result (λ next. CanGoOn settled.now stages writer.new next end) }
    ensures rows { IfOk result (λ next.
        GoesOnTo settled.now stages end from next out.old.items out.new.items) }
    ensures more { IfOk result (λ next. next < end
        → length out.old.items < length out.new.items) }
{
    let start = out.len();
    let mut next = from;
    while out.len() - start < FULL {
        if next == end {
            return Ok(next);
        }
        put_place(settled, stages, next, end, writer, out)?;
        next += 1;
    }
    Ok(next)
}

impl<'a> SettledPieces<'a> {
    /// The text of the table of the keys whose masks are those of the sets, of which `low` is the
    /// least, and of the base's rows before and behind them. It takes all memory that it will use, but
    /// that of the pieces.
    pub(crate) fn open(
        alloc: Global,
        job: &Job,
        settled: SettledSets,
        low: u16,
        base: &BaseRows<'a>,
    ) -> Result<SettledPieces<'a>, AllocError>
        requires range { HasSets low settled.high settled }
        requires order { low ≤ settled.high }
        requires open { settled.high + 1 < 2 ^ bend_count job.now }
        requires settled { (proved : Key → Worth) × AreSettledBy job.now proved settled }
        ensures { IfOk result
            (IsWholeText job.now low settled.high settled base.now.before.now base.now.behind.now) }
    {
        job.recall_valid();
        let stages = job.stages();
        let writer = SetWriter::open(alloc, stages, &settled, Mask(low))?;
        let beginning = beginning(alloc, job)?;
        let end = (usize::from(settled.high) + 1) * 144;
        Ok(SettledPieces {
            settled,
            stages,
            writer,
            beginning,
            before: base.before,
            behind: base.behind,
            next: usize::from(low) * 144,
            end,
            is_ended: false,
        })
    }
}

impl<'a> Pieces for SettledPieces<'a> {
    ghost left = { λ text. text };

    /// The text up to the rows is the first piece, and the last line is the last one.
    fn next(&mut self, out: &mut Vec<u8>) -> Result<bool, AllocError> {
        if !self.beginning.is_empty() {
            put_word(out, self.beginning.as_slice())?;
            self.beginning.clear();
            return Ok(true);
        }
        if !self.before.is_empty() {
            self.before.next(out)?;
            return Ok(true);
        }
        let start = out.len();
        match put_rows(
            &self.settled,
            self.stages,
            self.next,
            self.end,
            &mut self.writer,
            out,
        ) {
            Ok(next) => self.next = next,
            Err(error) => {
                // The writer may stand between two sets.
                self.end = self.next;
                return Err(error);
            }
        }
        if out.len() > start {
            return Ok(true);
        }
        if !self.behind.is_empty() {
            self.behind.next(out)?;
            return Ok(true);
        }
        if !self.is_ended {
            put_word(out, b"end\n")?;
            self.is_ended = true;
        }
        Ok(false)
    }
}
