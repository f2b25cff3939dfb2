//! The rows of two tables of one job together, each as it stands in one of their texts, or with the notes
//! of both.
ghost use Rattle.std.specs.Prelude.{◌≡◌, ◌⊎◌, ◌+◌, ◌++◌, ◌∷◌, [], ◌<◌, ◌≤◌, ℕ, OnOk, IfOk, IsSome, IsTrue, codes, length};
ghost use Rattle.brake_base.specs.declared.stroke.Key.{Key};
ghost use Rattle.job_setup.specs.Setup.{JobData, stage_count};
ghost use Rattle.cert_merge.specs.Entries.{Settled, joined, united};
ghost use Rattle.cert_merge.specs.MergeSteps.{Rows, merge_rows, table_said};
ghost use Rattle.cert_merge.specs.RowTexts.{AreLeft, IsTextOfRow, size_of_side};
ghost use Rattle.cert_merge.specs.UnitedRows.{AreOfOneRow};
ghost use Rattle.cert_merge.specs.MergedRows.{AreOfOneKey, AreSides, AreTextsOf, GoesOnBy, HoldsRows, AreMergedRows, IsUnderway, IsWithin, part_text};
ghost use Rattle.cert_lines.specs.JobText.{job_text};
ghost use Rattle.cert_merge.specs.Table.{TableData};
ghost use Rattle.cert_merge.specs.TableTexts.{IsTextOfTable};

use crate::beginning::beginning;
use crate::merged::{Next, next_of};
use crate::row_texts::{RowText, RowTexts, Side};
use crate::united_rows::put_united;
use cert_check::key_count;
use job_setup::Job;
use plan_cert::RowHead;
use std::alloc::{AllocError, Global};

/// The text of a row: as it stands, or among those of rows that were joined.
#[derive(Clone, Copy)]
pub(crate) enum Part<'a> {
    Row(&'a [u8]),
    Joined { start: usize, end: usize },
}

/// The text of a part, where these are the texts of the rows that were joined.
pub(crate) fn text_of<'a>(joined: &'a [u8], part: Part<'a>) -> &'a [u8]
    requires { IsWithin joined.now part }
    ensures { result.now ≡ part_text joined.now part.entry }
{
    match part {
        Part::Row(text) => text,
        Part::Joined { start, end } => &joined[start..end],
    }
}

/// The rows of two tables of a job together: their keys with what is proved of each, and their texts.
#[derive(Drop)]
pub struct MergedRows<'a> {
    pub heads: Vec<RowHead>,
    pub(crate) parts: Vec<Part<'a>>,
    /// The texts of the rows with the notes of both tables.
    pub(crate) joined: Vec<u8>,
}

impl<'a> MergedRows<'a> {
    /// Puts a row as it stands behind the others.
    fn put_row(&mut self, row: &RowText<'a>) -> Result<(), AllocError>
        ensures { OnOk result ((job : JobData) (stages : ℕ) (done : Rows) (said : Key × Settled)
            → HoldsRows stages done self.old → IsTextOfRow job stages said row.now
            → HoldsRows stages (done ++ said ∷ []) self.new) }
    {
        self.heads.push(row.head)?;
        self.parts.push(Part::Row(row.lines))?;
        Ok(())
    }

    /// Puts a row with the notes of two behind the others.
    fn put_united(
        &mut self,
        alloc: Global,
        first: &RowText<'a>,
        second: &RowText<'a>,
        bends: u8,
        stages: u8,
    ) -> Result<(), AllocError>
        requires bends { bends ≤ 12 }
        requires stages { stages ≤ 6 }
        requires rows { (job : JobData) × (x : Key × Settled) × (y : Key × Settled)
            × AreOfOneRow job bends stages x y first.now second.now }
        ensures { OnOk result ((job : JobData) (done : Rows) (x y : Key × Settled)
            → HoldsRows stages done self.old
            → AreOfOneRow job bends stages x y first.now second.now
            → HoldsRows stages (done ++ (x.0, united x.1 y.1) ∷ []) self.new) }
    {
        let start = self.joined.len();
        put_united(alloc, &mut self.joined, first, second, bends, stages)?;
        let end = self.joined.len();
        self.heads.push(first.head)?;
        self.parts.push(Part::Joined { start, end })?;
        Ok(())
    }

    /// Puts what two rows of one key say together behind the others: the one with the greater worth, or
    /// at equal worth the notes of both.
    fn put_joined(
        &mut self,
        alloc: Global,
        first: &RowText<'a>,
        second: &RowText<'a>,
        bends: u8,
        stages: u8,
    ) -> Result<(), AllocError>
        requires bends { bends ≤ 12 }
        requires stages { stages ≤ 6 }
        requires rows { (job : JobData) × (x : Key × Settled) × (y : Key × Settled)
            × AreOfOneKey job bends stages x y first.now second.now }
        ensures { OnOk result ((job : JobData) (done : Rows) (x y : Key × Settled)
            → HoldsRows stages done self.old
            → AreOfOneKey job bends stages x y first.now second.now
            → HoldsRows stages (done ++ (x.0, joined x.1 y.1) ∷ []) self.new) }
    {
        if !second.head.worth.is_at_most(first.head.worth) {
            self.put_row(second)
        } else if !first.head.worth.is_at_most(second.head.worth) || are_equal(first, second) {
            self.put_row(first)
        } else {
            self.put_united(alloc, first, second, bends, stages)
        }
    }
}

/// Whether the notes of two rows have the same text.
fn are_equal(first: &RowText, second: &RowText) -> bool
    ensures { IsTrue result → first.now.notes.now ≡ second.now.notes.now }
{
    first.notes == second.notes
}

/// Puts the row of the next key of two sides, or what both say of it, and goes on behind it.
fn put_next<'a>(
    alloc: Global,
    merged: &mut MergedRows<'a>,
    first: &mut Side<'a>,
    second: &mut Side<'a>,
) -> Result<(), AllocError>
    requires sides { (job : JobData) × (xs : Rows) × (ys : Rows)
        × AreSides job xs ys first.old second.old }
    requires some { IsSome first.old.next ⊎ IsSome second.old.next }
    ensures merged { OnOk result ((job : JobData) (done xs ys : Rows)
        → IsUnderway job done xs ys merged.old first.old second.old
        → GoesOnBy job done xs ys merged.new first.new second.new) }
    ensures fewer { OnOk result (size_of_side first.new + size_of_side second.new
        < size_of_side first.old + size_of_side second.old) }
{
    let (bends, stages) = (first.texts.bends, first.texts.stages);
    match next_of(first.key(), second.key()) {
        Next::First => {
            if let Some(row) = first.next.take() {
                merged.put_row(&row)?;
                first.advance();
            }
        }
        Next::Second => {
            if let Some(row) = second.next.take() {
                merged.put_row(&row)?;
                second.advance();
            }
        }
        Next::Both => {
            if let Some(row) = first.next.take() {
                if let Some(other) = second.next.take() {
                    merged.put_joined(alloc, &row, &other, bends, stages)?;
                    first.advance();
                    second.advance();
                }
            }
        }
    }
    Ok(())
}

/// Puts all rows of two tables' texts behind the others, in the order of their keys.
fn put_all<'a>(
    alloc: Global,
    merged: &mut MergedRows<'a>,
    first: RowTexts<'a>,
    second: RowTexts<'a>,
) -> Result<(), AllocError>
    requires { (job : JobData) × (done : Rows) × (xs : Rows) × (ys : Rows)
        × HoldsRows (stage_count job) done merged.old × AreLeft job xs first × AreLeft job ys second }
    ensures { OnOk result ((job : JobData) (done xs ys : Rows)
        → HoldsRows (stage_count job) done merged.old
        → AreLeft job xs first.entry → AreLeft job ys second.entry
        → HoldsRows (stage_count job) (done ++ merge_rows xs ys) merged.new) }
{
    let mut first = Side::of(first);
    let mut second = Side::of(second);
    while first.next.is_some() || second.next.is_some() {
        put_next(alloc, merged, &mut first, &mut second)?;
    }
    Ok(())
}

/// The rows of a table's text, which begins so.
pub(crate) fn rows_behind<'a>(job: &Job, beginning: &[u8], text: &'a [u8]) -> RowTexts<'a>
    requires { length beginning.now ≤ length text.now }
    ensures rows { (table : TableData) → beginning.now ≡ codes "brake-table 1\n" ++ job_text job.now
        → IsTextOfTable (record { job = job.now; table = table }) text.now
        → AreLeft job.now (table_said table) result }
{
    let (_, rest) = text.split_at(beginning.len());
    RowTexts {
        bends: job.bends(),
        stages: job.stages(),
        rest,
        notes: b"",
    }
}

/// The rows of two tables of a job together, from their texts.
pub(crate) fn merged_rows<'a>(
    alloc: Global,
    job: &Job,
    first: &'a [u8],
    second: &'a [u8],
) -> Result<MergedRows<'a>, AllocError>
    requires { (a : TableData) × (b : TableData) × AreTextsOf job.now a b first.now second.now }
    ensures { IfOk result (λ merged. (a b : TableData)
        → AreTextsOf job.now a b first.now second.now → AreMergedRows job.now a b merged) }
{
    let beginning = beginning(alloc, job)?;
    let rows = rows_behind(job, beginning.as_slice(), first);
    let others = rows_behind(job, beginning.as_slice(), second);
    let heads = Vec::with_capacity(alloc, key_count(job))?;
    let parts = Vec::with_capacity(alloc, key_count(job))?;
    let mut merged = MergedRows {
        heads,
        parts,
        joined: Vec::new(alloc),
    };
    put_all(alloc, &mut merged, rows, others)?;
    Ok(merged)
}
