//! The rows of a base, cut at a range of masks.
ghost use Rattle.std.specs.Prelude.{◌≡◌, ◌+◌, ◌<◌, ◌^◌, ℕ, IfOk, IfSome, length};
ghost use Rattle.job_setup.specs.Setup.{JobData, bend_count};
ghost use Rattle.cert_merge.specs.MergeSteps.{Rows};
ghost use Rattle.cert_merge.specs.RowTexts.{AreLeft};
ghost use Rattle.cert_merge.specs.BaseRows.{AreTaken, AreCut, TakesBelow};
ghost use Rattle.cert_merge.specs.Table.{TableData};
ghost use Rattle.cert_merge.specs.TableTexts.{IsTextOfTable, empty_table};

use crate::beginning::beginning;
use crate::merged_rows::rows_behind;
use crate::row_texts::RowTexts;
use job_setup::Job;
use plan_cert::RowHead;
use std::alloc::{AllocError, Global};

/// The rows of a base: their keys with what is proved of each, and the texts of those that stand before
/// and behind a range of masks.
#[derive(Drop)]
pub(crate) struct BaseRows<'a> {
    pub heads: Vec<RowHead>,
    pub before: &'a [u8],
    pub behind: &'a [u8],
    /// How many rows stand in the range.
    pub inside: usize,
}

impl<'a> BaseRows<'a> {
    /// The rows of a base that has none.
    pub fn none(alloc: Global) -> BaseRows<'a>
        ensures { (job : JobData) (low high : ℕ) → AreCut job empty_table low high result }
    {
        BaseRows {
            heads: Vec::new(alloc),
            before: b"",
            behind: b"",
            inside: 0,
        }
    }
}

/// The next row, where its mask is below `end`, and the rows behind it.
fn next_below<'a>(texts: RowTexts<'a>, end: u16) -> Option<(RowHead, RowTexts<'a>)>
    requires { (job : JobData) × (rows : Rows) × AreLeft job rows texts }
    ensures taken { (job : JobData) (rows : Rows) → AreLeft job rows texts.entry
        → TakesBelow job end rows result }
    ensures shorter { IfSome result
        (λ x. length x.1.rest.now < length texts.entry.rest.now) }
{
    let mut behind = texts;
    match behind.take() {
        Some(row) if row.head.key.mask.0 < end => Some((row.head, behind)),
        _ => None,
    }
}

/// Takes the rows whose masks are below `end`, puts their heads behind the others, and gives their text.
fn take_below<'a>(
    texts: &mut RowTexts<'a>,
    end: u16,
    heads: &mut Vec<RowHead>,
) -> Result<&'a [u8], AllocError>
    requires { (job : JobData) × (rows : Rows) × AreLeft job rows texts.old }
    ensures { IfOk result (λ text. (job : JobData) (rows : Rows) → AreLeft job rows texts.old
        → AreTaken job rows end heads.old.items text.now heads.new.items texts.new) }
{
    let all = texts.rest;
    while let Some((head, behind)) = next_below(*texts, end) {
        heads.push(head)?;
        *texts = behind;
    }
    let (text, _) = all.split_at(all.len() - texts.rest.len());
    Ok(text)
}

/// The rows of a table's text, cut at a range of masks.
pub(crate) fn base_rows<'a>(
    alloc: Global,
    job: &Job,
    text: &'a [u8],
    low: u16,
    high: u16,
) -> Result<BaseRows<'a>, AllocError>
    requires open { high + 1 < 2 ^ bend_count job.now }
    requires text { (base : TableData)
        × IsTextOfTable (record { job = job.now; table = base }) text.now }
    ensures { IfOk result (λ rows. (base : TableData)
        → IsTextOfTable (record { job = job.now; table = base }) text.now
        → AreCut job.now base low high rows) }
{
    job.recall_valid();
    let beginning = beginning(alloc, job)?;
    let mut texts = rows_behind(job, beginning.as_slice(), text);
    let mut heads = Vec::new(alloc);
    let before = take_below(&mut texts, low, &mut heads)?;
    let first = heads.len();
    take_below(&mut texts, high + 1, &mut heads)?;
    let inside = heads.len() - first;
    let behind = take_below(&mut texts, u16::MAX, &mut heads)?;
    Ok(BaseRows {
        heads,
        before,
        behind,
        inside,
    })
}
