//! The text of the keys of a range of masks, settled over a base.
ghost use Rattle.std.specs.Prelude.{◌≡◌, ◌+◌, ◌-◌, ◌*◌, ◌^◌, ◌<◌, ◌≤◌, IfOk};
ghost use Rattle.job_setup.specs.Setup.{bend_count};
ghost use Rattle.cert_merge.specs.BaseRows.{AreCut};
ghost use Rattle.cert_merge.specs.SettledText.{IsClosedText, IsSettledText};
ghost use Rattle.cert_merge.specs.Table.{IsClosedTable, IsTable, TableData};
ghost use Rattle.cert_merge.specs.TableTexts.{empty_table};

use crate::base_rows::{BaseRows, base_rows};
use crate::settled::settle_sets;
use crate::settled_pieces::SettledPieces;
use crate::settled_sets::proved_over;
use brake_base::Worth;
use handling_cost::start_key;
use job_setup::Job;
use set_facts::LaneFacts;
use std::alloc::{AllocError, Global};

/// The text of a table, which is made in pieces, with its number of rows and what they prove of the
/// start.
#[derive(Drop)]
pub struct SettledText<'a> {
    pub text: SettledPieces<'a>,
    pub rows: usize,
    pub at_start: Worth,
}

/// The text of the table of every key whose mask is `low` to `high`, settled over no base: masks
/// downwards, each by what the rows of greater masks prove.
pub fn settle_text<'a>(
    alloc: Global,
    job: &Job,
    low: u16,
    high: u16,
) -> Result<SettledText<'a>, AllocError>
    requires range { low ≤ high }
    requires open { high + 1 < 2 ^ bend_count job.now }
    ensures { IfOk result (IsSettledText job.now empty_table low high) }
{
    job.recall_valid();
    settled_over(alloc, job, &BaseRows::none(alloc), low, high)
}

/// The text of the base, merged with a row for every key whose mask is `low` to `high`, each settled by
/// what the base, which is a closed table's text, and the rows of greater masks prove. A key of the range
/// has its new row, since a closed base says nothing of it that the new row doesn't say; the others
/// have the base's lines.
pub fn settle_text_over<'a>(
    alloc: Global,
    job: &Job,
    base: &'a [u8],
    low: u16,
    high: u16,
) -> Result<SettledText<'a>, AllocError>
    requires range { low ≤ high }
    requires open { high + 1 < 2 ^ bend_count job.now }
    requires base { (table : TableData) × IsClosedText job.now table base.now }
    ensures { IfOk result (λ told. (table : TableData) → IsClosedText job.now table base.now
        → IsSettledText job.now table low high told) }
{
    let rows = base_rows(alloc, job, base, low, high)?;
    settled_over(alloc, job, &rows, low, high)
}

/// The text of the keys of a range, settled over a base whose rows are cut at it.
fn settled_over<'a>(
    alloc: Global,
    job: &Job,
    base: &BaseRows<'a>,
    low: u16,
    high: u16,
) -> Result<SettledText<'a>, AllocError>
    requires range { low ≤ high }
    requires open { high + 1 < 2 ^ bend_count job.now }
    requires base { (table : TableData) × IsTable job.now table × IsClosedTable job.now table
        × AreCut job.now table low high base.now }
    ensures { IfOk result (λ told. (table : TableData) → IsTable job.now table
        → IsClosedTable job.now table → AreCut job.now table low high base.now
        → IsSettledText job.now table low high told) }
{
    job.recall_valid();
    let heads = base.heads.as_slice();
    let facts = LaneFacts::open(alloc, job)?;
    let settled = settle_sets(alloc, job, &facts, heads, low, high)?;
    let at_start = proved_over(job, &facts, heads, &settled, &start_key());
    let text = SettledPieces::open(alloc, job, settled, low, base)?;
    Ok(SettledText {
        text,
        rows: row_count(job.stages(), low, high) + (heads.len() - base.inside),
        at_start,
    })
}

/// How many rows the sets of a range have on a machine of so many stages.
fn row_count(stages: u8, low: u16, high: u16) -> usize
    requires stages { stages ≤ 6 }
    requires range { low ≤ high }
    ensures { result ≡ (high + 1 - low) * (24 * stages) }
{
    (usize::from(high - low) + 1) * (24 * usize::from(stages))
}
