//! The merge of two tables of a job by their texts.
ghost use Rattle.std.specs.Prelude.{IfOk};
ghost use Rattle.cert_lines.specs.Lines.{IsWorth};
ghost use Rattle.cert_merge.specs.Table.{TableData};
ghost use Rattle.cert_merge.specs.Merged.{MergeLaws};
ghost use Rattle.cert_merge.specs.MergedRows.{AreTextsOf};
ghost use Rattle.cert_merge.specs.MergedTexts.{IsMergeOfTexts};

use crate::merged_rows::{MergedRows, merged_rows};
use crate::proved_keys::proved;
use brake_base::Worth;
use handling_cost::start_key;
use job_setup::Job;
use std::alloc::{AllocError, Global};

/// The merge of two tables, as parts of their texts, with what its rows prove of the start key, in tenths
/// of a second.
#[derive(Drop)]
pub struct MergedTexts<'a> {
    pub rows: MergedRows<'a>,
    pub at_start: Worth,
}

/// The rows of two tables of a job by their keys, from their texts: a key of one keeps its row and its notes;
/// a key of both keeps the greater worth with its notes; at equal worth the notes are united, and of two
/// reasons against one action the first stays. A row that stays is its bytes; rows of one key with one worth
/// and other notes alone are put together note by note.
pub fn merge_texts<'a>(
    alloc: Global,
    job: &Job,
    first: &'a [u8],
    second: &'a [u8],
) -> Result<MergedTexts<'a>, AllocError>
    requires { (a : TableData) × (b : TableData) × AreTextsOf job.now a b first.now second.now }
    ensures merged { IfOk result (λ merged. (a b : TableData)
        → AreTextsOf job.now a b first.now second.now → IsMergeOfTexts job.now a b merged) }
    ensures small { IfOk result (λ merged. IsWorth merged.at_start) }
    ensures laws { MergeLaws }
{
    job.recall_valid();
    let rows = merged_rows(alloc, job, first, second)?;
    let at_start = proved(job, rows.heads.as_slice(), &start_key());
    Ok(MergedTexts { rows, at_start })
}
