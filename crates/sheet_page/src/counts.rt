//! The table of how often each bend is refused for each kind of reasons.
ghost use Rattle.std.specs.Prelude.{◌≡◌, ◌<◌, ◌^◌, ◌++◌, flat_map, OnOk};
ghost use Rattle.brake_base.specs.Masks.{numbers_to};
ghost use Rattle.job_setup.specs.Setup.{bend_count};
ghost use Rattle.sheet_page.specs.Counts.{occurs, kind_head, count_cell, count_row, count_caption, count_table, counts_text};
ghost use Rattle.sheet_page.specs.Kept.{count_in, AreFew};

use crate::forms::{
    CAPTION, COUNT, COUNT_HEAD, COUNT_HEAD_END, COUNT_KIND, COUNT_ROW, COUNT_ROW_END, H2, SECTION,
    SECTION_END, TABLE, TABLE_END,
};
use crate::holes::text;
use crate::kept::Counts;
use brake_text::put_word;
use job_setup::Job;
use sheet_words::{kind_words, name_of, put_plural};
use std::alloc::AllocError;
use svg_text::{Hole, put_line};

/// The kinds of reasons in the order of reasons.
const KINDS: [u8; 9] = [1, 2, 3, 4, 5, 6, 7, 9, 8];

const IN_THE_WAY: &[u8] = b"What stands in the way, over all states";

const COUNTED_OVER: &[u8] = b"Refused strokes by bend and kind, over ";

const IN_CERTIFICATE: &[u8] = b" of the part in the certificate.";

/// Whether a kind of reasons occurs.
fn occurs(counts: &Counts, kind: u8) -> bool
    ensures { result ≡ occurs (count_in counts.now) kind }
{
    for bend in 1..13 {
        if counts.of(bend, kind) > 0 {
            return true;
        }
    }
    false
}

/// The column of a kind, where it occurs.
#[tactic(auto, using(sheet_paper::proofs::Texts::pieces), unfolding(crate::specs::Counts::kind_head))]
fn put_kind(out: &mut Vec<u8>, counts: &Counts, kind: u8) -> Result<(), AllocError>
    ensures { OnOk result (out.new.items ≡ out.old.items ++ kind_head (count_in counts.now) kind) }
{
    if !occurs(counts, kind) {
        return Ok(());
    }
    put_line(out, COUNT_KIND, &[text(kind_words(kind))])
}

/// A column for each of some kinds that occurs.
fn put_kinds(out: &mut Vec<u8>, counts: &Counts, kinds: &[u8]) -> Result<(), AllocError>
    ensures { OnOk result (out.new.items
        ≡ out.old.items ++ flat_map (kind_head (count_in counts.now)) kinds.now) }
{
    for kind in kinds {
        put_kind(out, counts, *kind)?;
    }
    Ok(())
}

/// The count of a bend and a kind, where the kind occurs.
#[tactic(auto, using(sheet_paper::proofs::Texts::pieces), unfolding(crate::specs::Counts::count_cell))]
fn put_count(out: &mut Vec<u8>, counts: &Counts, bend: u8, kind: u8) -> Result<(), AllocError>
    requires { AreFew counts.now }
    ensures { OnOk result (out.new.items
        ≡ out.old.items ++ count_cell (count_in counts.now) bend kind) }
{
    if !occurs(counts, kind) {
        return Ok(());
    }
    put_line(out, COUNT, &[Hole::Number(counts.of(bend, kind) as i64)])
}

/// The counts of a bend and of some kinds, those that occur.
fn put_row_counts(
    out: &mut Vec<u8>,
    counts: &Counts,
    bend: u8,
    kinds: &[u8],
) -> Result<(), AllocError>
    requires { AreFew counts.now }
    ensures { OnOk result (out.new.items
        ≡ out.old.items ++ flat_map (count_cell (count_in counts.now) bend) kinds.now) }
{
    for kind in kinds {
        put_count(out, counts, bend, *kind)?;
    }
    Ok(())
}

/// The row of a bend: its number, the name of its flange, and its counts.
#[tactic(auto, using(sheet_paper::proofs::Texts::pieces), unfolding(crate::specs::Counts::count_row))]
fn put_row(out: &mut Vec<u8>, job: &Job, counts: &Counts, bend: u8) -> Result<(), AllocError>
    requires { AreFew counts.now }
    ensures { OnOk result (out.new.items
        ≡ out.old.items ++ count_row job.now (count_in counts.now) bend) }
{
    let holes = [Hole::Number(i64::from(bend)), text(name_of(job, bend))];
    put_line(out, COUNT_ROW, &holes)?;
    put_row_counts(out, counts, bend, &KINDS)?;
    put_line(out, COUNT_ROW_END, &[])
}

/// A row for each bend.
fn put_rows(out: &mut Vec<u8>, job: &Job, counts: &Counts) -> Result<(), AllocError>
    requires { AreFew counts.now }
    ensures { OnOk result (out.new.items ≡ out.old.items
        ++ flat_map (count_row job.now (count_in counts.now)) (numbers_to (bend_count job.now))) }
{
    for bend in 1..job.bends() + 1 {
        put_row(out, job, counts, bend)?;
    }
    Ok(())
}

/// Over how many states the refusals are counted.
#[tactic(auto, using(sheet_paper::proofs::Texts::pieces), unfolding(crate::specs::Counts::count_caption))]
fn put_caption_words(out: &mut Vec<u8>, states: usize) -> Result<(), AllocError>
    requires { states < 2 ^ 63 }
    ensures { OnOk result (out.new.items ≡ out.old.items ++ count_caption states) }
{
    put_word(out, COUNTED_OVER)?;
    put_plural(out, states, b"state")?;
    put_word(out, IN_CERTIFICATE)
}

/// The table: a column for each kind that occurs, and a row for each bend.
#[tactic(auto, using(sheet_paper::proofs::Texts::pieces), unfolding(crate::specs::Counts::count_table))]
fn put_table(out: &mut Vec<u8>, job: &Job, counts: &Counts, states: usize) -> Result<(), AllocError>
    requires counts { AreFew counts.now }
    requires states { states < 2 ^ 63 }
    ensures { OnOk result (out.new.items
        ≡ out.old.items ++ count_table job.now (count_in counts.now) states) }
{
    let mut caption = Vec::new(*out.allocator());
    put_caption_words(&mut caption, states)?;
    put_line(out, TABLE, &[])?;
    put_line(out, CAPTION, &[Hole::Text(caption.as_slice())])?;
    put_line(out, COUNT_HEAD, &[])?;
    put_kinds(out, counts, &KINDS)?;
    put_line(out, COUNT_HEAD_END, &[])?;
    put_rows(out, job, counts)?;
    put_line(out, TABLE_END, &[])
}

/// The counts of refusals by bend and kind, over so many states.
#[tactic(auto, using(sheet_paper::proofs::Texts::pieces), unfolding(crate::specs::Counts::counts_text))]
pub fn put_counts(
    out: &mut Vec<u8>,
    job: &Job,
    counts: &Counts,
    states: usize,
) -> Result<(), AllocError>
    requires counts { AreFew counts.now }
    requires states { states < 2 ^ 63 }
    ensures { OnOk result (out.new.items
        ≡ out.old.items ++ counts_text job.now (count_in counts.now) states) }
{
    put_line(out, SECTION, &[Hole::Word(b"")])?;
    put_line(out, H2, &[Hole::Text(IN_THE_WAY)])?;
    put_table(out, job, counts, states)?;
    put_line(out, SECTION_END, &[])
}
