//! The page of a plan.
ghost use Rattle.std.specs.Prelude.{◌≡◌, ◌<◌, ◌≤◌, ◌^◌, ◌++◌, pos, int_le, unsigned_abs, IsTrue, length, IfOk, OnOk};
ghost use Rattle.handling_cost.specs.Plan.{IsPlan, total, start};
ghost use Rattle.setup_sheet.specs.OrderSheet.{AreSteps};
ghost use Rattle.sheet_page.specs.Blocks.{IsFigureAt};
ghost use Rattle.sheet_page.specs.Page.{time_words, plan_head, order_part, HasParts, first_figure, IsPlanPage};

use crate::blank_part::{put_blank_section, put_face_section};
use crate::forms::PAGE_END;
use crate::head::put_head;
use crate::order::put_order;
use crate::station_part::put_stations;
use crate::stroke_block::put_strokes;
use brake_base::Step;
use brake_text::put_word;
use job_setup::Job;
use sheet_figures::flat_blank;
use sheet_words::{put_plural, put_seconds};
use std::alloc::{AllocError, Global};
use svg_text::put_line;

const LEAST_OF_ALL: &[u8] = b" s, the least of all orders";

/// The number of the first figure behind those of the blank, the bed and the stations.
pub fn first_figure(job: &Job) -> i64
    ensures value { result ≡ first_figure job.now }
    ensures range { IsFigureAt 0 result }
{
    4 + i64::from(job.stages())
}

/// How long the strokes take.
#[tactic(auto, using(sheet_paper::proofs::Texts::pieces), unfolding(crate::specs::Page::time_words))]
fn time_words(alloc: Global, cost: u64) -> Result<Vec<u8>, AllocError>
    requires { cost < 2 ^ 63 }
    ensures { IfOk result (λ words. words.items ≡ time_words cost) }
{
    let mut words = Vec::new(alloc);
    put_word(&mut words, b"time ")?;
    put_seconds(&mut words, cost)?;
    put_word(&mut words, LEAST_OF_ALL)?;
    Ok(words)
}

/// The head of the page of a plan of so many strokes.
#[tactic(auto, using(sheet_paper::proofs::Texts::pieces), unfolding(crate::specs::Page::plan_head))]
fn put_plan_head(
    out: &mut Vec<u8>,
    job: &Job,
    count: usize,
    cost: u64,
    size: i64,
) -> Result<(), AllocError>
    requires count { count < 2 ^ 63 }
    requires cost { cost < 2 ^ 63 }
    ensures { OnOk result (out.new.items
        ≡ out.old.items ++ plan_head job.now count cost size) }
{
    let alloc = *out.allocator();
    let mut verdict = Vec::new(alloc);
    put_plural(&mut verdict, count, b"stroke")?;
    let detail = time_words(alloc, cost)?;
    put_head(out, job, verdict.as_slice(), detail.as_slice(), size)
}

/// The table of the strokes, where there is one.
fn put_order_part(out: &mut Vec<u8>, job: &Job, steps: &[Step], cost: u64) -> Result<(), AllocError>
    requires steps { AreSteps job.now start steps.now }
    requires few { length steps.now ≤ 12 }
    requires cost { cost < 2 ^ 63 }
    ensures { OnOk result (out.new.items
        ≡ out.old.items ++ order_part job.now steps.now cost) }
{
    match steps {
        [] => Ok(()),
        [..] => put_order(out, job, steps, cost),
    }
}

/// What stands behind the head and before the strokes: the blank, the table of the strokes, the
/// faces and the stations.
fn put_parts(out: &mut Vec<u8>, job: &Job, steps: &[Step], cost: u64) -> Result<(), AllocError>
    requires steps { AreSteps job.now start steps.now }
    requires few { length steps.now ≤ 12 }
    requires cost { cost < 2 ^ 63 }
    ensures { OnOk result (HasParts job.now (length steps.now) (order_part job.now steps.now cost)
        out.old.items out.new.items) }
{
    let flat = flat_blank(job);
    put_blank_section(out, job, &flat, steps.len() as i64)?;
    put_order_part(out, job, steps, cost)?;
    put_face_section(out, job, &flat)?;
    put_stations(out, job)
}

/// The page of steps that can be told.
fn told_page(
    alloc: Global,
    job: &Job,
    steps: &[Step],
    cost: u64,
    size: i64,
) -> Result<Vec<u8>, AllocError>
    requires steps { AreSteps job.now start steps.now }
    requires few { length steps.now ≤ 12 }
    requires cost { cost < 2 ^ 63 }
    requires size { IsTrue (int_le (pos 0) size) }
    ensures { IfOk result (λ page.
        IsPlanPage job.now steps.now cost (unsigned_abs size) page.items) }
{
    let mut out = Vec::new(alloc);
    put_plan_head(&mut out, job, steps.len(), cost, size)?;
    put_parts(&mut out, job, steps, cost)?;
    put_strokes(&mut out, job, steps, first_figure(job))?;
    put_line(&mut out, PAGE_END, &[])?;
    Ok(out)
}

/// The page of a plan: its steps and what they cost in tenths of a second; the certificate has so
/// many bytes.
pub fn plan_page(
    alloc: Global,
    job: &Job,
    steps: &[Step],
    cost: u64,
    size: i64,
) -> Result<Vec<u8>, AllocError>
    requires plan { IsPlan job.now steps.now }
    requires cost { total job.now start steps.now ≡ cost }
    requires size { IsTrue (int_le (pos 0) size) }
    ensures { IfOk result (λ page.
        IsPlanPage job.now steps.now cost (unsigned_abs size) page.items) }
{
    job.recall_valid();
    told_page(alloc, job, steps, cost, size)
}
