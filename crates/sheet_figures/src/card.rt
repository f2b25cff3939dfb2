//! A station from the right.
ghost use Rattle.std.specs.Prelude.{◌≡◌, ◌^◌, ◌<◌, ◌≤◌, ◌++◌, unsigned_abs, length, All, OnOk};
ghost use Rattle.job_setup.specs.Setup.{stage_data};
ghost use Rattle.job_setup.specs.Near.{IsNearProfile, HasNearTools};
ghost use Rattle.job_setup.specs.ValidJob.{IsStage};
ghost use Rattle.sheet_paper.specs.Windows.{IsDrawable, IsWindow};
ghost use Rattle.sheet_figures.specs.Extending.{Extends};
ghost use Rattle.sheet_figures.specs.Cards.{card_shapes, IsCardFigure};

use crate::side::put_begin;
use crate::tools::{put_lower_shapes, put_upper_shapes, stage_at};
use crate::windows::window_for;
use brake_base::Rect;
use brake_text::{put_number, put_word};
use job_setup::{Job, Stage};
use sheet_paper::{Area, Paper, Window, put_figure_end, put_frame, put_shapes_end};
use std::alloc::{AllocError, Global};

/// How far a rectangle reaches from the bend line, or as far as others do.
fn farther(reach: i64, rect: &Rect) -> i64
    requires reach { unsigned_abs reach ≤ 2 ^ 40 }
    requires rect { IsNearProfile rect.now }
    ensures { unsigned_abs result ≤ 2 ^ 40 }
{
    reach.max(rect.y0.abs()).max(rect.y1.abs())
}

/// How far boxes reach from the bend line.
fn reach_of(rects: &[Rect], least: i64) -> i64
    requires rects { All IsNearProfile rects.now }
    requires least { unsigned_abs least ≤ 2 ^ 40 }
    ensures { unsigned_abs result ≤ 2 ^ 40 }
{
    let mut reach = least;
    for rect in rects {
        reach = farther(reach, rect);
    }
    reach
}

/// What is shown of a station.
fn card_area(stage: &Stage) -> Area
    requires valid { IsStage (stage_data stage.now) }
    requires tools { HasNearTools (stage_data stage.now) }
    ensures { IsDrawable result }
{
    let reach = reach_of(stage.die.body.as_slice(), stage.die.v);
    let reach = reach_of(stage.punch.body.as_slice(), reach);
    let (punch, die) = (stage.punch.height, stage.die.height);
    Area {
        x0: -reach,
        x1: reach,
        y0: -die - die / 12,
        y1: punch + punch / 12,
    }
}

/// The title of the view.
fn card_title(alloc: Global, number: u8) -> Result<Vec<u8>, AllocError> {
    let mut out = Vec::new(alloc);
    put_word(&mut out, b"Station ")?;
    put_number(&mut out, i64::from(number))?;
    put_word(&mut out, b", from the right")?;
    Ok(out)
}

/// What the view says to those who can't see it.
fn card_sentence(alloc: Global, stage: &Stage) -> Result<Vec<u8>, AllocError> {
    let mut out = Vec::new(alloc);
    put_word(&mut out, b"Punch ")?;
    put_word(&mut out, stage.punch.name.as_bytes())?;
    put_word(&mut out, b" above the die ")?;
    put_word(&mut out, stage.die.name.as_bytes())?;
    put_word(&mut out, b", the operator at the left.")?;
    Ok(out)
}

/// The tools of a station, and the frame.
#[tactic(auto, using(sheet_paper::proofs::Texts::pieces), unfolding(crate::specs::Cards::card_shapes))]
fn put_view(out: &mut Vec<u8>, window: &Window, job: &Job, number: u8) -> Result<(), AllocError>
    requires window { IsWindow window.now }
    requires number { number < length job.now.setup.stages }
    ensures { OnOk result (out.new.items
        ≡ out.old.items ++ card_shapes window.now job.now number) }
{
    put_upper_shapes(out, window, job, number)?;
    put_lower_shapes(out, window, job, number)?;
    put_shapes_end(out)?;
    put_frame(out, window)
}

/// A station from the right: its punch and die with their profiles.
pub fn put_card(out: &mut Vec<u8>, job: &Job, number: u8, figure: i64) -> Result<(), AllocError>
    requires { number < length job.now.setup.stages }
    ensures value { OnOk result
        (IsCardFigure job.now number figure out.old.items out.new.items) }
    ensures grows { OnOk result (Extends out.old.items out.new.items) }
{
    let stage = stage_at(job, number);
    let area = card_area(stage);
    let window = window_for(Paper::framed(38, 50, 1), &area, figure);
    let words = card_title(*out.allocator(), number)?;
    let title = words.as_slice();
    let sentence = card_sentence(*out.allocator(), stage)?;
    put_begin(out, &window, title, sentence.as_slice())?;
    put_view(out, &window, job, number)?;
    put_figure_end(out, &window, title)?;
    Ok(())
}
