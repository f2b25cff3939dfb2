//! The side views of a stroke: what both have, and the view before it.
ghost use Rattle.std.specs.Prelude.{◌≡◌, ◌^◌, ◌<◌, ◌≤◌, ◌++◌, pos, neg_ℤ, ◌≤ℤ◌, unsigned_abs, length, IfOk, OnOk};
ghost use Rattle.sheet_paper.specs.Windows.{IsPaper, IsWindow};
ghost use Rattle.sheet_paper.specs.FigureLines.{label_data, IsLabel};
ghost use Rattle.sheet_views.specs.Near.{IsNearFingers};
ghost use Rattle.sheet_figures.specs.SideViews.{side_paper, corner_label, corner_names, lowered_line, tools_before, axis_line, foot_line, gauge_marks, figure_begin, before_sentence, before_shapes, before_marks, before_lines};

use crate::forms::LOWERED;
use crate::parts::{Shown, across_bed, put_part};
use crate::titles::{BACKGAUGE, BEFORE_SENTENCE, BEFORE_STROKE, BEHIND_LINE, OPERATOR};
use crate::tools::{put_lower_shapes, put_upper_shapes};
use brake_text::put_word;
use job_setup::Job;
use sheet_paper::{
    Dashes, Label, Paper, Window, put_dimension, put_figure, put_figure_end, put_frame,
    put_group_end, put_label, put_line_between, put_rectangle, put_shapes_end,
};
use sheet_views::{DrawnBox, Fingers, across};
use sheet_words::{mm, put_mm};
use std::alloc::{AllocError, Global};
use svg_text::put_line;

/// The thickness of the sheet.
pub(crate) fn thickness(job: &Job) -> i64
    ensures value { result ≡ job.now.part.thickness }
    ensures thin { pos 0 ≤ℤ result }
    ensures thick { result ≤ℤ pos 50000 }
{
    job.part().thickness
}

/// A place as it is counted downwards.
pub(crate) fn downwards(value: i64) -> i64
    requires { unsigned_abs value ≤ 2 ^ 62 }
    ensures { result ≡ neg_ℤ value }
{
    -value
}

/// The paper of a side view.
pub(crate) fn side_paper(width: i64) -> Paper
    requires { unsigned_abs width ≤ 2 ^ 10 }
    ensures value { result ≡ side_paper width }
    ensures valid { IsPaper result }
{
    Paper {
        bottom: 7,
        ..Paper::framed(width, 49, 1)
    }
}

/// The label of a lower corner of the window.
fn corner_label(window: &Window, x: i64, right: i64, class: &'static [u8]) -> Label
    requires window { IsWindow window.now }
    requires x { unsigned_abs x ≤ 2 ^ 52 }
    requires right { unsigned_abs right ≤ 2 ^ 10 }
    ensures value { label_data result ≡ corner_label window.now x right class.now }
    ensures label { IsLabel (label_data result) }
{
    Label {
        at: (x, window.foot()),
        moved: (right, 9),
        size: 20,
        class,
    }
}

/// The words at the window's lower corners.
#[tactic(auto, using(sheet_paper::proofs::Texts::pieces), unfolding(crate::specs::SideViews::corner_names))]
pub(crate) fn put_corner_names(out: &mut Vec<u8>, window: &Window) -> Result<(), AllocError>
    requires { IsWindow window.now }
    ensures { OnOk result (out.new.items ≡ out.old.items ++ corner_names window.now) }
{
    let operator = corner_label(window, window.x, 8, b"soft s");
    put_label(out, window, &operator, OPERATOR)?;
    let backgauge = corner_label(window, window.x1(), -8, b"soft e");
    put_label(out, window, &backgauge, BACKGAUGE)
}

/// Begins what is lowered by a length.
#[tactic(auto, using(sheet_paper::proofs::Texts::pieces))]
fn put_lowered(out: &mut Vec<u8>, window: &Window, by: i64) -> Result<(), AllocError>
    requires window { IsWindow window.now }
    requires by { unsigned_abs by ≤ 2 ^ 40 }
    ensures { OnOk result (out.new.items ≡ out.old.items ++ lowered_line window.now by) }
{
    put_line(out, LOWERED, &[window.length(downwards(by))])
}

/// The tools before a stroke: the lower ones lie lower by the sheet's thickness.
#[tactic(auto, using(sheet_paper::proofs::Texts::pieces), unfolding(crate::specs::SideViews::tools_before))]
pub(crate) fn put_tools_before(
    out: &mut Vec<u8>,
    window: &Window,
    job: &Job,
    stage: u8,
) -> Result<(), AllocError>
    requires window { IsWindow window.now }
    requires stage { stage < length job.now.setup.stages }
    ensures { OnOk result (out.new.items ≡ out.old.items ++ tools_before window.now job.now stage) }
{
    put_lowered(out, window, thickness(job))?;
    put_lower_shapes(out, window, job, stage)?;
    put_group_end(out)?;
    put_upper_shapes(out, window, job, stage)
}

/// The axis of the bend line, from above the sheet to below the window.
fn put_axis(out: &mut Vec<u8>, window: &Window, thickness: i64) -> Result<(), AllocError>
    requires window { IsWindow window.now }
    requires thickness { unsigned_abs thickness ≤ 2 ^ 40 }
    ensures { OnOk result (out.new.items ≡ out.old.items ++ axis_line window.now thickness) }
{
    let from = window.beyond(thickness, 10);
    let to = window.beyond(window.foot(), 48);
    let pen: (&'static [u8], i64, Dashes) = (b"bend", 1, Dashes::Dotted(20, 6, 3, 6));
    put_line_between(out, window, pen, (0, from), (0, to))
}

/// The line from a finger's foot to below the window.
fn put_foot(out: &mut Vec<u8>, window: &Window, fingers: &Fingers) -> Result<(), AllocError>
    requires window { IsWindow window.now }
    requires fingers { IsNearFingers fingers.now }
    ensures { OnOk result (out.new.items ≡ out.old.items ++ foot_line window.now fingers.now) }
{
    let to = window.beyond(window.foot(), 48);
    let pen: (&'static [u8], i64, Dashes) = (b"thin", 1, Dashes::Whole);
    let foot = downwards(fingers.left.lo.z);
    put_line_between(out, window, pen, (fingers.edge, foot), (fingers.edge, to))
}

/// The axis of the bend line, the finger's foot and the dimension between them.
#[tactic(auto, using(sheet_paper::proofs::Texts::pieces, crate::proofs::Lengths::length_short), unfolding(crate::specs::SideViews::gauge_marks))]
fn put_gauge(
    out: &mut Vec<u8>,
    window: &Window,
    thickness: i64,
    fingers: &Fingers,
) -> Result<(), AllocError>
    requires window { IsWindow window.now }
    requires thickness { unsigned_abs thickness ≤ 2 ^ 40 }
    requires fingers { IsNearFingers fingers.now }
    ensures { OnOk result (out.new.items
        ≡ out.old.items ++ gauge_marks window.now thickness fingers.now) }
{
    let words = mm(*out.allocator(), fingers.edge)?;
    put_axis(out, window, thickness)?;
    put_foot(out, window, fingers)?;
    let at = window.beyond(window.foot(), 36);
    put_dimension(out, window, 0, fingers.edge, at, words.as_slice())
}

/// What the view before a stroke says to those who can't see it.
#[tactic(auto, using(sheet_paper::proofs::Texts::pieces), unfolding(crate::specs::SideViews::before_sentence))]
fn before_sentence(alloc: Global, edge: i64) -> Result<Vec<u8>, AllocError>
    ensures { IfOk result (λ sentence. sentence.items ≡ before_sentence edge) }
{
    let mut out = Vec::new(alloc);
    put_word(&mut out, BEFORE_SENTENCE)?;
    put_mm(&mut out, edge)?;
    put_word(&mut out, BEHIND_LINE)?;
    Ok(out)
}

/// The shapes before a stroke: the tools, the left finger and the part.
#[tactic(auto, using(sheet_paper::proofs::Texts::pieces), unfolding(crate::specs::SideViews::before_shapes))]
fn put_shapes_before(
    out: &mut Vec<u8>,
    window: &Window,
    job: &Job,
    stage: u8,
    boxes: &[DrawnBox],
    fingers: &Fingers,
) -> Result<(), AllocError>
    requires window { IsWindow window.now }
    requires stage { stage < length job.now.setup.stages }
    ensures { OnOk result (out.new.items ≡ out.old.items
        ++ before_shapes window.now job.now stage boxes.now fingers.now) }
{
    put_tools_before(out, window, job, stage)?;
    let finger = across_bed(&across(&fingers.left));
    put_rectangle(out, window, b"finger", 3, &finger)?;
    put_part(out, window, Shown::Whole, boxes)?;
    put_shapes_end(out)
}

/// Begins a figure with its title and a sentence for those who can't see it.
#[tactic(auto, using(sheet_paper::proofs::Texts::pieces), unfolding(crate::specs::SideViews::figure_begin))]
pub(crate) fn put_begin<'a>(
    out: &mut Vec<u8>,
    window: &Window,
    title: &'a [u8],
    sentence: &'a [u8],
) -> Result<(), AllocError>
    requires { IsWindow window.now }
    ensures { OnOk result (out.new.items
        ≡ out.old.items ++ figure_begin window.now title.now sentence.now) }
{
    put_figure(out, window, title, sentence)
}

/// The marks before a stroke: the frame, the words at its corners and the gauge.
#[tactic(auto, using(sheet_paper::proofs::Texts::pieces), unfolding(crate::specs::SideViews::before_marks))]
fn put_marks_before(
    out: &mut Vec<u8>,
    window: &Window,
    thickness: i64,
    fingers: &Fingers,
) -> Result<(), AllocError>
    requires window { IsWindow window.now }
    requires thickness { unsigned_abs thickness ≤ 2 ^ 40 }
    requires fingers { IsNearFingers fingers.now }
    ensures { OnOk result (out.new.items
        ≡ out.old.items ++ before_marks window.now thickness fingers.now) }
{
    put_frame(out, window)?;
    put_corner_names(out, window)?;
    put_gauge(out, window, thickness, fingers)
}

/// The view before a stroke.
#[tactic(auto, using(sheet_paper::proofs::Texts::pieces), unfolding(crate::specs::SideViews::before_lines))]
pub(crate) fn put_before(
    out: &mut Vec<u8>,
    window: &Window,
    job: &Job,
    stage: u8,
    boxes: &[DrawnBox],
    fingers: &Fingers,
) -> Result<(), AllocError>
    requires window { IsWindow window.now }
    requires stage { stage < length job.now.setup.stages }
    requires fingers { IsNearFingers fingers.now }
    ensures { OnOk result (out.new.items ≡ out.old.items
        ++ before_lines window.now job.now stage boxes.now fingers.now) }
{
    let sentence = before_sentence(*out.allocator(), fingers.edge)?;
    put_begin(out, window, BEFORE_STROKE, sentence.as_slice())?;
    put_shapes_before(out, window, job, stage, boxes, fingers)?;
    put_marks_before(out, window, thickness(job), fingers)?;
    put_figure_end(out, window, BEFORE_STROKE)
}
