//! The side views after a stroke.
ghost use Rattle.std.specs.Prelude.{◌≡◌, ◌^◌, ◌<◌, ◌≤◌, ◌++◌, pos, ◌≤ℤ◌, unsigned_abs, length, OnOk};
ghost use Rattle.job_setup.specs.StageOf.{stage_of};
ghost use Rattle.sheet_paper.specs.Windows.{IsDrawable, IsWindow};
ghost use Rattle.sheet_figures.specs.AfterViews.{shown_in, risen_line, tools_after, turned_line, turned_half, bend_arc_line, after_shapes, after_lines, near_lines, tools_point};

use crate::forms::{BEND_ARC, RISEN, TURNED};
use crate::parts::{Shown, put_part};
use crate::side::{downwards, put_begin, put_corner_names, thickness};
use crate::titles::{AFTER_SENTENCE, AFTER_STROKE, AT_TOOLS};
use crate::tools::{half_of, put_lower_shapes, put_upper_shapes, stage_at};
use brake_base::{Action, Back, Half};
use job_setup::Job;
use sheet_paper::{Area, Window, put_figure_end, put_frame, put_group_end, put_shapes_end};
use sheet_views::DrawnBox;
use std::alloc::AllocError;
use svg_text::{Hole, put_line};

/// The opening of a stage's die.
pub(crate) fn opening(job: &Job, stage: u8) -> i64
    requires { stage < length job.now.setup.stages }
    ensures value { result ≡ (stage_of job.now stage).die.v }
    ensures some { pos 0 ≤ℤ result }
    ensures few { result ≤ℤ pos 1000000 }
{
    stage_at(job, stage).die.v
}

/// Begins what has risen by half a die's opening, and less by the thickness along both slopes.
#[tactic(auto, using(sheet_paper::proofs::Texts::pieces))]
fn put_risen(out: &mut Vec<u8>, window: &Window, v: i64, thickness: i64) -> Result<(), AllocError>
    requires window { IsWindow window.now }
    requires thickness { unsigned_abs thickness ≤ 2 ^ 40 }
    ensures { OnOk result (out.new.items ≡ out.old.items ++ risen_line window.now v thickness) }
{
    let lower = downwards(thickness);
    let holes = [
        window.length(half_of(v)),
        window.length(lower),
        window.length(lower),
    ];
    put_line(out, RISEN, &holes)
}

/// The tools after a stroke: the lower ones have risen until their edges touch the bent sheet.
#[tactic(auto, using(sheet_paper::proofs::Texts::pieces), unfolding(crate::specs::AfterViews::tools_after))]
fn put_tools_after(
    out: &mut Vec<u8>,
    window: &Window,
    job: &Job,
    stage: u8,
) -> Result<(), AllocError>
    requires window { IsWindow window.now }
    requires stage { stage < length job.now.setup.stages }
    ensures { OnOk result (out.new.items ≡ out.old.items ++ tools_after window.now job.now stage) }
{
    put_risen(out, window, opening(job, stage), thickness(job))?;
    put_lower_shapes(out, window, job, stage)?;
    put_group_end(out)?;
    put_upper_shapes(out, window, job, stage)
}

/// Which boxes lie in a half, where this side is at the back: those that move are on the child's
/// side.
fn shown_in(half: Half, back: Back) -> Shown
    ensures { result ≡ shown_in half back }
{
    match (half, back) {
        (Half::Back, Back::Child) | (Half::Front, Back::Parent) => Shown::Moving,
        (Half::Back, Back::Parent) | (Half::Front, Back::Child) => Shown::Resting,
    }
}

/// Begins what is turned by so many degrees.
#[tactic(auto, using(sheet_paper::proofs::Texts::pieces))]
pub(crate) fn put_turned(out: &mut Vec<u8>, degrees: i64) -> Result<(), AllocError>
    ensures { OnOk result (out.new.items ≡ out.old.items ++ turned_line degrees) }
{
    put_line(out, TURNED, &[Hole::Number(degrees)])
}

/// A half of the part, turned by so many degrees.
#[tactic(auto, using(sheet_paper::proofs::Texts::pieces), unfolding(crate::specs::AfterViews::turned_half))]
fn put_turned_half(
    out: &mut Vec<u8>,
    window: &Window,
    degrees: i64,
    shown: Shown,
    boxes: &[DrawnBox],
) -> Result<(), AllocError>
    requires window { IsWindow window.now }
    ensures { OnOk result (out.new.items
        ≡ out.old.items ++ turned_half window.now degrees shown boxes.now) }
{
    put_turned(out, degrees)?;
    put_part(out, window, shown, boxes)
}

/// The sheet around the bend line.
#[tactic(auto, using(sheet_paper::proofs::Texts::pieces))]
fn put_bend_arc(out: &mut Vec<u8>, window: &Window, thickness: i64) -> Result<(), AllocError>
    requires window { IsWindow window.now }
    requires thickness { unsigned_abs thickness ≤ 2 ^ 40 }
    ensures { OnOk result (out.new.items ≡ out.old.items ++ bend_arc_line window.now thickness) }
{
    let lower = downwards(thickness);
    let holes = [
        window.width(3),
        window.length(lower),
        window.length(thickness),
        window.length(thickness),
        window.length(lower),
    ];
    put_line(out, BEND_ARC, &holes)
}

/// The shapes after a stroke: the tools, the front half turned up, then the back half and the sheet
/// around the bend line.
#[tactic(auto, using(sheet_paper::proofs::Texts::pieces), unfolding(crate::specs::AfterViews::after_shapes))]
fn put_shapes_after(
    out: &mut Vec<u8>,
    window: &Window,
    job: &Job,
    action: Action,
    boxes: &[DrawnBox],
) -> Result<(), AllocError>
    requires window { IsWindow window.now }
    requires stage { action.stage < length job.now.setup.stages }
    ensures { OnOk result (out.new.items
        ≡ out.old.items ++ after_shapes window.now job.now action boxes.now) }
{
    put_tools_after(out, window, job, action.stage)?;
    put_turned_half(out, window, -45, shown_in(Half::Front, action.back), boxes)?;
    put_group_end(out)?;
    put_turned_half(out, window, 45, shown_in(Half::Back, action.back), boxes)?;
    put_bend_arc(out, window, thickness(job))?;
    put_group_end(out)?;
    put_shapes_end(out)
}

/// The view after a stroke.
#[tactic(auto, using(sheet_paper::proofs::Texts::pieces), unfolding(crate::specs::AfterViews::after_lines))]
pub(crate) fn put_after(
    out: &mut Vec<u8>,
    window: &Window,
    job: &Job,
    action: Action,
    boxes: &[DrawnBox],
) -> Result<(), AllocError>
    requires window { IsWindow window.now }
    requires stage { action.stage < length job.now.setup.stages }
    ensures { OnOk result (out.new.items
        ≡ out.old.items ++ after_lines window.now job.now action boxes.now) }
{
    put_begin(out, window, AFTER_STROKE, AFTER_SENTENCE)?;
    put_shapes_after(out, window, job, action, boxes)?;
    put_frame(out, window)?;
    put_corner_names(out, window)?;
    put_figure_end(out, window, AFTER_STROKE)
}

/// The view after a stroke at the tools.
#[tactic(auto, using(sheet_paper::proofs::Texts::pieces), unfolding(crate::specs::AfterViews::near_lines))]
pub(crate) fn put_near(
    out: &mut Vec<u8>,
    window: &Window,
    job: &Job,
    action: Action,
    boxes: &[DrawnBox],
) -> Result<(), AllocError>
    requires window { IsWindow window.now }
    requires stage { action.stage < length job.now.setup.stages }
    ensures { OnOk result (out.new.items
        ≡ out.old.items ++ near_lines window.now job.now action boxes.now) }
{
    put_begin(out, window, AT_TOOLS, AFTER_SENTENCE)?;
    put_shapes_after(out, window, job, action, boxes)?;
    put_frame(out, window)?;
    put_figure_end(out, window, AT_TOOLS)
}

/// The point in the middle of a view at the tools.
pub(crate) fn tools_point(v: i64) -> Area
    requires low { pos 0 ≤ℤ v }
    requires high { v ≤ℤ pos 1000000 }
    ensures value { result ≡ tools_point v }
    ensures near { IsDrawable result }
{
    let at = v.div_euclid(4);
    Area {
        x0: 0,
        x1: 0,
        y0: at,
        y1: at,
    }
}
