//! All side views of a stroke.
ghost use Rattle.std.specs.Prelude.{◌≡◌, ◌^◌, ◌<◌, ◌≤◌, ◌++◌, pos, ◌+ℤ◌, ◌≤ℤ◌, unsigned_abs, length, IfOk, OnOk};
ghost use Rattle.sheet_paper.specs.Windows.{IsDrawable, IsWindow};
ghost use Rattle.sheet_views.specs.Drawing.{drawing_data};
ghost use Rattle.sheet_views.specs.Near.{IsNearFingers, IsNearDrawing, IsNearArea};
ghost use Rattle.sheet_figures.specs.Extending.{Extends};
ghost use Rattle.sheet_figures.specs.Parts.{across_bed};
ghost use Rattle.sheet_figures.specs.SideViews.{side_paper};
ghost use Rattle.sheet_figures.specs.Strokes.{IsWindowFor, IsAtTools, IsSidesArea, IsOpeningShown, side_width, both_lines, IsRest, AreSideViews};

use crate::after::{opening, put_after, put_near};
use crate::parts::across_bed;
use crate::side::{put_before, side_paper};
use crate::windows::{tools_window, window_for};
use brake_base::{Action, Rect};
use job_setup::Job;
use sheet_paper::{Area, Window, least_scale};
use sheet_views::{Drawing, DrawnBox, Fingers, side_area};
use std::alloc::AllocError;

/// The view at the tools.
fn put_at_tools(
    out: &mut Vec<u8>,
    job: &Job,
    action: Action,
    boxes: &[DrawnBox],
    number: i64,
) -> Result<(), AllocError>
    requires stage { action.stage < length job.now.setup.stages }
    ensures value { OnOk result (IsAtTools job.now action boxes.now number
        out.old.items out.new.items) }
    ensures grows { OnOk result (Extends out.old.items out.new.items) }
{
    let window = tools_window(side_paper(48), 110, job, action.stage, number);
    put_near(out, &window, job, action, boxes)?;
    Ok(())
}

/// A rectangle across the bed that is near, as an area.
pub(crate) fn near_area(rect: &Rect) -> Area
    requires { IsNearArea rect.now }
    ensures value { result ≡ across_bed rect.now }
    ensures near { IsDrawable result }
{
    across_bed(rect)
}

/// What the side views show.
fn sides_area(job: &Job, stage: u8, drawing: &Drawing, fingers: &Fingers) -> Area
    requires stage { stage < length job.now.setup.stages }
    requires drawing { IsNearDrawing (drawing_data drawing.now) }
    requires fingers { IsNearFingers fingers.now }
    ensures value { IsSidesArea job.now stage (drawing_data drawing.now) fingers.now result }
    ensures near { IsDrawable result }
{
    let shown = side_area(job, stage, &drawing.pose, Some(*fingers));
    near_area(&shown)
}

/// Whether the opening of a die shows as 2.5 mm on paper where an area has room in 89 by 41 mm.
fn shows_opening(v: i64, area: &Area) -> bool
    requires { IsDrawable area.now }
    ensures { IsOpeningShown v area.now result }
{
    let scale = least_scale(area.x1 - area.x0, area.y1 - area.y0, 890, 410);
    25 * scale <= v
}

/// The width of the paper of the views before and after a stroke.
fn side_width(shows: bool) -> i64
    ensures value { result ≡ side_width shows }
    ensures near { unsigned_abs result ≤ 2 ^ 10 }
{
    if shows { 91 } else { 67 }
}

/// The views before and after a stroke.
#[tactic(auto, using(sheet_paper::proofs::Texts::pieces), unfolding(crate::specs::Strokes::both_lines))]
fn put_before_and_after(
    out: &mut Vec<u8>,
    job: &Job,
    action: Action,
    drawing: &Drawing,
    fingers: &Fingers,
    windows: (Window, Window),
) -> Result<(), AllocError>
    requires stage { action.stage < length job.now.setup.stages }
    requires fingers { IsNearFingers fingers.now }
    requires first { IsWindow windows.0 }
    requires second { IsWindow windows.1 }
    ensures { OnOk result (out.new.items ≡ out.old.items
        ++ both_lines windows.0 windows.1 job.now action drawing.now.before.items fingers.now) }
{
    let boxes = drawing.before.as_slice();
    put_before(out, &windows.0, job, action.stage, boxes, fingers)?;
    put_after(out, &windows.1, job, action, boxes)
}

/// The windows of both views, in paper of a width.
fn both_windows(width: i64, area: &Area, number: i64) -> (Window, Window)
    requires width { unsigned_abs width ≤ 2 ^ 10 }
    requires area { IsDrawable area.now }
    requires number { unsigned_abs number ≤ 2 ^ 20 }
    ensures first { IsWindowFor (side_paper width) area.now number result.0 }
    ensures second { IsWindowFor (side_paper width) area.now (number +ℤ pos 1) result.1 }
    ensures first_valid { IsWindow result.0 }
    ensures second_valid { IsWindow result.1 }
{
    let first = window_for(side_paper(width), area, number);
    let second = window_for(side_paper(width), area, number + 1);
    (first, second)
}

/// What follows the views before and after a stroke, and how many views there are then: two, or
/// three with that at the tools where the others don't show the die's opening.
fn put_rest(
    out: &mut Vec<u8>,
    job: &Job,
    action: Action,
    drawing: &Drawing,
    shows: bool,
    number: i64,
) -> Result<i64, AllocError>
    requires stage { action.stage < length job.now.setup.stages }
    ensures value { IfOk result (λ count. IsRest job.now action drawing.now.before.items shows
        number count out.old.items out.new.items) }
    ensures grows { OnOk result (Extends out.old.items out.new.items) }
    ensures count { IfOk result (λ count. (pos 2 ≤ℤ count) × (count ≤ℤ pos 3)) }
{
    if shows {
        return Ok(2);
    }
    put_at_tools(out, job, action, drawing.before.as_slice(), number)?;
    Ok(3)
}

/// The side views of a stroke, numbered from `number`, and how many: before and after it, and at
/// the tools where the others don't show the die's opening.
pub fn put_sides(
    out: &mut Vec<u8>,
    job: &Job,
    action: Action,
    drawing: &Drawing,
    fingers: &Fingers,
    number: i64,
) -> Result<i64, AllocError>
    requires stage { action.stage < length job.now.setup.stages }
    requires drawing { IsNearDrawing (drawing_data drawing.now) }
    requires fingers { IsNearFingers fingers.now }
    requires number { unsigned_abs number ≤ 2 ^ 20 }
    ensures value { IfOk result (λ count. AreSideViews job.now action (drawing_data drawing.now)
        fingers.now number count out.old.items out.new.items) }
    ensures grows { OnOk result (Extends out.old.items out.new.items) }
    ensures count { IfOk result (λ count. (pos 2 ≤ℤ count) × (count ≤ℤ pos 3)) }
{
    let area = sides_area(job, action.stage, drawing, fingers);
    let shows = shows_opening(opening(job, action.stage), &area);
    let windows = both_windows(side_width(shows), &area, number);
    put_before_and_after(out, job, action, drawing, fingers, windows)?;
    put_rest(out, job, action, drawing, shows, number + 2)
}
