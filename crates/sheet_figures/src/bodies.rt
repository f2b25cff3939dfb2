//! The part as a body before a stroke and after it, at one scale and place.
ghost use Rattle.std.specs.Prelude.{◌≡◌, ◌^◌, ◌≤◌, unsigned_abs, Some, None, IfSome, OnOk};
ghost use Rattle.brake_base.specs.Vectors.{IsWithin};
ghost use Rattle.brake_base.specs.Boxes.{IsBoxWithin};
ghost use Rattle.sheet_paper.specs.Windows.{IsDrawable, IsPaper, IsScale, IsWindow};
ghost use Rattle.sheet_views.specs.Drawing.{drawing_data};
ghost use Rattle.sheet_figures.specs.Bodies.{IsPartView, body_paper, IsBodyScale, body_window, AreBodies};
ghost use Rattle.sheet_figures.specs.Extending.{Extends};
ghost use Rattle.box_paint.specs.Projection.{drawn};
ghost use Rattle.sheet_figures.specs.ShownAreas.{drawn_area, with_drawn, with_drawn_boxes, or_point, bodies_area};
ghost use Rattle.sheet_views.specs.Near.{AreNearBoxes, IsNearDrawing};

use crate::above_area::joined;
use crate::body::put_part_view;
use crate::titles::{PART_AFTER, PART_AFTER_SENTENCE, PART_BEFORE, PART_BEFORE_SENTENCE};
use box_paint::drawn;
use brake_base::{Box3, V3};
use sheet_paper::{Area, Paper, Window, least_scale};
use sheet_views::{Drawing, DrawnBox};
use std::alloc::AllocError;

/// How far to the right a point is drawn.
fn drawn_right(point: V3) -> i64
    requires { IsWithin (2 ^ 40) point }
    ensures value { result ≡ (drawn point).0 }
    ensures near { unsigned_abs result ≤ 2 ^ 48 }
{
    drawn(point).0
}

/// How far up a point is drawn.
fn drawn_up(point: V3) -> i64
    requires { IsWithin (2 ^ 40) point }
    ensures value { result ≡ (drawn point).1 }
    ensures near { unsigned_abs result ≤ 2 ^ 48 }
{
    drawn(point).1
}

/// What is shown of a box: the least area that holds the drawn places of its corners.
fn drawn_area(body: &Box3) -> Area
    requires { IsBoxWithin (2 ^ 40) body.now }
    ensures value { result ≡ drawn_area body.now }
    ensures near { IsDrawable result }
{
    let Box3 { lo, hi } = *body;
    Area {
        x0: drawn_right(lo),
        x1: drawn_right(hi),
        y0: drawn_up(V3 { x: hi.x, ..lo }),
        y1: drawn_up(V3 { x: lo.x, ..hi }),
    }
}

/// The area with what is shown of some boxes.
fn with_drawn_boxes(area: Option<Area>, boxes: &[DrawnBox]) -> Option<Area>
    requires area { IfSome area IsDrawable }
    requires boxes { AreNearBoxes boxes.now }
    ensures value { result ≡ with_drawn_boxes area boxes.now }
    ensures near { IfSome result IsDrawable }
{
    let mut all = area;
    for part_box in boxes {
        all = Some(with_drawn(all, &drawn_area(&part_box.body)));
    }
    all
}

/// The least area that holds both, where there is a first.
#[tactic(auto, unfolding(crate::specs::ShownAreas::with_drawn))]
fn with_drawn(first: Option<Area>, second: &Area) -> Area
    requires first { IfSome first IsDrawable }
    requires second { IsDrawable second.now }
    ensures value { result ≡ with_drawn first second.now }
    ensures near { IsDrawable result }
{
    match first {
        Some(first) => joined(&first, second),
        None => *second,
    }
}

/// An area, or a point where there is none.
#[tactic(auto, unfolding(crate::specs::ShownAreas::or_point))]
fn or_point(area: Option<Area>) -> Area
    requires { IfSome area IsDrawable }
    ensures value { result ≡ or_point area }
    ensures near { IsDrawable result }
{
    match area {
        Some(area) => area,
        None => Area::default(),
    }
}

/// What both views of a stroke show.
fn bodies_area(before: &[DrawnBox], after: &[DrawnBox]) -> Area
    requires before { AreNearBoxes before.now }
    requires after { AreNearBoxes after.now }
    ensures value { result ≡ bodies_area before.now after.now }
    ensures near { IsDrawable result }
{
    or_point(with_drawn_boxes(with_drawn_boxes(None, before), after))
}

/// The paper of a view.
fn body_paper() -> Paper
    ensures value { result ≡ body_paper }
    ensures valid { IsPaper result }
{
    Paper::framed(60, 42, 1)
}

/// The least scale at which an area in hundredths of a micrometre has room.
fn body_scale(area: &Area) -> i64
    requires { IsDrawable area.now }
    ensures least { IsBodyScale area.now result }
    ensures valid { IsScale result }
{
    let paper = body_paper();
    least_scale(
        area.x1 - area.x0,
        area.y1 - area.y0,
        100 * paper.across(),
        100 * paper.upright(),
    )
}

/// The window of a view.
fn body_window(scale: i64, area: &Area, number: i64) -> Window
    requires scale { IsScale scale }
    requires area { IsDrawable area.now }
    ensures value { result ≡ body_window scale area.now number }
    ensures valid { IsWindow result }
{
    Window::around_drawn(body_paper(), scale, area, number)
}

/// The part before a stroke.
fn put_part_before(out: &mut Vec<u8>, window: &Window, drawing: &Drawing) -> Result<(), AllocError>
    requires window { IsWindow window.now }
    requires drawing { IsNearDrawing (drawing_data drawing.now) }
    ensures { OnOk result (IsPartView window.now PART_BEFORE.now PART_BEFORE_SENTENCE.now
        drawing.now.before.items (Some drawing.now.line) out.old.items out.new.items) }
{
    let boxes = drawing.before.as_slice();
    let line = Some(drawing.line);
    put_part_view(out, window, PART_BEFORE, PART_BEFORE_SENTENCE, boxes, line)
}

/// The part after a stroke.
fn put_part_after(out: &mut Vec<u8>, window: &Window, drawing: &Drawing) -> Result<(), AllocError>
    requires window { IsWindow window.now }
    requires drawing { IsNearDrawing (drawing_data drawing.now) }
    ensures { OnOk result (IsPartView window.now PART_AFTER.now PART_AFTER_SENTENCE.now
        drawing.now.after.items None out.old.items out.new.items) }
{
    let boxes = drawing.after.as_slice();
    put_part_view(out, window, PART_AFTER, PART_AFTER_SENTENCE, boxes, None)
}

/// The part before a stroke and after it, at one scale and place, numbered from `number`.
pub fn put_bodies(out: &mut Vec<u8>, drawing: &Drawing, number: i64) -> Result<(), AllocError>
    requires drawing { IsNearDrawing (drawing_data drawing.now) }
    requires number { unsigned_abs number ≤ 2 ^ 20 }
    ensures value { OnOk result (AreBodies (drawing_data drawing.now) number
        out.old.items out.new.items) }
    ensures grows { OnOk result (Extends out.old.items out.new.items) }
{
    let area = bodies_area(drawing.before.as_slice(), drawing.after.as_slice());
    let scale = body_scale(&area);
    put_part_before(out, &body_window(scale, &area, number), drawing)?;
    put_part_after(out, &body_window(scale, &area, number + 1), drawing)?;
    Ok(())
}
