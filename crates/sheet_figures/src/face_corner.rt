//! The corner of face 0 in the view from above.
ghost use Rattle.std.specs.Prelude.{◌≡◌, ◌^◌, ◌≤◌, ◌++◌, pos, ◌*ℤ◌, unsigned_abs, slice_index_or, OnOk};
ghost use Rattle.brake_base.specs.Vectors.{IsWithin};
ghost use Rattle.brake_base.specs.Turns.{map_of, stay};
ghost use Rattle.unfolder.specs.Near.{IsRectWithin};
ghost use Rattle.unfolder.specs.Cores.{core};
ghost use Rattle.sheet_paper.specs.Windows.{IsWindow};
ghost use Rattle.sheet_views.specs.Drawing.{drawing_data};
ghost use Rattle.sheet_views.specs.Near.{IsNearDrawing};
ghost use Rattle.sheet_figures.specs.FaceCorner.{rise, side_of, corner_point, mark_line, side_lines, corner_lines};

use crate::side::downwards;
use brake_base::{Place, V3};
use job_setup::Job;
use sheet_paper::{Window, put_triangle};
use sheet_views::Drawing;
use std::alloc::AllocError;
use unfolder::FlatRect;
use unfolder::cores::cores;

/// Where face 0 lies.
fn face_0(drawing: &Drawing) -> &Place
    requires { IsNearDrawing (drawing_data drawing.now) }
    ensures value { map_of result.now
        ≡ slice_index_or (drawing_data drawing.now).pose.places 0 stay }
    ensures near { IsWithin (2 ^ 40) result.now.at }
{
    &drawing.pose.places.as_slice()[0]
}

/// The core of face 0.
fn first_core(job: &Job) -> FlatRect
    ensures value { result ≡ core job.now.part.faces job.now.q 0 }
    ensures within { IsRectWithin 21000000 result }
{
    let cores = cores(job.part(), job.q());
    cores.as_slice()[0]
}

/// How far up a step of 1 out of side A leads: 1 where side A looks up, -1 where it looks down.
#[tactic(auto, using(sheet_paper::proofs::Texts::pieces))]
fn rise(place: &Place) -> i64
    ensures { result ≡ rise (map_of place.now) }
{
    place.turn.apply(V3 { x: 0, y: 0, z: 1 }).z
}

/// Where side A of face 0 looks.
#[derive(Clone, Copy)]
enum SideA {
    Up,
    Down,
    Upright,
}

/// Where side A looks, by how far up a step out of it leads.
#[tactic(auto, unfolding(crate::specs::FaceCorner::side_of))]
fn side_of(rise: i64) -> SideA
    ensures { result ≡ side_of rise }
{
    if rise == 1 {
        SideA::Up
    } else if rise == -1 {
        SideA::Down
    } else {
        SideA::Upright
    }
}

/// How long the sides of the triangle are that marks the corner.
fn corner_side(window: &Window) -> i64
    requires { IsWindow window.now }
    ensures value { result ≡ (pos 34 *ℤ window.now.unit) }
    ensures near { unsigned_abs result ≤ 2 ^ 36 }
{
    window.tenths(34)
}

/// The point of face 0 that lies so far to the right of its core's corner and above it, as a mark.
fn corner_point(place: &Place, core: &FlatRect, right: i64, up: i64) -> (i64, i64)
    requires place { IsWithin (2 ^ 40) place.now.at }
    requires core { IsRectWithin 21000000 core.now }
    requires right { unsigned_abs right ≤ 2 ^ 36 }
    requires up { unsigned_abs up ≤ 2 ^ 36 }
    ensures { result ≡ corner_point (map_of place.now) core.now right up }
{
    let point = place.map(V3 {
        x: core.x0 + right,
        y: core.y0 + up,
        z: 0,
    });
    (point.x, downwards(point.y))
}

/// The triangle that marks the corner, of a class.
fn put_mark(
    out: &mut Vec<u8>,
    window: &Window,
    place: &Place,
    core: &FlatRect,
    class: &'static [u8],
) -> Result<(), AllocError>
    requires window { IsWindow window.now }
    requires place { IsWithin (2 ^ 40) place.now.at }
    requires core { IsRectWithin 21000000 core.now }
    ensures { OnOk result (out.new.items
        ≡ out.old.items ++ mark_line window.now (map_of place.now) core.now class.now) }
{
    let side = corner_side(window);
    let corner = corner_point(place, core, 0, 0);
    let right = corner_point(place, core, side, 0);
    let upper = corner_point(place, core, 0, side);
    let pen: (&'static [u8], i64) = (class, 2);
    put_triangle(out, window, pen, corner, right, upper)
}

/// The mark of the corner, by where side A looks.
#[tactic(auto, unfolding(crate::specs::FaceCorner::side_lines))]
fn put_side(
    out: &mut Vec<u8>,
    window: &Window,
    side: SideA,
    place: &Place,
    core: &FlatRect,
) -> Result<(), AllocError>
    requires window { IsWindow window.now }
    requires place { IsWithin (2 ^ 40) place.now.at }
    requires core { IsRectWithin 21000000 core.now }
    ensures { OnOk result (out.new.items
        ≡ out.old.items ++ side_lines side window.now (map_of place.now) core.now) }
{
    match side {
        SideA::Up => put_mark(out, window, place, core, b"side-a"),
        SideA::Down => put_mark(out, window, place, core, b"side-b"),
        SideA::Upright => Ok(()),
    }
}

/// The corner of face 0: black where side A is seen, white where side B is.
pub(crate) fn put_corner(
    out: &mut Vec<u8>,
    window: &Window,
    job: &Job,
    drawing: &Drawing,
) -> Result<(), AllocError>
    requires window { IsWindow window.now }
    requires drawing { IsNearDrawing (drawing_data drawing.now) }
    ensures { OnOk result (out.new.items
        ≡ out.old.items ++ corner_lines window.now job.now (drawing_data drawing.now)) }
{
    let place = face_0(drawing);
    let core = first_core(job);
    put_side(out, window, side_of(rise(place)), place, &core)
}
