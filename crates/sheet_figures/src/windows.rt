//! Windows of figures, at the least scale.
ghost use Rattle.std.specs.Prelude.{◌^◌, ◌<◌, ◌≤◌, unsigned_abs, length};
ghost use Rattle.sheet_paper.specs.Windows.{IsDrawable, IsPaper, IsWindow};
ghost use Rattle.sheet_figures.specs.Strokes.{IsWindowFor, IsToolsWindow};

use crate::after::{opening, tools_point};
use job_setup::Job;
use sheet_paper::{Area, Paper, Window, least_scale};

/// The window around an area, at the least scale at which it has room on the paper.
pub(crate) fn window_for(paper: Paper, area: &Area, number: i64) -> Window
    requires paper { IsPaper paper }
    requires area { IsDrawable area.now }
    ensures value { IsWindowFor paper area.now number result }
    ensures valid { IsWindow result }
{
    let scale = paper.scale_for(area);
    Window::around(paper, scale, area, number)
}

/// The window of a view at the tools, in which the die's opening has so many tenths of a millimetre
/// of room.
pub(crate) fn tools_window(paper: Paper, room: i64, job: &Job, stage: u8, number: i64) -> Window
    requires paper { IsPaper paper }
    requires room { unsigned_abs room ≤ 2 ^ 30 }
    requires stage { stage < length job.now.setup.stages }
    ensures value { IsToolsWindow paper room job.now stage number result }
    ensures valid { IsWindow result }
{
    let v = opening(job, stage);
    let scale = least_scale(v, 0, room, 1);
    Window::around(paper, scale, &tools_point(v), number)
}
