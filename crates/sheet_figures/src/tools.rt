//! The tools of a station, from the side.
ghost use Rattle.std.specs.Prelude.{◌≡◌, ◌^◌, ◌<◌, ◌≤◌, ◌++◌, unsigned_abs, length, flat_map, OnOk};
ghost use Rattle.job_setup.specs.Setup.{stage_data};
ghost use Rattle.job_setup.specs.StageOf.{stage_of};
ghost use Rattle.job_setup.specs.Near.{IsNearStage, HasNearTools};
ghost use Rattle.job_setup.specs.ValidJob.{IsStage};
ghost use Rattle.sheet_paper.specs.Windows.{IsWindow};
ghost use Rattle.sheet_figures.specs.Tools.{numbered_line, side_tool_line, nose_line, nose_text, half_of, vee_line, upper_lines, lower_lines};

use crate::forms::{LOWER_BOX, NOSE, UPPER_BOX, VEE};
use crate::parts::across_bed;
use crate::side::downwards;
use job_setup::{Job, Stage};
use sheet_paper::{Area, Window};
use sheet_views::{Tool, lower_tools, upper_tools};
use std::alloc::AllocError;
use svg_text::{Hole, put_line};

/// A box with its number.
#[tactic(auto, using(sheet_paper::proofs::Texts::pieces))]
pub(crate) fn put_numbered(
    out: &mut Vec<u8>,
    window: &Window,
    form: &'static [u8],
    index: u8,
    area: &Area,
) -> Result<(), AllocError>
    requires { IsWindow window.now }
    ensures { OnOk result (out.new.items
        ≡ out.old.items ++ numbered_line form.now window.now index area.now) }
{
    let holes = [
        window.width(1),
        window.length(area.x0),
        window.length(area.y0),
        window.length(area.x1),
        window.length(area.y1),
        window.length(area.x0),
        Hole::Number(i64::from(index)),
    ];
    put_line(out, form, &holes)
}

/// A box of the tools or the machine from the side.
fn put_side_tool(
    out: &mut Vec<u8>,
    window: &Window,
    form: &'static [u8],
    tool: &Tool,
) -> Result<(), AllocError>
    requires { IsWindow window.now }
    ensures { OnOk result (out.new.items
        ≡ out.old.items ++ side_tool_line form.now window.now tool.now) }
{
    put_numbered(out, window, form, tool.index, &across_bed(&tool.body.rect))
}

/// Boxes of the tools and the machine from the side.
fn put_side_tools(
    out: &mut Vec<u8>,
    window: &Window,
    form: &'static [u8],
    tools: &[Tool],
) -> Result<(), AllocError>
    requires { IsWindow window.now }
    ensures { OnOk result (out.new.items
        ≡ out.old.items ++ flat_map (side_tool_line form.now window.now) tools.now) }
{
    for tool in tools {
        put_side_tool(out, window, form, tool)?;
    }
    Ok(())
}

/// The nose of a punch.
#[tactic(auto, using(sheet_paper::proofs::Texts::pieces))]
pub(crate) fn put_nose(
    out: &mut Vec<u8>,
    window: &Window,
    class: &'static [u8],
    width: i64,
    nose: i64,
) -> Result<(), AllocError>
    requires window { IsWindow window.now }
    requires width { unsigned_abs width ≤ 2 ^ 20 }
    ensures { OnOk result (out.new.items
        ≡ out.old.items ++ nose_line window.now class.now width nose) }
{
    let holes = [
        Hole::Word(class),
        window.width(width),
        window.length(nose),
        window.length(nose),
        window.length(nose),
        window.length(nose),
    ];
    put_line(out, NOSE, &holes)
}

/// The nose of a punch that has one.
#[tactic(auto, unfolding(crate::specs::Tools::nose_text))]
fn put_nose_of(out: &mut Vec<u8>, window: &Window, nose: i64) -> Result<(), AllocError>
    requires { IsWindow window.now }
    ensures { OnOk result (out.new.items ≡ out.old.items ++ nose_text window.now nose) }
{
    if nose == 0 {
        return Ok(());
    }
    put_nose(out, window, b"tool", 1, nose)
}

/// Half of a length, rounded towards 0.
pub(crate) fn half_of(length: i64) -> i64
    ensures value { result ≡ half_of length }
    ensures near { unsigned_abs result ≤ 2 ^ 62 }
{
    length / 2
}

/// The opening of a die.
#[tactic(auto, using(sheet_paper::proofs::Texts::pieces))]
fn put_vee(out: &mut Vec<u8>, window: &Window, v: i64) -> Result<(), AllocError>
    requires { IsWindow window.now }
    ensures { OnOk result (out.new.items ≡ out.old.items ++ vee_line window.now v) }
{
    let half = half_of(v);
    let opposite = downwards(half);
    let holes = [
        window.width(1),
        window.length(opposite),
        window.length(opposite),
        window.length(half),
    ];
    put_line(out, VEE, &holes)
}

/// The stage of a number.
pub(crate) fn stage_at(job: &Job, stage: u8) -> &Stage
    requires { stage < length job.now.setup.stages }
    ensures value { stage_data result.now ≡ stage_of job.now stage }
    ensures valid { IsStage (stage_data result.now) }
    ensures near { IsNearStage (stage_data result.now) }
    ensures tools { HasNearTools (stage_data result.now) }
{
    &job.setup().stages.as_slice()[usize::from(stage)]
}

/// What stands above a station: the machine, the punch and its nose, at rest.
#[tactic(auto, using(sheet_paper::proofs::Texts::pieces), unfolding(crate::specs::Tools::upper_lines))]
pub(crate) fn put_upper_shapes(
    out: &mut Vec<u8>,
    window: &Window,
    job: &Job,
    stage: u8,
) -> Result<(), AllocError>
    requires window { IsWindow window.now }
    requires stage { stage < length job.now.setup.stages }
    ensures { OnOk result (out.new.items ≡ out.old.items ++ upper_lines window.now job.now stage) }
{
    let tools = upper_tools(job, stage);
    put_side_tools(out, window, UPPER_BOX, tools.as_slice())?;
    put_nose_of(out, window, stage_at(job, stage).punch.nose)
}

/// What stands under a station: the machine and the die with its opening, the die's upper edges at
/// z = 0.
#[tactic(auto, using(sheet_paper::proofs::Texts::pieces), unfolding(crate::specs::Tools::lower_lines))]
pub(crate) fn put_lower_shapes(
    out: &mut Vec<u8>,
    window: &Window,
    job: &Job,
    stage: u8,
) -> Result<(), AllocError>
    requires window { IsWindow window.now }
    requires stage { stage < length job.now.setup.stages }
    ensures { OnOk result (out.new.items ≡ out.old.items ++ lower_lines window.now job.now stage) }
{
    let tools = lower_tools(job, stage);
    put_side_tools(out, window, LOWER_BOX, tools.as_slice())?;
    put_vee(out, window, stage_at(job, stage).die.v)
}
