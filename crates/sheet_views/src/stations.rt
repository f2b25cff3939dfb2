//! The boxes of the tools and the machine that are drawn with a station.
ghost use Rattle.std.specs.Prelude.{◌≡◌, ◌<◌, ◌≤◌, nat_le, length, filter};
ghost use Rattle.job_setup.specs.Setup.{stage_data};
ghost use Rattle.job_setup.specs.StageOf.{stage_of};
ghost use Rattle.job_setup.specs.Near.{HasNearTools};
ghost use Rattle.job_setup.specs.ValidJob.{IsStage};
ghost use Rattle.job_setup.specs.Places.{is_overlap};
ghost use Rattle.sheet_views.specs.Stations.{tool_of, numbered, is_along, upper_tools, lower_tools, die_boxes};

use arrayvec::ArrayVec;
use job_setup::{Job, Stage, lower_boxes, upper_boxes};
use machine_file::Fixed;

/// A box of the upper or the lower group, with its number within the group: its range along the bed,
/// and its rectangle across it as the files have it, with the dies' upper edges and the punches' tips
/// at z = 0.
#[derive(Clone, Copy, Debug, Default, PartialEq, Eq)]
pub struct Tool {
    pub index: u8,
    pub body: Fixed,
}

/// Boxes of a group, ascending by their numbers.
pub type Tools = ArrayVec<Tool, 64>;

/// The boxes above a station: those of the beam and the punches that share x with it.
pub fn upper_tools(job: &Job, stage: u8) -> Tools
    requires stage { stage < length job.now.setup.stages }
    ensures { result.items ≡ upper_tools job.now stage }
{
    let boxes = upper_boxes(job);
    let tools = numbered(boxes.as_slice());
    along(tools.as_slice(), stage_at(job, stage))
}

/// The boxes under a station: those of the bed and the dies that share x with it.
pub fn lower_tools(job: &Job, stage: u8) -> Tools
    requires stage { stage < length job.now.setup.stages }
    ensures { result.items ≡ lower_tools job.now stage }
{
    let boxes = lower_boxes(job);
    let tools = numbered(boxes.as_slice());
    along(tools.as_slice(), stage_at(job, stage))
}

/// The boxes of the dies of all stations, with their numbers within the lower group.
pub fn die_boxes(job: &Job) -> Tools
    requires some { 0 < length job.now.setup.stages }
    ensures { result.items ≡ die_boxes job.now }
{
    let boxes = lower_boxes(job);
    let tools = numbered(boxes.as_slice());
    numbered_from(tools.as_slice(), job.setup().lower.len())
}

/// The stage of a number.
pub(crate) fn stage_at(job: &Job, stage: u8) -> &Stage
    requires { stage < length job.now.setup.stages }
    ensures value { stage_data result.now ≡ stage_of job.now stage }
    ensures valid { IsStage (stage_data result.now) }
    ensures near { HasNearTools (stage_data result.now) }
{
    &job.setup().stages.as_slice()[usize::from(stage)]
}

/// Whether two ranges share an interior point.
pub(crate) fn is_overlap(a: (i64, i64), b: (i64, i64)) -> bool
    ensures { result ≡ is_overlap a b }
{
    a.0.max(b.0) < a.1.min(b.1)
}

/// The boxes of a group with their numbers, from 0.
fn numbered(boxes: &[Fixed]) -> Tools
    requires few { length boxes.now ≤ 64 }
    ensures value { result.items ≡ numbered boxes.now }
    ensures few { length result.items ≤ 64 }
{
    let mut tools = ArrayVec::new();
    for body in boxes {
        tools.push(tool_of(tools.len() as u8, body));
    }
    tools
}

fn tool_of(index: u8, body: &Fixed) -> Tool
    ensures { result ≡ tool_of (index, body.now) }
{
    Tool { index, body: *body }
}

/// Those of the boxes that share x with a stage.
fn along(tools: &[Tool], stage: &Stage) -> Tools
    requires few { length tools.now ≤ 64 }
    ensures { result.items ≡ filter (is_along (stage_data stage.now)) tools.now }
{
    let mut kept = ArrayVec::new();
    for tool in tools {
        if is_along(stage, tool) {
            kept.push(*tool);
        }
    }
    kept
}

/// Whether a box shares x with a stage.
fn is_along(stage: &Stage, tool: &Tool) -> bool
    ensures { result ≡ is_along (stage_data stage.now) tool.now }
{
    is_overlap((tool.body.x0, tool.body.x1), (stage.x0, stage.x1))
}

/// Those of the boxes whose numbers aren't below the first one.
fn numbered_from(tools: &[Tool], first: usize) -> Tools
    requires few { length tools.now ≤ 64 }
    ensures { result.items ≡ filter (λ tool. nat_le first tool.index) tools.now }
{
    let mut kept = ArrayVec::new();
    for tool in tools {
        if first <= usize::from(tool.index) {
            kept.push(*tool);
        }
    }
    kept
}
