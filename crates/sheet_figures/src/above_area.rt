//! What the view of a stroke from above shows.
ghost use Rattle.std.specs.Prelude.{◌≡◌, ◌^◌, ◌<◌, length, All};
ghost use Rattle.brake_base.specs.Boxes.{IsBoxWithin};
ghost use Rattle.job_setup.specs.Setup.{stage_data};
ghost use Rattle.job_setup.specs.Near.{IsNearProfile, IsNearStage, HasNearTools};
ghost use Rattle.sheet_paper.specs.Windows.{IsDrawable, joined};
ghost use Rattle.sheet_views.specs.Near.{IsNearFingers, AreNearBoxes};
ghost use Rattle.sheet_figures.specs.Above.{above_of};
ghost use Rattle.sheet_figures.specs.ShownAreas.{with_boxes, over_stage, with_die, range_of, above_area};

use crate::above::above_of;
use crate::tools::stage_at;
use brake_base::{Box3, Rect};
use job_setup::{Job, Stage};
use sheet_paper::Area;
use sheet_views::{DrawnBox, Fingers};

/// The least area that holds two.
pub(crate) fn joined(area: &Area, other: &Area) -> Area
    requires area { IsDrawable area.now }
    requires other { IsDrawable other.now }
    ensures value { result ≡ joined area.now other.now }
    ensures near { IsDrawable result }
{
    area.joined(other)
}

/// A box that is near, from above.
fn near_above(body: &Box3) -> Area
    requires { IsBoxWithin (2 ^ 40) body.now }
    ensures value { result ≡ above_of body.now }
    ensures near { IsDrawable result }
{
    above_of(body)
}

/// The area with the boxes of the part.
fn with_boxes(area: &Area, boxes: &[DrawnBox]) -> Area
    requires area { IsDrawable area.now }
    requires boxes { AreNearBoxes boxes.now }
    ensures value { result ≡ with_boxes area.now boxes.now }
    ensures near { IsDrawable result }
{
    let mut grown = *area;
    for part_box in boxes {
        grown = joined(&grown, &near_above(&part_box.body));
    }
    grown
}

/// A box of a stage's die from above.
#[tactic(auto, using(crate::proofs::Sizes::near_small))]
fn over_stage(stage: &Stage, rect: &Rect) -> Area
    requires stage { IsNearStage (stage_data stage.now) }
    requires rect { IsNearProfile rect.now }
    ensures value { result ≡ over_stage (stage_data stage.now) rect.now }
    ensures near { IsDrawable result }
{
    Area {
        x0: stage.x0,
        x1: stage.x1,
        y0: rect.y0,
        y1: rect.y1,
    }
}

/// The area with some boxes of a stage's die.
fn with_die(area: &Area, stage: &Stage, boxes: &[Rect]) -> Area
    requires area { IsDrawable area.now }
    requires stage { IsNearStage (stage_data stage.now) }
    requires boxes { All IsNearProfile boxes.now }
    ensures value { result ≡ with_die area.now (stage_data stage.now) boxes.now }
    ensures near { IsDrawable result }
{
    let mut grown = *area;
    for rect in boxes {
        grown = joined(&grown, &over_stage(stage, rect));
    }
    grown
}

/// The range of a stage along x, as high as an area.
#[tactic(auto, using(crate::proofs::Sizes::near_small))]
fn range_of(area: &Area, stage: &Stage) -> Area
    requires area { IsDrawable area.now }
    requires stage { IsNearStage (stage_data stage.now) }
    ensures value { result ≡ range_of area.now (stage_data stage.now) }
    ensures near { IsDrawable result }
{
    Area {
        x0: stage.x0,
        x1: stage.x1,
        y0: area.y0,
        y1: area.y1,
    }
}

/// The area with the range of a stage and the boxes of its die.
fn with_stage(area: &Area, stage: &Stage) -> Area
    requires area { IsDrawable area.now }
    requires near { IsNearStage (stage_data stage.now) }
    requires tools { HasNearTools (stage_data stage.now) }
    ensures value { result ≡ with_die (joined area.now (range_of area.now (stage_data stage.now)))
        (stage_data stage.now) (stage_data stage.now).die.body }
    ensures near { IsDrawable result }
{
    let area = joined(area, &range_of(area, stage));
    with_die(&area, stage, stage.die.body.as_slice())
}

/// What is shown: the station in use along x, its die across it, the part and the fingers.
pub(crate) fn above_area(job: &Job, stage: u8, boxes: &[DrawnBox], fingers: &Fingers) -> Area
    requires stage { stage < length job.now.setup.stages }
    requires boxes { AreNearBoxes boxes.now }
    requires fingers { IsNearFingers fingers.now }
    ensures value { result ≡ above_area job.now stage boxes.now fingers.now }
    ensures near { IsDrawable result }
{
    let area = joined(&near_above(&fingers.left), &near_above(&fingers.right));
    let area = with_boxes(&area, boxes);
    with_stage(&area, stage_at(job, stage))
}
