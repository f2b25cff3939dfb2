//! A stroke of a plan.
ghost use Rattle.std.specs.Prelude.{◌≡◌};
ghost use Rattle.fold_boxes.specs.Pose.{turn_number};
ghost use Rattle.handling_cost.specs.StepCost.{IsKeyOf, change};
ghost use Rattle.handling_cost.specs.Plan.{start};
ghost use Rattle.setup_sheet.specs.OrderSheet.{IsStepAt};
ghost use Rattle.sheet_views.specs.Drawing.{drawing_data, drawing_of};
ghost use Rattle.sheet_views.specs.Near.{IsNearDrawing, IsNearFingers};
ghost use Rattle.sheet_page.specs.Strokes.{stroke_data, stroke_of, fingers_of, IsStroke};

use brake_base::{Key, Mask, Step, Turn};
use handling_cost::{next_key, start_key, step_cost};
use job_setup::Job;
use sheet_views::{Drawing, Fingers, drawing_of, fingers_at};

/// A stroke: its number from 1, its step, the keys before it and after it, the turn of the part
/// before it and what it costs in tenths of a second, the part as it is drawn, and the stop fingers.
#[derive(Drop)]
pub struct Stroke {
    pub number: usize,
    pub step: Step,
    pub before: Key,
    pub after: Key,
    pub turn: Turn,
    pub cost: u64,
    pub drawing: Drawing,
    pub fingers: Fingers,
}

/// The key before the first stroke.
pub fn first_key(job: &Job) -> Key
    ensures value { result ≡ start }
    ensures range { IsKeyOf job.now result }
{
    job.recall_valid();
    start_key()
}

/// The turn from one attitude to another.
fn turn_between(from: Turn, to: Turn) -> Turn
    ensures { result ≡ turn_number (change from to) }
{
    from.inverse().then(to)
}

/// The stop fingers of a step in its drawing.
fn fingers_in(job: &Job, key: &Key, step: &Step, drawing: &Drawing) -> Fingers
    requires step { IsStepAt job.now key.now step.now }
    requires drawing { drawing_data drawing.now ≡ drawing_of job.now key.now.mask step.now.action }
    requires near { IsNearDrawing (drawing_data drawing.now) }
    ensures value { result ≡ fingers_of job.now key.now.mask step.now }
    ensures near { IsNearFingers result }
{
    fingers_at(job, &drawing.pose, step.gauge)
}

/// The stroke of a step at a key.
#[tactic(auto, unfolding(crate::specs::Strokes::stroke_of))]
pub fn stroke_at(job: &Job, number: usize, key: &Key, step: &Step) -> Stroke
    requires key { IsKeyOf job.now key.now }
    requires step { IsStepAt job.now key.now step.now }
    ensures value { stroke_data result ≡ stroke_of job.now number key.now step.now }
    ensures good { IsStroke job.now (stroke_data result) }
{
    let drawing = drawing_of(job, key, step.action);
    let fingers = fingers_in(job, key, step, &drawing);
    let after = next_key(job, *key, step.action);
    let turn = turn_between(key.attitude, after.attitude);
    let cost = step_cost(job, *key, step.action);
    Stroke {
        number,
        step: *step,
        before: *key,
        after,
        turn,
        cost,
        drawing,
        fingers,
    }
}

impl Stroke {
    /// The bends that it bends together.
    pub fn group(&self) -> Mask
        ensures { result ≡ (stroke_data self.now).drawing.pose.group }
    {
        self.drawing.pose.group
    }
}
