//! The order sheet.
ghost use Rattle.std.specs.Prelude.{◌≡◌, ◌↔◌, ◌<◌, ◌≤◌, ◌^◌, ◌++◌, pos, codes, IsTrue, All, length, OnOk, IfOk};
ghost use Rattle.std.specs.List.{flat_map};
ghost use Rattle.part_file.specs.Part.{face_at};
ghost use Rattle.machine_file.specs.Machine.{IsGaugeRule};
ghost use Rattle.fold_boxes.specs.Pose.{pose_data};
ghost use Rattle.fold_boxes.specs.Posing.{IsNearPoseBox};
ghost use Rattle.job_setup.specs.ValidJob.{IsJob};
ghost use Rattle.handling_cost.specs.StepCost.{IsKeyOf, IsActionAt, attitude_at, change, kind_of_change};
ghost use Rattle.handling_cost.specs.Plan.{start};
ghost use Rattle.setup_sheet.specs.Sheets.{field};
ghost use Rattle.setup_sheet.specs.OrderSheet.{IsStepAt, AreSteps, back_word, change_word, bent_with, with_words, bend_words, hold_words, finger_words, gauge_words, gauge_words_of, posed_face, step_line, step_lines, order_line, total_line, order_text};

use crate::words::put_field;
use arrayvec::ArrayVec;
use brake_base::{Action, Back, Gauge, Key, Mask, Step};
use brake_text::put_word;
use fold_boxes::{Pose, PoseBox};
use gauge_rules::{left_finger, right_finger};
use handling_cost::{
    Change, change_between, is_action_at, next_key, plan_cost, pose_before, start_key, step_cost,
};
use job_setup::{Job, group};
use machine_file::GaugeRule;
use std::alloc::{AllocError, Global};

/// Room for the line of a step, in bytes.
const LINE_ROOM: usize = 160;

/// Whether the part has a face of this number.
fn has_face(job: &Job, face: u8) -> bool
    ensures { IsTrue result ↔ face < length job.now.part.faces }
{
    face <= job.bends()
}

/// Whether the action can be tried at the key, and the gauge's faces are the part's.
fn is_step_at(job: &Job, key: &Key, step: &Step) -> bool
    ensures { IsTrue result ↔ IsStepAt job.now key.now step.now }
{
    is_action_at(job, key, step.action)
        && has_face(job, step.gauge.left_face)
        && has_face(job, step.gauge.right_face)
}

/// Whether the order sheet can tell the steps: each action can be tried at the key to which those
/// before it lead, and the gauges' faces are the part's. Whether the strokes are free isn't looked at.
pub fn are_steps(job: &Job, steps: &[Step]) -> bool
    ensures { IsTrue result ↔ AreSteps job.now start steps.now }
{
    let mut key = start_key();
    for step in steps {
        if !is_step_at(job, &key, step) {
            return false;
        }
        key = next_key(job, key, step.action);
    }
    true
}

/// The word for the side of the bend that lies towards the backgauge.
#[tactic(auto, unfolding(crate::specs::OrderSheet::back_word))]
fn back_word(back: Back) -> &'static [u8]
    ensures { result.now ≡ back_word back }
{
    match back {
        Back::Parent => b"parent",
        Back::Child => b"child",
    }
}

/// The word for what becomes of the part before the stroke.
#[tactic(auto, unfolding(crate::specs::OrderSheet::change_word))]
fn change_word(change: Change) -> &'static [u8]
    ensures { result.now ≡ change_word change }
{
    match change {
        Change::Same => b"none",
        Change::Quarter => b"quarter",
        Change::Half => b"half",
        Change::Flip => b"flip",
        Change::Roll => b"roll",
    }
}

/// The bends that are bent together with the lead of a stroke, in ascending order.
fn bent_with(job: &Job, mask: Mask, lead: u8) -> ArrayVec<u8, 16>
    requires some { 0 < lead }
    requires bend { lead < length job.now.part.faces }
    requires few { lead ≤ 12 }
    ensures { result.items ≡ bent_with job.now mask lead }
{
    let alone = Mask::empty().with(lead);
    group(job, mask, lead).without(alone).bends()
}

/// A number behind a space, for each bend.
fn put_bends(out: &mut Vec<u8>, bends: &[u8]) -> Result<(), AllocError>
    ensures { OnOk result (out.new.items
        ≡ out.old.items ++ flat_map (λ b. field (pos b)) bends.now) }
{
    for bend in bends {
        put_field(out, i64::from(*bend))?;
    }
    Ok(())
}

/// The bends that are bent together with a lead; nothing where there is none.
#[tactic(auto, using(crate::proofs::Texts::pieces), unfolding(crate::specs::OrderSheet::with_words))]
fn put_with(out: &mut Vec<u8>, bends: &[u8]) -> Result<(), AllocError>
    ensures { OnOk result (out.new.items ≡ out.old.items ++ with_words bends.now) }
{
    match bends {
        [] => Ok(()),
        [..] => {
            put_word(out, b" with")?;
            put_bends(out, bends)
        }
    }
}

/// The name of a face.
fn name_of(job: &Job, face: u8) -> &str
    requires { face < length job.now.part.faces }
    ensures value { result.now ≡ (face_at job.now.part.faces face).name }
    ensures valid { IsJob job.now }
{
    job.part().faces.as_slice()[usize::from(face)].name.as_str()
}

/// The lead of a stroke, the name of its child face, and the other bends of its group.
#[tactic(auto, using(crate::proofs::Texts::pieces), unfolding(crate::specs::OrderSheet::bend_words))]
fn put_stroke(out: &mut Vec<u8>, job: &Job, mask: Mask, lead: u8) -> Result<(), AllocError>
    requires some { 0 < lead }
    requires bend { lead < length job.now.part.faces }
    ensures { OnOk result (out.new.items ≡ out.old.items ++ bend_words job.now mask lead) }
{
    put_word(out, b" bend")?;
    put_field(out, i64::from(lead))?;
    put_word(out, b" ")?;
    put_word(out, name_of(job, lead).as_bytes())?;
    put_with(out, bent_with(job, mask, lead).as_slice())
}

/// How the part is held for an action: the side at the back, the stage, and what becomes of the part
/// before the stroke.
#[tactic(auto, using(crate::proofs::Texts::pieces), unfolding(crate::specs::OrderSheet::hold_words))]
fn put_hold(out: &mut Vec<u8>, job: &Job, key: &Key, action: Action) -> Result<(), AllocError>
    requires key { IsKeyOf job.now key.now }
    requires action { IsActionAt job.now key.now action }
    ensures { OnOk result (out.new.items ≡ out.old.items ++ hold_words job.now key.now action) }
{
    put_word(out, b" back ")?;
    put_word(out, back_word(action.back))?;
    put_word(out, b" stage")?;
    put_field(out, i64::from(action.stage))?;
    put_word(out, b" turn ")?;
    put_word(out, change_word(change_for(job, key, action)))
}

/// What becomes of the part before the stroke of an action.
fn change_for(job: &Job, key: &Key, action: Action) -> Change
    requires key { IsKeyOf job.now key.now }
    requires action { IsActionAt job.now key.now action }
    ensures { result ≡ kind_of_change
        (change key.now.attitude (attitude_at job.now key.now.mask action)) }
{
    change_between(key.attitude, next_key(job, *key, action).attitude)
}

/// The box of a face in a pose.
fn posed_face(pose: &Pose, face: u8) -> &PoseBox
    requires face { face < length pose.now.boxes.items }
    requires near { All IsNearPoseBox pose.now.boxes.items }
    ensures value { result.now ≡ posed_face (pose_data pose.now) face }
    ensures near { IsNearPoseBox result.now }
{
    &pose.boxes.as_slice()[usize::from(face)]
}

/// The face against whose edge a finger stands, and where the finger begins along the bed.
#[tactic(auto, using(crate::proofs::Texts::pieces), unfolding(crate::specs::OrderSheet::finger_words))]
fn put_finger(out: &mut Vec<u8>, face: u8, range: (i64, i64)) -> Result<(), AllocError>
    ensures { OnOk result (out.new.items ≡ out.old.items ++ finger_words face range) }
{
    put_field(out, i64::from(face))?;
    put_field(out, range.0)
}

/// How far behind the bend line the fingers stand, and the left and the right finger.
#[tactic(auto, using(crate::proofs::Texts::pieces), unfolding(crate::specs::OrderSheet::gauge_words))]
fn put_gauge(
    out: &mut Vec<u8>,
    rule: &GaugeRule,
    gauge: Gauge,
    left: &PoseBox,
    right: &PoseBox,
) -> Result<(), AllocError>
    requires rule { IsGaugeRule rule.now }
    requires left { IsNearPoseBox left.now }
    requires right { IsNearPoseBox right.now }
    ensures { OnOk result (out.new.items
        ≡ out.old.items ++ gauge_words rule.now gauge left.now right.now) }
{
    put_word(out, b" gauge")?;
    put_field(out, left.body.hi.y)?;
    put_word(out, b" fingers")?;
    put_finger(out, gauge.left_face, left_finger(rule, left))?;
    put_finger(out, gauge.right_face, right_finger(rule, right))
}

/// The gauge of a step.
fn put_gauge_of(out: &mut Vec<u8>, job: &Job, key: &Key, step: &Step) -> Result<(), AllocError>
    requires { IsStepAt job.now key.now step.now }
    ensures { OnOk result (out.new.items
        ≡ out.old.items ++ gauge_words_of job.now key.now.mask step.now) }
{
    let pose = pose_before(job, key, step.action);
    let left = posed_face(&pose, step.gauge.left_face);
    let right = posed_face(&pose, step.gauge.right_face);
    put_gauge(out, &job.setup().gauge, step.gauge, left, right)
}

/// The line of a step.
#[tactic(auto, using(crate::proofs::Texts::pieces), unfolding(crate::specs::OrderSheet::step_line))]
fn put_step(
    out: &mut Vec<u8>,
    job: &Job,
    number: usize,
    key: &Key,
    step: &Step,
) -> Result<(), AllocError>
    requires key { IsKeyOf job.now key.now }
    requires step { IsStepAt job.now key.now step.now }
    requires number { number < 2 ^ 63 }
    ensures { OnOk result (out.new.items
        ≡ out.old.items ++ step_line job.now number key.now step.now) }
{
    put_word(out, b"step")?;
    put_field(out, number as i64)?;
    put_stroke(out, job, key.mask, step.action.bend)?;
    put_hold(out, job, key, step.action)?;
    put_gauge_of(out, job, key, step)?;
    put_cost(out, step_cost(job, *key, step.action))
}

/// What a step costs, and the end of its line.
#[tactic(auto, using(crate::proofs::Texts::pieces))]
fn put_cost(out: &mut Vec<u8>, cost: u64) -> Result<(), AllocError>
    requires { cost < 2 ^ 63 }
    ensures { OnOk result (out.new.items
        ≡ out.old.items ++ codes " cost" ++ field (pos cost) ++ codes "\n") }
{
    put_word(out, b" cost")?;
    put_field(out, cost as i64)?;
    put_word(out, b"\n")
}

/// A line for each step.
fn put_steps(out: &mut Vec<u8>, job: &Job, steps: &[Step]) -> Result<(), AllocError>
    requires { AreSteps job.now start steps.now }
    ensures { OnOk result (out.new.items ≡ out.old.items ++ step_lines job.now 1 start steps.now) }
{
    let mut key = start_key();
    for (i, step) in steps.iter().enumerate() {
        put_step(out, job, i + 1, &key, step)?;
        key = next_key(job, key, step.action);
    }
    Ok(())
}

/// The number of steps.
#[tactic(auto, using(crate::proofs::Texts::pieces), unfolding(crate::specs::OrderSheet::order_line))]
fn put_order(out: &mut Vec<u8>, count: usize) -> Result<(), AllocError>
    requires { count < 2 ^ 63 }
    ensures { OnOk result (out.new.items ≡ out.old.items ++ order_line count) }
{
    put_word(out, b"order")?;
    put_field(out, count as i64)?;
    put_word(out, b"\n")
}

/// What the steps cost together.
#[tactic(auto, using(crate::proofs::Texts::pieces), unfolding(crate::specs::OrderSheet::total_line))]
fn put_total(out: &mut Vec<u8>, cost: u64) -> Result<(), AllocError>
    requires { cost < 2 ^ 63 }
    ensures { OnOk result (out.new.items ≡ out.old.items ++ total_line cost) }
{
    put_word(out, b"total")?;
    put_field(out, cost as i64)?;
    put_word(out, b"\n")
}

/// The order sheet of some steps: how many there are, a line for each, and their total cost in
/// tenths of a second. `are_steps` tests the condition, which every plan meets.
#[tactic(auto, using(crate::proofs::Texts::pieces), unfolding(crate::specs::OrderSheet::order_text))]
pub fn order_sheet(alloc: Global, job: &Job, steps: &[Step]) -> Result<Vec<u8>, AllocError>
    requires { AreSteps job.now start steps.now }
    ensures { IfOk result (λ sheet. sheet.items ≡ order_text job.now steps.now) }
{
    let mut out = Vec::with_capacity(alloc, LINE_ROOM * usize::from(job.bends()))?;
    put_order(&mut out, steps.len())?;
    put_steps(&mut out, job, steps)?;
    put_total(&mut out, plan_cost(job, steps))?;
    Ok(out)
}
