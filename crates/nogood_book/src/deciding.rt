//! The bends on which a reason depends.
ghost use Rattle.std.specs.Prelude.{false, ℕ, ◌≡◌, ◌≢◌, ◌≤◌, ◌<◌, ◌&&◌, ◌↔◌, length, List, All, Contains, IsTrue};
ghost use Rattle.std.specs.List.{list_any};
ghost use Rattle.brake_base.specs.declared.reason.Reason.TheVariants.{NoGauge};
ghost use Rattle.brake_base.specs.Masks.{has};
ghost use Rattle.part_file.specs.Part.{part_data, IsPart, IsPath};
ghost use Rattle.unfolder.specs.Cores.{joint_of};
ghost use Rattle.fold_boxes.specs.Pose.{face_of_box};
ghost use Rattle.job_setup.specs.Setup.{bend_count};
ghost use Rattle.job_setup.specs.StrokeGroup.{in_group};
ghost use Rattle.handling_cost.specs.StepCost.{IsActionOf};
ghost use Rattle.box_support.specs.Deciding.{is_on_path, is_deciding};
ghost use Rattle.nogood_book.specs.Support.{named_boxes, is_bend, is_in_support, support_of, NamesBoxes};

use arrayvec::ArrayVec;
use box_support::{face_of_box, is_deciding};
use brake_base::{Action, Mask, Reason};
use job_setup::{Job, group};
use part_file::Part;
use unfolder::cores::joint_of;

/// The support of a reason against the strokes of an action's bend: the bends that may be bent in
/// one stroke with it, and those that decide where the reason's boxes lie as seen from the face on
/// which it stands. The action is the job's, the reason isn't NoGauge, and its boxes are those of
/// the job's faces and of its bends' corners.
pub fn support(job: &Job, action: Action, reason: Reason) -> Mask
    requires action { IsActionOf job.now action }
    requires kind { reason ≢ NoGauge }
    requires boxes { NamesBoxes job.now reason }
    ensures value { result ≡ support_of job.now action.bend reason }
    ensures bends { (bend : ℕ) → has result bend
        ≡ (is_bend job.now bend && is_in_support job.now action.bend reason bend) }

    // What is called on a path are the bends of the walk that takes none twice.
    ensures paths { (f g : ℕ) (bends : List ℕ) → IsPath job.now.part.faces f bends g
        → (bend : ℕ) → (IsTrue (is_on_path job.now.part.faces f g bend) ↔ Contains bends bend) }
{
    let mut support = Mask::empty();
    for bend in 1..job.bends() + 1 {
        if is_in_support(job, action.bend, reason, bend) {
            support = support.with(bend);
        }
    }
    support
}

/// Whether a reason against the strokes of bend b depends on a bend.
fn is_in_support(job: &Job, b: u8, reason: Reason, bend: u8) -> bool
    requires some { 0 < b }
    requires inside { b < length job.now.part.faces }
    requires boxes { NamesBoxes job.now reason }
    requires first { 0 < bend }
    requires last { bend < length job.now.part.faces }
    requires few { bend ≤ 12 }
    ensures { result ≡ is_in_support job.now b reason bend }
{
    let part = job.part();
    let from = joint_of(part, b).on;
    may_bend_with(job, b, bend)
        || is_some_deciding(part, from, named_boxes(reason).as_slice(), bend)
}

/// Whether a bend may be bent in one stroke with bend b.
fn may_bend_with(job: &Job, b: u8, bend: u8) -> bool
    requires some { 0 < b }
    requires inside { b < length job.now.part.faces }
    requires first { 0 < bend }
    requires few { bend ≤ 12 }
    ensures { result ≡ in_group job.now (λ c. false) b bend }
{
    group(job, Mask::empty(), b).contains(bend)
}

/// Whether a bend decides where one of some boxes lies as seen from a face.
fn is_some_deciding(part: &Part, from: u8, numbers: &[u8], bend: u8) -> bool
    requires fit { IsPart (part_data part.now) }
    requires from { from < length part.now.faces.items }
    requires numbers { All (λ box. face_of_box box < length part.now.faces.items) numbers.now }
    requires first { 0 < bend }
    requires last { bend < length part.now.faces.items }
    ensures { result
        ≡ list_any (λ box. is_deciding (part_data part.now).faces from box bend) numbers.now }
{
    numbers
        .iter()
        .any(|number| is_deciding(part, from, *number, bend))
}

/// The boxes that a reason names.
pub(crate) fn named_boxes(reason: Reason) -> ArrayVec<u8, 2>
    ensures { result.items ≡ named_boxes reason }
{
    let mut boxes = ArrayVec::new();
    match reason {
        Reason::Frame(number)
        | Reason::Upper(number, _, _)
        | Reason::Nose(number, _, _)
        | Reason::Lower(number, _, _) => boxes.push(number),
        Reason::SelfHit(number, _, other) => {
            boxes.push(number);
            boxes.push(other);
        }
        Reason::Cover | Reason::Rest(_) | Reason::NoGauge | Reason::Load => {}
    }
    boxes
}

/// Whether the reason isn't NoGauge and names boxes of the job's faces and of its bends' corners.
pub(crate) fn is_of_job(job: &Job, reason: Reason) -> bool
    ensures { IsTrue result ↔ ((reason ≢ NoGauge) × NamesBoxes job.now reason) }
{
    !is_no_gauge(reason) && names_boxes(job, reason)
}

/// Whether the reason is NoGauge.
pub(crate) fn is_no_gauge(reason: Reason) -> bool
    ensures { IsTrue result ↔ (reason ≡ NoGauge) }
{
    reason == Reason::NoGauge
}

/// Whether all boxes that the reason names are those of the job's faces and of its bends' corners.
fn names_boxes(job: &Job, reason: Reason) -> bool
    ensures { IsTrue result ↔ NamesBoxes job.now reason }
{
    let bends = job.bends();
    named_boxes(reason)
        .as_slice()
        .iter()
        .all(|number| face_of_box(*number) <= bends)
}
