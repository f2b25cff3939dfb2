//! Why a stroke is refused, in words.
ghost use Rattle.std.specs.Prelude.{◌≡◌, ◌++◌, All, OnOk};
ghost use Rattle.brake_base.specs.Actions.{IsActionAmong};
ghost use Rattle.fold_boxes.specs.Pose.{pose_data};
ghost use Rattle.fold_boxes.specs.Posing.{IsNearPoseBox};
ghost use Rattle.job_setup.specs.Setup.{bend_count, stage_count};
ghost use Rattle.sheet_words.specs.Reasons.{hit_words, upper_hit, lower_hit, nose_hit, self_hit, no_gauge_words, reason_words, kind_words};

use crate::faces::put_box;
use crate::flanges::{put_cover, put_rest};
use crate::frames::put_frame;
use crate::lists::put_mm;
use crate::loads::put_overload;
use crate::phrases::{NO_FLAT_EDGE, ROOM_FOR_FINGERS};
use crate::tools::{put_lower, put_punch, put_upper};
use brake_base::{Action, Reason};
use brake_text::put_word;
use fold_boxes::Pose;
use job_setup::Job;
use machine_file::GaugeRule;
use std::alloc::AllocError;

/// A box hits something.
#[tactic(auto, using(crate::proofs::Texts::pieces), unfolding(crate::specs::Reasons::hit_words))]
fn put_hit(out: &mut Vec<u8>, job: &Job, id: u8) -> Result<(), AllocError>
    ensures { OnOk result (out.new.items ≡ out.old.items ++ hit_words job.now id) }
{
    put_box(out, job, id)?;
    put_word(out, b" would hit ")
}

/// A box hits one of the upper group.
#[tactic(auto, using(crate::proofs::Texts::pieces), unfolding(crate::specs::Reasons::upper_hit))]
fn put_upper_hit(
    out: &mut Vec<u8>,
    job: &Job,
    id: u8,
    index: u8,
    in_use: u8,
) -> Result<(), AllocError>
    ensures { OnOk result (out.new.items ≡ out.old.items ++ upper_hit job.now id index in_use) }
{
    put_hit(out, job, id)?;
    put_upper(out, job, index, in_use)
}

/// A box hits one of the lower group.
#[tactic(auto, using(crate::proofs::Texts::pieces), unfolding(crate::specs::Reasons::lower_hit))]
fn put_lower_hit(
    out: &mut Vec<u8>,
    job: &Job,
    id: u8,
    index: u8,
    in_use: u8,
) -> Result<(), AllocError>
    ensures { OnOk result (out.new.items ≡ out.old.items ++ lower_hit job.now id index in_use) }
{
    put_hit(out, job, id)?;
    put_lower(out, job, index, in_use)
}

/// A box hits a punch's nose.
#[tactic(auto, using(crate::proofs::Texts::pieces), unfolding(crate::specs::Reasons::nose_hit))]
fn put_nose_hit(
    out: &mut Vec<u8>,
    job: &Job,
    id: u8,
    stage: u8,
    in_use: u8,
) -> Result<(), AllocError>
    ensures { OnOk result (out.new.items ≡ out.old.items ++ nose_hit job.now id stage in_use) }
{
    put_hit(out, job, id)?;
    put_word(out, b"the nose of ")?;
    put_punch(out, job, stage, in_use)
}

/// A box hits another one of the part.
#[tactic(auto, using(crate::proofs::Texts::pieces), unfolding(crate::specs::Reasons::self_hit))]
fn put_self_hit(out: &mut Vec<u8>, job: &Job, id: u8, other: u8) -> Result<(), AllocError>
    ensures { OnOk result (out.new.items ≡ out.old.items ++ self_hit job.now id other) }
{
    put_hit(out, job, id)?;
    put_box(out, job, other)?;
    put_word(out, b" of the part itself")
}

/// The rule of the machine's gauge.
fn gauge_rule(job: &Job) -> &GaugeRule
    ensures { result.now ≡ job.now.setup.gauge }
{
    &job.setup().gauge
}

/// No edge has room for the fingers.
#[tactic(auto, using(crate::proofs::Texts::pieces), unfolding(crate::specs::Reasons::no_gauge_words))]
fn put_no_gauge(out: &mut Vec<u8>, rule: &GaugeRule) -> Result<(), AllocError>
    ensures { OnOk result (out.new.items ≡ out.old.items ++ no_gauge_words rule.now) }
{
    put_word(out, NO_FLAT_EDGE)?;
    put_mm(out, rule.near)?;
    put_word(out, b" to ")?;
    put_mm(out, rule.far)?;
    put_word(out, ROOM_FOR_FINGERS)
}

/// A reason against the stroke of an action, with the part in this pose before it.
pub fn put_reason(
    out: &mut Vec<u8>,
    job: &Job,
    action: Action,
    pose: &Pose,
    reason: Reason,
) -> Result<(), AllocError>
    requires action { IsActionAmong (bend_count job.now) (stage_count job.now) action }
    requires lead { pose.now.bend ≡ action.bend }
    requires near { All IsNearPoseBox pose.now.boxes.items }
    ensures { OnOk result (out.new.items
        ≡ out.old.items ++ reason_words job.now action (pose_data pose.now) reason) }
{
    let in_use = action.stage;
    match reason {
        Reason::Cover => put_cover(out, job, pose.group, in_use),
        Reason::Rest(half) => put_rest(out, job, action, pose, half),
        Reason::Frame(id) => put_frame(out, job, pose, id),
        Reason::Upper(id, _, index) => put_upper_hit(out, job, id, index, in_use),
        Reason::Nose(id, _, stage) => put_nose_hit(out, job, id, stage, in_use),
        Reason::Lower(id, _, index) => put_lower_hit(out, job, id, index, in_use),
        Reason::SelfHit(id, _, other) => put_self_hit(out, job, id, other),
        Reason::NoGauge => put_no_gauge(out, gauge_rule(job)),
        Reason::Load => put_overload(out, job, pose.group, in_use),
    }
}

/// A kind of reasons, by its number.
#[tactic(auto, unfolding(crate::specs::Reasons::kind_words))]
pub fn kind_words(kind: u8) -> &'static [u8]
    ensures { result.now ≡ kind_words kind }
{
    match kind {
        1 => b"bend line longer than the station",
        2 => b"flange too short for the die",
        3 => b"side frame in the way",
        4 => b"punch or beam in the way",
        5 => b"punch nose in the way",
        6 => b"die or bed in the way",
        7 => b"part in its own way",
        8 => b"no edge for the stop fingers",
        _ => b"force too great",
    }
}
