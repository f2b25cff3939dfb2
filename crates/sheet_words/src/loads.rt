//! The load that is too great, in words.
ghost use Rattle.std.specs.Prelude.{◌≡◌, ◌^◌, ◌<◌, ◌≤◌, ◌++◌, ◌*ℤ◌, unsigned_abs, length, OnOk};
ghost use Rattle.job_setup.specs.Setup.{stage_data};
ghost use Rattle.job_setup.specs.ValidJob.{IsStageLoad};
ghost use Rattle.sheet_words.specs.Reasons.{newtons, load_words, needed_force, given_force, force_words, is_over_limit, needed, need_words, overload_words};

use crate::phrases::{BEND_NEEDS, MACHINE_GIVES, TOOLS_BEAR};
use crate::tools::stage_at;
use brake_base::Mask;
use brake_text::{put_number, put_word};
use job_setup::{Job, Stage, lines_total};
use std::alloc::AllocError;
use svg_text::put_decimal;

/// The force that a load takes over so much of a line, in thousandths of newtons.
fn force_of(load: i64, length: i64) -> i64
    requires load { unsigned_abs load ≤ 2 ^ 20 }
    requires length { unsigned_abs length ≤ 2 ^ 31 }
    ensures { result ≡ load *ℤ length }
{
    load * length
}

/// A load, in newtons per millimetre.
#[tactic(auto, using(crate::proofs::Texts::pieces), unfolding(crate::specs::Reasons::newtons))]
fn put_newtons(out: &mut Vec<u8>, load: i64) -> Result<(), AllocError>
    ensures { OnOk result (out.new.items ≡ out.old.items ++ newtons load) }
{
    put_number(out, load)?;
    put_word(out, b" N/mm")
}

/// A force of so many thousandths of newtons.
#[tactic(auto, using(crate::proofs::Texts::pieces), unfolding(crate::specs::Reasons::needed_force))]
fn put_needed_force(out: &mut Vec<u8>, force: i64) -> Result<(), AllocError>
    ensures { OnOk result (out.new.items ≡ out.old.items ++ needed_force force) }
{
    put_decimal(out, force, 6)?;
    put_word(out, b" kN")
}

/// A force of so many newtons.
#[tactic(auto, using(crate::proofs::Texts::pieces), unfolding(crate::specs::Reasons::given_force))]
fn put_given_force(out: &mut Vec<u8>, force: i64) -> Result<(), AllocError>
    ensures { OnOk result (out.new.items ≡ out.old.items ++ given_force force) }
{
    put_decimal(out, force, 3)?;
    put_word(out, b" kN")
}

/// The stroke needs more than the tools bear.
#[tactic(auto, using(crate::proofs::Texts::pieces), unfolding(crate::specs::Reasons::load_words))]
fn put_load(out: &mut Vec<u8>, stage: &Stage) -> Result<(), AllocError>
    ensures { OnOk result (out.new.items ≡ out.old.items ++ load_words (stage_data stage.now)) }
{
    put_newtons(out, stage.load)?;
    put_word(out, TOOLS_BEAR)?;
    put_newtons(out, stage.limit)
}

/// The stroke needs more than the machine gives.
#[tactic(auto, using(crate::proofs::Texts::pieces), unfolding(crate::specs::Reasons::force_words))]
fn put_force(out: &mut Vec<u8>, needed: i64, given: i64) -> Result<(), AllocError>
    ensures { OnOk result (out.new.items ≡ out.old.items ++ force_words needed given) }
{
    put_needed_force(out, needed)?;
    put_word(out, MACHINE_GIVES)?;
    put_given_force(out, given)
}

/// Whether a stage's load is above the limit of its tools.
fn is_over_limit(stage: &Stage) -> bool
    ensures { result ≡ is_over_limit (stage_data stage.now) }
{
    stage.limit != 0 && stage.limit < stage.load
}

/// The force that a stage's load takes over a group's lines.
fn needed_force(job: &Job, group: Mask, stage: &Stage) -> i64
    requires { IsStageLoad stage.now.load }
    ensures { result ≡ needed job.now group (stage_data stage.now) }
{
    force_of(stage.load, lines_total(job.shape(), group))
}

/// The force that the machine gives, in newtons.
fn given_force(job: &Job) -> i64
    ensures { result ≡ job.now.setup.force }
{
    job.setup().force
}

/// What a stage's stroke needs of the machine.
fn put_machine_force(
    out: &mut Vec<u8>,
    job: &Job,
    group: Mask,
    stage: &Stage,
) -> Result<(), AllocError>
    requires { IsStageLoad stage.now.load }
    ensures { OnOk result (out.new.items ≡ out.old.items
        ++ force_words (needed job.now group (stage_data stage.now)) job.now.setup.force) }
{
    put_force(out, needed_force(job, group, stage), given_force(job))
}

/// What a stage's stroke needs, and what its tools or the machine have.
#[tactic(auto, unfolding(crate::specs::Reasons::need_words))]
fn put_need(out: &mut Vec<u8>, job: &Job, group: Mask, stage: &Stage) -> Result<(), AllocError>
    requires { IsStageLoad stage.now.load }
    ensures { OnOk result (out.new.items
        ≡ out.old.items ++ need_words job.now group (stage_data stage.now)) }
{
    if is_over_limit(stage) {
        put_load(out, stage)
    } else {
        put_machine_force(out, job, group, stage)
    }
}

/// The stroke needs more than the tools bear, or than the machine gives.
#[tactic(auto, using(crate::proofs::Texts::pieces), unfolding(crate::specs::Reasons::overload_words))]
pub(crate) fn put_overload(
    out: &mut Vec<u8>,
    job: &Job,
    group: Mask,
    stage: u8,
) -> Result<(), AllocError>
    requires { stage < length job.now.setup.stages }
    ensures { OnOk result (out.new.items ≡ out.old.items ++ overload_words job.now group stage) }
{
    put_word(out, BEND_NEEDS)?;
    put_need(out, job, group, stage_at(job, stage))
}
