//! Tools and the machine.
ghost use Rattle.std.specs.Prelude.{◌≡◌, ◌≤◌, ◌<◌, ◌++◌, length, map, OnOk};
ghost use Rattle.job_setup.specs.Setup.{stage_data};
ghost use Rattle.job_setup.specs.StageOf.{stage_of};
ghost use Rattle.job_setup.specs.ValidJob.{IsStage};
ghost use Rattle.sheet_words.specs.Tools.{station_number, station_words, punch_words, die_words, box_number, fixed_words, list_at, punch_counts, die_counts, upper_words, lower_words};

use crate::phrases::{BEAM, BED, OF_STATION};
use brake_text::{put_number, put_word};
use job_setup::{Job, Stage};
use std::alloc::AllocError;

/// The name of a stage's punch.
fn punch_name(job: &Job, stage: u8) -> &[u8]
    ensures { result.now ≡ (stage_of job.now stage).punch.name }
{
    match job.setup().stages.as_slice().get(usize::from(stage)) {
        Some(stage) => stage.punch.name.as_bytes(),
        None => b"",
    }
}

/// The name of a stage's die.
fn die_name(job: &Job, stage: u8) -> &[u8]
    ensures { result.now ≡ (stage_of job.now stage).die.name }
{
    match job.setup().stages.as_slice().get(usize::from(stage)) {
        Some(stage) => stage.die.name.as_bytes(),
        None => b"",
    }
}

/// The station of a tool.
#[tactic(auto, using(crate::proofs::Texts::pieces), unfolding(crate::specs::Tools::station_number))]
fn put_station_number(out: &mut Vec<u8>, stage: u8) -> Result<(), AllocError>
    ensures { OnOk result (out.new.items ≡ out.old.items ++ station_number stage) }
{
    put_word(out, OF_STATION)?;
    put_number(out, i64::from(stage))
}

/// The station of a tool, where it isn't the one in use.
#[tactic(auto, using(crate::proofs::Texts::pieces), unfolding(crate::specs::Tools::station_words))]
fn put_station(out: &mut Vec<u8>, stage: u8, in_use: u8) -> Result<(), AllocError>
    ensures { OnOk result (out.new.items ≡ out.old.items ++ station_words stage in_use) }
{
    if stage == in_use {
        Ok(())
    } else {
        put_station_number(out, stage)
    }
}

/// A stage's punch, where another stage may be in use.
#[tactic(auto, using(crate::proofs::Texts::pieces), unfolding(crate::specs::Tools::punch_words))]
pub fn put_punch(out: &mut Vec<u8>, job: &Job, stage: u8, in_use: u8) -> Result<(), AllocError>
    ensures { OnOk result (out.new.items ≡ out.old.items ++ punch_words job.now stage in_use) }
{
    put_word(out, b"the punch ")?;
    put_word(out, punch_name(job, stage))?;
    put_station(out, stage, in_use)
}

/// A stage's die, where another stage may be in use.
#[tactic(auto, using(crate::proofs::Texts::pieces), unfolding(crate::specs::Tools::die_words))]
pub fn put_die(out: &mut Vec<u8>, job: &Job, stage: u8, in_use: u8) -> Result<(), AllocError>
    ensures { OnOk result (out.new.items ≡ out.old.items ++ die_words job.now stage in_use) }
{
    put_word(out, b"the die ")?;
    put_word(out, die_name(job, stage))?;
    put_station(out, stage, in_use)
}

/// The number of a box of the machine, where there are several.
#[tactic(auto, using(crate::proofs::Texts::pieces), unfolding(crate::specs::Tools::box_number))]
fn put_box_number(out: &mut Vec<u8>, index: u8, count: usize) -> Result<(), AllocError>
    ensures { OnOk result (out.new.items ≡ out.old.items ++ box_number index count) }
{
    if count < 2 {
        return Ok(());
    }
    put_word(out, b" (box ")?;
    put_number(out, i64::from(index))?;
    put_word(out, b")")
}

/// A box of the machine, with its number where there are several.
#[tactic(auto, using(crate::proofs::Texts::pieces), unfolding(crate::specs::Tools::fixed_words))]
fn put_fixed(out: &mut Vec<u8>, words: &[u8], index: u8, count: usize) -> Result<(), AllocError>
    ensures { OnOk result (out.new.items ≡ out.old.items ++ fixed_words words.now index count) }
{
    put_word(out, words)?;
    put_box_number(out, index, count)
}

/// The stage to whose punch a place belongs, in the list of all punchs' boxes; past the last where
/// there is none.
fn punch_at(stages: &[Stage], place: usize) -> u8
    requires { length stages.now ≤ 6 }
    ensures value { result ≡ list_at (punch_counts (map stage_data stages.now)) place }
    ensures few { result ≤ length stages.now }
{
    match stages {
        [] => 0,
        [stage, stages @ ..] => {
            let count = stage.punch.body.len();
            if place < count {
                0
            } else {
                punch_at(stages, place - count) + 1
            }
        }
    }
}

/// The stage to whose die a place belongs, in the list of all dies' boxes; past the last where
/// there is none.
fn die_at(stages: &[Stage], place: usize) -> u8
    requires { length stages.now ≤ 6 }
    ensures value { result ≡ list_at (die_counts (map stage_data stages.now)) place }
    ensures few { result ≤ length stages.now }
{
    match stages {
        [] => 0,
        [stage, stages @ ..] => {
            let count = stage.die.body.len();
            if place < count {
                0
            } else {
                die_at(stages, place - count) + 1
            }
        }
    }
}

/// How many boxes the machine has above the punches.
fn beam_boxes(job: &Job) -> usize
    ensures { result ≡ length job.now.setup.upper }
{
    job.setup().upper.len()
}

/// How many boxes the machine has under the dies.
fn bed_boxes(job: &Job) -> usize
    ensures { result ≡ length job.now.setup.lower }
{
    job.setup().lower.len()
}

/// A box of the upper group: the beam, or the punch of the stage to which it belongs.
#[tactic(auto, unfolding(crate::specs::Tools::upper_words))]
pub fn put_upper(out: &mut Vec<u8>, job: &Job, index: u8, in_use: u8) -> Result<(), AllocError>
    ensures { OnOk result (out.new.items ≡ out.old.items ++ upper_words job.now index in_use) }
{
    let count = beam_boxes(job);
    let place = usize::from(index);
    if place < count {
        return put_fixed(out, BEAM, index, count);
    }
    let stage = punch_at(job.setup().stages.as_slice(), place - count);
    put_punch(out, job, stage, in_use)
}

/// A box of the lower group: the bed, or the die of the stage to which it belongs.
#[tactic(auto, unfolding(crate::specs::Tools::lower_words))]
pub fn put_lower(out: &mut Vec<u8>, job: &Job, index: u8, in_use: u8) -> Result<(), AllocError>
    ensures { OnOk result (out.new.items ≡ out.old.items ++ lower_words job.now index in_use) }
{
    let count = bed_boxes(job);
    let place = usize::from(index);
    if place < count {
        return put_fixed(out, BED, index, count);
    }
    let stage = die_at(job.setup().stages.as_slice(), place - count);
    put_die(out, job, stage, in_use)
}

/// The stage of a number.
pub(crate) fn stage_at(job: &Job, stage: u8) -> &Stage
    requires { stage < length job.now.setup.stages }
    ensures value { stage_data result.now ≡ stage_of job.now stage }
    ensures valid { IsStage (stage_data result.now) }
{
    &job.setup().stages.as_slice()[usize::from(stage)]
}
