//! The stages of a machine with the tools of their names.
ghost use Rattle.std.specs.Prelude.{◌≡◌, ◌≤◌, ◌<◌, pos, ◌≤ℤ◌, length, map, All, find, bytes_eq, option_map, IfOk};
ghost use Rattle.toml_fields.specs.Results.{each_from, Gives};
ghost use Rattle.part_file.specs.Part.{part_data};
ghost use Rattle.tool_library.specs.Tools.{punch_data, die_data, load_data, tools_data};
ghost use Rattle.machine_file.specs.declared.bounds.TheConstants.{MOST_PIECES};
ghost use Rattle.machine_file.specs.Machine.{IsPiece, IsStageText, stage_text_data};
ghost use Rattle.job_setup.specs.Setup.{stage_data};
ghost use Rattle.job_setup.specs.Stages.{punch_named, die_named, punch_shape, die_shape, total, least_limit, stage_with, stage_of_text};

use crate::fault::JobFault;
use crate::loads::stage_load;
use crate::setup::{Stage, copy_pieces};
use arrayvec::ArrayVec;
use brake_base::Name;
use machine_file::StageText;
use machine_file::bounds::MOST_STAGES;
use part_file::Part;
use tool_library::{Die, LoadRow, Punch, Tools};

/// The first punch of this name.
fn first_punch<'a>(punches: &'a [Punch], name: &Name) -> Option<&'a Punch>
    ensures { option_map (λ punch. punch.now) result
        ≡ find (λ punch. bytes_eq punch.name.bytes name.now.bytes) punches.now }
{
    punches.iter().find(|punch| punch.name == *name)
}

/// The punch of this name.
pub(crate) fn punch_named<'a>(punches: &'a [Punch], name: &Name) -> Option<&'a Punch>
    ensures { option_map (λ punch. punch_data punch.now) result
        ≡ punch_named (map punch_data punches.now) name.now.bytes }
{
    first_punch(punches, name)
}

/// The first die of this name.
fn first_die<'a>(dies: &'a [Die], name: &Name) -> Option<&'a Die>
    ensures { option_map (λ die. die.now) result
        ≡ find (λ die. bytes_eq die.name.bytes name.now.bytes) dies.now }
{
    dies.iter().find(|die| die.name == *name)
}

/// The die of this name.
pub(crate) fn die_named<'a>(dies: &'a [Die], name: &Name) -> Option<&'a Die>
    ensures { option_map (λ die. die_data die.now) result
        ≡ die_named (map die_data dies.now) name.now.bytes }
{
    first_die(dies, name)
}

/// The punch without its sections and its limit.
fn punch_shape(punch: &Punch) -> Punch
    ensures { punch_data result ≡ punch_shape (punch_data punch.now) }
{
    let mut body = ArrayVec::new();
    let _ = body.try_extend_from_slice(punch.body.as_slice());
    Punch {
        name: punch.name,
        height: punch.height,
        nose: punch.nose,
        body,
        sections: ArrayVec::new(),
        limit: 0,
    }
}

/// The die without its sections and its limit.
fn die_shape(die: &Die) -> Die
    ensures { die_data result ≡ die_shape (die_data die.now) }
{
    let mut body = ArrayVec::new();
    let _ = body.try_extend_from_slice(die.body.as_slice());
    Die {
        name: die.name,
        height: die.height,
        v: die.v,
        least_flange: die.least_flange,
        body,
        sections: ArrayVec::new(),
        limit: 0,
    }
}

/// How long the pieces are together.
pub(crate) fn total(pieces: &[i64]) -> i64
    requires pieces { All IsPiece pieces.now }
    requires few { length pieces.now ≤ MOST_PIECES }
    ensures value { result ≡ total pieces.now }
    ensures low { pos 0 ≤ℤ result }
    ensures high { result ≤ℤ pos 320000000 }
{
    let mut total = 0;
    for piece in pieces {
        total += *piece;
    }
    total
}

/// The least of the two limits that aren't 0, or 0.
fn least_limit(a: i64, b: i64) -> i64
    ensures { result ≡ least_limit a b }
{
    if a == 0 {
        b
    } else if b == 0 {
        a
    } else {
        a.min(b)
    }
}

/// The stage with copies of these tools.
fn stage_with(part: &Part, loads: &[LoadRow], text: &StageText, punch: &Punch, die: &Die) -> Stage
    requires text { IsStageText (stage_text_data text.now) }
    ensures { stage_data result
        ≡ stage_with (part_data part.now) (map load_data loads.now) (stage_text_data text.now)
        (punch_data punch.now) (die_data die.now) }
{
    Stage {
        punch: punch_shape(punch),
        die: die_shape(die),
        x0: text.at,
        x1: text.at + total(text.pieces.as_slice()),
        pieces: copy_pieces(&text.pieces),
        load: stage_load(part, loads, die),
        limit: least_limit(punch.limit, die.limit),
    }
}

/// The stage of a number, with copies of the tools of its names.
#[tactic(auto, using(crate::proofs::Lists::seen), unfolding(crate::specs::Stages::stage_of_text))]
fn stage_of_text(part: &Part, tools: &Tools, stage: u8, text: &StageText) -> Result<Stage, JobFault>
    requires { IsStageText (stage_text_data text.now) }
    ensures { Gives stage_data result
        (stage_of_text (part_data part.now) (tools_data tools.now) stage (stage_text_data text.now)) }
{
    let Some(punch) = punch_named(&tools.punches, &text.punch) else {
        return Err(JobFault::UnknownTool { stage });
    };
    let Some(die) = die_named(&tools.dies, &text.die) else {
        return Err(JobFault::UnknownTool { stage });
    };
    Ok(stage_with(part, &tools.loads, text, punch, die))
}

/// The stages with the tools of their names.
pub fn stages_of(
    part: &Part,
    tools: &Tools,
    texts: &[StageText],
) -> Result<ArrayVec<Stage, MOST_STAGES>, JobFault>
    requires texts { All IsStageText (map stage_text_data texts.now) }
    requires few { length texts.now ≤ MOST_STAGES }
    ensures value { Gives (λ stages. map stage_data stages.items) result
        (each_from (stage_of_text (part_data part.now) (tools_data tools.now)) 0
        (map stage_text_data texts.now)) }
    ensures few { IfOk result (λ stages. length stages.items ≤ MOST_STAGES) }
{
    let mut stages = ArrayVec::new();
    for text in texts {
        let stage = stage_of_text(part, tools, stages.len() as u8, text)?;
        stages.push(stage);
    }
    Ok(stages)
}
