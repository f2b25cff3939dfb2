//! What the stages of a setup want of the stock.
ghost use Rattle.std.specs.Prelude.{◌≡◌, ◌<◌, ◌≤◌, length, map, position, bytes_eq, IfSome};
ghost use Rattle.tool_library.specs.Tools.{tools_data, IsTools};
ghost use Rattle.setup_choice.specs.Setups.{stage_want_data};
ghost use Rattle.machine_file.specs.declared.bounds.TheConstants.{MOST_STAGES};
ghost use Rattle.setup_choice.specs.Fitting.{punch_place, die_place, want_of, wants_of};

use crate::setups::StageWant;
use arrayvec::ArrayVec;
use brake_base::Name;
use machine_file::bounds::MOST_STAGES;
use piece_pick::Want;
use tool_library::{Die, Punch, Tools};

/// The place of the first punch of this name.
fn first_punch(punches: &[Punch], name: &Name) -> Option<usize>
    ensures value { result
        ≡ position (λ punch. bytes_eq punch.name.bytes name.now.bytes) punches.now }
    ensures within { IfSome result (λ place. place < length punches.now) }
{
    punches.iter().position(|punch| punch.name == *name)
}

/// The place of the punch of this name, and 0 where there is none.
#[tactic(auto, using(job_setup::proofs::Lists::seen))]
fn punch_place(tools: &Tools, name: &Name) -> u8
    requires { IsTools (tools_data tools.now) }
    ensures { result ≡ punch_place (tools_data tools.now) name.now.bytes }
{
    match first_punch(&tools.punches, name) {
        Some(place) => place as u8,
        None => 0,
    }
}

/// The place of the first die of this name.
fn first_die(dies: &[Die], name: &Name) -> Option<usize>
    ensures value { result ≡ position (λ die. bytes_eq die.name.bytes name.now.bytes) dies.now }
    ensures within { IfSome result (λ place. place < length dies.now) }
{
    dies.iter().position(|die| die.name == *name)
}

/// The place of the die of this name, and 0 where there is none.
#[tactic(auto, using(job_setup::proofs::Lists::seen))]
fn die_place(tools: &Tools, name: &Name) -> u8
    requires { IsTools (tools_data tools.now) }
    ensures { result ≡ die_place (tools_data tools.now) name.now.bytes }
{
    match first_die(&tools.dies, name) {
        Some(place) => place as u8,
        None => 0,
    }
}

/// What a stage wants of the stock: its tools by their places, and its length.
fn want_of(tools: &Tools, stage: &StageWant) -> Want
    requires { IsTools (tools_data tools.now) }
    ensures { result ≡ want_of (tools_data tools.now) (stage_want_data stage.now) }
{
    Want {
        punch: punch_place(tools, &stage.punch),
        die: die_place(tools, &stage.die),
        length: stage.length,
    }
}

/// What the stages of a setup want of the stock, stage by stage.
pub fn wants_of(tools: &Tools, stages: &[StageWant]) -> ArrayVec<Want, MOST_STAGES>
    requires tools { IsTools (tools_data tools.now) }
    requires few { length stages.now ≤ MOST_STAGES }
    ensures { result.items ≡ wants_of (tools_data tools.now) (map stage_want_data stages.now) }
{
    let mut wants = ArrayVec::new();
    for stage in stages {
        wants.push(want_of(tools, stage));
    }
    wants
}
