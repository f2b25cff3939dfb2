//! What the stages use of the shop's stock.
ghost use Rattle.std.specs.Prelude.{◌≡◌, ℕ, ◌≤◌, ◌<◌, ℤ, length, map, take, option_map, IfSome};
ghost use Rattle.std.specs.List.{list_any};
ghost use Rattle.toml_fields.specs.Results.{first_below};
ghost use Rattle.tool_library.specs.Tools.{tools_data, punch_data, die_data};
ghost use Rattle.tool_library.specs.Stock.{held, punch_sections, die_sections};
ghost use Rattle.machine_file.specs.Machine.{stage_text_data};
ghost use Rattle.job_setup.specs.Stages.{punch_named, die_named};
ghost use Rattle.job_setup.specs.Stock.{sections_of, tool_name, stage_use, used, is_used_up, stock_suffices};
ghost use Rattle.job_setup.specs.StageStock.{overuses, runs_short, is_stage_short};

use crate::fault::JobFault;
use crate::stages::{die_named, punch_named};
use brake_base::Name;
use machine_file::StageText;
use tool_library::stock::{count_of, held};
use tool_library::{Die, Punch, Tools};

/// The two tools of a stage.
#[derive(Clone, Copy)]
enum ToolKind {
    Punch,
    Die,
}

/// The name of the stage's tool.
fn tool_name(kind: ToolKind, stage: &StageText) -> &Name
    ensures { result.now.bytes ≡ tool_name kind (stage_text_data stage.now) }
{
    match kind {
        ToolKind::Punch => &stage.punch,
        ToolKind::Die => &stage.die,
    }
}

/// How many pieces of this length the stage uses with the tool of this name.
fn stage_use(kind: ToolKind, stage: &StageText, name: &Name, piece: &i64) -> usize
    ensures value { result ≡ stage_use kind name.now.bytes piece.now (stage_text_data stage.now) }
    ensures few { result ≤ 32 }
{
    if *tool_name(kind, stage) == *name {
        count_of(stage.pieces.as_slice(), piece)
    } else {
        0
    }
}

/// How many pieces of this length the stages use with the tool of this name.
fn used(kind: ToolKind, stages: &[StageText], name: &Name, piece: &i64) -> usize
    requires { length stages.now ≤ 6 }
    ensures { result ≡ used kind (map stage_text_data stages.now) name.now.bytes piece.now }
{
    let mut used = 0;
    for stage in stages {
        used += stage_use(kind, stage, name, piece);
    }
    used
}

/// How many pieces of this length there are of the punch of this name.
fn held_of_punch(punches: &[Punch], name: &Name, piece: &i64) -> usize
    ensures { result ≡ held
        (punch_sections (punch_named (map punch_data punches.now) name.now.bytes)) piece.now }
{
    match punch_named(punches, name) {
        Some(punch) => held(punch.sections.as_slice(), piece),
        None => 0,
    }
}

/// How many pieces of this length there are of the die of this name.
fn held_of_die(dies: &[Die], name: &Name, piece: &i64) -> usize
    ensures { result ≡ held
        (die_sections (die_named (map die_data dies.now) name.now.bytes)) piece.now }
{
    match die_named(dies, name) {
        Some(die) => held(die.sections.as_slice(), piece),
        None => 0,
    }
}

/// How many pieces of this length there are of the tool of this name.
fn held_of(kind: ToolKind, tools: &Tools, name: &Name, piece: &i64) -> usize
    ensures { result ≡ held (sections_of (tools_data tools.now) kind name.now.bytes) piece.now }
{
    match kind {
        ToolKind::Punch => held_of_punch(&tools.punches, name, piece),
        ToolKind::Die => held_of_die(&tools.dies, name, piece),
    }
}

/// Whether the stages use this length with the tool of this name more often than its sections
/// hold.
#[tactic(auto, unfolding(crate::specs::Stock::is_used_up))]
fn is_used_up(tools: &Tools, stages: &[StageText], kind: ToolKind, name: &Name, piece: &i64) -> bool
    requires { length stages.now ≤ 6 }
    ensures { result ≡ is_used_up (tools_data tools.now)
        (map stage_text_data stages.now) kind name.now.bytes piece.now }
{
    held_of(kind, tools, name, piece) < used(kind, stages, name, piece)
}

/// Whether the stages use one of this stage's lengths with its tool of this kind more often than
/// that tool's sections hold.
fn overuses(tools: &Tools, stages: &[StageText], stage: &StageText, kind: ToolKind) -> bool
    requires { length stages.now ≤ 6 }
    ensures { result ≡ overuses (tools_data tools.now) (map stage_text_data stages.now)
        (stage_text_data stage.now) kind }
{
    let name = tool_name(kind, stage);
    stage
        .pieces
        .as_slice()
        .iter()
        .any(|piece| is_used_up(tools, stages, kind, name, piece))
}

/// Whether the stages use one of this stage's lengths with its punch or its die more often than
/// that tool's sections hold.
fn runs_short(tools: &Tools, stages: &[StageText], stage: &StageText) -> bool
    requires { length stages.now ≤ 6 }
    ensures { result ≡ runs_short (tools_data tools.now) (map stage_text_data stages.now)
        (stage_text_data stage.now) }
{
    overuses(tools, stages, stage, ToolKind::Punch) || overuses(tools, stages, stage, ToolKind::Die)
}

/// Whether the stages up to this one use one of its lengths with its punch or its die more often
/// than that tool's sections hold.
#[tactic(auto, unfolding(crate::specs::StageStock::is_stage_short))]
fn is_stage_short(tools: &Tools, stages: &[StageText], i: usize) -> bool
    requires within { i < length stages.now }
    requires few { length stages.now ≤ 6 }
    ensures { result ≡ is_stage_short (tools_data tools.now) (map stage_text_data stages.now) i }
{
    runs_short(tools, &stages[..=i], &stages[i])
}

/// The first stage at which the stock is short by one of the stage's own lengths and tools.
fn first_short(tools: &Tools, stages: &[StageText]) -> Option<usize>
    requires { length stages.now ≤ 6 }
    ensures value { result ≡ first_below
        (is_stage_short (tools_data tools.now) (map stage_text_data stages.now))
        (length stages.now) }
    ensures within { IfSome result (λ i. i < length stages.now) }
{
    (0..stages.len()).find(|i| is_stage_short(tools, stages, *i))
}

/// Refuses the first stage at which the stock is short. It is short there by one of the stage's own
/// lengths and tools, so that no others are looked at.
#[tactic(auto, using(crate::proofs::Lists::seen, crate::proofs::ShortStock::first_stage_short))]
pub(crate) fn check_stock(tools: &Tools, stages: &[StageText]) -> Result<(), JobFault>
    requires { length stages.now ≤ 6 }
    ensures { result ≡ stock_suffices (tools_data tools.now) (map stage_text_data stages.now) }
{
    match first_short(tools, stages) {
        Some(stage) => Err(JobFault::StockShort { stage: stage as u8 }),
        None => Ok(()),
    }
}
