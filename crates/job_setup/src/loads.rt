//! The load of a stage, by the shop's load table.
ghost use Rattle.std.specs.Prelude.{◌≡◌, ◌≤◌, ◌<◌, length, map, find, option_map, position, IfSome};
ghost use Rattle.part_file.specs.Part.{part_data};
ghost use Rattle.tool_library.specs.Tools.{load_data};
ghost use Rattle.job_setup.specs.Setup.{stage_data};
ghost use Rattle.job_setup.specs.Loads.{is_load_for, stage_load, row_count, lacks_load, has_two_loads, loads_fit};

use crate::fault::JobFault;
use crate::setup::Stage;
use part_file::Part;
use tool_library::{Die, LoadRow};

/// Whether the row is for the part's material and thickness and the die's opening.
#[tactic(auto, using(crate::proofs::Lists::seen))]
fn is_load_for(part: &Part, die: &Die, row: &LoadRow) -> bool
    ensures { result ≡ is_load_for (part_data part.now) die.now.v (load_data row.now) }
{
    row.material == part.material && row.thickness == part.thickness && row.v == die.v
}

/// The first row of the table for the part over this die.
#[tactic(auto, using(crate::proofs::Lists::seen))]
fn first_load<'a>(part: &Part, loads: &'a [LoadRow], die: &Die) -> Option<&'a LoadRow>
    ensures { option_map (λ row. row.now) result
        ≡ find (λ row. is_load_for (part_data part.now) die.now.v (load_data row)) loads.now }
{
    loads.iter().find(|row| is_load_for(part, die, row))
}

/// The load of a stroke of the part over this die, and 0 where the table has no
/// row for it.
pub(crate) fn stage_load(part: &Part, loads: &[LoadRow], die: &Die) -> i64
    ensures { result ≡ stage_load (part_data part.now) (map load_data loads.now) die.now.v }
{
    match first_load(part, loads, die) {
        Some(row) => row.load,
        None => 0,
    }
}

/// How many rows of the table are for the part over this die.
#[tactic(auto, using(crate::proofs::Lists::seen))]
fn row_count(part: &Part, loads: &[LoadRow], die: &Die) -> usize
    ensures { result ≡ row_count (part_data part.now) (map load_data loads.now) die.now.v }
{
    loads
        .iter()
        .filter(|row| is_load_for(part, die, row))
        .count()
}

/// Whether the table has rows, and none for this stage.
#[tactic(auto, using(crate::proofs::Lists::seen))]
fn lacks_load(part: &Part, loads: &[LoadRow], stage: &Stage) -> bool
    ensures { result ≡ lacks_load (part_data part.now) (map load_data loads.now)
        (stage_data stage.now) }
{
    !loads.is_empty() && row_count(part, loads, &stage.die) == 0
}

/// Whether the table has at least two rows for this stage.
#[tactic(auto, using(crate::proofs::Lists::seen))]
fn has_two_loads(part: &Part, loads: &[LoadRow], stage: &Stage) -> bool
    ensures { result ≡ has_two_loads (part_data part.now) (map load_data loads.now)
        (stage_data stage.now) }
{
    row_count(part, loads, &stage.die) >= 2
}

/// The first stage for which the table, which isn't empty, has no row.
fn first_without_load(part: &Part, loads: &[LoadRow], stages: &[Stage]) -> Option<usize>
    ensures value { result ≡ position
        (λ stage. lacks_load (part_data part.now) (map load_data loads.now) (stage_data stage))
        stages.now }
    ensures within { IfSome result (λ i. i < length stages.now) }
{
    stages
        .iter()
        .position(|stage| lacks_load(part, loads, stage))
}

/// The first stage for which the table has at least two rows.
fn first_with_two_loads(part: &Part, loads: &[LoadRow], stages: &[Stage]) -> Option<usize>
    ensures value { result ≡ position
        (λ stage. has_two_loads (part_data part.now) (map load_data loads.now) (stage_data stage))
        stages.now }
    ensures within { IfSome result (λ i. i < length stages.now) }
{
    stages
        .iter()
        .position(|stage| has_two_loads(part, loads, stage))
}

/// Refuses the first stage for which the table, which isn't empty, has no row, and then the first
/// for which it has two.
#[tactic(auto, using(crate::proofs::Lists::seen), unfolding(crate::specs::Loads::loads_fit))]
pub fn check_loads(part: &Part, loads: &[LoadRow], stages: &[Stage]) -> Result<(), JobFault>
    requires { length stages.now ≤ 6 }
    ensures { result ≡ loads_fit (part_data part.now) (map load_data loads.now)
        (map stage_data stages.now) }
{
    if let Some(stage) = first_without_load(part, loads, stages) {
        return Err(JobFault::NoLoad { stage: stage as u8 });
    }
    if let Some(stage) = first_with_two_loads(part, loads, stages) {
        return Err(JobFault::TwoLoads { stage: stage as u8 });
    }
    Ok(())
}
