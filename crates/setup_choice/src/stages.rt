//! The tables of a setup's stages.
ghost use Rattle.std.specs.Prelude.{◌≡◌, ◌≤◌, ◌<◌, ◌+◌, length, map, option_map, IfOk};
ghost use Rattle.toml.specs.View.{view, table_view};
ghost use Rattle.toml_fields.specs.Results.{Gives, each_from};
ghost use Rattle.setup_choice.specs.Setups.{stage_want_data};
ghost use Rattle.setup_choice.specs.SetupsFile.{some_tables_at, stage_want_of, stage_want_in};

use crate::bounds::{GREATEST_STAGE_LENGTH, LEAST_STAGE_LENGTH};
use crate::fault::SetupFault;
use crate::setups::StageWant;
use arrayvec::ArrayVec;
use machine_file::bounds::{COORDINATE_LIMIT, MOST_STAGES};
use toml::{Table, Value};
use toml_fields::{has_unknown_key, integer_at, name_at, tables_at};

/// The refusal of a key of a table.
pub fn bad_field(table: u8, key: u8) -> SetupFault
    ensures { result ≡ SetupFault.BadField table key }
{
    SetupFault::BadField { table, key }
}

/// The items of the array at a key, at least one, each a table.
pub fn some_tables_at<'a>(table: &'a Table, key: &str) -> Option<&'a [Value]>
    ensures { option_map (λ items. map view items.now) result
        ≡ some_tables_at key.now (table_view table.now) }
{
    let items = tables_at(table, key)?;
    if items.is_empty() { None } else { Some(items) }
}

/// The wanted stage in the table of this number.
#[tactic(auto, using(toml_fields::proofs::Sizes::sizes), unfolding(crate::specs::SetupsFile::stage_want_of))]
fn stage_want_of(number: u8, table: &Table) -> Result<StageWant, SetupFault>
    ensures { Gives stage_want_data result (stage_want_of number (table_view table.now)) }
{
    let punch = name_at(table, "punch").ok_or(bad_field(number, 4))?;
    let die = name_at(table, "die").ok_or(bad_field(number, 5))?;
    let at = integer_at(table, "at", -COORDINATE_LIMIT, COORDINATE_LIMIT).ok_or(bad_field(
        number, 6,
    ))?;
    let length = integer_at(table, "length", LEAST_STAGE_LENGTH, GREATEST_STAGE_LENGTH).ok_or(
        bad_field(number, 7),
    )?;
    if has_unknown_key(table, &["punch", "die", "at", "length"]) {
        return Err(SetupFault::UnknownKey { table: number });
    }
    Ok(StageWant {
        punch,
        die,
        at,
        length,
    })
}

/// The stage of an item of `stage` of the setup in the table of this number.
#[tactic(auto, unfolding(crate::specs::SetupsFile::stage_want_in))]
fn stage_want_in(number: u8, stage: u8, item: &Value) -> Result<StageWant, SetupFault>
    requires stage { stage < MOST_STAGES }
    requires number { number ≤ 200 }
    ensures { Gives stage_want_data result (stage_want_in number stage (view item.now)) }
{
    match item.as_table() {
        Some(table) => stage_want_of(number + 1 + stage, table),
        None => Err(bad_field(number, 3)),
    }
}

/// The stages of the items of `stage` of the setup in the table of this number.
pub fn stage_wants_of(
    number: u8,
    items: &[Value],
) -> Result<ArrayVec<StageWant, MOST_STAGES>, SetupFault>
    requires items { length items.now ≤ MOST_STAGES }
    requires number { number ≤ 200 }
    ensures { Gives (λ stages. map stage_want_data stages.items) result
        (each_from (stage_want_in number) 0 (map view items.now)) }
{
    let mut stages = ArrayVec::new();
    for item in items {
        let stage = stage_want_in(number, stages.len() as u8, item)?;
        stages.push(stage);
    }
    Ok(stages)
}
