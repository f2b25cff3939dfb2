//! Reads a tools file.
ghost use Rattle.std.specs.Prelude.{◌≡◌, ◌≤◌, length, map, IfOk, IsFalse};
ghost use Rattle.toml.specs.View.{view, table_view};
ghost use Rattle.toml_fields.specs.Results.{GivesOr};
ghost use Rattle.tool_library.specs.Tools.{tools_data, IsTools};
ghost use Rattle.tool_library.specs.ToolsFile.{too_many_tables, tools_of_tables, tools_of_members, tools_of};

use crate::bounds::{MOST_DIES, MOST_LOAD_ROWS, MOST_PUNCHES};
use crate::fault::ToolFault;
use crate::names::{refuse_repeated_die, refuse_repeated_punch};
use crate::row::{bad_field, rows_of};
use crate::tools::Tools;
use allowance::{AllowTable, MOST_ROWS};
use std::alloc::Global;
use toml::{Table, Value};
use toml_fields::{DocumentFault, has_unknown_key, read_document, tables_or_none};

/// Whether some kind has more tables than it may.
#[tactic(auto, using(crate::proofs::Sizes::reading))]
fn are_too_many_tables(allow: &[Value], punch: &[Value], die: &[Value], load: &[Value]) -> bool
    ensures value { result
        ≡ too_many_tables (map view allow.now) (map view punch.now) (map view die.now)
        (map view load.now) }
    ensures few_allow { IsFalse result → length allow.now ≤ MOST_ROWS }
    ensures few_punch { IsFalse result → length punch.now ≤ MOST_PUNCHES }
    ensures few_die { IsFalse result → length die.now ≤ MOST_DIES }
    ensures few_load { IsFalse result → length load.now ≤ MOST_LOAD_ROWS }
{
    allow.len() > MOST_ROWS
        || punch.len() > MOST_PUNCHES
        || die.len() > MOST_DIES
        || load.len() > MOST_LOAD_ROWS
}

/// The tools of the arrays of tables.
#[tactic(auto, using(crate::proofs::Sizes::reading), unfolding(crate::specs::ToolsFile::tools_of_tables))]
fn tools_of_tables(
    alloc: Global,
    allow: &[Value],
    punch: &[Value],
    die: &[Value],
    load: &[Value],
) -> Result<Tools, ToolFault>
    requires few_allow { length allow.now ≤ MOST_ROWS }
    requires few_punch { length punch.now ≤ MOST_PUNCHES }
    requires few_die { length die.now ≤ MOST_DIES }
    requires few_load { length load.now ≤ MOST_LOAD_ROWS }
    ensures value { GivesOr ToolFault.NoMemory tools_data result
        (tools_of_tables (map view allow.now) (map view punch.now) (map view die.now)
        (map view load.now)) }
    ensures fit { IfOk result (λ tools. IsTools (tools_data tools)) }
{
    let first_punch = 1 + allow.len() as u16;
    let first_die = first_punch + punch.len() as u16;
    let first_load = first_die + die.len() as u16;
    let rows = rows_of(alloc, 1, allow)?;
    let punches = rows_of(alloc, first_punch, punch)?;
    let dies = rows_of(alloc, first_die, die)?;
    let loads = rows_of(alloc, first_load, load)?;
    refuse_repeated_punch(first_punch, &punches)?;
    refuse_repeated_die(first_die, &dies)?;
    Ok(Tools {
        punches,
        dies,
        allow: AllowTable { rows },
        loads,
    })
}

/// The tools of the top table.
#[tactic(auto, using(crate::proofs::Sizes::reading), unfolding(crate::specs::ToolsFile::tools_of_members))]
fn tools_of_members(alloc: Global, table: &Table) -> Result<Tools, ToolFault>
    ensures value { GivesOr ToolFault.NoMemory tools_data result
        (tools_of_members (table_view table.now)) }
    ensures fit { IfOk result (λ tools. IsTools (tools_data tools)) }
{
    let allow = tables_or_none(table, "allow").ok_or(bad_field(0, 1))?;
    let punch = tables_or_none(table, "punch").ok_or(bad_field(0, 2))?;
    let die = tables_or_none(table, "die").ok_or(bad_field(0, 3))?;
    let load = tables_or_none(table, "load").ok_or(bad_field(0, 20))?;
    if has_unknown_key(table, &["allow", "punch", "die", "load"]) {
        return Err(ToolFault::UnknownKey { table: 0 });
    }
    if are_too_many_tables(allow, punch, die, load) {
        return Err(ToolFault::TooMany { table: 0 });
    }
    tools_of_tables(alloc, allow, punch, die, load)
}

/// The tools of a file, or its first refusal: the document, then table 0, then each further table
/// in order (its keys in order, an unknown key, a list too long, a box out of order or range), and
/// last the first punch or die that has the name of an earlier one. Want of memory may be answered
/// at any point.
pub fn read_tools(alloc: Global, text: &[u8]) -> Result<Tools, ToolFault>
    ensures value { GivesOr ToolFault.NoMemory tools_data result (tools_of text.now) }
    ensures fit { IfOk result (λ tools. IsTools (tools_data tools)) }
{
    match read_document(alloc, text) {
        Ok(table) => tools_of_members(alloc, &table),
        Err(DocumentFault::NotToml) => Err(ToolFault::NotToml),
        Err(DocumentFault::NoMemory) => Err(ToolFault::NoMemory),
    }
}
