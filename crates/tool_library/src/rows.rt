//! The table of each kind of row of a tools file.
ghost use Rattle.std.specs.Prelude.{◌≡◌, IfOk, IfSome, codes};
ghost use Rattle.toml.specs.View.{table_view};
ghost use Rattle.toml_fields.specs.Fields.{integer_at};
ghost use Rattle.toml_fields.specs.Results.{Gives};
ghost use Rattle.allowance.specs.AllowTable.{RowData, row_data, IsAllowRow, IsAllowFactor};
ghost use Rattle.tool_library.specs.Tools.{PunchData, DieData, LoadData, punch_data, die_data, load_data, IsHeight, IsPunch, IsDie, IsLoad};
ghost use Rattle.tool_library.specs.ToolsFile.{factor_of, allow_row_of, punch_of, die_of, load_row_of};

use crate::bounds::{
    GREATEST_FLANGE, GREATEST_HEIGHT, GREATEST_LIMIT, GREATEST_LOAD, LEAST_HEIGHT, LEAST_LOAD,
};
use crate::fault::ToolFault;
use crate::lists::{are_too_many, is_die_body, is_punch_body, rects_of, sections_at, sections_of};
use crate::opening::opening_at;
use crate::row::{Row, bad_field};
use crate::tools::{Die, LoadRow, Punch};
use allowance::{
    AllowRow, Factor, GREATEST_FACTOR, GREATEST_HALF_DEDUCTION, LEAST_FACTOR, LEAST_MEASURED,
};
use part_file::{GREATEST_RADIUS, GREATEST_THICKNESS, LEAST_RADIUS, LEAST_THICKNESS};
use toml::Table;
use toml_fields::{has_key, has_unknown_key, integer_at, integer_or, name_at, rows_at};

/// The factor of an allow row: exactly one of k and q.
fn factor_of(number: u16, table: &Table) -> Result<Factor, ToolFault>
    ensures value { result ≡ factor_of number (table_view table.now) }
    ensures fit { IfOk result IsAllowFactor }
{
    match (has_key(table, "k"), has_key(table, "q")) {
        (true, false) => match integer_at(table, "k", LEAST_FACTOR, GREATEST_FACTOR) {
            Some(k) => Ok(Factor::K(k)),
            None => Err(bad_field(number, 7)),
        },
        (false, true) => match integer_at(table, "q", LEAST_MEASURED, GREATEST_HALF_DEDUCTION) {
            Some(q) => Ok(Factor::Measured(q)),
            None => Err(bad_field(number, 8)),
        },
        _ => Err(bad_field(number, 7)),
    }
}

/// The allow row of a table.
#[tactic(auto, using(crate::proofs::Sizes::reading), unfolding(crate::specs::ToolsFile::allow_row_of))]
fn allow_row_of(number: u16, table: &Table) -> Result<AllowRow, ToolFault>
    ensures value { Gives row_data result (allow_row_of number (table_view table.now)) }
    ensures fit { IfOk result (λ row. IsAllowRow (row_data row)) }
{
    let material = name_at(table, "material").ok_or(bad_field(number, 4))?;
    let thickness = integer_at(table, "thickness", LEAST_THICKNESS, GREATEST_THICKNESS).ok_or(
        bad_field(number, 5),
    )?;
    let radius = integer_at(table, "radius", LEAST_RADIUS, GREATEST_RADIUS).ok_or(bad_field(
        number, 6,
    ))?;
    let factor = factor_of(number, table)?;
    if has_unknown_key(table, &["material", "thickness", "radius", "k", "q"]) {
        return Err(ToolFault::UnknownKey { table: number });
    }
    Ok(AllowRow {
        material,
        thickness,
        radius,
        factor,
    })
}

/// The height of a tool.
fn height_at(table: &Table) -> Option<i64>
    ensures value { result ≡ integer_at LEAST_HEIGHT GREATEST_HEIGHT (codes "height")
        (table_view table.now) }
    ensures fit { IfSome result IsHeight }
{
    integer_at(table, "height", LEAST_HEIGHT, GREATEST_HEIGHT)
}

/// The punch of a table.
#[tactic(auto, using(crate::proofs::Sizes::reading), unfolding(crate::specs::ToolsFile::punch_of))]
fn punch_of(number: u16, table: &Table) -> Result<Punch, ToolFault>
    ensures value { Gives punch_data result (punch_of number (table_view table.now)) }
    ensures fit { IfOk result (λ punch. IsPunch (punch_data punch)) }
{
    let name = name_at(table, "name").ok_or(bad_field(number, 9))?;
    let height = height_at(table).ok_or(bad_field(number, 10))?;
    let nose = integer_at(table, "nose", 0, height).ok_or(bad_field(number, 11))?;
    let body = rows_at(table, "body", 4).ok_or(bad_field(number, 12))?;
    let sections = sections_at(table, "sections").ok_or(bad_field(number, 13))?;
    let limit = integer_or(table, "limit", 0, 0, GREATEST_LIMIT).ok_or(bad_field(number, 25))?;
    if has_unknown_key(
        table,
        &["name", "height", "nose", "body", "sections", "limit"],
    ) {
        return Err(ToolFault::UnknownKey { table: number });
    }
    if are_too_many(body, sections) {
        return Err(ToolFault::TooMany { table: number });
    }
    let body = rects_of(body);
    if !is_punch_body(&body, height) {
        return Err(ToolFault::BadBox { table: number });
    }
    Ok(Punch {
        name,
        height,
        nose,
        body,
        sections: sections_of(sections),
        limit,
    })
}

/// The die of a table.
#[tactic(auto, using(crate::proofs::Sizes::reading), unfolding(crate::specs::ToolsFile::die_of))]
fn die_of(number: u16, table: &Table) -> Result<Die, ToolFault>
    ensures value { Gives die_data result (die_of number (table_view table.now)) }
    ensures fit { IfOk result (λ die. IsDie (die_data die)) }
{
    let name = name_at(table, "name").ok_or(bad_field(number, 14))?;
    let height = height_at(table).ok_or(bad_field(number, 15))?;
    let v = opening_at(table, "v").ok_or(bad_field(number, 16))?;
    let least_flange = integer_at(table, "least_flange", 0, GREATEST_FLANGE).ok_or(bad_field(
        number, 17,
    ))?;
    let body = rows_at(table, "body", 4).ok_or(bad_field(number, 18))?;
    let sections = sections_at(table, "sections").ok_or(bad_field(number, 19))?;
    let limit = integer_or(table, "limit", 0, 0, GREATEST_LIMIT).ok_or(bad_field(number, 26))?;
    if has_unknown_key(
        table,
        &[
            "name",
            "height",
            "v",
            "least_flange",
            "body",
            "sections",
            "limit",
        ],
    ) {
        return Err(ToolFault::UnknownKey { table: number });
    }
    if are_too_many(body, sections) {
        return Err(ToolFault::TooMany { table: number });
    }
    let body = rects_of(body);
    if !is_die_body(&body, height) {
        return Err(ToolFault::BadBox { table: number });
    }
    Ok(Die {
        name,
        height,
        v,
        least_flange,
        body,
        sections: sections_of(sections),
        limit,
    })
}

/// The load row of a table.
#[tactic(auto, using(crate::proofs::Sizes::reading), unfolding(crate::specs::ToolsFile::load_row_of))]
fn load_row_of(number: u16, table: &Table) -> Result<LoadRow, ToolFault>
    ensures value { Gives load_data result (load_row_of number (table_view table.now)) }
    ensures fit { IfOk result (λ row. IsLoad (load_data row)) }
{
    let material = name_at(table, "material").ok_or(bad_field(number, 21))?;
    let thickness = integer_at(table, "thickness", LEAST_THICKNESS, GREATEST_THICKNESS).ok_or(
        bad_field(number, 22),
    )?;
    let v = opening_at(table, "v").ok_or(bad_field(number, 23))?;
    let load = integer_at(table, "load", LEAST_LOAD, GREATEST_LOAD).ok_or(bad_field(number, 24))?;
    if has_unknown_key(table, &["material", "thickness", "v", "load"]) {
        return Err(ToolFault::UnknownKey { table: number });
    }
    Ok(LoadRow {
        material,
        thickness,
        v,
        load,
    })
}

impl Row for AllowRow {
    const KEY: u8 = 1;

    ghost KEY = { 1 };

    ghost View = { RowData };

    ghost view_of = { row_data };

    ghost row_of = { allow_row_of };

    ghost IsRow = { IsAllowRow };

    fn from_table(number: u16, table: &Table) -> Result<Self, ToolFault> {
        allow_row_of(number, table)
    }
}

impl Row for Punch {
    const KEY: u8 = 2;

    ghost KEY = { 2 };

    ghost View = { PunchData };

    ghost view_of = { punch_data };

    ghost row_of = { punch_of };

    ghost IsRow = { IsPunch };

    fn from_table(number: u16, table: &Table) -> Result<Self, ToolFault> {
        punch_of(number, table)
    }
}

impl Row for Die {
    const KEY: u8 = 3;

    ghost KEY = { 3 };

    ghost View = { DieData };

    ghost view_of = { die_data };

    ghost row_of = { die_of };

    ghost IsRow = { IsDie };

    fn from_table(number: u16, table: &Table) -> Result<Self, ToolFault> {
        die_of(number, table)
    }
}

impl Row for LoadRow {
    const KEY: u8 = 20;

    ghost KEY = { 20 };

    ghost View = { LoadData };

    ghost view_of = { load_data };

    ghost row_of = { load_row_of };

    ghost IsRow = { IsLoad };

    fn from_table(number: u16, table: &Table) -> Result<Self, ToolFault> {
        load_row_of(number, table)
    }
}
