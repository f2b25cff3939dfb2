//! Reads a machine file.
ghost use Rattle.std.specs.Prelude.{◌≡◌, ◌≤◌, IfOk, IsFalse, length, map};
ghost use Rattle.toml.specs.View.{view, table_view};
ghost use Rattle.toml_fields.specs.Results.{Gives, GivesOr};
ghost use Rattle.machine_file.specs.Machine.{machine_data, IsMachine};
ghost use Rattle.machine_file.specs.MachineFile.{ends_in, rows_in, uncovered_in, table_in, stages_in, gang_in, force_in, fine_in, too_many, machine_of, machine_of_members};

use crate::bounds::{
    GREATEST_FINE, GREATEST_FORCE, GREATEST_UNCOVERED, MOST_BOXES, MOST_FRAMES, MOST_STAGES,
};
use crate::boxes::{bad_field, fixtures_of};
use crate::fault::MachineFault;
use crate::machine::Machine;
use crate::stages::stage_texts_of;
use crate::tables::{costs_of, gauge_of};
use std::alloc::Global;
use toml::{Table, Value};
use toml_fields::{
    DocumentFault, has_unknown_key, integer_at, integer_or, integers_of, read_document,
    rows_or_none, table_at, tables_or_none, value_at,
};

/// The keys of the top table.
const KEYS: [&str; 11] = [
    "bed",
    "frames",
    "upper",
    "lower",
    "uncovered",
    "gauge",
    "cost",
    "stage",
    "gang",
    "force",
    "fine",
];

/// The two ends of the bed.
fn ends_in(table: &Table) -> Result<[i64; 2], MachineFault>
    ensures { Gives (λ ends. ends) result (ends_in (table_view table.now)) }
{
    match value_at(table, "bed") {
        Some(value) => integers_of::<2>(value).ok_or(bad_field(0, 1)),
        None => Err(bad_field(0, 1)),
    }
}

/// A list of rows of so many integers, or the refusal of the key's number.
fn rows_in<'a>(
    table: &'a Table,
    key: &str,
    count: usize,
    number: u8,
) -> Result<&'a [Value], MachineFault>
    ensures { Gives (λ items. map view items.now) result
        (rows_in count key.now number (table_view table.now)) }
{
    rows_or_none(table, key, count).ok_or(bad_field(0, number))
}

/// How much of a bend line may stay uncovered at each end, in micrometres.
fn uncovered_in(table: &Table) -> Result<i64, MachineFault>
    ensures { Gives (λ n. n) result (uncovered_in (table_view table.now)) }
{
    integer_at(table, "uncovered", 0, GREATEST_UNCOVERED).ok_or(bad_field(0, 5))
}

/// The table at a key, or the refusal of the key's number.
fn table_in<'a>(table: &'a Table, key: &str, number: u8) -> Result<&'a Table, MachineFault>
    ensures { Gives (λ inner. table_view inner.now) result
        (table_in key.now number (table_view table.now)) }
{
    table_at(table, key).ok_or(bad_field(0, number))
}

/// The stages' tables.
fn stages_in(table: &Table) -> Result<&[Value], MachineFault>
    ensures { Gives (λ items. map view items.now) result (stages_in (table_view table.now)) }
{
    tables_or_none(table, "stage").ok_or(bad_field(0, 8))
}

/// 1 where several flanges may be bent in one stroke, else 0.
fn gang_in(table: &Table) -> Result<i64, MachineFault>
    ensures { Gives (λ n. n) result (gang_in (table_view table.now)) }
{
    integer_or(table, "gang", 0, 0, 1).ok_or(bad_field(0, 27))
}

/// The greatest force in newtons, 0 for no limit.
fn force_in(table: &Table) -> Result<i64, MachineFault>
    ensures { Gives (λ n. n) result (force_in (table_view table.now)) }
{
    integer_or(table, "force", 0, 0, GREATEST_FORCE).ok_or(bad_field(0, 28))
}

/// How often in a row a piece of the part may be halved.
fn fine_in(table: &Table) -> Result<u8, MachineFault>
    ensures value { result ≡ fine_in (table_view table.now) }
{
    match integer_or(table, "fine", 0, 0, i64::from(GREATEST_FINE)) {
        Some(fine) => Ok(fine as u8),
        None => Err(bad_field(0, 29)),
    }
}

/// Whether there are too many frames, boxes above the bed, boxes below it, or stages.
#[tactic(auto, using(toml_fields::proofs::Sizes::sizes))]
fn are_too_many(frames: &[Value], upper: &[Value], lower: &[Value], stages: &[Value]) -> bool
    ensures frames { IsFalse result → length frames.now ≤ MOST_FRAMES }
    ensures upper { IsFalse result → length upper.now ≤ MOST_BOXES }
    ensures lower { IsFalse result → length lower.now ≤ MOST_BOXES }
    ensures stages { IsFalse result → length stages.now ≤ MOST_STAGES }
    ensures value { result
        ≡ too_many (map view frames.now) (map view upper.now) (map view lower.now)
        (map view stages.now) }
{
    frames.len() > MOST_FRAMES
        || upper.len() > MOST_BOXES
        || lower.len() > MOST_BOXES
        || stages.len() > MOST_STAGES
}

/// The machine of the top table.
#[tactic(auto, using(toml_fields::proofs::Sizes::sizes), unfolding(crate::specs::MachineFile::machine_of_members))]
fn machine_of_members(table: &Table) -> Result<Machine, MachineFault>
    ensures { Gives machine_data result (machine_of_members (table_view table.now)) }
{
    let ends = ends_in(table)?;
    let frames = rows_in(table, "frames", 2, 2)?;
    let upper = rows_in(table, "upper", 6, 3)?;
    let lower = rows_in(table, "lower", 6, 4)?;
    let uncovered = uncovered_in(table)?;
    let gauge = table_in(table, "gauge", 6)?;
    let cost = table_in(table, "cost", 7)?;
    let stages = stages_in(table)?;
    let gang = gang_in(table)?;
    let force = force_in(table)?;
    let fine = fine_in(table)?;
    if has_unknown_key(table, &KEYS) {
        return Err(MachineFault::UnknownKey { table: 0 });
    }
    if are_too_many(frames, upper, lower, stages) {
        return Err(MachineFault::TooMany { table: 0 });
    }
    let fixtures = fixtures_of(ends, frames, upper, lower)?;
    let gauge = gauge_of(gauge)?;
    let cost = costs_of(cost)?;
    let stages = stage_texts_of(stages)?;
    Ok(Machine {
        bed: fixtures.bed,
        frames: fixtures.frames,
        upper: fixtures.upper,
        lower: fixtures.lower,
        uncovered,
        gauge,
        cost,
        stages,
        gang: gang == 1,
        force,
        fine,
    })
}

/// The machine of a file, or its first refusal: the document, then table by table the keys in
/// order, an unknown key, a list too long, a box out of order or range. Want of memory may be
/// answered where the document is read.
pub fn read_machine(alloc: Global, text: &[u8]) -> Result<Machine, MachineFault>
    ensures value { GivesOr MachineFault.NoMemory machine_data result (machine_of text.now) }
    ensures fit { IfOk result (λ machine. IsMachine (machine_data machine)) }
{
    match read_document(alloc, text) {
        Ok(table) => machine_of_members(&table),
        Err(DocumentFault::NotToml) => Err(MachineFault::NotToml),
        Err(DocumentFault::NoMemory) => Err(MachineFault::NoMemory),
    }
}
