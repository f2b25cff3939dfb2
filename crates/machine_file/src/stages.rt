//! The stages' tables.
ghost use Rattle.std.specs.Prelude.{◌≡◌, ◌≤◌, ◌<◌, ◌↔◌, length, map, All, IsTrue, is_some, option_map};
ghost use Rattle.std.specs.List.{list_all};
ghost use Rattle.toml.specs.View.{view, table_view};
ghost use Rattle.toml_fields.specs.Ranges.{IsWithin};
ghost use Rattle.toml_fields.specs.Results.{Gives, each_from};
ghost use Rattle.machine_file.specs.Machine.{stage_text_data};
ghost use Rattle.machine_file.specs.MachineFile.{piece_of, pieces_at, piece_in, stage_text_of, stage_text_in};

use crate::bounds::{COORDINATE_LIMIT, GREATEST_PIECE, LEAST_PIECE, MOST_PIECES, MOST_STAGES};
use crate::boxes::bad_field;
use crate::fault::MachineFault;
use crate::machine::StageText;
use arrayvec::ArrayVec;
use toml::{Table, Value};
use toml_fields::{array_at, has_unknown_key, integer_at, is_within, name_at};

/// Whether each number is at least the lower end and at most the upper one.
pub fn are_within(numbers: &[i64], low: i64, high: i64) -> bool
    ensures { IsTrue result ↔ All (IsWithin low high) numbers.now }
{
    numbers.iter().all(|n| is_within(*n, low, high))
}

/// The length of a piece.
fn piece_of(item: &Value) -> Option<i64>
    ensures { result ≡ piece_of (view item.now) }
{
    match item.as_integer() {
        Some(length) if is_within(length, LEAST_PIECE, GREATEST_PIECE) => Some(length),
        _ => None,
    }
}

/// Whether each item is a piece.
fn are_pieces(items: &[Value]) -> bool
    ensures { result ≡ list_all (λ item. is_some (piece_of (view item))) items.now }
{
    items.iter().all(|item| piece_of(item).is_some())
}

/// The items of the array at a key, at least one, each a piece.
#[tactic(auto, using(toml_fields::proofs::Sizes::sizes))]
fn pieces_at<'a>(table: &'a Table, key: &str) -> Option<&'a [Value]>
    ensures { option_map (λ items. map view items.now) result
        ≡ pieces_at key.now (table_view table.now) }
{
    let items = array_at(table, key)?;
    if items.is_empty() {
        return None;
    }
    if are_pieces(items) { Some(items) } else { None }
}

/// A piece of the stage in the table of this number.
fn piece_in(table: u8, item: &Value) -> Result<i64, MachineFault>
    ensures { result ≡ piece_in table 0 (view item.now) }
{
    piece_of(item).ok_or(bad_field(table, 26))
}

/// The pieces of the stage in the table of this number.
fn pieces_in(table: u8, items: &[Value]) -> Result<ArrayVec<i64, MOST_PIECES>, MachineFault>
    requires { length items.now ≤ MOST_PIECES }
    ensures { Gives (λ pieces. pieces.items) result
        (each_from (piece_in table) 0 (map view items.now)) }
{
    let mut pieces = ArrayVec::new();
    for item in items {
        let piece = piece_in(table, item)?;
        pieces.push(piece);
    }
    Ok(pieces)
}

/// The stage in the table of this number.
#[tactic(auto, using(toml_fields::proofs::Sizes::sizes), unfolding(crate::specs::MachineFile::stage_text_of))]
fn stage_text_of(number: u8, table: &Table) -> Result<StageText, MachineFault>
    ensures { Gives stage_text_data result (stage_text_of number (table_view table.now)) }
{
    let punch = name_at(table, "punch").ok_or(bad_field(number, 23))?;
    let die = name_at(table, "die").ok_or(bad_field(number, 24))?;
    let at = integer_at(table, "at", -COORDINATE_LIMIT, COORDINATE_LIMIT).ok_or(bad_field(
        number, 25,
    ))?;
    let items = pieces_at(table, "pieces").ok_or(bad_field(number, 26))?;
    if has_unknown_key(table, &["punch", "die", "at", "pieces"]) {
        return Err(MachineFault::UnknownKey { table: number });
    }
    if items.len() > MOST_PIECES {
        return Err(MachineFault::TooMany { table: number });
    }
    let pieces = pieces_in(number, items)?;
    Ok(StageText {
        punch,
        die,
        at,
        pieces,
    })
}

/// The stage of an item of `stage`.
#[tactic(auto, unfolding(crate::specs::MachineFile::stage_text_in))]
fn stage_text_in(stage: u8, item: &Value) -> Result<StageText, MachineFault>
    requires { stage < MOST_STAGES }
    ensures { Gives stage_text_data result (stage_text_in stage (view item.now)) }
{
    match item.as_table() {
        Some(table) => stage_text_of(3 + stage, table),
        None => Err(bad_field(0, 8)),
    }
}

/// The stages of the items of `stage`.
pub fn stage_texts_of(items: &[Value]) -> Result<ArrayVec<StageText, MOST_STAGES>, MachineFault>
    requires { length items.now ≤ MOST_STAGES }
    ensures { Gives (λ stages. map stage_text_data stages.items) result
        (each_from stage_text_in 0 (map view items.now)) }
{
    let mut stages = ArrayVec::new();
    for item in items {
        let stage = stage_text_in(stages.len() as u8, item)?;
        stages.push(stage);
    }
    Ok(stages)
}
