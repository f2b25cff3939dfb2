//! A face as its table says it, before its parent is found.
ghost use Rattle.std.specs.Prelude.{◌≡◌, ◌≤◌, ◌<◌, suc, ◌+◌, length, map, option_map};
ghost use Rattle.toml.specs.View.{view, table_view};
ghost use Rattle.toml_fields.specs.Results.{Gives, each_from};
ghost use Rattle.part_file.specs.Rows.{face_row_data};
ghost use Rattle.part_file.specs.PartFile.{side_named, dir_named, root_row, child_row, face_row, face_items};

use crate::bounds::MOST_FACES;
use crate::fault::PartFault;
use crate::part::{Dir, Side};
use arrayvec::ArrayVec;
use brake_base::Name;
use toml::{Table, Value};
use toml_fields::{has_unknown_key, name_at, tables_at, text_at, whole_at};

/// Where a face is joined, by the name of its parent.
#[derive(Clone, Copy)]
pub struct JointRow {
    pub on: Name,
    pub side: Side,
    pub at: i64,
    pub dir: Dir,
}

/// A face by its own name and its parent's.
#[derive(Clone, Copy, Default)]
pub struct FaceRow {
    pub name: Name,
    pub width: i64,
    pub length: i64,
    pub joint: Option<JointRow>,
}

/// A key that is needed is missing or bad.
pub fn bad_field(table: u8, key: u8) -> PartFault
    ensures { result ≡ PartFault.BadField table key }
{
    PartFault::BadField { table, key }
}

fn side_named(text: &str) -> Option<Side>
    ensures { result ≡ side_named text.now }
{
    match text {
        "N" => Some(Side::N),
        "E" => Some(Side::E),
        "S" => Some(Side::S),
        "W" => Some(Side::W),
        _ => None,
    }
}

fn dir_named(text: &str) -> Option<Dir>
    ensures { result ≡ dir_named text.now }
{
    match text {
        "up" => Some(Dir::Up),
        "down" => Some(Dir::Down),
        _ => None,
    }
}

/// Face 0, of table 1.
#[tactic(auto, using(toml_fields::proofs::Sizes::sizes), unfolding(crate::specs::PartFile::root_row))]
fn root_row(table: &Table) -> Result<FaceRow, PartFault>
    ensures { Gives face_row_data result (root_row (table_view table.now)) }
{
    let name = name_at(table, "name").ok_or(bad_field(1, 5))?;
    let width = whole_at(table, "width").ok_or(bad_field(1, 9))?;
    let length = whole_at(table, "length").ok_or(bad_field(1, 10))?;
    if has_unknown_key(table, &["name", "width", "length"]) {
        return Err(PartFault::UnknownKey { table: 1 });
    }
    Ok(FaceRow {
        name,
        width,
        length,
        joint: None,
    })
}

/// Another face, of the table of this number.
#[tactic(auto, using(toml_fields::proofs::Sizes::sizes), unfolding(crate::specs::PartFile::child_row))]
fn child_row(number: u8, table: &Table) -> Result<FaceRow, PartFault>
    ensures { Gives face_row_data result (child_row number (table_view table.now)) }
{
    let name = name_at(table, "name").ok_or(bad_field(number, 5))?;
    let on = name_at(table, "on").ok_or(bad_field(number, 6))?;
    let side = text_at(table, "side")
        .and_then(side_named)
        .ok_or(bad_field(number, 7))?;
    let at = whole_at(table, "at").ok_or(bad_field(number, 8))?;
    let width = whole_at(table, "width").ok_or(bad_field(number, 9))?;
    let length = whole_at(table, "length").ok_or(bad_field(number, 10))?;
    let dir = text_at(table, "dir")
        .and_then(dir_named)
        .ok_or(bad_field(number, 11))?;
    if has_unknown_key(
        table,
        &["name", "on", "side", "at", "width", "length", "dir"],
    ) {
        return Err(PartFault::UnknownKey { table: number });
    }
    Ok(FaceRow {
        name,
        width,
        length,
        joint: Some(JointRow { on, side, at, dir }),
    })
}

/// The face of a number, of its item of `face`.
#[tactic(auto, unfolding(crate::specs::PartFile::face_row))]
fn face_row(face: u8, item: &Value) -> Result<FaceRow, PartFault>
    requires { face < MOST_FACES }
    ensures { Gives face_row_data result (face_row face (view item.now)) }
{
    match item.as_table() {
        Some(table) if face == 0 => root_row(table),
        Some(table) => child_row(1 + face, table),
        None => Err(bad_field(0, 4)),
    }
}

/// The faces of the items of `face`, of which there are at most `MOST_FACES`.
pub fn face_rows(items: &[Value]) -> Result<ArrayVec<FaceRow, MOST_FACES>, PartFault>
    requires { length items.now ≤ MOST_FACES }
    ensures { Gives (λ rows. map face_row_data rows.items) result
        (each_from face_row 0 (map view items.now)) }
{
    let mut rows = ArrayVec::new();
    for item in items {
        let row = face_row(rows.len() as u8, item)?;
        rows.push(row);
    }
    Ok(rows)
}

/// The items of `face`: tables, at least one.
pub fn face_items(table: &Table) -> Option<&[Value]>
    ensures { option_map (λ items. map view items.now) result
        ≡ face_items (table_view table.now) }
{
    let items = tables_at(table, "face")?;
    if items.is_empty() { None } else { Some(items) }
}
