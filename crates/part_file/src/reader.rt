//! Reads a part file.
ghost use Rattle.std.specs.Prelude.{◌≡◌, IfOk};
ghost use Rattle.toml.specs.View.{table_view};
ghost use Rattle.toml_fields.specs.Results.{Gives, GivesOr};
ghost use Rattle.part_file.specs.Part.{part_data, IsPart};
ghost use Rattle.part_file.specs.PartFile.{thickness_of, radius_of, part_of, part_of_table};

use crate::bounds::{
    GREATEST_RADIUS, GREATEST_THICKNESS, LEAST_RADIUS, LEAST_THICKNESS, MOST_FACES,
};
use crate::faces::{faces_of, refuse_faces};
use crate::fault::PartFault;
use crate::part::Part;
use crate::rows::{bad_field, face_items, face_rows};
use crate::rules::is_even;
use std::alloc::Global;
use toml::Table;
use toml_fields::{DocumentFault, has_unknown_key, integer_at, name_at, read_document};

/// The thickness of the sheet.
fn thickness_of(table: &Table) -> Option<i64>
    ensures { result ≡ thickness_of (table_view table.now) }
{
    integer_at(table, "thickness", LEAST_THICKNESS, GREATEST_THICKNESS)
}

/// The inner radius of the bends.
fn radius_of(table: &Table) -> Option<i64>
    ensures { result ≡ radius_of (table_view table.now) }
{
    integer_at(table, "radius", LEAST_RADIUS, GREATEST_RADIUS)
}

/// The part of the top table.
#[tactic(auto, using(crate::proofs::RowData::rows), unfolding(crate::specs::PartFile::part_of_table))]
fn part_of_table(table: &Table) -> Result<Part, PartFault>
    ensures { Gives part_data result (part_of_table (table_view table.now)) }
{
    let material = name_at(table, "material").ok_or(bad_field(0, 1))?;
    let thickness = thickness_of(table).ok_or(bad_field(0, 2))?;
    let radius = radius_of(table).ok_or(bad_field(0, 3))?;
    let items = face_items(table).ok_or(bad_field(0, 4))?;
    if has_unknown_key(table, &["material", "thickness", "radius", "face"]) {
        return Err(PartFault::UnknownKey { table: 0 });
    }
    if items.len() > MOST_FACES {
        return Err(PartFault::TooMany);
    }
    let rows = face_rows(items)?;
    let faces = faces_of(rows.as_slice());
    refuse_faces(faces.as_slice())?;
    if !is_even(thickness) {
        return Err(PartFault::OddThickness);
    }
    Ok(Part {
        material,
        thickness,
        radius,
        faces,
    })
}

/// The part of a file, or its first refusal: the document, then table 0 key by key, then each
/// face's table in order, then names, parents, sizes and the thickness over all faces.
pub fn read_part(alloc: Global, text: &[u8]) -> Result<Part, PartFault>
    ensures value { GivesOr PartFault.NoMemory part_data result (part_of text.now) }
    ensures fit { IfOk result (λ part. IsPart (part_data part)) }
{
    match read_document(alloc, text) {
        Ok(table) => part_of_table(&table),
        Err(DocumentFault::NotToml) => Err(PartFault::NotToml),
        Err(DocumentFault::NoMemory) => Err(PartFault::NoMemory),
    }
}
