//! The blank of a page, and the table of faces.
ghost use Rattle.std.specs.Prelude.{◌≡◌, ◌^◌, ◌<◌, ◌≤◌, ◌+◌, ◌++◌, [], unsigned_abs, flat_map, length, IfOk, OnOk};
ghost use Rattle.part_file.specs.Part.{face_data, face_at};
ghost use Rattle.unfolder.specs.Blank.{face_numbers};
ghost use Rattle.sheet_figures.specs.Flats.{IsNearFlat};
ghost use Rattle.sheet_page.specs.BlankPart.{IsFlatOf, size_words, blank_heading, HasBlank};
ghost use Rattle.sheet_page.specs.FaceTable.{core_of, bend_line_of, run_of, bend_cell, place_cell, ends_cell, AreLineWords, face_line, face_row, faces_text};

use crate::forms::{
    FACE_HEAD, FACE_ROW, H2, H2_WITH, LEGEND, SECTION, SECTION_END, TABLE, TABLE_END,
};
use crate::holes::length;
use crate::order::dir_word;
use brake_text::{put_number, put_word};
use job_setup::Job;
use part_file::Face;
use sheet_figures::{Flat, put_blank};
use sheet_words::put_mm;
use std::alloc::{AllocError, Global};
use svg_text::{Hole, put_line};
use unfolder::cores::face_of;
use unfolder::{BendLine, FlatFace, FlatRect};

/// What stands between two sizes.
const TIMES: &[u8] = b" \xc3\x97 ";

const FACES: &[u8] = b"Faces and bend lines";

/// How large a blank is.
#[tactic(auto, using(sheet_paper::proofs::Texts::pieces), unfolding(crate::specs::BlankPart::size_words))]
fn put_size(out: &mut Vec<u8>, flat: &Flat) -> Result<(), AllocError>
    ensures { OnOk result (out.new.items ≡ out.old.items ++ size_words flat.now) }
{
    put_mm(out, flat.width)?;
    put_word(out, TIMES)?;
    put_mm(out, flat.height)?;
    put_word(out, b" mm")
}

/// The heading with the blank's size.
#[tactic(auto, using(sheet_paper::proofs::Texts::pieces))]
fn put_heading(out: &mut Vec<u8>, flat: &Flat) -> Result<(), AllocError>
    ensures { OnOk result (out.new.items ≡ out.old.items ++ blank_heading flat.now) }
{
    let mut size = Vec::new(*out.allocator());
    put_size(&mut size, flat)?;
    put_line(
        out,
        H2_WITH,
        &[Hole::Text(b"Blank"), Hole::Text(size.as_slice())],
    )
}

/// The blank with its figure and the legend, for so many strokes.
#[tactic(auto, using(sheet_paper::proofs::Texts::pieces))]
pub fn put_blank_section(
    out: &mut Vec<u8>,
    job: &Job,
    flat: &Flat,
    strokes: i64,
) -> Result<(), AllocError>
    requires flat { IsNearFlat flat.now }
    requires strokes { unsigned_abs strokes ≤ 2 ^ 7 }
    ensures { OnOk result (HasBlank flat.now strokes out.old.items out.new.items) }
{
    put_line(out, SECTION, &[Hole::Word(b"")])?;
    put_heading(out, flat)?;
    put_blank(out, job, flat, strokes, 1)?;
    put_line(out, LEGEND, &[])?;
    put_line(out, SECTION_END, &[])
}

/// What the table says of a bend line: the bend and its direction, where the line lies, and from
/// where to where.
#[derive(Drop)]
pub(crate) struct LineWords {
    pub(crate) bend: Vec<u8>,
    pub(crate) place: Vec<u8>,
    pub(crate) ends: Vec<u8>,
}

/// Nothing, as of face 0.
fn no_words(alloc: Global) -> LineWords
    ensures bend { result.bend.items ≡ [] }
    ensures place { result.place.items ≡ [] }
    ensures ends { result.ends.items ≡ [] }
{
    LineWords {
        bend: Vec::new(alloc),
        place: Vec::new(alloc),
        ends: Vec::new(alloc),
    }
}

/// A line along x or along y: where it lies across that axis, and its ends along it.
#[derive(Clone, Copy)]
pub(crate) struct Run {
    pub(crate) lies_along_x: bool,
    pub(crate) at: i64,
    pub(crate) from: i64,
    pub(crate) to: i64,
}

/// How a bend line runs.
#[tactic(auto, unfolding(crate::specs::FaceTable::run_of))]
fn run_of(line: &BendLine) -> Run
    ensures { result ≡ run_of line.now }
{
    if line.from.1 == line.to.1 {
        Run {
            lies_along_x: true,
            at: line.from.1,
            from: line.from.0,
            to: line.to.0,
        }
    } else {
        Run {
            lies_along_x: false,
            at: line.from.0,
            from: line.from.1,
            to: line.to.1,
        }
    }
}

/// A bend and its direction.
#[tactic(auto, using(sheet_paper::proofs::Texts::pieces), unfolding(crate::specs::FaceTable::bend_cell))]
fn bend_cell(alloc: Global, line: &BendLine) -> Result<Vec<u8>, AllocError>
    ensures { IfOk result (λ cell. cell.items ≡ bend_cell line.now) }
{
    let mut cell = Vec::new(alloc);
    put_number(&mut cell, i64::from(line.bend))?;
    put_word(&mut cell, dir_word(line.dir))?;
    Ok(cell)
}

/// Where a line lies.
#[tactic(auto, using(sheet_paper::proofs::Texts::pieces), unfolding(crate::specs::FaceTable::place_cell))]
fn place_cell(alloc: Global, run: &Run) -> Result<Vec<u8>, AllocError>
    ensures { IfOk result (λ cell. cell.items ≡ place_cell run.now) }
{
    let mut cell = Vec::new(alloc);
    put_word(&mut cell, if run.lies_along_x { b"y = " } else { b"x = " })?;
    put_mm(&mut cell, run.at)?;
    Ok(cell)
}

/// The ends of a line, the lesser one first.
#[tactic(auto, using(sheet_paper::proofs::Texts::pieces), unfolding(crate::specs::FaceTable::ends_cell))]
fn ends_cell(alloc: Global, run: &Run) -> Result<Vec<u8>, AllocError>
    ensures { IfOk result (λ cell. cell.items ≡ ends_cell run.now) }
{
    let mut cell = Vec::new(alloc);
    put_mm(&mut cell, run.from.min(run.to))?;
    put_word(&mut cell, b" to ")?;
    put_mm(&mut cell, run.from.max(run.to))?;
    Ok(cell)
}

/// What the table says of a bend line.
fn line_words(alloc: Global, line: &BendLine) -> Result<LineWords, AllocError>
    ensures bend { IfOk result (λ words. words.bend.items ≡ bend_cell line.now) }
    ensures place { IfOk result (λ words. words.place.items ≡ place_cell (run_of line.now)) }
    ensures ends { IfOk result (λ words. words.ends.items ≡ ends_cell (run_of line.now)) }
{
    let run = run_of(line);
    let bend = bend_cell(alloc, line)?;
    let place = place_cell(alloc, &run)?;
    let ends = ends_cell(alloc, &run)?;
    Ok(LineWords { bend, place, ends })
}

/// The line of a bend in a blank.
fn bend_line(flat: &Flat, bend: u8) -> &BendLine
    requires some { 0 < bend }
    requires bend { bend ≤ length flat.now.blank.bends.items }
    ensures { result.now ≡ bend_line_of flat.now bend }
{
    &flat.blank.bends.as_slice()[usize::from(bend - 1)]
}

/// What the table says of the line of a face's bend; face 0 has none.
fn words_of(alloc: Global, flat: &Flat, number: u8) -> Result<LineWords, AllocError>
    requires { number ≤ length flat.now.blank.bends.items }
    ensures { IfOk result (AreLineWords flat.now number) }
{
    if number == 0 {
        return Ok(no_words(alloc));
    }
    line_words(alloc, bend_line(flat, number))
}

/// The row of a face with its name, where it lies in the blank, and the words of its line.
#[tactic(auto, using(sheet_paper::proofs::Texts::pieces))]
fn put_face_row<'a>(
    out: &mut Vec<u8>,
    number: u8,
    face: &'a Face,
    rect: &FlatRect,
    words: &'a LineWords,
) -> Result<(), AllocError>
    ensures { OnOk result (out.new.items ≡ out.old.items ++ face_line number (face_data face.now)
        rect.now words.now.bend.items words.now.place.items words.now.ends.items) }
{
    let holes = [
        Hole::Number(i64::from(number)),
        Hole::Text(face.name.as_bytes()),
        length(face.width),
        length(face.length),
        length(rect.x0),
        length(rect.x1),
        length(rect.y0),
        length(rect.y1),
        Hole::Text(words.bend.as_slice()),
        Hole::Text(words.place.as_slice()),
        Hole::Text(words.ends.as_slice()),
    ];
    put_line(out, FACE_ROW, &holes)
}

/// The face of a number in a blank.
fn core_of(flat: &Flat, number: u8) -> &FlatFace
    requires { number < length flat.now.blank.faces.items }
    ensures { result.now ≡ core_of flat.now number }
{
    &flat.blank.faces.as_slice()[usize::from(number)]
}

/// The row of a face.
#[tactic(auto, unfolding(crate::specs::FaceTable::face_row))]
fn put_face(out: &mut Vec<u8>, job: &Job, flat: &Flat, number: u8) -> Result<(), AllocError>
    requires part { number < length job.now.part.faces }
    requires face { number < length flat.now.blank.faces.items }
    requires line { number ≤ length flat.now.blank.bends.items }
    ensures { OnOk result (out.new.items ≡ out.old.items ++ face_row job.now flat.now number) }
{
    let words = words_of(*out.allocator(), flat, number)?;
    let face = face_of(job.part(), number);
    put_face_row(out, number, face, &core_of(flat, number).rect, &words)
}

/// A row for each face.
fn put_rows(out: &mut Vec<u8>, job: &Job, flat: &Flat) -> Result<(), AllocError>
    requires { IsFlatOf job.now flat.now }
    ensures { OnOk result (out.new.items ≡ out.old.items
        ++ flat_map (face_row job.now flat.now) (face_numbers job.now.part.faces)) }
{
    for number in 0..job.bends() + 1 {
        put_face(out, job, flat, number)?;
    }
    Ok(())
}

/// The table of faces and bend lines.
#[tactic(auto, using(sheet_paper::proofs::Texts::pieces), unfolding(crate::specs::FaceTable::faces_text))]
pub fn put_face_section(out: &mut Vec<u8>, job: &Job, flat: &Flat) -> Result<(), AllocError>
    requires { IsFlatOf job.now flat.now }
    ensures { OnOk result (out.new.items ≡ out.old.items ++ faces_text job.now flat.now) }
{
    put_line(out, SECTION, &[Hole::Word(b"")])?;
    put_line(out, H2, &[Hole::Text(FACES)])?;
    put_line(out, TABLE, &[])?;
    put_line(out, FACE_HEAD, &[])?;
    put_rows(out, job, flat)?;
    put_line(out, TABLE_END, &[])?;
    put_line(out, SECTION_END, &[])
}
