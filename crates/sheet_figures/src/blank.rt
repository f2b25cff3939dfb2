//! The blank.
ghost use Rattle.std.specs.Prelude.{◌≡◌, ◌^◌, ◌<◌, ◌≤◌, ◌++◌, pos, ◌-ℤ◌, ◌*ℤ◌, unsigned_abs, length, map, All, Ok, OnOk, IsOkAnd, flat_map};
ghost use Rattle.unfolder.specs.Blank.{blank_data, blank_of_part};
ghost use Rattle.unfolder.specs.Extent.{IsNearRect, IsNearLine};
ghost use Rattle.sheet_paper.specs.Scales.{IsLeastScale};
ghost use Rattle.sheet_paper.specs.Windows.{IsWindow, IsPaper, IsScale};
ghost use Rattle.sheet_paper.specs.FigureLines.{IsDashes};
ghost use Rattle.sheet_figures.specs.Extending.{Extends};
ghost use Rattle.sheet_figures.specs.Flats.{IsFlatRect, IsFlatLine, IsNearFlat};
ghost use Rattle.sheet_figures.specs.MovedBlanks.{moved_face, moved_line, IsMovedBlank};
ghost use Rattle.sheet_figures.specs.Blanks.{face_area, face_line, bend_dashes, bend_text, blank_shapes, most_upright, IsBlankPaper, IsBlankWindow, IsBlankFigure};

use crate::distance_marks::{put_x_marks, put_y_marks};
use crate::distances::{Axis, margin};
use crate::face_names::{put_bend_numbers, put_corner, put_face_names};
use crate::side::put_begin;
use arrayvec::ArrayVec;
use brake_text::put_word;
use job_setup::Job;
use part_file::Dir;
use sheet_paper::{
    Area, Dashes, Paper, Window, least_scale, put_figure_end, put_line_between, put_rectangle,
    put_shapes_end,
};
use sheet_words::{put_mm, put_plural};
use std::alloc::{AllocError, Global};
use unfolder::{BendLine, Blank, FlatFace, FlatRect, extent, unfold};

const TITLE: &[u8] = b"Blank, seen from side A";

const SENTENCE_END: &[u8] = b". Distances are from the lower left corner of its extent.";

/// The blank with its least corner at (0, 0), and its size.
#[derive(Drop)]
pub struct Flat {
    pub blank: Blank,
    pub width: i64,
    pub height: i64,
}

/// A face, moved.
fn moved_face(face: &FlatFace, extent: &FlatRect) -> FlatFace
    requires face { IsNearRect face.now.rect }
    requires extent { IsNearRect extent.now }
    ensures value { result ≡ moved_face extent.now face.now }
    ensures near { IsFlatRect result.rect }
{
    FlatFace {
        rect: FlatRect {
            x0: face.rect.x0 - extent.x0,
            x1: face.rect.x1 - extent.x0,
            y0: face.rect.y0 - extent.y0,
            y1: face.rect.y1 - extent.y0,
        },
        turn: face.turn,
    }
}

/// A bend line, moved.
fn moved_line(line: &BendLine, extent: &FlatRect) -> BendLine
    requires line { IsNearLine line.now }
    requires extent { IsNearRect extent.now }
    ensures value { result ≡ moved_line extent.now line.now }
    ensures near { IsFlatLine result }
{
    BendLine {
        from: (line.from.0 - extent.x0, line.from.1 - extent.y0),
        to: (line.to.0 - extent.x0, line.to.1 - extent.y0),
        ..*line
    }
}

/// The faces, moved.
fn moved_faces(faces: &[FlatFace], extent: &FlatRect) -> ArrayVec<FlatFace, 13>
    requires few { length faces.now ≤ 13 }
    requires faces { All (λ face. IsNearRect face.rect) faces.now }
    requires extent { IsNearRect extent.now }
    ensures value { result.items ≡ map (moved_face extent.now) faces.now }
    ensures same { length result.items ≡ length faces.now }
    ensures near { All (λ face. IsFlatRect face.rect) result.items }
{
    let mut moved = ArrayVec::new();
    for face in faces {
        moved.push(moved_face(face, extent));
    }
    moved
}

/// The bend lines, moved.
fn moved_lines(lines: &[BendLine], extent: &FlatRect) -> ArrayVec<BendLine, 12>
    requires few { length lines.now ≤ 12 }
    requires lines { All IsNearLine lines.now }
    requires extent { IsNearRect extent.now }
    ensures value { result.items ≡ map (moved_line extent.now) lines.now }
    ensures near { All IsFlatLine result.items }
{
    let mut moved = ArrayVec::new();
    for line in lines {
        moved.push(moved_line(line, extent));
    }
    moved
}

/// The blank of a job's part.
fn blank_of(job: &Job) -> Blank
    ensures value { blank_of_part job.now.part job.now.q ≡ Ok (blank_data result) }
    ensures some { 0 < length result.faces.items }
    ensures faces { All (λ face. IsNearRect face.rect) result.faces.items }
    ensures lines { All IsNearLine result.bends.items }
{
    match unfold(job.part(), job.q()) {
        Ok(blank) => blank,
        Err(_) => unreachable!(),
    }
}

/// The blank of a job's part with its least corner at (0, 0).
pub fn flat_blank(job: &Job) -> Flat
    ensures near { IsNearFlat result }
    ensures moved { IsOkAnd (blank_of_part job.now.part job.now.q)
        (λ blank. IsMovedBlank blank result) }
{
    let blank = blank_of(job);
    let extent = extent(&blank);
    Flat {
        blank: Blank {
            faces: moved_faces(blank.faces.as_slice(), &extent),
            bends: moved_lines(blank.bends.as_slice(), &extent),
        },
        width: extent.x1 - extent.x0,
        height: extent.y1 - extent.y0,
    }
}

/// The rectangle of a face.
fn area_of(face: &FlatFace) -> Area
    ensures { result ≡ face_area face.now }
{
    Area {
        x0: face.rect.x0,
        x1: face.rect.x1,
        y0: face.rect.y0,
        y1: face.rect.y1,
    }
}

/// How high the blank may be on paper, in tenths of a millimetre, so that the order of bends has
/// room on its page.
fn most_upright(strokes: i64) -> i64
    requires { unsigned_abs strokes ≤ 2 ^ 7 }
    ensures value { result ≡ most_upright strokes }
    ensures near { unsigned_abs result ≤ 2 ^ 13 }
{
    1080 - 25 * (strokes - 4).max(0)
}

/// How high the blank is on paper at a scale, in millimetres, rounded up.
fn height_on_paper(height: i64, scale: i64) -> i64
    requires height { unsigned_abs height ≤ 2 ^ 40 }
    requires scale { IsScale scale }
    ensures { unsigned_abs result ≤ 2 ^ 41 }
{
    let millimetre = 10 * scale;
    (height + millimetre - 1).div_euclid(millimetre)
}

/// How high the window is at a scale, in millimetres.
fn window_height(height: i64, scale: i64) -> i64
    requires height { unsigned_abs height ≤ 2 ^ 40 }
    requires scale { IsScale scale }
    ensures { unsigned_abs result ≤ 2 ^ 9 }
{
    (height_on_paper(height, scale) + 4).max(20).min(500)
}

/// The scale of the blank between its margins.
fn blank_scale(flat: &Flat, left: i64, strokes: i64) -> i64
    requires flat { IsNearFlat flat.now }
    requires left { unsigned_abs left ≤ 2 ^ 8 }
    requires strokes { unsigned_abs strokes ≤ 2 ^ 7 }
    ensures least { IsLeastScale flat.now.width flat.now.height
        (pos 10 *ℤ ((pos 186 -ℤ left) -ℤ pos 6)) (most_upright strokes) result }
    ensures valid { IsScale result }
{
    least_scale(
        flat.width,
        flat.height,
        10 * (186 - left - 6),
        most_upright(strokes),
    )
}

/// The paper of the blank at a scale.
fn paper_of(flat: &Flat, left: i64, scale: i64) -> Paper
    requires flat { IsNearFlat flat.now }
    requires left { unsigned_abs left ≤ 2 ^ 8 }
    requires scale { IsScale scale }
    ensures value { IsBlankPaper left result }
    ensures valid { IsPaper result }
{
    let bottom = margin(flat, Axis::Y);
    Paper {
        width: 186,
        height: window_height(flat.height, scale) + 4 + bottom,
        left,
        right: 6,
        top: 4,
        bottom,
    }
}

/// The window of the blank.
fn blank_window(flat: &Flat, strokes: i64, number: i64) -> Window
    requires flat { IsNearFlat flat.now }
    requires strokes { unsigned_abs strokes ≤ 2 ^ 7 }
    ensures value { IsBlankWindow flat.now strokes number result }
    ensures valid { IsWindow result }
{
    let left = margin(flat, Axis::X);
    let scale = blank_scale(flat, left, strokes);
    let area = Area {
        x0: 0,
        x1: flat.width,
        y0: 0,
        y1: flat.height,
    };
    Window::around(paper_of(flat, left, scale), scale, &area, number)
}

/// How the line of a bend is broken.
fn dashes_of(dir: Dir) -> Dashes
    ensures value { result ≡ bend_dashes dir }
    ensures short { IsDashes result }
{
    match dir {
        Dir::Up => Dashes::Dashed(30, 10),
        Dir::Down => Dashes::Dotted(18, 6, 3, 6),
    }
}

/// The line of a bend: a bare stripe, and on it the dashes of its direction.
#[tactic(auto, using(sheet_paper::proofs::Texts::pieces))]
fn put_bend(out: &mut Vec<u8>, window: &Window, line: &BendLine) -> Result<(), AllocError>
    requires { IsWindow window.now }
    ensures { OnOk result (out.new.items ≡ out.old.items ++ bend_text window.now line.now) }
{
    let bare: (&'static [u8], i64, Dashes) = (b"bare", 6, Dashes::Whole);
    put_line_between(out, window, bare, line.from, line.to)?;
    let bend: (&'static [u8], i64, Dashes) = (b"bend", 4, dashes_of(line.dir));
    put_line_between(out, window, bend, line.from, line.to)
}

/// The rectangle of a face, of a class and a width.
#[tactic(auto, using(sheet_paper::proofs::Texts::pieces))]
fn put_face(
    out: &mut Vec<u8>,
    window: &Window,
    face: &FlatFace,
    class: &'static [u8],
    width: i64,
) -> Result<(), AllocError>
    requires window { IsWindow window.now }
    requires width { unsigned_abs width ≤ 2 ^ 20 }
    ensures { OnOk result (out.new.items
        ≡ out.old.items ++ face_line class.now width window.now face.now) }
{
    put_rectangle(out, window, class, width, &area_of(face))
}

/// The rectangles of the faces, of a class and a width.
#[tactic(auto, using(sheet_paper::proofs::Texts::pieces))]
fn put_faces(
    out: &mut Vec<u8>,
    window: &Window,
    faces: &[FlatFace],
    class: &'static [u8],
    width: i64,
) -> Result<(), AllocError>
    requires window { IsWindow window.now }
    requires width { unsigned_abs width ≤ 2 ^ 20 }
    ensures { OnOk result (out.new.items
        ≡ out.old.items ++ flat_map (face_line class.now width window.now) faces.now) }
{
    for face in faces {
        put_face(out, window, face, class, width)?;
    }
    Ok(())
}

/// The lines of the bends.
fn put_bends(out: &mut Vec<u8>, window: &Window, lines: &[BendLine]) -> Result<(), AllocError>
    requires { IsWindow window.now }
    ensures { OnOk result (out.new.items
        ≡ out.old.items ++ flat_map (bend_text window.now) lines.now) }
{
    for line in lines {
        put_bend(out, window, line)?;
    }
    Ok(())
}

/// The faces, their edges, and the lines of the bends.
#[tactic(auto, using(sheet_paper::proofs::Texts::pieces), unfolding(crate::specs::Blanks::blank_shapes))]
fn put_shapes(out: &mut Vec<u8>, window: &Window, flat: &Flat) -> Result<(), AllocError>
    requires { IsWindow window.now }
    ensures { OnOk result (out.new.items ≡ out.old.items ++ blank_shapes window.now flat.now) }
{
    let faces = flat.blank.faces.as_slice();
    put_faces(out, window, faces, b"sheet", 0)?;
    put_faces(out, window, faces, b"edge", 3)?;
    put_bends(out, window, flat.blank.bends.as_slice())?;
    put_shapes_end(out)
}

/// What the figure says to those who can't see it.
fn blank_sentence(alloc: Global, flat: &Flat) -> Result<Vec<u8>, AllocError> {
    let mut out = Vec::new(alloc);
    put_word(&mut out, b"The flat blank, ")?;
    put_mm(&mut out, flat.width)?;
    put_word(&mut out, b" by ")?;
    put_mm(&mut out, flat.height)?;
    put_word(&mut out, b" mm, with ")?;
    put_plural(&mut out, flat.blank.bends.len(), b"bend line")?;
    put_word(&mut out, SENTENCE_END)?;
    Ok(out)
}

/// The names of the faces, the distances, the numbers of the bends, and the corner of face 0.
fn put_marks(out: &mut Vec<u8>, window: &Window, job: &Job, flat: &Flat) -> Result<(), AllocError>
    requires window { IsWindow window.now }
    requires flat { IsNearFlat flat.now }
    ensures { OnOk result (Extends out.old.items out.new.items) }
{
    put_face_names(out, window, job, flat)?;
    put_y_marks(out, window, flat)?;
    put_x_marks(out, window, flat)?;
    put_bend_numbers(out, window, flat)?;
    put_corner(out, window, flat)?;
    Ok(())
}

/// The blank, seen from side A: its faces, its bend lines with their numbers, and how far each line
/// is from the lower left corner.
pub fn put_blank(
    out: &mut Vec<u8>,
    job: &Job,
    flat: &Flat,
    strokes: i64,
    number: i64,
) -> Result<(), AllocError>
    requires flat { IsNearFlat flat.now }
    requires strokes { unsigned_abs strokes ≤ 2 ^ 7 }
    ensures value { OnOk result (IsBlankFigure flat.now strokes number out.old.items out.new.items) }
    ensures grows { OnOk result (Extends out.old.items out.new.items) }
{
    let window = blank_window(flat, strokes, number);
    let sentence = blank_sentence(*out.allocator(), flat)?;
    put_begin(out, &window, TITLE, sentence.as_slice())?;
    put_shapes(out, &window, flat)?;
    put_marks(out, &window, job, flat)?;
    put_figure_end(out, &window, TITLE)?;
    Ok(())
}
