//! The names of the blank's faces, the numbers of its bends, and the corner of face 0.
ghost use Rattle.std.specs.Prelude.{◌^◌, ◌<◌, ◌≤◌, unsigned_abs, length, OnOk};
ghost use Rattle.sheet_paper.specs.Windows.{IsWindow};
ghost use Rattle.sheet_paper.specs.FigureLines.{label_data, IsLabel};
ghost use Rattle.sheet_figures.specs.Extending.{Extends};
ghost use Rattle.sheet_figures.specs.Flats.{IsFlatRect, IsFlatLine, IsNearFlat};

use crate::blank::Flat;
use crate::distances::digits;
use crate::numbers::middle;
use crate::side::downwards;
use brake_text::{put_number, put_word};
use job_setup::Job;
use part_file::Dir;
use sheet_paper::{Label, Window, put_circle, put_label, put_noted, put_triangle};
use sheet_words::name_of;
use std::alloc::{AllocError, Global};
use unfolder::{BendLine, FlatFace, FlatRect};

/// Where a face is named, and how much room its name has across and upright, in tenths of a
/// millimetre of paper.
#[derive(Clone, Copy)]
struct NameRoom {
    at: (i64, i64),
    across: i64,
    upright: i64,
}

/// The room between two places, in tenths of a millimetre of paper, rounded down.
fn room_between(window: &Window, low: i64, high: i64) -> i64
    requires window { IsWindow window.now }
    requires low { unsigned_abs low ≤ 2 ^ 40 }
    requires high { unsigned_abs high ≤ 2 ^ 40 }
    ensures { unsigned_abs result ≤ 2 ^ 48 }
{
    (high - low).div_euclid(window.unit)
}

/// A quarter of a length, rounded down.
fn quarter(length: i64) -> i64
    requires { unsigned_abs length ≤ 2 ^ 41 }
    ensures { unsigned_abs result ≤ 2 ^ 41 }
{
    length.div_euclid(4)
}

/// Three quarters of the way between two places, rounded down.
fn beyond_middle(low: i64, high: i64) -> i64
    requires low { unsigned_abs low ≤ 2 ^ 40 }
    requires high { unsigned_abs high ≤ 2 ^ 40 }
    ensures { unsigned_abs result ≤ 2 ^ 50 }
{
    middle(low, high) + quarter(high - low)
}

/// Half of a room, less what the number of a bend takes.
fn half_room(room: i64) -> i64
    requires { unsigned_abs room ≤ 2 ^ 48 }
    ensures { unsigned_abs result ≤ 2 ^ 49 }
{
    room.div_euclid(2) - 24
}

/// The room in the middle of a rectangle.
fn middle_room(window: &Window, rect: &FlatRect) -> NameRoom
    requires window { IsWindow window.now }
    requires rect { IsFlatRect rect.now }
    ensures x { unsigned_abs result.at.0 ≤ 2 ^ 50 }
    ensures y { unsigned_abs result.at.1 ≤ 2 ^ 50 }
    ensures across { unsigned_abs result.across ≤ 2 ^ 48 }
    ensures upright { unsigned_abs result.upright ≤ 2 ^ 48 }
{
    NameRoom {
        at: (middle(rect.x0, rect.x1), middle(rect.y0, rect.y1)),
        across: room_between(window, rect.x0, rect.x1),
        upright: room_between(window, rect.y0, rect.y1),
    }
}

/// The middle of a face, or where it is narrow, three quarters of the way along it, beside the
/// number of its bend.
fn name_room(window: &Window, face: u8, flat_face: &FlatFace) -> NameRoom
    requires window { IsWindow window.now }
    requires face { IsFlatRect flat_face.now.rect }
    ensures x { unsigned_abs result.at.0 ≤ 2 ^ 50 }
    ensures y { unsigned_abs result.at.1 ≤ 2 ^ 50 }
{
    let rect = flat_face.rect;
    let room = middle_room(window, &rect);
    let lies_along_x = flat_face.turn % 2 == 0;
    if face > 0 && lies_along_x && room.upright < 100 {
        NameRoom {
            at: (beyond_middle(rect.x0, rect.x1), room.at.1),
            across: half_room(room.across),
            upright: room.upright,
        }
    } else if face > 0 && !lies_along_x && room.across < 100 {
        NameRoom {
            at: (room.at.0, beyond_middle(rect.y0, rect.y1)),
            across: room.across,
            upright: half_room(room.upright),
        }
    } else {
        room
    }
}

/// The label in a room, moved so far upwards.
fn label(room: &NameRoom, size: i64, class: &'static [u8], by: i64) -> Label
    requires x { unsigned_abs room.now.at.0 ≤ 2 ^ 50 }
    requires y { unsigned_abs room.now.at.1 ≤ 2 ^ 50 }
    requires size { unsigned_abs size ≤ 2 ^ 10 }
    requires by { unsigned_abs by ≤ 2 ^ 10 }
    ensures { IsLabel (label_data result) }
{
    Label {
        at: (room.at.0, -room.at.1),
        moved: (0, by),
        size,
        class,
    }
}

/// How a face is named in its room.
#[derive(Clone, Copy)]
enum Naming {
    /// Its name, and its number in words below it.
    Both,
    /// Its name behind its number.
    Line,
    Number,
    Nothing,
}

/// The most of a face's name and number that has room.
fn naming_in(room: &NameRoom, face: u8, letters: usize) -> Naming {
    let long = 16 * letters.min(1000) as i64;
    if room.across >= long + 16 && room.upright >= 62 {
        Naming::Both
    } else if room.across >= long + 44 && room.upright >= 26 {
        Naming::Line
    } else if room.across >= 14 + 13 * digits(face) && room.upright >= 20 {
        Naming::Number
    } else {
        Naming::Nothing
    }
}

/// A number as a text.
fn number_text(alloc: Global, number: u8) -> Result<Vec<u8>, AllocError> {
    let mut out = Vec::new(alloc);
    put_number(&mut out, i64::from(number))?;
    Ok(out)
}

/// The number of a face in words.
fn face_words(alloc: Global, face: u8) -> Result<Vec<u8>, AllocError> {
    let mut out = Vec::new(alloc);
    put_word(&mut out, b"face ")?;
    put_number(&mut out, i64::from(face))?;
    Ok(out)
}

/// The name of a face, and its number in words below it.
fn put_both(
    out: &mut Vec<u8>,
    window: &Window,
    face: u8,
    name: &[u8],
    room: &NameRoom,
) -> Result<(), AllocError>
    requires window { IsWindow window.now }
    requires x { unsigned_abs room.now.at.0 ≤ 2 ^ 50 }
    requires y { unsigned_abs room.now.at.1 ≤ 2 ^ 50 }
    ensures { OnOk result (Extends out.old.items out.new.items) }
{
    put_label(out, window, &label(room, 27, b"in", 4), name)?;
    let words = face_words(*out.allocator(), face)?;
    put_label(
        out,
        window,
        &label(room, 22, b"in soft", -24),
        words.as_slice(),
    )?;
    Ok(())
}

/// The name of a face, behind its number.
fn put_name_line(
    out: &mut Vec<u8>,
    window: &Window,
    face: u8,
    name: &[u8],
    room: &NameRoom,
) -> Result<(), AllocError>
    requires window { IsWindow window.now }
    requires x { unsigned_abs room.now.at.0 ≤ 2 ^ 50 }
    requires y { unsigned_abs room.now.at.1 ≤ 2 ^ 50 }
    ensures { OnOk result (Extends out.old.items out.new.items) }
{
    let number = number_text(*out.allocator(), face)?;
    let at = label(room, 24, b"in", -8);
    put_noted(out, window, &at, number.as_slice(), name)?;
    Ok(())
}

/// The number of a face.
fn put_face_number(
    out: &mut Vec<u8>,
    window: &Window,
    face: u8,
    room: &NameRoom,
) -> Result<(), AllocError>
    requires window { IsWindow window.now }
    requires x { unsigned_abs room.now.at.0 ≤ 2 ^ 50 }
    requires y { unsigned_abs room.now.at.1 ≤ 2 ^ 50 }
    ensures { OnOk result (Extends out.old.items out.new.items) }
{
    let number = number_text(*out.allocator(), face)?;
    let at = label(room, 20, b"in soft", -7);
    put_label(out, window, &at, number.as_slice())?;
    Ok(())
}

/// What of a face's name and number has room.
fn put_face_name(
    out: &mut Vec<u8>,
    window: &Window,
    face: u8,
    name: &[u8],
    room: &NameRoom,
) -> Result<(), AllocError>
    requires window { IsWindow window.now }
    requires x { unsigned_abs room.now.at.0 ≤ 2 ^ 50 }
    requires y { unsigned_abs room.now.at.1 ≤ 2 ^ 50 }
    ensures { OnOk result (Extends out.old.items out.new.items) }
{
    match naming_in(room, face, name.len()) {
        Naming::Both => put_both(out, window, face, name, room),
        Naming::Line => put_name_line(out, window, face, name, room),
        Naming::Number => put_face_number(out, window, face, room),
        Naming::Nothing => Ok(()),
    }
}

/// The names of the faces, where they have room.
pub(crate) fn put_face_names(
    out: &mut Vec<u8>,
    window: &Window,
    job: &Job,
    flat: &Flat,
) -> Result<(), AllocError>
    requires window { IsWindow window.now }
    requires flat { IsNearFlat flat.now }
    ensures { OnOk result (Extends out.old.items out.new.items) }
{
    for (i, flat_face) in flat.blank.faces.as_slice().iter().enumerate() {
        let face = i as u8;
        let room = name_room(window, face, flat_face);
        put_face_name(out, window, face, name_of(job, face), &room)?;
    }
    Ok(())
}

/// The classes of a bend's circle and of its number: white for up, black for down.
fn classes_of(dir: Dir) -> (&'static [u8], &'static [u8]) {
    match dir {
        Dir::Up => (b"up", b"big on"),
        Dir::Down => (b"down", b"big off"),
    }
}

/// The label of a bend's number.
fn bend_label(x: i64, y: i64, class: &'static [u8]) -> Label
    requires x { unsigned_abs x ≤ 2 ^ 50 }
    requires y { unsigned_abs y ≤ 2 ^ 50 }
    ensures { IsLabel (label_data result) }
{
    Label {
        at: (x, y),
        moved: (0, -9),
        size: 26,
        class,
    }
}

/// Half of a sum, counted downwards.
fn middle_down(low: i64, high: i64) -> i64
    requires low { unsigned_abs low ≤ 2 ^ 40 }
    requires high { unsigned_abs high ≤ 2 ^ 40 }
    ensures { unsigned_abs result ≤ 2 ^ 50 }
{
    -middle(low, high)
}

/// The number of a bend, in a circle on its line.
fn put_bend_number(out: &mut Vec<u8>, window: &Window, line: &BendLine) -> Result<(), AllocError>
    requires window { IsWindow window.now }
    requires line { IsFlatLine line.now }
    ensures { OnOk result (Extends out.old.items out.new.items) }
{
    let x = middle(line.from.0, line.to.0);
    let y = middle_down(line.from.1, line.to.1);
    let (circle, text) = classes_of(line.dir);
    let pen: (&'static [u8], i64) = (circle, 2);
    put_circle(out, window, pen, (x, y), 20)?;
    let number = number_text(*out.allocator(), line.bend)?;
    put_label(out, window, &bend_label(x, y, text), number.as_slice())?;
    Ok(())
}

/// The number of each bend, in a circle on its line.
pub(crate) fn put_bend_numbers(
    out: &mut Vec<u8>,
    window: &Window,
    flat: &Flat,
) -> Result<(), AllocError>
    requires window { IsWindow window.now }
    requires flat { IsNearFlat flat.now }
    ensures { OnOk result (Extends out.old.items out.new.items) }
{
    for line in flat.blank.bends.as_slice() {
        put_bend_number(out, window, line)?;
    }
    Ok(())
}

/// The corner of face 0 on side A.
pub(crate) fn put_corner(out: &mut Vec<u8>, window: &Window, flat: &Flat) -> Result<(), AllocError>
    requires window { IsWindow window.now }
    requires flat { IsNearFlat flat.now }
    ensures { OnOk result (Extends out.old.items out.new.items) }
{
    let rect = flat.blank.faces.as_slice()[0].rect;
    let y = downwards(rect.y0);
    let beside = window.beyond(rect.x0, 34);
    let above = window.before(y, 34);
    let pen: (&'static [u8], i64) = (b"side-a", 2);
    put_triangle(
        out,
        window,
        pen,
        (rect.x0, y),
        (beside, y),
        (rect.x0, above),
    )?;
    Ok(())
}
