//! The marks of the distances beside the blank.
ghost use Rattle.std.specs.Prelude.{◌^◌, ◌≤◌, unsigned_abs, OnOk};
ghost use Rattle.sheet_paper.specs.Windows.{IsWindow};
ghost use Rattle.sheet_paper.specs.FigureLines.{label_data, IsLabel};
ghost use Rattle.sheet_figures.specs.Extending.{Extends};
ghost use Rattle.sheet_figures.specs.Flats.{IsNearFlat};

use crate::blank::Flat;
use crate::distances::{Axis, bends_at, distances_of, least_at, size_of};
use crate::side::downwards;
use brake_base::Mask;
use brake_text::{put_number, put_word};
use sheet_paper::{
    Dashes, Label, Window, put_leader, put_line_between, put_noted, put_noted_upright, spread,
};
use sheet_words::mm;
use std::alloc::{AllocError, Global};

/// What stands before the bend of an index.
fn before_bend(index: usize, count: usize) -> &'static [u8] {
    if index > 0 {
        b", "
    } else if count == 1 {
        b"bend "
    } else {
        b"bends "
    }
}

/// The words for some bends.
fn bends_words(alloc: Global, bends: &[u8]) -> Result<Vec<u8>, AllocError> {
    let mut out = Vec::new(alloc);
    for (i, bend) in bends.iter().enumerate() {
        put_word(&mut out, before_bend(i, bends.len()))?;
        put_number(&mut out, i64::from(*bend))?;
    }
    Ok(out)
}

/// The line from the nearest bend line of a distance to the blank's edge.
fn put_guide(
    out: &mut Vec<u8>,
    window: &Window,
    bends: Mask,
    from: (i64, i64),
    to: (i64, i64),
) -> Result<(), AllocError>
    requires { IsWindow window.now }
    ensures { OnOk result (Extends out.old.items out.new.items) }
{
    if !bends.is_empty() {
        let pen: (&'static [u8], i64, Dashes) = (b"guide", 1, Dashes::Dashed(3, 5));
        put_line_between(out, window, pen, from, to)?;
    }
    Ok(())
}

/// The class of a distance's text: the whole size is bold.
fn class_of(is_size: bool) -> &'static [u8] {
    if is_size { b"big e" } else { b"e" }
}

/// A label left of the blank, at a height of the paper.
fn left_label(window: &Window, y: i64, class: &'static [u8]) -> Label
    requires window { IsWindow window.now }
    requires y { unsigned_abs y ≤ 2 ^ 58 }
    ensures { IsLabel (label_data result) }
{
    Label {
        at: (window.tenths(-74), y),
        moved: (0, -9),
        size: 28,
        class,
    }
}

/// The leader and the words of a distance along y.
fn put_y_words(
    out: &mut Vec<u8>,
    window: &Window,
    flat: &Flat,
    at: i64,
    label: i64,
) -> Result<(), AllocError>
    requires window { IsWindow window.now }
    requires flat { IsNearFlat flat.now }
    requires at { unsigned_abs at ≤ 2 ^ 40 }
    requires label { unsigned_abs label ≤ 2 ^ 58 }
    ensures { OnOk result (Extends out.old.items out.new.items) }
{
    let (from, to) = (downwards(at), downwards(label));
    let near = window.tenths(-20);
    let far = window.tenths(-50);
    let end = window.tenths(-70);
    put_leader(out, window, (0, from), (near, from), (far, to), (end, to))?;
    let class = class_of(at == size_of(flat, Axis::X));
    let note = bends_words(
        *out.allocator(),
        bends_at(flat, Axis::X, at).bends().as_slice(),
    )?;
    let words = mm(*out.allocator(), at)?;
    let place = left_label(window, to, class);
    put_noted(out, window, &place, note.as_slice(), words.as_slice())?;
    Ok(())
}

/// A distance along y, left of the blank.
fn put_y_mark(
    out: &mut Vec<u8>,
    window: &Window,
    flat: &Flat,
    at: i64,
    label: i64,
) -> Result<(), AllocError>
    requires window { IsWindow window.now }
    requires flat { IsNearFlat flat.now }
    requires at { unsigned_abs at ≤ 2 ^ 40 }
    requires label { unsigned_abs label ≤ 2 ^ 58 }
    ensures { OnOk result (Extends out.old.items out.new.items) }
{
    let y = downwards(at);
    let least = least_at(flat, Axis::X, at);
    put_guide(out, window, bends_at(flat, Axis::X, at), (least, y), (0, y))?;
    put_y_words(out, window, flat, at, label)?;
    Ok(())
}

/// The distances of the lines along x, left of the blank.
pub(crate) fn put_y_marks(out: &mut Vec<u8>, window: &Window, flat: &Flat) -> Result<(), AllocError>
    requires window { IsWindow window.now }
    requires flat { IsNearFlat flat.now }
    ensures { OnOk result (Extends out.old.items out.new.items) }
{
    let distances = distances_of(flat, Axis::X);
    let labels = spread(
        distances.as_slice(),
        window.y,
        window.y1(),
        window.tenths(34),
    );
    for (i, at) in distances.as_slice().iter().enumerate() {
        put_y_mark(out, window, flat, *at, labels.as_slice()[i])?;
    }
    Ok(())
}

/// A label below the blank.
fn lower_label(window: &Window, x: i64, class: &'static [u8]) -> Label
    requires window { IsWindow window.now }
    requires x { unsigned_abs x ≤ 2 ^ 58 }
    ensures { IsLabel (label_data result) }
{
    Label {
        at: (x, window.tenths(74)),
        moved: (9, 0),
        size: 28,
        class,
    }
}

/// The leader and the words of a distance along x.
fn put_x_words(
    out: &mut Vec<u8>,
    window: &Window,
    flat: &Flat,
    at: i64,
    label: i64,
) -> Result<(), AllocError>
    requires window { IsWindow window.now }
    requires flat { IsNearFlat flat.now }
    requires at { unsigned_abs at ≤ 2 ^ 40 }
    requires label { unsigned_abs label ≤ 2 ^ 58 }
    ensures { OnOk result (Extends out.old.items out.new.items) }
{
    let near = window.tenths(20);
    let far = window.tenths(50);
    let end = window.tenths(70);
    put_leader(out, window, (at, 0), (at, near), (label, far), (label, end))?;
    let class = class_of(at == size_of(flat, Axis::Y));
    let note = bends_words(
        *out.allocator(),
        bends_at(flat, Axis::Y, at).bends().as_slice(),
    )?;
    let words = mm(*out.allocator(), at)?;
    let place = lower_label(window, label, class);
    put_noted_upright(out, window, &place, note.as_slice(), words.as_slice())?;
    Ok(())
}

/// A distance along x, below the blank.
fn put_x_mark(
    out: &mut Vec<u8>,
    window: &Window,
    flat: &Flat,
    at: i64,
    label: i64,
) -> Result<(), AllocError>
    requires window { IsWindow window.now }
    requires flat { IsNearFlat flat.now }
    requires at { unsigned_abs at ≤ 2 ^ 40 }
    requires label { unsigned_abs label ≤ 2 ^ 58 }
    ensures { OnOk result (Extends out.old.items out.new.items) }
{
    let from = downwards(least_at(flat, Axis::Y, at));
    put_guide(
        out,
        window,
        bends_at(flat, Axis::Y, at),
        (at, from),
        (at, 0),
    )?;
    put_x_words(out, window, flat, at, label)?;
    Ok(())
}

/// The distances of the lines along y, below the blank.
pub(crate) fn put_x_marks(out: &mut Vec<u8>, window: &Window, flat: &Flat) -> Result<(), AllocError>
    requires window { IsWindow window.now }
    requires flat { IsNearFlat flat.now }
    ensures { OnOk result (Extends out.old.items out.new.items) }
{
    let distances = distances_of(flat, Axis::Y);
    let labels = spread(
        distances.as_slice(),
        window.x,
        window.x1(),
        window.tenths(36),
    );
    for (i, at) in distances.as_slice().iter().enumerate() {
        put_x_mark(out, window, flat, *at, labels.as_slice()[i])?;
    }
    Ok(())
}
