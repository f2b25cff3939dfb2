//! Shapes and marks: rectangles, lines and circles. Widths are in tenths of a millimetre of paper.

ghost use Rattle.std.specs.Prelude.{◌≡◌, ◌^◌, ◌≤◌, ◌++◌, OnOk, unsigned_abs, []};
ghost use Rattle.svg_text.specs.Forms.{line_of};
ghost use Rattle.sheet_paper.specs.Windows.{IsWindow};
ghost use Rattle.sheet_paper.specs.FigureLines.{rectangle_line, line_between, circle_line, IsDashes};

use crate::forms::{CIRCLE, DASHED, DOTTED, GROUP_END, LINE, RECTANGLE};
use crate::window::{Area, Window};
use std::alloc::AllocError;
use svg_text::{Hole, put_line};

/// Ends a group of shapes.
pub fn put_group_end(out: &mut Vec<u8>) -> Result<(), AllocError>
    ensures { OnOk result (out.new.items ≡ out.old.items ++ line_of GROUP_END.now []) }
{
    put_line(out, GROUP_END, &[])
}

/// A rectangle.
#[tactic(auto)]
pub fn put_rectangle(
    out: &mut Vec<u8>,
    window: &Window,
    class: &'static [u8],
    width: i64,
    area: &Area,
) -> Result<(), AllocError>
    requires window { IsWindow window.now }
    requires width { unsigned_abs width ≤ 2 ^ 20 }
    ensures { OnOk result
        (out.new.items ≡ out.old.items ++ rectangle_line window.now class.now width area.now) }
{
    let holes = [
        Hole::Word(class),
        window.width(width),
        window.length(area.x0),
        window.length(area.y0),
        window.length(area.x1),
        window.length(area.y1),
        window.length(area.x0),
    ];
    put_line(out, RECTANGLE, &holes)
}

/// How a line is broken: not at all, in dashes, or in dashes and dots. The numbers are the lengths
/// of dash and room, in tenths of a millimetre of paper.
#[derive(Clone, Copy)]
pub enum Dashes {
    Whole,
    Dashed(i64, i64),
    Dotted(i64, i64, i64, i64),
}

/// A line between two points.
#[tactic(auto)]
pub fn put_line_between(
    out: &mut Vec<u8>,
    window: &Window,
    pen: (&'static [u8], i64, Dashes),
    from: (i64, i64),
    to: (i64, i64),
) -> Result<(), AllocError>
    requires window { IsWindow window.now }
    requires width { unsigned_abs pen.1 ≤ 2 ^ 20 }
    requires dashes { IsDashes pen.2 }
    ensures { OnOk result
        (out.new.items ≡ out.old.items ++ line_between window.now pen.entry.0.now pen.entry.1
        pen.entry.2 from to) }
{
    let class = Hole::Word(pen.0);
    let width = window.width(pen.1);
    let x = window.length(from.0);
    let y = window.length(from.1);
    let end_x = window.length(to.0);
    let end_y = window.length(to.1);
    match pen.2 {
        Dashes::Whole => put_line(out, LINE, &[class, width, x, y, end_x, end_y]),
        Dashes::Dashed(dash, room) => {
            let dash = window.width(dash);
            let room = window.width(room);
            put_line(out, DASHED, &[class, width, dash, room, x, y, end_x, end_y])
        }
        Dashes::Dotted(dash, room, dot, second) => {
            let dash = window.width(dash);
            let room = window.width(room);
            let dot = window.width(dot);
            let second = window.width(second);
            put_line(
                out,
                DOTTED,
                &[class, width, dash, room, dot, second, x, y, end_x, end_y],
            )
        }
    }
}

/// A circle around a point of the paper.
#[tactic(auto)]
pub fn put_circle(
    out: &mut Vec<u8>,
    window: &Window,
    pen: (&'static [u8], i64),
    at: (i64, i64),
    radius: i64,
) -> Result<(), AllocError>
    requires window { IsWindow window.now }
    requires width { unsigned_abs pen.1 ≤ 2 ^ 20 }
    requires radius { unsigned_abs radius ≤ 2 ^ 20 }
    ensures { OnOk result
        (out.new.items ≡ out.old.items ++ circle_line window.now pen.entry.0.now pen.entry.1 at radius) }
{
    let holes = [
        Hole::Word(pen.0),
        window.width(pen.1),
        window.length(at.0),
        window.length(at.1),
        window.width(radius),
    ];
    put_line(out, CIRCLE, &holes)
}
