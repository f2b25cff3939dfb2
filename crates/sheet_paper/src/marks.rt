//! Leaders and corners.

ghost use Rattle.std.specs.Prelude.{◌≡◌, ◌^◌, ◌≤◌, ◌++◌, OnOk, unsigned_abs};
ghost use Rattle.sheet_paper.specs.Windows.{IsWindow};
ghost use Rattle.sheet_paper.specs.FigureLines.{leader_line, triangle_line};

use crate::forms::{CORNER, LEADER};
use crate::window::Window;
use std::alloc::AllocError;
use svg_text::{Hole, put_line};

/// A line through four points, from a place of the picture to its label.
#[tactic(auto)]
pub fn put_leader(
    out: &mut Vec<u8>,
    window: &Window,
    a: (i64, i64),
    b: (i64, i64),
    c: (i64, i64),
    d: (i64, i64),
) -> Result<(), AllocError>
    requires { IsWindow window.now }
    ensures { OnOk result (out.new.items ≡ out.old.items ++ leader_line window.now a b c d) }
{
    let holes = [
        window.width(1),
        window.length(a.0),
        window.length(a.1),
        window.length(b.0),
        window.length(b.1),
        window.length(c.0),
        window.length(c.1),
        window.length(d.0),
        window.length(d.1),
    ];
    put_line(out, LEADER, &holes)
}

/// A triangle of a class, which marks a corner.
#[tactic(auto)]
pub fn put_triangle(
    out: &mut Vec<u8>,
    window: &Window,
    pen: (&'static [u8], i64),
    a: (i64, i64),
    b: (i64, i64),
    c: (i64, i64),
) -> Result<(), AllocError>
    requires window { IsWindow window.now }
    requires width { unsigned_abs pen.1 ≤ 2 ^ 20 }
    ensures { OnOk result
        (out.new.items ≡ out.old.items ++ triangle_line window.now pen.entry.0.now pen.entry.1 a b c) }
{
    let holes = [
        Hole::Word(pen.0),
        window.width(pen.1),
        window.length(a.0),
        window.length(a.1),
        window.length(b.0),
        window.length(b.1),
        window.length(c.0),
        window.length(c.1),
    ];
    put_line(out, CORNER, &holes)
}
