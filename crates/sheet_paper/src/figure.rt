//! The frame lines of a figure.

ghost use Rattle.std.specs.Prelude.{◌≡◌, ◌^◌, ◌≤◌, pos, ◌*ℤ◌, ◌++◌, unsigned_abs, codes, OnOk, []};
ghost use Rattle.svg_text.specs.Forms.{line_of};
ghost use Rattle.sheet_paper.specs.Windows.{IsScale, IsWindow};
ghost use Rattle.sheet_paper.specs.FigureLines.{figure_left, figure_head, size_line, title_line, window_line, end_line, printed_scale, rectangle_line, frame_area};

use crate::forms::{FIGURE, FIGURE_END, GROUP_END, TITLE, WINDOW};
use crate::shapes::put_rectangle;
use crate::window::{Area, Window};
use std::alloc::AllocError;
use svg_text::{Hole, put_line};

/// Millimetres of paper in tenths.
pub fn in_tenths(millimetres: i64) -> i64
    requires { unsigned_abs millimetres ≤ 2 ^ 10 }
    ensures value { result ≡ (pos 10 *ℤ millimetres) }
    ensures near { unsigned_abs result ≤ 2 ^ 14 }
{
    10 * millimetres
}

/// The figure's left edge.
fn figure_left(window: &Window) -> i64
    requires { IsWindow window.now }
    ensures { result ≡ figure_left window.now }
{
    window.before(window.x, in_tenths(window.paper.left))
}

/// The figure's upper edge on the paper, whose y counts downwards.
fn figure_head(window: &Window) -> i64
    requires { IsWindow window.now }
    ensures { result ≡ figure_head window.now }
{
    window.before(window.head(), in_tenths(window.paper.top))
}

/// The first line of a figure: its size on paper and what of the picture that shows.
#[tactic(auto)]
fn put_size(out: &mut Vec<u8>, window: &Window) -> Result<(), AllocError>
    requires { IsWindow window.now }
    ensures { OnOk result (out.new.items ≡ out.old.items ++ size_line window.now) }
{
    let paper = &window.paper;
    let left = figure_left(window);
    let head = figure_head(window);
    let width = in_tenths(paper.width);
    let height = in_tenths(paper.height);
    let holes = [
        Hole::Number(paper.width),
        Hole::Number(paper.width),
        Hole::Number(paper.height),
        window.length(left),
        window.length(head),
        window.width(width),
        window.width(height),
        Hole::Number(window.number),
        Hole::Number(window.number),
    ];
    put_line(out, FIGURE, &holes)
}

/// The line of the title, and of a sentence for those who can't see the figure.
#[tactic(auto)]
fn put_title<'a>(
    out: &mut Vec<u8>,
    window: &Window,
    title: &'a [u8],
    sentence: &'a [u8],
) -> Result<(), AllocError>
    ensures { OnOk result
        (out.new.items ≡ out.old.items ++ title_line window.now title.now sentence.now) }
{
    let holes = [
        Hole::Number(window.number),
        Hole::Text(title),
        Hole::Number(window.number),
        Hole::Text(sentence),
    ];
    put_line(out, TITLE, &holes)
}

/// The line of the window: shapes are cut at it, and their y points upwards.
#[tactic(auto)]
fn put_window(out: &mut Vec<u8>, window: &Window) -> Result<(), AllocError>
    requires { IsWindow window.now }
    ensures { OnOk result (out.new.items ≡ out.old.items ++ window_line window.now) }
{
    let holes = [
        Hole::Number(window.number),
        window.length(window.x),
        window.length(window.y),
        window.length(window.x1()),
        window.length(window.y1()),
        window.length(window.x),
        Hole::Number(window.number),
    ];
    put_line(out, WINDOW, &holes)
}

/// Begins a figure with its title and a sentence for those who can't see it. Shapes follow.
#[tactic(auto)]
pub fn put_figure<'a>(
    out: &mut Vec<u8>,
    window: &Window,
    title: &'a [u8],
    sentence: &'a [u8],
) -> Result<(), AllocError>
    requires { IsWindow window.now }
    ensures { OnOk result (out.new.items ≡ out.old.items
        ++ size_line window.now ++ title_line window.now title.now sentence.now
        ++ window_line window.now) }
{
    put_size(out, window)?;
    put_title(out, window, title, sentence)?;
    put_window(out, window)
}

/// Ends the shapes. Marks follow, whose y counts downwards.
pub fn put_shapes_end(out: &mut Vec<u8>) -> Result<(), AllocError>
    ensures { OnOk result (out.new.items ≡ out.old.items ++ line_of GROUP_END.now []) }
{
    put_line(out, GROUP_END, &[])
}

/// The frame around the window.
#[tactic(auto)]
pub fn put_frame(out: &mut Vec<u8>, window: &Window) -> Result<(), AllocError>
    requires { IsWindow window.now }
    ensures { OnOk result (out.new.items ≡ out.old.items
        ++ rectangle_line window.now (codes "frame") (pos 1) (frame_area window.now)) }
{
    let area = Area {
        x0: window.x,
        x1: window.x1(),
        y0: window.head(),
        y1: window.foot(),
    };
    put_rectangle(out, window, b"frame", 1, &area)
}

/// The two numbers of a scale, in hundredths: 1 and how many times the part is greater, or how many
/// times the picture is, and 1.
fn scale_numbers(scale: i64) -> (i64, i64)
    requires { IsScale scale }
    ensures { result ≡ printed_scale scale }
{
    if scale >= 100 {
        (100, scale)
    } else {
        (10_000_i64.div_euclid(scale), 100)
    }
}

/// Ends a figure with its caption and its scale.
#[tactic(auto)]
pub fn put_figure_end(out: &mut Vec<u8>, window: &Window, caption: &[u8]) -> Result<(), AllocError>
    requires { IsWindow window.now }
    ensures { OnOk result (out.new.items ≡ out.old.items ++ end_line window.now caption.now) }
{
    let (paper, part) = scale_numbers(window.scale);
    let holes = [
        Hole::Text(caption),
        Hole::Decimal {
            value: paper,
            places: 2,
        },
        Hole::Decimal {
            value: part,
            places: 2,
        },
    ];
    put_line(out, FIGURE_END, &holes)
}
