//! Dimensions.

ghost use Rattle.std.specs.Prelude.{◌≡◌, ◌^◌, ◌≤◌, pos, neg_ℤ, ◌+ℤ◌, ◌++◌, OnOk, unsigned_abs, length};
ghost use Rattle.std.specs.Int.{int_div_euclid};
ghost use Rattle.sheet_paper.specs.Windows.{IsWindow};
ghost use Rattle.sheet_paper.specs.FigureLines.{head_line, label_data, IsLabel};
ghost use Rattle.sheet_paper.specs.Dimensions.{room_between, beside, figure_right, is_over, is_behind, words_from, words_label, reach, foot, headed_line, words_line, dimension_lines};

use crate::figure::in_tenths;
use crate::forms::HEAD;
use crate::labels::{Label, put_label};
use crate::shapes::{Dashes, put_line_between};
use crate::window::Window;
use std::alloc::AllocError;
use svg_text::put_line;

/// A head at a point of the line, whose foot lies so many tenths to the right.
#[tactic(auto)]
fn put_head(out: &mut Vec<u8>, window: &Window, x: i64, y: i64, foot: i64) -> Result<(), AllocError>
    requires window { IsWindow window.now }
    requires x { unsigned_abs x ≤ 2 ^ 52 }
    requires y { unsigned_abs y ≤ 2 ^ 52 }
    requires foot { unsigned_abs foot ≤ 2 ^ 20 }
    ensures { OnOk result (out.new.items ≡ out.old.items ++ head_line window.now x y foot) }
{
    let end = window.beyond(x, foot);
    let above = window.before(y, 6);
    let below = window.beyond(y, 6);
    let holes = [
        window.length(x),
        window.length(y),
        window.length(end),
        window.length(above),
        window.length(end),
        window.length(below),
    ];
    put_line(out, HEAD, &holes)
}

/// The room between two places, in tenths of a millimetre of paper, rounded down.
fn room_between(window: &Window, low: i64, high: i64) -> i64
    requires window { IsWindow window.now }
    requires low { unsigned_abs low ≤ 2 ^ 51 }
    requires high { unsigned_abs high ≤ 2 ^ 51 }
    ensures { result ≡ room_between window.now low high }
{
    (high - low).div_euclid(window.unit)
}

/// How far beside the line its words stand, where they have no room over it.
fn beside(room: i64) -> i64
    ensures value { result ≡ beside room }
    ensures few { unsigned_abs result ≤ 50 }
{
    if room >= 44 { 14 } else { 50 }
}

/// The right edge of the figure.
fn figure_right(window: &Window) -> i64
    requires { IsWindow window.now }
    ensures value { result ≡ figure_right window.now }
    ensures near { unsigned_abs result ≤ 2 ^ 60 }
{
    window.beyond(window.x1(), in_tenths(window.paper.right))
}

/// The label of a dimension, moved so far to the right from its place.
fn words_from(class: &'static [u8], x: i64, y: i64, right: i64) -> Label
    requires x { unsigned_abs x ≤ 2 ^ 52 }
    requires y { unsigned_abs y ≤ 2 ^ 52 }
    requires right { unsigned_abs right ≤ 50 }
    ensures value { label_data result ≡ words_from class.now x y right }
    ensures label { IsLabel (label_data result) }
{
    Label {
        at: (x, y),
        moved: (right, -10),
        size: 30,
        class,
    }
}

/// The middle between two places, rounded down.
fn middle(low: i64, high: i64) -> i64
    requires low { unsigned_abs low ≤ 2 ^ 51 }
    requires high { unsigned_abs high ≤ 2 ^ 51 }
    ensures value { result ≡ int_div_euclid (low +ℤ high) (pos 2) }
    ensures near { unsigned_abs result ≤ 2 ^ 52 }
{
    (low + high).div_euclid(2)
}

/// So many tenths in the other direction.
fn opposite(tenths: i64) -> i64
    requires { unsigned_abs tenths ≤ 50 }
    ensures value { result ≡ neg_ℤ tenths }
    ensures few { unsigned_abs result ≤ 50 }
{
    -tenths
}

/// Whether words of so many letters have room over the line.
fn is_over(room: i64, letters: i64) -> bool
    requires { unsigned_abs letters ≤ 2 ^ 10 }
    ensures { result ≡ is_over room letters }
{
    17 * letters + 44 <= room
}

/// Whether words of so many letters beside the high end don't leave the figure.
fn is_behind(window: &Window, high: i64, beside: i64, letters: i64) -> bool
    requires window { IsWindow window.now }
    requires high { unsigned_abs high ≤ 2 ^ 51 }
    requires beside { unsigned_abs beside ≤ 50 }
    requires letters { unsigned_abs letters ≤ 2 ^ 10 }
    ensures { result ≡ is_behind window.now high beside letters }
{
    window.beyond(high, beside + 17 * letters) <= figure_right(window)
}

/// Where the words of a dimension stand: in the middle, beside the high end where they don't leave
/// the figure, or beside the low end.
fn words_at(window: &Window, low: i64, high: i64, y: i64, letters: i64) -> Label
    requires window { IsWindow window.now }
    requires low { unsigned_abs low ≤ 2 ^ 51 }
    requires high { unsigned_abs high ≤ 2 ^ 51 }
    requires y { unsigned_abs y ≤ 2 ^ 52 }
    requires letters { unsigned_abs letters ≤ 2 ^ 10 }
    ensures value { label_data result ≡ words_label window.now low high y letters }
    ensures label { IsLabel (label_data result) }
{
    let room = room_between(window, low, high);
    let beside = beside(room);
    if is_over(room, letters) {
        words_from(b"big", middle(low, high), y, 0)
    } else if is_behind(window, high, beside, letters) {
        words_from(b"big s", high, y, beside)
    } else {
        words_from(b"big e", low, y, opposite(beside))
    }
}

/// How far the line reaches beyond its places.
fn reach(room: i64) -> i64
    ensures value { result ≡ reach room }
    ensures few { unsigned_abs result ≤ 50 }
{
    if room >= 44 { 0 } else { 45 }
}

/// Where the foot of the head at the low end lies, so many tenths to the right.
fn foot(room: i64) -> i64
    ensures value { result ≡ foot room }
    ensures few { unsigned_abs result ≤ 50 }
{
    if room >= 44 { 20 } else { -20 }
}

/// The line of a dimension and its two heads.
#[tactic(auto)]
fn put_headed(
    out: &mut Vec<u8>,
    window: &Window,
    low: i64,
    high: i64,
    y: i64,
) -> Result<(), AllocError>
    requires window { IsWindow window.now }
    requires low { unsigned_abs low ≤ 2 ^ 51 }
    requires high { unsigned_abs high ≤ 2 ^ 51 }
    requires y { unsigned_abs y ≤ 2 ^ 52 }
    ensures { OnOk result (out.new.items ≡ out.old.items ++ headed_line window.now low high y) }
{
    let room = room_between(window, low, high);
    let reach = reach(room);
    let from = window.before(low, reach);
    let to = window.beyond(high, reach);
    let pen: (&'static [u8], i64, Dashes) = (b"thin", 1, Dashes::Whole);
    put_line_between(out, window, pen, (from, y), (to, y))?;
    let foot = foot(room);
    put_head(out, window, low, y, foot)?;
    put_head(out, window, high, y, opposite(foot))
}

/// The words of a dimension.
#[tactic(auto)]
fn put_words(
    out: &mut Vec<u8>,
    window: &Window,
    low: i64,
    high: i64,
    y: i64,
    words: &[u8],
) -> Result<(), AllocError>
    requires window { IsWindow window.now }
    requires low { unsigned_abs low ≤ 2 ^ 51 }
    requires high { unsigned_abs high ≤ 2 ^ 51 }
    requires y { unsigned_abs y ≤ 2 ^ 52 }
    requires words { length words.now ≤ 2 ^ 10 }
    ensures { OnOk result
        (out.new.items ≡ out.old.items ++ words_line window.now low high y words.now) }
{
    let label = words_at(window, low, high, y, words.len() as i64);
    put_label(out, window, &label, words)
}

/// The dimension between two places along x, at a height of the paper: a line with a head at each
/// end, and its words.
#[tactic(auto)]
pub fn put_dimension(
    out: &mut Vec<u8>,
    window: &Window,
    low: i64,
    high: i64,
    y: i64,
    words: &[u8],
) -> Result<(), AllocError>
    requires window { IsWindow window.now }
    requires low { unsigned_abs low ≤ 2 ^ 51 }
    requires high { unsigned_abs high ≤ 2 ^ 51 }
    requires y { unsigned_abs y ≤ 2 ^ 52 }
    requires words { length words.now ≤ 2 ^ 10 }
    ensures { OnOk result
        (out.new.items ≡ out.old.items ++ dimension_lines window.now low high y words.now) }
{
    put_headed(out, window, low, high, y)?;
    put_words(out, window, low, high, y, words)
}
