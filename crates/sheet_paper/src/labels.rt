//! Texts on the paper.

ghost use Rattle.std.specs.Prelude.{◌≡◌, ◌^◌, ◌≤◌, ◌++◌, OnOk, pos, ◌-ℤ◌, unsigned_abs};
ghost use Rattle.sheet_paper.specs.Windows.{IsWindow};
ghost use Rattle.sheet_paper.specs.FigureLines.{label_data, IsLabel, plain_line, with_line, label_line, upright_line, noted_line, noted_upright_line};

use crate::forms::{TEXT, TEXT_UPRIGHT, TEXT_UPRIGHT_WITH, TEXT_WITH};
use crate::window::Window;
use std::alloc::AllocError;
use svg_text::{Hole, put_line};

/// Where a text stands on the paper and how: its point, how far it is moved from there to the right
/// and upwards and how high its letters are, in tenths of a millimetre of paper, and its class. It
/// is centred at its point; with the class `s` it begins there and with `e` it ends there.
#[derive(Clone, Copy)]
pub struct Label {
    pub at: (i64, i64),
    pub moved: (i64, i64),
    pub size: i64,
    pub class: &'static [u8],
}

/// How high the letters of a note are, before words of a size.
fn note_size(size: i64) -> i64
    requires { unsigned_abs size ≤ 2 ^ 20 }
    ensures { result ≡ (size -ℤ pos 4) }
{
    size - 4
}

#[tactic(auto)]
fn put_plain(
    out: &mut Vec<u8>,
    window: &Window,
    form: &[u8],
    label: &Label,
    words: &[u8],
) -> Result<(), AllocError>
    requires window { IsWindow window.now }
    requires label { IsLabel (label_data label.now) }
    ensures { OnOk result (out.new.items
        ≡ out.old.items ++ plain_line form.now window.now (label_data label.now) words.now) }
{
    let x = window.beyond(label.at.0, label.moved.0);
    let y = window.before(label.at.1, label.moved.1);
    let holes = [
        Hole::Word(label.class),
        window.length(x),
        window.length(y),
        window.width(1),
        Hole::Number(label.size),
        Hole::Text(words),
    ];
    put_line(out, form, &holes)
}

#[tactic(auto)]
fn put_with<'a>(
    out: &mut Vec<u8>,
    window: &Window,
    form: &[u8],
    label: &Label,
    note: &'a [u8],
    words: &'a [u8],
) -> Result<(), AllocError>
    requires window { IsWindow window.now }
    requires label { IsLabel (label_data label.now) }
    ensures { OnOk result (out.new.items ≡ out.old.items
        ++ with_line form.now window.now (label_data label.now) note.now words.now) }
{
    let x = window.beyond(label.at.0, label.moved.0);
    let y = window.before(label.at.1, label.moved.1);
    let holes = [
        Hole::Word(label.class),
        window.length(x),
        window.length(y),
        window.width(1),
        Hole::Number(label.size),
        Hole::Number(note_size(label.size)),
        Hole::Text(note),
        Hole::Text(words),
    ];
    put_line(out, form, &holes)
}

/// A text.
pub fn put_label(
    out: &mut Vec<u8>,
    window: &Window,
    label: &Label,
    words: &[u8],
) -> Result<(), AllocError>
    requires window { IsWindow window.now }
    requires label { IsLabel (label_data label.now) }
    ensures { OnOk result (out.new.items
        ≡ out.old.items ++ label_line window.now (label_data label.now) words.now) }
{
    put_plain(out, window, TEXT, label, words)
}

/// A text that reads upwards.
pub fn put_label_upright(
    out: &mut Vec<u8>,
    window: &Window,
    label: &Label,
    words: &[u8],
) -> Result<(), AllocError>
    requires window { IsWindow window.now }
    requires label { IsLabel (label_data label.now) }
    ensures { OnOk result (out.new.items
        ≡ out.old.items ++ upright_line window.now (label_data label.now) words.now) }
{
    put_plain(out, window, TEXT_UPRIGHT, label, words)
}

/// A text with a small grey note before it, where that isn't empty.
pub fn put_noted<'a>(
    out: &mut Vec<u8>,
    window: &Window,
    label: &Label,
    note: &'a [u8],
    words: &'a [u8],
) -> Result<(), AllocError>
    requires window { IsWindow window.now }
    requires label { IsLabel (label_data label.now) }
    ensures { OnOk result (out.new.items ≡ out.old.items
        ++ noted_line window.now (label_data label.now) note.now words.now) }
{
    if note.is_empty() {
        put_plain(out, window, TEXT, label, words)
    } else {
        put_with(out, window, TEXT_WITH, label, note, words)
    }
}

/// The same, reading upwards.
pub fn put_noted_upright<'a>(
    out: &mut Vec<u8>,
    window: &Window,
    label: &Label,
    note: &'a [u8],
    words: &'a [u8],
) -> Result<(), AllocError>
    requires window { IsWindow window.now }
    requires label { IsLabel (label_data label.now) }
    ensures { OnOk result (out.new.items ≡ out.old.items
        ++ noted_upright_line window.now (label_data label.now) note.now words.now) }
{
    if note.is_empty() {
        put_plain(out, window, TEXT_UPRIGHT, label, words)
    } else {
        put_with(out, window, TEXT_UPRIGHT_WITH, label, note, words)
    }
}
