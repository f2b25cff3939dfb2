//! Lines of a page.
ghost use Rattle.std.specs.Prelude.{◌≡◌, ◌≤◌, ℕ, List, ◌++◌, ◌∷◌, drop, length, map, All, OnOk, IfOk};
ghost use Rattle.svg_text.specs.Forms.{IsHole, hole_text, filled as filled_with, line_text};

use crate::decimal::put_decimal;
use crate::escape::put_escaped;
use brake_text::{put_number, put_word};
use std::alloc::AllocError;

/// The byte that marks a hole of a form.
pub const HOLE: u8 = b'~';

/// What stands in a hole of a form.
#[derive(Clone, Copy)]
pub enum Hole<'a> {
    /// A whole number.
    Number(i64),
    /// A number of units, of which 1 and so many zeros make one that is printed.
    Decimal { value: i64, places: u8 },
    /// A text, of which nothing becomes markup.
    Text(&'a [u8]),
    /// A word of the program's own, as it is: a class, an attribute or an icon.
    Word(&'static [u8]),
}

/// Appends what stands in a hole.
#[tactic(auto, unfolding(crate::specs::Forms::hole_text))]
fn put_hole(out: &mut Vec<u8>, hole: &Hole) -> Result<(), AllocError>
    requires { IsHole hole.now }
    ensures { OnOk result (out.new.items ≡ out.old.items ++ hole_text hole.now) }
{
    match *hole {
        Hole::Number(value) => put_number(out, value),
        Hole::Decimal { value, places } => put_decimal(out, value, places),
        Hole::Text(text) => put_escaped(out, text),
        Hole::Word(word) => put_word(out, word),
    }
}

/// Appends the next byte of a form, or what stands in the hole that it marks, where so many holes
/// are filled. How many are filled then.
#[tactic(auto, using(crate::proofs::Filling::plain_byte, crate::proofs::Filling::filled_hole, crate::proofs::Filling::empty_hole))]
fn put_byte(out: &mut Vec<u8>, byte: u8, holes: &[Hole], filled: usize) -> Result<usize, AllocError>
    requires holes { All IsHole holes.now }
    requires some { filled ≤ length holes.now }
    ensures value { IfOk result (λ now. (form : List ℕ)
        → out.new.items ++ filled_with form (map hole_text (drop now holes.now))
        ≡ out.old.items ++ filled_with (byte ∷ form) (map hole_text (drop filled holes.now))) }
    ensures some { IfOk result (λ now. now ≤ length holes.now) }
{
    if byte != HOLE {
        out.push(byte)?;
        Ok(filled)
    } else if filled < holes.len() {
        put_hole(out, &holes[filled])?;
        Ok(filled + 1)
    } else {
        Ok(filled)
    }
}

/// Appends the line of a form, each hole filled with the next of `holes`, and a line feed. A hole
/// for which none is left stays empty.
#[tactic(auto, unfolding(crate::specs::Forms::line_of))]
pub fn put_line(out: &mut Vec<u8>, form: &[u8], holes: &[Hole]) -> Result<(), AllocError>
    requires { All IsHole holes.now }
    ensures { OnOk result (out.new.items ≡ out.old.items ++ line_text form.now holes.now) }
{
    let mut filled = 0;
    for byte in form {
        filled = put_byte(out, *byte, holes, filled)?;
    }
    put_word(out, b"\n")
}
