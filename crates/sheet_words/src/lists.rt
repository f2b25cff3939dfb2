//! Lists, counts and lengths in words.
ghost use Rattle.std.specs.Prelude.{◌≡◌, ◌^◌, ◌<◌, ◌++◌, pos, OnOk, IfOk};
ghost use Rattle.sheet_words.specs.Lists.{separator, plural_ending, plural, mm, seconds};

use brake_text::{put_number, put_word};
use std::alloc::{AllocError, Global};
use svg_text::put_decimal;

/// What stands before the word at a place of a list of so many, counted from 0.
#[tactic(auto, unfolding(crate::specs::Lists::separator))]
pub fn separator(at: usize, count: usize) -> &'static [u8]
    requires { at < count }
    ensures { result.now ≡ separator at count }
{
    if at == 0 {
        b""
    } else if at + 1 == count {
        b" and "
    } else {
        b", "
    }
}

/// What stands behind the word for so many things.
#[tactic(auto, unfolding(crate::specs::Lists::plural_ending))]
fn plural_ending(count: usize) -> &'static [u8]
    ensures { result.now ≡ plural_ending count }
{
    if count == 1 { b"" } else { b"s" }
}

/// A count and the word for it, with an s where there isn't one.
#[tactic(auto, using(crate::proofs::Texts::pieces), unfolding(crate::specs::Lists::plural))]
pub fn put_plural(out: &mut Vec<u8>, count: usize, word: &[u8]) -> Result<(), AllocError>
    requires { count < 2 ^ 63 }
    ensures { OnOk result (out.new.items ≡ out.old.items ++ plural count word.now) }
{
    put_number(out, count as i64)?;
    put_word(out, b" ")?;
    put_word(out, word)?;
    put_word(out, plural_ending(count))
}

/// Micrometres in millimetres.
pub fn put_mm(out: &mut Vec<u8>, length: i64) -> Result<(), AllocError>
    ensures { OnOk result (out.new.items ≡ out.old.items ++ mm length) }
{
    put_decimal(out, length, 3)
}

/// Tenths of a second in seconds.
pub fn put_seconds(out: &mut Vec<u8>, tenths: u64) -> Result<(), AllocError>
    requires { tenths < 2 ^ 63 }
    ensures { OnOk result (out.new.items ≡ out.old.items ++ seconds tenths) }
{
    put_decimal(out, tenths as i64, 1)
}

/// A text of micrometres in millimetres.
pub fn mm(alloc: Global, length: i64) -> Result<Vec<u8>, AllocError>
    ensures { IfOk result (λ words. words.items ≡ mm length) }
{
    let mut out = Vec::new(alloc);
    put_mm(&mut out, length)?;
    Ok(out)
}
