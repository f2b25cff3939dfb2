//! The bends of a stroke in words.
ghost use Rattle.std.specs.Prelude.{◌≡◌, ◌+◌, ◌<◌, ◌++◌, length, OnOk};
ghost use Rattle.sheet_figures.specs.BendWords.{listed_number, number_words, bend_word, bend_words};

use brake_text::{put_number, put_word};
use sheet_words::separator;
use std::alloc::AllocError;

/// A number at a place of a list of so many.
#[tactic(auto, using(sheet_paper::proofs::Texts::pieces), unfolding(crate::specs::BendWords::listed_number))]
fn put_listed_number(
    out: &mut Vec<u8>,
    at: usize,
    count: usize,
    number: u8,
) -> Result<(), AllocError>
    requires { at < count }
    ensures { OnOk result (out.new.items ≡ out.old.items ++ listed_number at count number) }
{
    put_word(out, separator(at, count))?;
    put_number(out, i64::from(number))
}

/// The last numbers of a list of so many, from a place on.
#[tactic(auto, using(sheet_paper::proofs::Texts::pieces))]
fn put_last_numbers(
    out: &mut Vec<u8>,
    at: usize,
    count: usize,
    numbers: &[u8],
) -> Result<(), AllocError>
    requires { at + length numbers.now ≡ count }
    ensures { OnOk result (out.new.items
        ≡ out.old.items ++ number_words at count numbers.now) }
{
    match numbers {
        [] => Ok(()),
        [number, numbers @ ..] => {
            put_listed_number(out, at, count, *number)?;
            put_last_numbers(out, at + 1, count, numbers)
        }
    }
}

/// Some numbers, listed.
pub fn put_number_list(out: &mut Vec<u8>, numbers: &[u8]) -> Result<(), AllocError>
    ensures { OnOk result (out.new.items
        ≡ out.old.items ++ number_words 0 (length numbers.now) numbers.now) }
{
    put_last_numbers(out, 0, numbers.len(), numbers)
}

/// The word before one bend or before several.
#[tactic(auto, unfolding(crate::specs::BendWords::bend_word))]
fn bend_word(count: usize) -> &'static [u8]
    ensures { result.now ≡ bend_word count }
{
    if count == 1 { b"Bend " } else { b"Bends " }
}

/// The bends of a stroke: `Bend B`, or `Bends B and C`.
#[tactic(auto, using(sheet_paper::proofs::Texts::pieces))]
pub fn put_bends(out: &mut Vec<u8>, bends: &[u8]) -> Result<(), AllocError>
    ensures { OnOk result (out.new.items ≡ out.old.items ++ bend_words bends.now) }
{
    put_word(out, bend_word(bends.len()))?;
    put_number_list(out, bends)
}
