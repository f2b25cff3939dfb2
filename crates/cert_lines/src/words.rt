//! The words of a line.
#![tactic(auto, using(crate::proofs::Texts::pieces))]

ghost use Rattle.std.specs.Prelude.{◌≡◌, ◌++◌, ◌∷◌, ◌<◌, ◌^◌, map, OnOk};
ghost use Rattle.std.specs.List.{flat_map};
ghost use Rattle.std.specs.Fmt.{signed_decimal};
ghost use Rattle.cert_lines.specs.Lines.{number, spaced, spaced_number, text_line};

use brake_text::{put_number, put_word};
use std::alloc::AllocError;

/// A word behind a space.
pub fn put_spaced(out: &mut Vec<u8>, word: &[u8]) -> Result<(), AllocError>
    ensures { OnOk result (out.new.items ≡ out.old.items ++ spaced word.now) }
{
    put_word(out, b" ")?;
    put_word(out, word)
}

/// A signed number behind a space.
pub fn put_signed(out: &mut Vec<u8>, value: i64) -> Result<(), AllocError>
    ensures { OnOk result (out.new.items ≡ out.old.items ++ spaced_number value) }
{
    put_word(out, b" ")?;
    put_number(out, value)
}

/// A digit behind a space.
#[tactic(auto, using(std::proofs::lemmas::Fmt::decimal_digit))]
fn put_digit(out: &mut Vec<u8>, digit: u8) -> Result<(), AllocError>
    requires { digit < 10 }
    ensures { OnOk result (out.new.items ≡ out.old.items ++ spaced (number digit)) }
{
    put_word(out, &[b' ', b'0' + digit])
}

/// A number behind a space. Most have one digit, which is put without a division.
pub fn put_count(out: &mut Vec<u8>, value: u64) -> Result<(), AllocError>
    requires { value < 2 ^ 63 }
    ensures { OnOk result (out.new.items ≡ out.old.items ++ spaced (number value)) }
{
    if value < 10 {
        return put_digit(out, value as u8);
    }
    put_signed(out, value as i64)
}

/// Signed numbers as words of a line.
pub fn put_numbers(out: &mut Vec<u8>, values: &[i64]) -> Result<(), AllocError>
    ensures { OnOk result (out.new.items
        ≡ out.old.items ++ flat_map spaced (map signed_decimal values.now)) }
{
    for value in values {
        put_signed(out, *value)?;
    }
    Ok(())
}

/// A line of a keyword and signed numbers.
pub fn put_number_line(out: &mut Vec<u8>, keyword: &[u8], values: &[i64]) -> Result<(), AllocError>
    ensures { OnOk result (out.new.items
        ≡ out.old.items ++ text_line keyword.now (map signed_decimal values.now)) }
{
    put_word(out, keyword)?;
    put_numbers(out, values)?;
    put_word(out, b"\n")
}

/// A line of a keyword, a name and signed numbers.
pub fn put_named_line(
    out: &mut Vec<u8>,
    keyword: &[u8],
    name: &[u8],
    values: &[i64],
) -> Result<(), AllocError>
    ensures { OnOk result (out.new.items
        ≡ out.old.items ++ text_line keyword.now (name.now ∷ map signed_decimal values.now)) }
{
    put_word(out, keyword)?;
    put_spaced(out, name)?;
    put_numbers(out, values)?;
    put_word(out, b"\n")
}
