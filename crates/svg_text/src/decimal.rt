//! Decimals.
ghost use Rattle.std.specs.Prelude.{◌≡◌, ◌-◌, ◌/◌, ◌<◌, ◌≤◌, ◌^◌, ◌++◌, OnOk, pos, unsigned_abs};
ghost use Rattle.svg_text.specs.Decimals.{sign_text, decimal_text, fraction_text, digits_text, read_decimal};

use brake_text::{put_number, put_word};
use std::alloc::AllocError;

/// How many units of a place stand in one of the place before the point: 1 and so many zeros.
fn power_of_ten(places: u8) -> u64
    requires { places ≤ 6 }
    ensures value { result ≡ 10 ^ places }
    ensures some { 0 < result }
{
    match places {
        0 => 1,
        1 => 10,
        2 => 100,
        3 => 1_000,
        4 => 10_000,
        5 => 100_000,
        _ => 1_000_000,
    }
}

/// The first digit of what is left behind the point.
#[tactic(auto, using(crate::proofs::ReadDecimals::digit_small))]
fn first_digit(rest: u64, places: u8) -> u8
    requires some { 0 < places }
    requires places { places ≤ 6 }
    requires rest { rest < 10 ^ places }
    ensures value { result ≡ rest / 10 ^ (places - 1) }
    ensures digit { result < 10 }
{
    (rest / power_of_ten(places - 1)) as u8
}

/// Appends the first digit of what is left behind the point, and then the others, up to the last
/// that isn't 0.
#[tactic(auto, using(crate::proofs::Texts::pieces), unfolding(crate::specs::Decimals::digits_text))]
fn put_digits(out: &mut Vec<u8>, rest: u64, places: u8) -> Result<(), AllocError>
    requires places { places ≤ 6 }
    requires rest { rest < 10 ^ places }
    ensures { OnOk result (out.new.items ≡ out.old.items ++ digits_text places rest) }
{
    if rest == 0 {
        return Ok(());
    }
    out.push(b'0' + first_digit(rest, places))?;
    put_digits(out, rest % power_of_ten(places - 1), places - 1)
}

/// Appends the point and the digits behind it, or nothing where they are 0.
#[tactic(auto, using(crate::proofs::Texts::pieces), unfolding(crate::specs::Decimals::fraction_text))]
fn put_fraction(out: &mut Vec<u8>, rest: u64, places: u8) -> Result<(), AllocError>
    requires places { places ≤ 6 }
    requires rest { rest < 10 ^ places }
    ensures { OnOk result (out.new.items ≡ out.old.items ++ fraction_text places rest) }
{
    if rest == 0 {
        return Ok(());
    }
    put_word(out, b".")?;
    put_digits(out, rest, places)
}

/// What stands before the point, without its sign.
#[tactic(auto, using(crate::proofs::ReadDecimals::whole_small))]
fn whole_part(value: i64, places: u8) -> i64
    requires some { 0 < places }
    requires few { places ≤ 6 }
    ensures { result ≡ pos (unsigned_abs value / 10 ^ places) }
{
    (value.unsigned_abs() / power_of_ten(places)) as i64
}

/// Appends the sign of a number below 0.
fn put_sign(out: &mut Vec<u8>, value: i64) -> Result<(), AllocError>
    ensures { OnOk result (out.new.items ≡ out.old.items ++ sign_text value) }
{
    if value < 0 {
        put_word(out, b"-")
    } else {
        Ok(())
    }
}

/// Appends `value` units of which 1 followed by `places` zeros make one: micrometres as millimetres
/// with 3 places, tenths of a second as seconds with 1. The text is exact, and no zero ends its
/// fraction.
#[tactic(auto, using(crate::proofs::Texts::pieces, crate::proofs::ReadDecimals::decimal_read), unfolding(crate::specs::Decimals::decimal_text))]
pub fn put_decimal(out: &mut Vec<u8>, value: i64, places: u8) -> Result<(), AllocError>
    requires some { 0 < places }
    requires few { places ≤ 6 }
    ensures ok { OnOk result (out.new.items ≡ out.old.items ++ decimal_text places value) }
    // A reader of the text has the value again.
    ensures exact { read_decimal places (decimal_text places value) ≡ value }
{
    put_sign(out, value)?;
    put_number(out, whole_part(value, places))?;
    put_fraction(out, value.unsigned_abs() % power_of_ten(places), places)
}
