//! Numbers from a text.
ghost use Rattle.std.specs.Prelude.{◌≡◌, ◌^◌, ◌<◌, ◌≤◌, length, Some, None, IfSome, decimal, unsigned_abs, IsTrue};
ghost use Rattle.std.specs.Fmt.{signed_decimal};
ghost use Rattle.std.specs.List.{list_all};
ghost use Rattle.std.specs.Char.{is_ascii_digit};
ghost use Rattle.std.specs.Str.Parse.{digits_value};
ghost use Rattle.brake_text.specs.Numbers.{is_number as is_number_text, number_of, below_zero as negative_of, signed_of};

/// How many digits a number has at most.
const DIGITS: usize = 18;

/// The number that the text is: `0`, or 1 to 18 digits of which the first is not 0. `None` exactly
/// where the text is neither.
#[tactic(auto, unfolding(crate::specs::Numbers::number_of))]
pub fn number(text: &[u8]) -> Option<u64>
    ensures value { result ≡ number_of text.now }
    // No other text is read as this number.
    ensures spelled { IfSome result (λ n. (n < 10 ^ 18) × (text.now ≡ decimal n)) }
{
    if is_number(text) {
        Some(value_of(text))
    } else {
        None
    }
}

/// Whether the text has the one spelling of a number.
fn is_number(text: &[u8]) -> bool
    ensures { result ≡ is_number_text text.now }
{
    match text {
        [] => false,
        [b'0'] => true,
        [b'0', ..] => false,
        _ => text.len() <= DIGITS && has_only_digits(text),
    }
}

/// Whether each byte is a decimal digit.
fn has_only_digits(text: &[u8]) -> bool
    ensures { result ≡ list_all is_ascii_digit text.now }
{
    text.iter().all(|byte| byte.is_ascii_digit())
}

/// The value of up to 18 digits.
fn value_of(digits: &[u8]) -> u64
    requires digits { IsTrue (list_all is_ascii_digit digits.now) }
    requires short { length digits.now ≤ 18 }
    ensures { result ≡ digits_value 10 digits.now }
{
    let mut value = 0;
    for digit in digits {
        value = value * 10 + u64::from(*digit - b'0');
    }
    value
}

/// The signed number that the text is: a number, or `-` before a number other than 0. `None`
/// exactly where the text is neither.
#[tactic(auto, unfolding(crate::specs::Numbers::signed_of))]
pub fn signed(text: &[u8]) -> Option<i64>
    ensures value { result ≡ signed_of text.now }
    // No other text is read as this number.
    ensures spelled { IfSome result (λ z. (unsigned_abs z < 10 ^ 18)
        × (text.now ≡ signed_decimal z)) }
{
    match text {
        [b'-', rest @ ..] => match number(rest) {
            Some(magnitude) => below_zero(magnitude),
            None => None,
        },
        _ => match number(text) {
            Some(value) => Some(value as i64),
            None => None,
        },
    }
}

/// The number below 0 with this magnitude, or `None` for 0.
fn below_zero(magnitude: u64) -> Option<i64>
    requires { magnitude < 10 ^ 18 }
    ensures { result ≡ negative_of magnitude }
{
    if magnitude == 0 {
        None
    } else {
        Some(-(magnitude as i64))
    }
}
