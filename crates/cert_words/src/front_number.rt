//! The number with which a text begins, by one pass over its digits.
ghost use Rattle.std.specs.Prelude.{◌≡◌, ◌==◌};
ghost use Rattle.cert_words.specs.LineWords.{Reads, word_length};
ghost use Rattle.cert_words.specs.FrontNumbers.{AreFrontDigits, is_spelled, number_in_front, leading_number};

/// How many digits a number has at most.
const DIGITS: usize = 18;

/// The digits at the front of a text, of which no more than 18 are looked at.
#[derive(Clone, Copy)]
struct Digits {
    value: u64,
    count: usize,
}

/// The digits at the front of the text.
fn front_digits(text: &[u8]) -> Digits
    ensures { AreFrontDigits text.now result }
{
    let mut digits = Digits { value: 0, count: 0 };
    for byte in text {
        if digits.count == DIGITS || !byte.is_ascii_digit() {
            return digits;
        }
        digits.value = digits.value * 10 + u64::from(*byte - b'0');
        digits.count += 1;
    }
    digits
}

/// Whether so many digits at the front are the one spelling of a number: there are some, and 0 stands
/// alone.
fn is_spelled(text: &[u8], count: usize) -> bool
    ensures { result ≡ is_spelled text.now count }
{
    match text {
        [b'0', ..] => count == 1,
        _ => 0 < count,
    }
}

/// Whether no byte of a word stands at the front.
fn ends_word(text: &[u8]) -> bool
    ensures { result ≡ (word_length text.now == 0) }
{
    match text {
        [] | [b' ', ..] => true,
        _ => false,
    }
}

/// The number that the bytes up to the first space are, and the text behind them.
pub(crate) fn number_in_front(text: &[u8]) -> Option<(u64, &[u8])>
    ensures { Reads (λ x. (x.0, x.1.now)) result (number_in_front text.now) }
{
    let digits = front_digits(text);
    let (_, rest) = text.split_at(digits.count);
    if is_spelled(text, digits.count) && ends_word(rest) {
        Some((digits.value, rest))
    } else {
        None
    }
}

/// The number whose digits stand at the front, and the text behind them; `None` where these aren't
/// the one spelling of a number of at most 18 digits.
pub fn leading_number(text: &[u8]) -> Option<(u64, &[u8])>
    ensures { Reads (λ x. (x.0, x.1.now)) result (leading_number text.now) }
{
    let digits = front_digits(text);
    if !is_spelled(text, digits.count) {
        return None;
    }
    let (_, rest) = text.split_at(digits.count);
    Some((digits.value, rest))
}
