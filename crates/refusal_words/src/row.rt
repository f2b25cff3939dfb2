//! How a line begins as a row says.
ghost use Rattle.std.specs.Prelude.{◌≡◌};
ghost use Rattle.cert_words.specs.LineWords.{Reads};
ghost use Rattle.refusal_words.specs.Rows.{begun_data, with_next, behind_byte, behind_number, behind_one, begin_by, begin};

use crate::mark::Mark;
use brake_text::number;
use cert_words::split_word;

/// A number of a line, and what it is.
#[derive(Clone, Copy, Debug, PartialEq, Eq)]
pub struct Told {
    pub mark: Mark,
    pub number: u32,
}

/// The first and the last number of a line.
#[derive(Clone, Copy, Debug, Default, PartialEq, Eq)]
pub struct Numbers {
    pub first: Option<Told>,
    pub last: Option<Told>,
}

/// What begins as a row says: its numbers, what the row says of it, and the text behind it.
#[derive(Clone, Copy, Debug)]
pub struct Begun<'a> {
    pub numbers: Numbers,
    pub words: &'static [u8],
    pub rest: &'a [u8],
}

impl Numbers {
    /// These, and one more behind them.
    fn with_next(self, next: Told) -> Numbers
        ensures { result ≡ with_next self next }
    {
        match self.first {
            Some(_) => Numbers {
                first: self.first,
                last: Some(next),
            },
            None => Numbers {
                first: Some(next),
                last: Some(next),
            },
        }
    }
}

/// The text behind this byte.
fn behind_byte(byte: u8, text: &[u8]) -> Option<&[u8]>
    ensures { Reads (λ rest. rest.now) result (behind_byte byte text.now) }
{
    match text {
        [first, rest @ ..] if *first == byte => Some(rest),
        _ => None,
    }
}

/// The number for which a mark stands at the front of a text, and the text behind it.
fn behind_number(mark: Mark, text: &[u8]) -> Option<(Told, &[u8])>
    ensures { Reads (λ x. (x.0, x.1.now)) result (behind_number mark text.now) }
{
    let (word, rest) = split_word(text);
    let number = number(word)?;
    if mark.low() <= number && number < mark.end() {
        let number = number as u32;
        Some((Told { mark, number }, rest))
    } else {
        None
    }
}

/// The text behind what a byte of a row stands for, and the numbers of the line so far.
fn behind_one(byte: u8, text: &[u8], numbers: Numbers) -> Option<(Numbers, &[u8])>
    ensures { Reads (λ x. (x.0, x.1.now)) result (behind_one byte text.now numbers) }
{
    match Mark::of(byte) {
        Some(mark) => {
            let (told, rest) = behind_number(mark, text)?;
            Some((numbers.with_next(told), rest))
        }
        None => {
            let rest = behind_byte(byte, text)?;
            Some((numbers, rest))
        }
    }
}

/// How a text begins as the rest of a row says, with the numbers before it. None where it doesn't.
fn begin_by<'a>(row: &'static [u8], text: &'a [u8], numbers: Numbers) -> Option<Begun<'a>>
    ensures { Reads begun_data result (begin_by row.now text.now numbers) }
{
    match row {
        [] => None,
        [b'|', words @ ..] => Some(Begun {
            numbers,
            words,
            rest: text,
        }),
        [byte, row @ ..] => {
            let (numbers, rest) = behind_one(*byte, text, numbers)?;
            begin_by(row, rest, numbers)
        }
    }
}

/// How a text begins as a row says. None where it doesn't.
pub fn begin<'a>(row: &'static str, text: &'a [u8]) -> Option<Begun<'a>>
    ensures { Reads begun_data result (begin row.now text.now) }
{
    begin_by(row.as_bytes(), text, Numbers::default())
}
