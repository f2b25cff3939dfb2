//! The words of a line from the front, each behind a space.
ghost use Rattle.std.specs.Prelude.{◌≡◌, ◌↔◌, ◌==◌, ◌+◌, ◌≤◌, ◌<◌, not, ℕ, [], length, take, drop, IsTrue, IfSome};
ghost use Rattle.std.specs.List.{prefix_len};
ghost use Rattle.toml_fields.specs.Fields.{checked_name};
ghost use Rattle.cert_words.specs.LineWords.{Reads, is_space, word_length, word_at, count_at, signed_at, pair_at, kind_at, side_of, dir_of, back_of, half_of, quarter_of, blocked_of, worth_of};
ghost use Rattle.brake_text.specs.Numbers.{number_of};

use crate::front_number::number_in_front;
use arrayvec::ArrayString;
use brake_base::{Back, Half, Name, Quarter, Worth};
use brake_text::signed;
use part_file::{Dir, Side};
use toml_fields::is_name;

/// How many bytes stand before the first space.
fn word_length(text: &[u8]) -> usize
    ensures value { result ≡ word_length text.now }
    ensures within { result ≤ length text.now }
{
    text.iter().take_while(|byte| **byte != b' ').count()
}

/// The text up to the first space, and the text from it on.
pub fn split_word(text: &[u8]) -> (&[u8], &[u8])
    ensures word { result.0.now ≡ take (word_length text.now) text.now }
    ensures rest { result.1.now ≡ drop (word_length text.now) text.now }
{
    text.split_at(word_length(text))
}

/// The word behind a space, and the text behind the word.
#[tactic(auto, unfolding(crate::specs::LineWords::word_at))]
pub fn word(text: &[u8]) -> Option<(&[u8], &[u8])>
    ensures { Reads (λ x. (x.0.now, x.1.now)) result (word_at text.now) }
{
    match text {
        [b' ', rest @ ..] => Some(split_word(rest)),
        _ => None,
    }
}

/// Whether no word is left.
pub fn is_end(text: &[u8]) -> bool
    ensures { IsTrue result ↔ (text.now ≡ []) }
{
    text.is_empty()
}

/// The number that the next word is, and the text behind it.
#[tactic(auto, unfolding(crate::specs::LineWords::kind_at, crate::specs::LineWords::word_at))]
fn number_word(text: &[u8]) -> Option<(u64, &[u8])>
    ensures { Reads (λ x. (x.0, x.1.now)) result (kind_at number_of text.now) }
{
    match text {
        [b' ', rest @ ..] => number_in_front(rest),
        _ => None,
    }
}

/// A number from `low` on and below `end`, and the text behind it.
#[tactic(auto, using(crate::proofs::NumberWords::counted))]
pub fn count(text: &[u8], low: u64, end: u64) -> Option<(u64, &[u8])>
    ensures value { Reads (λ x. (x.0, x.1.now)) result (count_at low end text.now) }
    ensures below { IfSome result (λ x. x.0 < end) }
{
    let (n, rest) = number_word(text)?;
    if low <= n && n < end {
        Some((n, rest))
    } else {
        None
    }
}

/// A number of one byte, from `low` on and below `end`, and the text behind it.
pub fn small(text: &[u8], low: u8, end: u8) -> Option<(u8, &[u8])>
    ensures value { Reads (λ x. (x.0, x.1.now)) result (count_at low end text.now) }
    ensures below { IfSome result (λ x. x.0 < end) }
{
    let (n, rest) = count(text, u64::from(low), u64::from(end))?;
    Some((n as u8, rest))
}

/// A signed number, and the text behind it.
#[tactic(auto, unfolding(crate::specs::LineWords::signed_at, crate::specs::LineWords::kind_at), using(crate::proofs::Numbers::signed))]
pub fn signed_number(text: &[u8]) -> Option<(i64, &[u8])>
    ensures { Reads (λ x. (x.0, x.1.now)) result (signed_at text.now) }
{
    let (word, rest) = word(text)?;
    let n = signed(word)?;
    Some((n, rest))
}

/// Two signed numbers, and the text behind them.
#[tactic(auto, unfolding(crate::specs::LineWords::pair_at), using(crate::proofs::Numbers::signed))]
pub fn pair(text: &[u8]) -> Option<((i64, i64), &[u8])>
    ensures { Reads (λ x. (x.0, x.1.now)) result (pair_at text.now) }
{
    let (from, rest) = signed_number(text)?;
    let (to, rest) = signed_number(rest)?;
    Some(((from, to), rest))
}

/// The text as a name, which has 1 to 24 bytes from 0x21 to 0x7E.
fn name_of_text(text: &str) -> Option<Name>
    ensures { Reads (λ name. name.bytes) result (checked_name text.now) }
{
    if !is_name(text) {
        return None;
    }
    ArrayString::from(text).ok()
}

/// The word as a name.
#[tactic(auto, using(crate::proofs::Names::no_text_no_name))]
pub fn name_of(word: &[u8]) -> Option<Name>
    ensures { Reads (λ name. name.bytes) result (checked_name word.now) }
{
    match str::from_utf8(word) {
        Ok(text) => name_of_text(text),
        Err(_) => None,
    }
}

/// The side that the word is.
fn side_of(word: &[u8]) -> Option<Side>
    ensures { result ≡ side_of word.now }
{
    match word {
        b"N" => Some(Side::N),
        b"E" => Some(Side::E),
        b"S" => Some(Side::S),
        b"W" => Some(Side::W),
        _ => None,
    }
}

/// A side, and the text behind it.
#[tactic(auto, unfolding(crate::specs::LineWords::kind_at))]
pub fn side(text: &[u8]) -> Option<(Side, &[u8])>
    ensures { Reads (λ x. (x.0, x.1.now)) result (kind_at side_of text.now) }
{
    let (word, rest) = word(text)?;
    let side = side_of(word)?;
    Some((side, rest))
}

/// The direction that the word is.
fn dir_of(word: &[u8]) -> Option<Dir>
    ensures { result ≡ dir_of word.now }
{
    match word {
        b"up" => Some(Dir::Up),
        b"down" => Some(Dir::Down),
        _ => None,
    }
}

/// A bend's direction, and the text behind it.
#[tactic(auto, unfolding(crate::specs::LineWords::kind_at))]
pub fn dir(text: &[u8]) -> Option<(Dir, &[u8])>
    ensures { Reads (λ x. (x.0, x.1.now)) result (kind_at dir_of text.now) }
{
    let (word, rest) = word(text)?;
    let dir = dir_of(word)?;
    Some((dir, rest))
}

/// The side at the back that the word is.
fn back_of(word: &[u8]) -> Option<Back>
    ensures { result ≡ back_of word.now }
{
    match word {
        b"P" => Some(Back::Parent),
        b"C" => Some(Back::Child),
        _ => None,
    }
}

/// The side at the back, and the text behind it.
#[tactic(auto, unfolding(crate::specs::LineWords::kind_at))]
pub fn back(text: &[u8]) -> Option<(Back, &[u8])>
    ensures { Reads (λ x. (x.0, x.1.now)) result (kind_at back_of text.now) }
{
    let (word, rest) = word(text)?;
    let back = back_of(word)?;
    Some((back, rest))
}

/// The half that the word is.
fn half_of(word: &[u8]) -> Option<Half>
    ensures { result ≡ half_of word.now }
{
    match word {
        b"B" => Some(Half::Back),
        b"F" => Some(Half::Front),
        _ => None,
    }
}

/// A half, and the text behind it.
#[tactic(auto, unfolding(crate::specs::LineWords::kind_at))]
pub fn half(text: &[u8]) -> Option<(Half, &[u8])>
    ensures { Reads (λ x. (x.0, x.1.now)) result (kind_at half_of text.now) }
{
    let (word, rest) = word(text)?;
    let half = half_of(word)?;
    Some((half, rest))
}

/// The quarter whose number the word is.
fn quarter_of(word: &[u8]) -> Option<Quarter>
    ensures { result ≡ quarter_of word.now }
{
    match word {
        b"1" => Some(Quarter::Q1),
        b"2" => Some(Quarter::Q2),
        b"3" => Some(Quarter::Q3),
        b"4" => Some(Quarter::Q4),
        _ => None,
    }
}

/// A quarter's number, and the text behind it.
#[tactic(auto, unfolding(crate::specs::LineWords::kind_at))]
pub fn quarter(text: &[u8]) -> Option<(Quarter, &[u8])>
    ensures { Reads (λ x. (x.0, x.1.now)) result (kind_at quarter_of text.now) }
{
    let (word, rest) = word(text)?;
    let quarter = quarter_of(word)?;
    Some((quarter, rest))
}

/// The worth where there is no way on.
fn blocked_of(word: &[u8]) -> Option<Worth>
    ensures { result ≡ blocked_of word.now }
{
    match word {
        b"none" => Some(Worth::Blocked),
        _ => None,
    }
}

/// That there is no way on, and the text behind it.
#[tactic(auto, unfolding(crate::specs::LineWords::kind_at))]
fn blocked(text: &[u8]) -> Option<(Worth, &[u8])>
    ensures { Reads (λ x. (x.0, x.1.now)) result (kind_at blocked_of text.now) }
{
    let (word, rest) = word(text)?;
    let worth = blocked_of(word)?;
    Some((worth, rest))
}

/// A cost of at most 1,000,000,000 tenths of a second or that there is no way on, and the text behind
/// it.
pub fn worth(text: &[u8]) -> Option<(Worth, &[u8])>
    ensures { Reads (λ x. (x.0, x.1.now)) result (kind_at worth_of text.now) }
{
    match number_word(text) {
        Some((cost, rest)) if cost <= 1_000_000_000 => Some((Worth::Cost(cost), rest)),
        Some(_) => None,
        None => blocked(text),
    }
}
