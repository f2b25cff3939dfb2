//! The words of the job lines behind their keywords.
ghost use Rattle.std.specs.Prelude.{◌≡◌};
ghost use Rattle.part_file.specs.Part.{face_data};
ghost use Rattle.cert_words.specs.LineWords.{Reads};
ghost use Rattle.cert_words.specs.JobWords.{parent_at, standing_in, child_in, natural, naturals, costs_of, gang_of, fine_of, numbers_in, named_in};

use crate::line_words::{dir, is_end, name_of, pair, side, signed_number, small, word};
use arrayvec::ArrayVec;
use brake_base::Name;
use machine_file::Costs;
use machine_file::bounds::GREATEST_FINE;
use part_file::{Dir, Face, Joint, Side};
use toml_fields::is_within;

/// The face, one of so many, on which a face stands, and the side; and the text behind them.
#[tactic(auto, unfolding(crate::specs::JobWords::parent_at), using(crate::proofs::Numbers::signed))]
fn parent(text: &[u8], faces: u8) -> Option<((u8, Side), &[u8])>
    ensures { Reads (λ x. (x.0, x.1.now)) result (parent_at faces text.now) }
{
    let (on, rest) = small(text, 0, faces)?;
    let (side, rest) = side(rest)?;
    Some(((on, side), rest))
}

/// Where a face stands along its parent's side, its sizes, and the bend's direction.
#[tactic(auto, unfolding(crate::specs::JobWords::standing_in), using(crate::proofs::Numbers::signed))]
fn standing(text: &[u8]) -> Option<((i64, (i64, i64)), Dir)>
    ensures { result ≡ standing_in text.now }
{
    let (at, rest) = signed_number(text)?;
    let (sizes, rest) = pair(rest)?;
    let (dir, rest) = dir(rest)?;
    if is_end(rest) {
        Some(((at, sizes), dir))
    } else {
        None
    }
}

/// A face that stands on one of so many faces.
#[tactic(auto, unfolding(crate::specs::JobWords::child_in, crate::specs::LineWords::kind_at), using(crate::proofs::Numbers::signed))]
pub fn child(text: &[u8], faces: u8) -> Option<Face>
    ensures { Reads face_data result (child_in faces text.now) }
{
    let (word, rest) = word(text)?;
    let name = name_of(word)?;
    let ((on, side), rest) = parent(rest, faces)?;
    let ((at, (width, length)), dir) = standing(rest)?;
    Some(Face {
        name,
        width,
        length,
        joint: Some(Joint { on, side, at, dir }),
    })
}

/// The number, where it isn't negative.
#[tactic(auto, using(crate::proofs::Numbers::signed))]
fn natural(n: i64) -> Option<u64>
    ensures { result ≡ natural n }
{
    if 0 <= n { Some(n as u64) } else { None }
}

/// Both numbers, where neither is negative.
#[tactic(auto, unfolding(crate::specs::JobWords::naturals), using(crate::proofs::Numbers::signed))]
fn naturals(pair: &(i64, i64)) -> Option<(u64, u64)>
    ensures { result ≡ naturals pair.now }
{
    let first = natural(pair.0)?;
    let second = natural(pair.1)?;
    Some((first, second))
}

/// The costs of these numbers, where none is negative.
#[tactic(auto, unfolding(crate::specs::JobWords::costs_of), using(crate::proofs::Numbers::signed))]
pub fn costs_of(pairs: &((i64, i64), ((i64, i64), (i64, i64)))) -> Option<Costs>
    ensures { result ≡ costs_of pairs.now }
{
    let (stroke, quarter) = naturals(&pairs.0)?;
    let (half, flip) = naturals(&pairs.1.0)?;
    let (roll, stage) = naturals(&pairs.1.1)?;
    Some(Costs {
        stroke,
        quarter,
        half,
        flip,
        roll,
        stage,
    })
}

/// Whether the number stands for gangs, where it is 0 or 1.
#[tactic(auto, using(crate::proofs::Numbers::signed))]
pub fn gang_of(n: i64) -> Option<bool>
    ensures { result ≡ gang_of n }
{
    match n {
        0 => Some(false),
        1 => Some(true),
        _ => None,
    }
}

/// How often in a row a piece may be halved, where the number is 1 to 12.
#[tactic(auto, using(crate::proofs::Numbers::signed))]
pub fn fine_of(n: i64) -> Option<u8>
    ensures { result ≡ fine_of n }
{
    if is_within(n, 1, i64::from(GREATEST_FINE)) {
        Some(n as u8)
    } else {
        None
    }
}

/// At most 32 numbers alone.
pub fn signed_numbers(text: &[u8]) -> Option<ArrayVec<i64, 32>>
    ensures { Reads (λ numbers. numbers.items) result (numbers_in 32 text.now) }
{
    let mut numbers = ArrayVec::new();
    let mut rest = text;
    while !is_end(rest) {
        if numbers.is_full() {
            return None;
        }
        let (n, behind) = signed_number(rest)?;
        numbers.push(n);
        rest = behind;
    }
    Some(numbers)
}

/// A name and at most 32 numbers alone.
#[tactic(auto, unfolding(crate::specs::JobWords::named_in, crate::specs::LineWords::kind_at), using(crate::proofs::Numbers::signed))]
pub fn named(text: &[u8]) -> Option<(Name, ArrayVec<i64, 32>)>
    ensures { Reads (λ x. (x.0.bytes, x.1.items)) result (named_in text.now) }
{
    let (word, rest) = word(text)?;
    let name = name_of(word)?;
    let numbers = signed_numbers(rest)?;
    Some((name, numbers))
}
