//! The row whose line stands at the front of a text, read without a look for the line's end.
ghost use Rattle.std.specs.Prelude.{◌≡◌, ◌≤◌, ◌<◌, ◌+◌, ◌^◌, ◌++◌, ◌∷◌, [], IfSome};
ghost use Rattle.std.specs.List.{flat_map};
ghost use Rattle.job_setup.specs.Setup.{JobData};
ghost use Rattle.plan_lines.specs.Facts.{KeepsFacts};
ghost use Rattle.cert_lines.specs.Lines.{number, worth_word, spaced, words_of, row_line, line_text};
ghost use Rattle.cert_lines.specs.Lines.{IsWorth};
ghost use Rattle.plan_lines.specs.LinesFit.{IsRow};

use crate::job_facts::JobFacts;
use brake_base::{Key, Mask, Turn, Worth};
use cert_lines::RowHead;
use cert_words::leading_number;

/// A number below an end, and the text behind it.
#[tactic(auto, using(cert_words::proofs::FrontNumbers::leading_spelled))]
fn number_below(text: &[u8], end: u64) -> Option<(u64, &[u8])>
    ensures below { IfSome result (λ x. x.0 < end) }
    ensures spelled { IfSome result (λ x. text.now ≡ number x.0 ++ x.1.now) }
{
    let (n, rest) = leading_number(text)?;
    if n < end { Some((n, rest)) } else { None }
}

/// A number below an end, behind a space, and the text behind it.
fn spaced_number(text: &[u8], end: u64) -> Option<(u64, &[u8])>
    ensures below { IfSome result (λ x. x.0 < end) }
    ensures spelled { IfSome result (λ x. text.now ≡ spaced (number x.0) ++ x.1.now) }
{
    match text {
        [b' ', digits @ ..] => number_below(digits, end),
        _ => None,
    }
}

/// A cost or that there is no way on, behind a space, and the text behind it.
fn spaced_worth(text: &[u8]) -> Option<(Worth, &[u8])>
    ensures fits { IfSome result (λ x. IsWorth x.0) }
    ensures spelled { IfSome result (λ x. text.now ≡ spaced (worth_word x.0) ++ x.1.now) }
{
    match text {
        [b' ', b'n', b'o', b'n', b'e', rest @ ..] => Some((Worth::Blocked, rest)),
        _ => {
            let (cost, rest) = spaced_number(text, 1_000_000_001)?;
            Some((Worth::Cost(cost), rest))
        }
    }
}

/// A key at which a bend isn't folded, behind a space, and the text behind it.
#[tactic(auto, using(crate::proofs::PlanItems::pieces))]
fn spaced_key<'a>(text: &'a [u8], facts: &JobFacts) -> Option<(Key, &'a [u8])>
    requires { facts.now.bends ≤ 12 }
    ensures mask { IfSome result (λ x. x.0.mask.0 + 1 < 2 ^ facts.now.bends) }
    ensures attitude { IfSome result (λ x. x.0.attitude < 24) }
    ensures stage { IfSome result (λ x. x.0.stage < facts.now.stages) }
    ensures spelled { IfSome result (λ x. text.now
        ≡ flat_map spaced (number x.0.mask.0 ∷ number x.0.attitude ∷ number x.0.stage ∷ [])
        ++ x.1.now) }
{
    let (mask, rest) = spaced_number(text, u64::from(Mask::full(facts.bends).0))?;
    let (attitude, rest) = spaced_number(rest, 24)?;
    let (stage, rest) = spaced_number(rest, u64::from(facts.stages))?;
    let key = Key {
        mask: Mask(mask as u16),
        attitude: Turn::from_number(attitude as u8),
        stage: stage as u8,
    };
    Some((key, rest))
}

/// The words of a row and the end of its line, and the text behind the line.
#[tactic(auto, using(crate::proofs::PlanItems::pieces))]
fn row_words<'a>(text: &'a [u8], facts: &JobFacts) -> Option<(RowHead, &'a [u8])>
    requires { facts.now.bends ≤ 12 }
    ensures fits { (job : JobData) → KeepsFacts facts.now job → IfSome result (λ x. IsRow job x.0) }
    ensures spelled { IfSome result
        (λ x. text.now ≡ flat_map spaced (words_of (row_line x.0)) ++ 10 ∷ x.1.now) }
{
    match spaced_key(text, facts) {
        Some((key, words)) => match spaced_worth(words) {
            Some((worth, [b'\n', rest @ ..])) => Some((RowHead { key, worth }, rest)),
            _ => None,
        },
        None => None,
    }
}

/// The row whose line stands at the front of the text, and the text behind the line; `None` where
/// the text begins with anything else.
#[tactic(auto, unfolding(cert_lines::specs::Lines::line_text), using(crate::proofs::PlanItems::pieces))]
pub fn leading_row<'a>(text: &'a [u8], facts: &JobFacts) -> Option<(RowHead, &'a [u8])>
    requires { facts.now.bends ≤ 12 }
    ensures fits { (job : JobData) → KeepsFacts facts.now job → IfSome result (λ x. IsRow job x.0) }
    ensures spelled { IfSome result (λ x. text.now ≡ line_text (row_line x.0) ++ x.1.now) }
{
    match text {
        [b'r', b'o', b'w', words @ ..] => row_words(words, facts),
        _ => None,
    }
}
