//! The words of the lines behind the job: of the claim, of steps, of rows and of notes.
ghost use Rattle.std.specs.Prelude.{◌≡◌, ◌+◌, ◌-◌, ◌*◌, ◌^◌, ◌≤◌, ◌<◌, ℕ, IfSome};
ghost use Rattle.cert_words.specs.LineWords.{Reads, at_end, alone, count_at, kind_at, half_of};
ghost use Rattle.cert_words.specs.PlanWords.{action_at, gauge_at, step_in, claim_in, key_at, row_in, meeting_in, arguments_in, reason_in, note_in};

use crate::line_words::{back, count, half, is_end, quarter, small, worth};
use brake_base::{Action, Gauge, Half, Key, Mask, Quarter, Reason, Step, Turn, Worth};

/// An action of a job of so many bends and stages, and the text behind it.
#[tactic(auto, unfolding(crate::specs::PlanWords::action_at))]
fn action(text: &[u8], bends: u8, stages: u8) -> Option<(Action, &[u8])>
    requires { bends ≤ 12 }
    ensures { Reads (λ x. (x.0, x.1.now)) result (action_at bends stages text.now) }
{
    let (bend, rest) = small(text, 1, bends + 1)?;
    let (back, rest) = back(rest)?;
    let (stage, rest) = small(rest, 0, stages)?;
    Some((Action { bend, back, stage }, rest))
}

/// The faces at the two fingers, and the text behind them.
#[tactic(auto, unfolding(crate::specs::PlanWords::gauge_at))]
fn gauge(text: &[u8], bends: u8) -> Option<(Gauge, &[u8])>
    requires { bends ≤ 12 }
    ensures { Reads (λ x. (x.0, x.1.now)) result (gauge_at bends text.now) }
{
    let (left_face, rest) = small(text, 0, bends + 1)?;
    let (right_face, rest) = small(rest, 0, bends + 1)?;
    Some((
        Gauge {
            left_face,
            right_face,
        },
        rest,
    ))
}

/// A step of a job of so many bends and stages.
#[tactic(auto, unfolding(crate::specs::PlanWords::step_in))]
pub fn step(text: &[u8], bends: u8, stages: u8) -> Option<Step>
    requires { bends ≤ 12 }
    ensures { result ≡ step_in bends stages text.now }
{
    let (action, rest) = action(text, bends, stages)?;
    let (gauge, rest) = gauge(rest, bends)?;
    if is_end(rest) {
        Some(Step { action, gauge })
    } else {
        None
    }
}

/// The claim.
#[tactic(auto, unfolding(crate::specs::PlanWords::claim_in))]
pub fn claim(text: &[u8]) -> Option<Worth>
    ensures { result ≡ claim_in text.now }
{
    let (claim, rest) = worth(text)?;
    if is_end(rest) { Some(claim) } else { None }
}

/// The mask, the attitude and the stage of a key of a job of so many bends and stages, at which a
/// bend isn't folded, and the text behind them.
#[tactic(auto, unfolding(crate::specs::PlanWords::key_at))]
fn key(text: &[u8], bends: u8, stages: u8) -> Option<((u16, u8, u8), &[u8])>
    requires { bends ≤ 12 }
    ensures value { Reads (λ x. (x.0, x.1.now)) result (key_at bends stages text.now) }
    ensures attitude { IfSome result (λ x. x.0.1 < 24) }
{
    let (mask, rest) = count(text, 0, u64::from(Mask::full(bends).0))?;
    let (attitude, rest) = small(rest, 0, 24)?;
    let (stage, rest) = small(rest, 0, stages)?;
    Some(((mask as u16, attitude, stage), rest))
}

/// A row of a job of so many bends and stages.
#[tactic(auto, unfolding(crate::specs::PlanWords::row_in))]
pub fn row(text: &[u8], bends: u8, stages: u8) -> Option<(Key, Worth)>
    requires { bends ≤ 12 }
    ensures { result ≡ row_in bends stages text.now }
{
    let ((mask, attitude, stage), rest) = key(text, bends, stages)?;
    let (worth, rest) = worth(rest)?;
    if !is_end(rest) {
        return None;
    }
    let key = Key {
        mask: Mask(mask),
        attitude: Turn::from_number(attitude),
        stage,
    };
    Some((key, worth))
}

/// A box of the part in a quarter, and a number below an end, alone.
#[tactic(auto, unfolding(crate::specs::PlanWords::meeting_in))]
fn meeting(text: &[u8], end: u8) -> Option<(u8, Quarter, u8)>
    ensures { result ≡ meeting_in end text.now }
{
    let (body, rest) = small(text, 0, 25)?;
    let (quarter, rest) = quarter(rest)?;
    let (other, rest) = small(rest, 0, end)?;
    if is_end(rest) {
        Some((body, quarter, other))
    } else {
        None
    }
}

/// A half alone.
fn half_alone(text: &[u8]) -> Option<Half>
    ensures { result ≡ alone (kind_at half_of) text.now }
{
    let (half, rest) = half(text)?;
    if is_end(rest) { Some(half) } else { None }
}

/// A box of the part alone.
fn box_alone(text: &[u8]) -> Option<u8>
    ensures { result ≡ alone (count_at 0 25) text.now }
{
    let (body, rest) = small(text, 0, 25)?;
    if is_end(rest) { Some(body) } else { None }
}

/// A reason that names nothing.
fn bare(reason: Reason, text: &[u8]) -> Option<Reason>
    ensures { result ≡ at_end reason text.now }
{
    if is_end(text) { Some(reason) } else { None }
}

/// The reason of a kind, which is a number from 1 to 9.
#[tactic(auto, unfolding(crate::specs::PlanWords::arguments_in))]
fn arguments(kind: u8, text: &[u8], stages: u8) -> Option<Reason>
    ensures { result ≡ arguments_in stages kind text.now }
{
    match kind {
        1 => bare(Reason::Cover, text),
        2 => Some(Reason::Rest(half_alone(text)?)),
        3 => Some(Reason::Frame(box_alone(text)?)),
        4 => {
            let (body, quarter, index) = meeting(text, 64)?;
            Some(Reason::Upper(body, quarter, index))
        }
        5 => {
            let (body, quarter, stage) = meeting(text, stages)?;
            Some(Reason::Nose(body, quarter, stage))
        }
        6 => {
            let (body, quarter, index) = meeting(text, 64)?;
            Some(Reason::Lower(body, quarter, index))
        }
        7 => {
            let (body, quarter, other) = meeting(text, 25)?;
            Some(Reason::SelfHit(body, quarter, other))
        }
        8 => bare(Reason::NoGauge, text),
        _ => bare(Reason::Load, text),
    }
}

/// A reason in a job of so many stages.
#[tactic(auto, unfolding(crate::specs::PlanWords::reason_in))]
fn reason(text: &[u8], stages: u8) -> Option<Reason>
    ensures { result ≡ reason_in stages text.now }
{
    let (kind, rest) = small(text, 1, 10)?;
    arguments(kind, rest, stages)
}

/// An action of a job of so many bends and stages, and a reason against it.
#[tactic(auto, unfolding(crate::specs::PlanWords::note_in))]
pub fn note(text: &[u8], bends: u8, stages: u8) -> Option<(Action, Reason)>
    requires { bends ≤ 12 }
    ensures { result ≡ note_in bends stages text.now }
{
    let (action, rest) = action(text, bends, stages)?;
    let reason = reason(rest, stages)?;
    Some((action, reason))
}
