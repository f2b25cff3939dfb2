//! Reasons as numbers of 16 bits, in the order of reasons.
ghost use Rattle.std.specs.Prelude.{◌≡◌, ◌↔◌, ℕ, ◌+◌, ◌-◌, ◌*◌, ◌<◌, ◌≤◌, Some, None};
ghost use Rattle.brake_base.specs.Reasons.{ReasonIsBefore, quarter_number};
ghost use Rattle.stage_lanes.specs.Codes.{code_of, IsCoded, IsCode, half_at};

use brake_base::{Half, Quarter, Reason};

/// The code of no reason at all, which is above the code of every reason.
pub const FREE: u16 = 65_535;

/// The code of a reason: codes run in the order of reasons, so that the earlier of two reasons has
/// the lesser code.
pub fn code_of(reason: Reason) -> u16
    requires { IsCoded reason }
    ensures value { result ≡ code_of reason }
    ensures below { result < 57600 }
    ensures code { IsCode result }
    ensures order { (other : Reason) → IsCoded other
        → ReasonIsBefore reason other ↔ (code_of reason < code_of other) }
    ensures unique { (other : Reason) → IsCoded other →
        code_of other ≡ code_of reason → other ≡ reason }
{
    code(reason)
}

/// The reason that has this code, and None for [`FREE`].
pub fn reason_of(code: u16) -> Option<Reason>
    requires { IsCode code }
    ensures some { (reason : Reason) → IsCoded reason → code_of reason ≡ code
        → result ≡ Some reason }
    ensures none { code ≡ 65535 → result ≡ None }
{
    let body = (code % 6_400 / 256) as u8;
    let quarter = quarter_of(code % 256 / 64);
    let index = (code % 64) as u8;
    match code / 6_400 {
        0 => Some(Reason::Cover),
        1 => Some(Reason::Rest(half_of(body))),
        2 => Some(Reason::Frame(body)),
        3 => Some(Reason::Upper(body, quarter, index)),
        4 => Some(Reason::Nose(body, quarter, index)),
        5 => Some(Reason::Lower(body, quarter, index)),
        6 => Some(Reason::SelfHit(body, quarter, index)),
        7 => Some(Reason::Load),
        8 => Some(Reason::NoGauge),
        _ => None,
    }
}

/// The code of a reason, by its kind.
#[tactic(auto, unfolding(crate::specs::Codes::code_at))]
fn code(reason: Reason) -> u16
    requires { IsCoded reason }
    ensures value { result ≡ code_of reason }
    ensures below { result < 57600 }
{
    match reason {
        Reason::Cover => 0,
        Reason::Rest(Half::Back) => 6_400,
        Reason::Rest(Half::Front) => 6_656,
        Reason::Frame(body) => 12_800 + 256 * u16::from(body),
        Reason::Upper(body, quarter, index) => 19_200 + meeting(body, quarter, index),
        Reason::Nose(body, quarter, stage) => 25_600 + meeting(body, quarter, stage),
        Reason::Lower(body, quarter, index) => 32_000 + meeting(body, quarter, index),
        Reason::SelfHit(body, quarter, other) => 38_400 + meeting(body, quarter, other),
        Reason::Load => 44_800,
        Reason::NoGauge => 51_200,
    }
}

/// The part of a code that a box, a quarter and an index make.
fn meeting(body: u8, quarter: Quarter, index: u8) -> u16
    requires body { body < 25 }
    requires index { index < 64 }
    ensures value { result ≡ body * 256 + (quarter_number quarter - 1) * 64 + index }
    ensures below { result < 6400 }
{
    u16::from(body) * 256 + u16::from(quarter.number() - 1) * 64 + u16::from(index)
}

/// The quarter before which so many stand.
fn quarter_of(before: u16) -> Quarter
    requires { before < 4 }
    ensures { quarter_number result ≡ before + 1 }
{
    match before {
        0 => Quarter::Q1,
        1 => Quarter::Q2,
        2 => Quarter::Q3,
        _ => Quarter::Q4,
    }
}

/// The half with this number.
fn half_of(number: u8) -> Half
    ensures { result ≡ half_at number }
{
    if number == 0 { Half::Back } else { Half::Front }
}
