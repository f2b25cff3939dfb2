//! Codes of reasons at all stages.
ghost use Rattle.std.specs.Prelude.{◌≡◌, ◌↔◌, ◌⊎◌, ℕ, ◌<◌, ◌≤◌, ◌==◌, if◌then◌else◌, length, IsTrue, IfSome, slice_index};
ghost use Rattle.stage_lanes.specs.Codes.{IsCode, IsCoded};
ghost use Rattle.stage_lanes.specs.Lanes.{AreLanes};
ghost use Rattle.stroke_table.specs.Strokes.{reason_at};
ghost use Rattle.stroke_table.specs.Codes.{code_for, at_stages, IsToldBy, IsFreeSomewhere};

use brake_base::Reason;
use stage_lanes::{FREE, StageCodes, code_of, reason_of};

/// The code of a reason, or that of none.
pub(crate) fn code_for(reason: Option<Reason>) -> u16
    requires { IfSome reason (λ one. IsCoded one) }
    ensures { result ≡ code_for reason }
{
    match reason {
        Some(one) => code_of(one),
        None => FREE,
    }
}

/// One code at so many stages, and past them the code of no reason.
pub(crate) fn at_stages(code: u16, stages: u8) -> StageCodes
    requires { stages ≤ 8 }
    ensures { AreLanes result.0 (at_stages code stages) }
{
    let mut codes = StageCodes::all(FREE);
    for stage in 0..stages {
        codes = codes.with(stage, code);
    }
    codes
}

/// The reasons of the codes at so many stages.
pub(crate) fn reasons_of(codes: StageCodes, stages: u8) -> [Option<Reason>; 6]
    requires stages { stages ≤ 6 }
    requires codes { (stage : ℕ) → stage < stages → IsCode (slice_index codes.0 stage) }
    ensures reasons { (stage : ℕ) → stage < stages
        → IsToldBy (slice_index codes.0 stage) (reason_at result stage) }
    ensures count { length result ≡ 6 }
{
    let mut reasons = [None; 6];
    for stage in 0..stages {
        let place = usize::from(stage);
        reasons[place] = told(codes.code(stage));
    }
    reasons
}

/// The reason of a code.
pub(crate) fn told(code: u16) -> Option<Reason>
    requires { IsCode code }
    ensures { IsToldBy code result }
{
    reason_of(code)
}

/// Whether at some of so many stages there is no reason.
pub(crate) fn is_free_somewhere(codes: StageCodes, stages: u8) -> bool
    requires { stages ≤ 8 }
    ensures { IsTrue result ↔ IsFreeSomewhere codes.0 stages }
{
    for stage in 0..stages {
        if codes.code(stage) == FREE {
            return true;
        }
    }
    false
}
