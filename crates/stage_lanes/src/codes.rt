//! A code for each of eight stages.
ghost use Rattle.std.specs.Prelude.{◌≡◌, ℕ, ◌+◌, ◌^◌, ◌<◌, ◌≤◌, min, ◌==◌, if◌then◌else◌, Some, None, slice_index};
ghost use Rattle.stage_lanes.specs.Codes.{code_of, IsCoded, IsCode};
ghost use Rattle.stage_lanes.specs.Lanes.{AreLanes};
ghost use Rattle.stage_lanes.specs.Stages.{AreStages};

use crate::reasons::reason_of;
use crate::stages::StageSet;
use brake_base::Reason;
use std::simd::u16x8;

/// A code for each of the stages 0 to 7: lane `stage` is that of the stage.
#[derive(Clone, Copy, Debug, PartialEq, Eq)]
pub struct StageCodes(pub [u16; 8]);

impl StageCodes {
    /// One code at each stage.
    pub fn all(code: u16) -> StageCodes
        ensures lanes { AreLanes result.0 (λ stage. code) }
    {
        StageCodes([code; 8])
    }

    /// The code of a stage.
    pub fn code(self, stage: u8) -> u16
        requires { stage < 8 }
        ensures { result ≡ slice_index self.0 stage }
    {
        self.0[usize::from(stage)]
    }

    /// The reason at a stage, and None where it is free.
    pub fn reason(self, stage: u8) -> Option<Reason>
        requires stage { stage < 8 }
        requires code { IsCode (slice_index self.0 stage) }
        ensures some { (reason : Reason) → IsCoded reason
            → code_of reason ≡ slice_index self.0 stage → result ≡ Some reason }
        ensures none { slice_index self.0 stage ≡ 65535 → result ≡ None }
    {
        reason_of(self.code(stage))
    }

    /// These codes, but for one stage this code.
    pub fn with(self, stage: u8, code: u16) -> StageCodes
        requires { stage < 8 }
        ensures lanes { AreLanes result.0
            (λ other. if other == stage then code else slice_index self.0 other) }
    {
        let mut lanes = self.0;
        lanes[usize::from(stage)] = code;
        StageCodes(lanes)
    }

    /// The lesser of both codes at each stage.
    pub fn lesser(self, other: StageCodes) -> StageCodes
        ensures lanes { AreLanes result.0
            (λ stage. min (slice_index self.0 stage) (slice_index other.0 stage)) }
    {
        StageCodes(self.lanes().simd_min(other.lanes()).to_array())
    }

    /// The stages whose code is this one.
    pub fn equal(self, code: u16) -> StageSet
        ensures stages { AreStages result (λ stage. slice_index self.0 stage == code) }
    {
        StageSet(self.lanes().simd_eq(u16x8::splat(code)).to_bitmask() as u8)
    }

    /// The lanes as a vector.
    fn lanes(self) -> u16x8
        ensures { result ≡ self.0 }
    {
        u16x8::from_array(self.0)
    }
}
