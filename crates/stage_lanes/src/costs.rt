//! A cost for each of eight stages.
ghost use Rattle.std.specs.Prelude.{◌≡◌, ℕ, ◌+◌, ◌%◌, ◌^◌, ◌<◌, ◌≤◌, min, max, nat_lt, ◌==◌, if◌then◌else◌, length, slice_index, slice_index_or};
ghost use Rattle.stage_lanes.specs.Lanes.{AreLanes, IsLeastLane};
ghost use Rattle.stage_lanes.specs.Stages.{has, AreStages};

use crate::stages::StageSet;
use std::simd::u32x8;

/// The cost of a stage from which there is no way on: above every cost of a plan, and so low that
/// the sum of seven of them fits a lane.
pub const BLOCKED: u32 = 536_870_912;

/// A cost for each of the stages 0 to 7, in tenths of a second: lane `stage` is that of the stage.
#[derive(Clone, Copy, Debug, PartialEq, Eq)]
pub struct StageCosts(pub [u32; 8]);

impl StageCosts {
    /// One cost at each stage.
    pub fn all(cost: u32) -> StageCosts
        ensures lanes { AreLanes result.0 (λ stage. cost) }
    {
        StageCosts([cost; 8])
    }

    /// The costs of the first stages. Past the last of them the lanes are [`BLOCKED`].
    pub fn of(costs: &[u32]) -> StageCosts
        requires { length costs.now ≤ 8 }
        ensures lanes { AreLanes result.0 (λ stage. slice_index_or costs.now stage 536870912) }
    {
        let mut lanes = [BLOCKED; 8];
        lanes[..costs.len()].copy_from_slice(costs);
        StageCosts(lanes)
    }

    /// The cost of a stage.
    pub fn cost(self, stage: u8) -> u32
        requires { stage < 8 }
        ensures { result ≡ slice_index self.0 stage }
    {
        self.0[usize::from(stage)]
    }

    /// These costs, but for one stage this cost.
    pub fn with(self, stage: u8, cost: u32) -> StageCosts
        requires { stage < 8 }
        ensures lanes { AreLanes result.0
            (λ other. if other == stage then cost else slice_index self.0 other) }
    {
        let mut lanes = self.0;
        lanes[usize::from(stage)] = cost;
        StageCosts(lanes)
    }

    /// The sum of both costs at each stage.
    pub fn plus(self, other: StageCosts) -> StageCosts
        requires room { (stage : ℕ) → stage < 8
            → slice_index self.0 stage + slice_index other.0 stage < 2 ^ 32 }
        ensures lanes { AreLanes result.0
            (λ stage. slice_index self.0 stage + slice_index other.0 stage) }
    {
        StageCosts(self.lanes().strict_add(other.lanes()).to_array())
    }

    /// The lesser of both costs at each stage.
    pub fn lesser(self, other: StageCosts) -> StageCosts
        ensures lanes { AreLanes result.0
            (λ stage. min (slice_index self.0 stage) (slice_index other.0 stage)) }
    {
        StageCosts(self.lanes().simd_min(other.lanes()).to_array())
    }

    /// The greater of both costs at each stage.
    pub fn greater(self, other: StageCosts) -> StageCosts
        ensures lanes { AreLanes result.0
            (λ stage. max (slice_index self.0 stage) (slice_index other.0 stage)) }
    {
        StageCosts(self.lanes().simd_max(other.lanes()).to_array())
    }

    /// These costs at the stages of a set, and the others at all other stages.
    pub fn only(self, stages: StageSet, others: StageCosts) -> StageCosts
        ensures lanes { AreLanes result.0 (λ stage. if has stages stage
            then slice_index self.0 stage else slice_index others.0 stage) }
    {
        let bits = u32x8::from_array([1, 2, 4, 8, 16, 32, 64, 128]);
        let outside = (u32x8::splat(u32::from(stages.0)) & bits).simd_eq(u32x8::splat(0));
        StageCosts(outside.select(others.lanes(), self.lanes()).to_array())
    }

    /// The least cost of the eight stages.
    pub fn least(self) -> u32
        ensures least { IsLeastLane self.0 result }
    {
        let fours = self.lesser(self.turned_by_four());
        let pairs = fours.lesser(fours.turned_by_two());
        pairs.0[0].min(pairs.0[1])
    }

    /// The stages whose cost is below this one.
    pub fn below(self, cost: u32) -> StageSet
        ensures stages { AreStages result (λ stage. nat_lt (slice_index self.0 stage) cost) }
    {
        StageSet(self.lanes().simd_lt(u32x8::splat(cost)).to_bitmask() as u8)
    }

    /// The stages whose cost is this one.
    pub fn equal(self, cost: u32) -> StageSet
        ensures stages { AreStages result (λ stage. slice_index self.0 stage == cost) }
    {
        StageSet(self.lanes().simd_eq(u32x8::splat(cost)).to_bitmask() as u8)
    }

    /// The lanes as a vector.
    fn lanes(self) -> u32x8
        ensures { result ≡ self.0 }
    {
        u32x8::from_array(self.0)
    }

    /// Each stage has the cost of the fourth stage after it, the stages in a ring.
    fn turned_by_four(self) -> StageCosts
        ensures lanes { AreLanes result.0 (λ stage. slice_index self.0 ((stage + 4) % 8)) }
    {
        StageCosts(self.lanes().rotate_elements_left::<4>().to_array())
    }

    /// Each stage has the cost of the second stage after it, the stages in a ring.
    fn turned_by_two(self) -> StageCosts
        ensures lanes { AreLanes result.0 (λ stage. slice_index self.0 ((stage + 2) % 8)) }
    {
        StageCosts(self.lanes().rotate_elements_left::<2>().to_array())
    }
}
