//! A press brake. Lengths are in micrometres: x runs along the bed, y to the backgauge, z up.
ghost use Rattle.std.specs.Prelude.{◌≡◌, ◌↔◌, pos, nat_le, IsTrue, map};
ghost use Rattle.std.specs.List.{list_all};
ghost use Rattle.machine_file.specs.Machine.{IsFixed, IsLength, IsFinger, IsGaugeRule, IsCosts};
ghost use Rattle.machine_file.specs.Machine.{stage_text_data, machine_data, with_stages};
ghost use Rattle.machine_file.specs.MachineFile.{has_footprint, is_fixed};

use crate::bounds::{
    COORDINATE_LIMIT, GREATEST_COST, GREATEST_LENGTH, LEAST_FINGER, MOST_BOXES, MOST_FRAMES,
    MOST_PIECES, MOST_STAGES,
};
use arrayvec::ArrayVec;
use brake_base::{Name, Rect};
use toml_fields::{is_range, is_within};

/// A box that is fixed on the machine: a range of x, and a rectangle across it.
#[derive(Clone, Copy, Debug, Default, PartialEq, Eq)]
pub struct Fixed {
    pub x0: i64,
    pub x1: i64,
    pub rect: Rect,
}

/// The backgauge: how near and far its fingers may stand behind the bend line, how far within
/// the sheet's ends, how wide a finger is and how far two are apart, how deep a finger is, and
/// how far it reaches above and below the sheet.
#[derive(Clone, Copy, Debug, Default, PartialEq, Eq)]
pub struct GaugeRule {
    pub near: i64,
    pub far: i64,
    pub inset: i64,
    pub finger: i64,
    pub gap: i64,
    pub depth: i64,
    pub above: i64,
    pub below: i64,
}

/// Handling costs in tenths of a second: of a stroke, of the changes of attitude, and of a step
/// from a stage to another.
#[derive(Clone, Copy, Debug, Default, PartialEq, Eq)]
pub struct Costs {
    pub stroke: u64,
    pub quarter: u64,
    pub half: u64,
    pub flip: u64,
    pub roll: u64,
    pub stage: u64,
}

/// A stage by the names of its punch and die, where it begins, and the lengths of its pieces.
#[derive(Clone, Debug, Default, Drop)]
pub struct StageText {
    pub punch: Name,
    pub die: Name,
    pub at: i64,
    pub pieces: ArrayVec<i64, MOST_PIECES>,
}

/// A press brake. `uncovered` is how much of a bend line may stay uncovered by its stage at each
/// end; `gang` says whether several flanges of one side may be bent in one stroke; `force` is the
/// greatest force in newtons, and 0 where there is no limit; `fine` is how often in a row a piece of
/// the part may be halved in the sweep.
#[derive(Debug, Drop)]
pub struct Machine {
    pub bed: (i64, i64),
    pub frames: ArrayVec<(i64, i64), MOST_FRAMES>,
    pub upper: ArrayVec<Fixed, MOST_BOXES>,
    pub lower: ArrayVec<Fixed, MOST_BOXES>,
    pub uncovered: i64,
    pub gauge: GaugeRule,
    pub cost: Costs,
    pub stages: ArrayVec<StageText, MOST_STAGES>,
    pub gang: bool,
    pub force: i64,
    pub fine: u8,
}

impl Machine {
    /// The machine with these stages in place of its own.
    pub fn with_stages(&self, stages: ArrayVec<StageText, MOST_STAGES>) -> Machine
        ensures { machine_data result
            ≡ with_stages (machine_data self.now) (map stage_text_data stages.items) }
    {
        let mut frames = ArrayVec::new();
        let _ = frames.try_extend_from_slice(self.frames.as_slice());
        let mut upper = ArrayVec::new();
        let _ = upper.try_extend_from_slice(self.upper.as_slice());
        let mut lower = ArrayVec::new();
        let _ = lower.try_extend_from_slice(self.lower.as_slice());
        Machine {
            bed: self.bed,
            frames,
            upper,
            lower,
            uncovered: self.uncovered,
            gauge: self.gauge,
            cost: self.cost,
            stages,
            gang: self.gang,
            force: self.force,
            fine: self.fine,
        }
    }
}

/// The heights between which a box must lie.
#[derive(Clone, Copy)]
pub struct Heights {
    pub lowest: i64,
    pub highest: i64,
}

/// Whether the box's ranges along and across the bed are in order and range.
#[tactic(auto, using(toml_fields::proofs::Sizes::sizes))]
fn has_footprint(fixed: &Fixed) -> bool
    ensures { result ≡ has_footprint fixed.now }
{
    is_range(fixed.x0, fixed.x1, -COORDINATE_LIMIT, COORDINATE_LIMIT)
        && is_range(
            fixed.rect.y0,
            fixed.rect.y1,
            -COORDINATE_LIMIT,
            COORDINATE_LIMIT,
        )
}

/// Whether the box has an interior, and lies between two heights.
#[tactic(auto, using(toml_fields::proofs::Sizes::sizes))]
pub fn is_fixed(heights: &Heights, fixed: &Fixed) -> bool
    ensures { result ≡ is_fixed heights.now.lowest heights.now.highest fixed.now }
{
    let rect = fixed.rect;
    has_footprint(fixed) && is_range(rect.z0, rect.z1, heights.lowest, heights.highest)
}

impl Fixed {
    /// Whether the box meets the rules of the machine file: it has an interior, lies between the
    /// two heights, and its other coordinates between -20,000,000 and 20,000,000 micrometres.
    pub fn is_between(&self, low: i64, high: i64) -> bool
        ensures { IsTrue result ↔ IsFixed low high self.now }
    {
        let heights = Heights {
            lowest: low,
            highest: high,
        };
        is_fixed(&heights, self)
    }
}

/// Whether a length of the backgauge is in range.
fn is_length(n: i64) -> bool
    ensures { IsTrue result ↔ IsLength n }
{
    is_within(n, 0, GREATEST_LENGTH)
}

/// Whether the width or depth of a finger is in range.
fn is_finger(n: i64) -> bool
    ensures { IsTrue result ↔ IsFinger n }
{
    is_within(n, LEAST_FINGER, GREATEST_LENGTH)
}

impl GaugeRule {
    /// Whether the backgauge meets the rules of the machine file: each length is at most
    /// 10,000,000 micrometres, a finger's width and depth are at least 1, and the others at
    /// least 0.
    pub fn is_valid(&self) -> bool
        ensures { IsTrue result ↔ IsGaugeRule self.now }
    {
        self.has_places_in_range() && self.has_fingers_in_range() && self.has_reach_in_range()
    }

    /// Whether the places where fingers may stand are in range.
    fn has_places_in_range(&self) -> bool
        ensures { IsTrue result
            ↔ (IsLength self.now.near × IsLength self.now.far × IsLength self.now.inset) }
    {
        is_length(self.near) && is_length(self.far) && is_length(self.inset)
    }

    /// Whether a finger's width, the gap between two and a finger's depth are in range.
    fn has_fingers_in_range(&self) -> bool
        ensures { IsTrue result
            ↔ (IsFinger self.now.finger × IsLength self.now.gap × IsFinger self.now.depth) }
    {
        is_finger(self.finger) && is_length(self.gap) && is_finger(self.depth)
    }

    /// Whether the reach above and below the sheet is in range.
    fn has_reach_in_range(&self) -> bool
        ensures { IsTrue result ↔ (IsLength self.now.above × IsLength self.now.below) }
    {
        is_length(self.above) && is_length(self.below)
    }
}

/// Whether each cost is in range.
fn are_costs(costs: &[u64]) -> bool
    ensures { result ≡ list_all (λ cost. nat_le cost GREATEST_COST) costs.now }
{
    costs.iter().all(|cost| *cost <= GREATEST_COST)
}

impl Costs {
    /// Whether the costs meet the rules of the machine file: each is at most 1,000,000 tenths of
    /// a second.
    pub fn is_valid(&self) -> bool
        ensures { IsTrue result ↔ IsCosts self.now }
    {
        are_costs(&[
            self.stroke,
            self.quarter,
            self.half,
            self.flip,
            self.roll,
            self.stage,
        ])
    }
}
