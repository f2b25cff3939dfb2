//! A cost for each action.
ghost use Rattle.std.specs.Prelude.{false, ◌≡◌, ℕ, ◌+◌, ◌-◌, ◌*◌, ◌/◌, ◌%◌, ◌^◌, ◌<◌, ◌≤◌, ◌&&◌, ◌||◌, IsTrue, IfSome, IfNone, nat_lt, ◌==◌, if◌then◌else◌, slice_index};
ghost use Rattle.std.specs.Int.{bit_at};
ghost use Rattle.brake_base.specs.Actions.{IsActionAmong};
ghost use Rattle.stage_lanes.specs.Lanes.{AreLanes};
ghost use Rattle.stage_lanes.specs.Stages;
ghost use Rattle.stage_lanes.specs.ActionSets.{side_of, place_of, has_place, ArePlaces, IsNone};
ghost use Rattle.action_lanes.specs.Costs.{cost_at, sum_costs, AreCosts, AreBits, is_of, IsLeastCost};
ghost use Rattle.action_lanes.specs.Cheapest.{AreOnly, AreOf, AreCheapest};

use brake_base::{Action, Back, Mask};
use stage_lanes::{ActionSet, BLOCKED, StageCosts, StageSet, side};

/// A cost for each action of the bends 1 to 12 at the stages 0 to 7, in tenths of a second. The
/// actions of a bend with one side at the back stand together, a lane for each stage; an action's
/// place is its place in an [`ActionSet`].
#[derive(Clone, Copy, Debug, PartialEq, Eq)]
pub struct ActionCosts(pub [StageCosts; 24]);

impl ActionCosts {
    /// One cost for each action.
    pub fn all(cost: u32) -> ActionCosts
        ensures costs { AreCosts result (λ place. cost) }
    {
        ActionCosts([StageCosts::all(cost); 24])
    }

    /// The cost of an action.
    pub fn cost(&self, action: Action) -> u32
        requires { IsActionAmong 12 8 action }
        ensures { result ≡ cost_at self.now (place_of action) }
    {
        self.lanes(side(action.bend, action.back))
            .cost(action.stage)
    }

    /// The costs of a bend with this side at the back, by stage.
    pub fn side(&self, bend: u8, back: Back) -> StageCosts
        requires first { 1 ≤ bend }
        requires last { bend ≤ 12 }
        ensures lanes { AreLanes result.0
            (λ stage. cost_at self.now (8 * side_of bend back + stage)) }
    {
        self.lanes(side(bend, back))
    }

    /// Sets the costs of a bend with this side at the back, and leaves all else.
    pub fn set_side(&mut self, bend: u8, back: Back, costs: StageCosts)
        requires first { 1 ≤ bend }
        requires last { bend ≤ 12 }
        ensures costs { AreCosts self.new (λ place. if place / 8 == side_of bend back
            then slice_index costs.0 (place % 8) else cost_at self.old place) }
    {
        self.set_lanes(side(bend, back), costs);
    }

    /// Sets the cost of an action, and leaves all else.
    pub fn set_cost(&mut self, action: Action, cost: u32)
        requires { IsActionAmong 12 8 action }
        ensures costs { AreCosts self.new (λ place. if place == place_of action then cost
            else cost_at self.old place) }
    {
        let side = side(action.bend, action.back);
        let costs = self.lanes(side).with(action.stage, cost);
        self.set_lanes(side, costs);
    }

    /// The sum of both costs at each action of these bends; at all others [`BLOCKED`].
    pub fn plus(&self, other: &ActionCosts, bends: Mask) -> ActionCosts
        requires room { (place : ℕ) → place < 192 → IsTrue (is_of bends place)
            → cost_at self.now place + cost_at other.now place < 2 ^ 32 }
        ensures costs { AreCosts result (λ place. if is_of bends place
            then cost_at self.now place + cost_at other.now place else 536870912) }
    {
        let mut sums = ActionCosts::all(BLOCKED);
        for side in 0..24u8 {
            if bends.contains(side / 2 + 1) {
                let lanes = self.lanes(side).plus(other.lanes(side));
                sums.set_lanes(side, lanes);
            }
        }
        sums
    }

    /// The actions of these bends at which the sum of both costs is this one.
    pub fn equal_sum(&self, other: &ActionCosts, bends: Mask, cost: u32) -> ActionSet
        requires room { (place : ℕ) → place < 192 → IsTrue (is_of bends place)
            → cost_at self.now place + cost_at other.now place < 2 ^ 32 }
        ensures places { ArePlaces result (λ place. is_of bends place
            && (cost_at (sum_costs self.now other.now) place == cost)) }
    {
        ActionSet {
            words: [
                self.equal_sum_in(other, bends, cost, 0),
                self.equal_sum_in(other, bends, cost, 1),
                self.equal_sum_in(other, bends, cost, 2),
            ],
        }
    }

    /// The least cost of the actions of these bends, [`BLOCKED`] where none is below that.
    pub fn least(&self, bends: Mask) -> u32
        ensures least { IsLeastCost self.now bends result }
    {
        let mut low = StageCosts::all(BLOCKED);
        for side in 0..24u8 {
            if bends.contains(side / 2 + 1) {
                low = low.lesser(self.lanes(side));
            }
        }
        low.least()
    }

    /// The actions of these bends whose cost is below this one.
    pub fn below(&self, bends: Mask, cost: u32) -> ActionSet
        ensures places { ArePlaces result
            (λ place. is_of bends place && nat_lt (cost_at self.now place) cost) }
    {
        ActionSet {
            words: [
                self.below_in(bends, cost, 0),
                self.below_in(bends, cost, 1),
                self.below_in(bends, cost, 2),
            ],
        }
    }

    /// The actions of these bends whose cost is this one.
    pub fn equal(&self, bends: Mask, cost: u32) -> ActionSet
        ensures places { ArePlaces result
            (λ place. is_of bends place && (cost_at self.now place == cost)) }
    {
        ActionSet {
            words: [
                self.equal_in(bends, cost, 0),
                self.equal_in(bends, cost, 1),
                self.equal_in(bends, cost, 2),
            ],
        }
    }

    /// The costs of a set's actions, and [`BLOCKED`] at all others.
    pub fn only(&self, set: ActionSet) -> ActionCosts
        ensures costs { AreOnly self.now set result }
    {
        let mut costs = ActionCosts::all(BLOCKED);
        for side in 0..24u8 {
            let stages = set.stages_at(side);
            let lanes = self.lanes(side).only(stages, StageCosts::all(BLOCKED));
            costs.set_lanes(side, lanes);
        }
        costs
    }

    /// The actions of a set whose cost is the least, from costs of which all others are [`BLOCKED`].
    /// The set's are actions of these bends. There are none only where the set is empty.
    pub fn cheapest(&self, bends: Mask, set: ActionSet) -> ActionSet
        requires bends { AreOf bends set }
        requires small { (place : ℕ) → place < 192 → IsTrue (has_place set place)
            → cost_at self.now place ≤ 536870912 }
        requires others { (place : ℕ) → place < 192 → has_place set place ≡ false
            → cost_at self.now place ≡ 536870912 }
        ensures cheapest { AreCheapest self.now set result }
        ensures none { IsNone result → IsNone set }
    {
        self.equal(bends, self.least(bends)).intersection(set)
    }

    // The three that follow are inlined, since the word is a constant at each call.

    /// A word of the set of the actions of these bends whose cost is below this one.
    #[inline(always)]
    fn below_in(&self, bends: Mask, cost: u32, word: u8) -> u64
        requires { word < 3 }
        ensures bits { AreBits result (λ bit. is_of bends (64 * word + bit)
            && nat_lt (cost_at self.now (64 * word + bit)) cost) }
    {
        let mut bits = 0;
        for eighth in 0..8u8 {
            let side = 8 * word + eighth;
            if bends.contains(side / 2 + 1) {
                bits = with_eighth(bits, eighth, self.lanes(side).below(cost));
            }
        }
        bits
    }

    /// A word of the set of the actions of these bends whose cost is this one.
    #[inline(always)]
    fn equal_in(&self, bends: Mask, cost: u32, word: u8) -> u64
        requires { word < 3 }
        ensures bits { AreBits result (λ bit. is_of bends (64 * word + bit)
            && (cost_at self.now (64 * word + bit) == cost)) }
    {
        let mut bits = 0;
        for eighth in 0..8u8 {
            let side = 8 * word + eighth;
            if bends.contains(side / 2 + 1) {
                bits = with_eighth(bits, eighth, self.lanes(side).equal(cost));
            }
        }
        bits
    }

    /// A word of the set of the actions of these bends at which the sum of both costs is this one.
    #[inline(always)]
    fn equal_sum_in(&self, other: &ActionCosts, bends: Mask, cost: u32, word: u8) -> u64
        requires word { word < 3 }
        requires room { (place : ℕ) → place < 192 → IsTrue (is_of bends place)
            → cost_at self.now place + cost_at other.now place < 2 ^ 32 }
        ensures bits { AreBits result (λ bit. is_of bends (64 * word + bit)
            && (cost_at (sum_costs self.now other.now) (64 * word + bit) == cost)) }
    {
        let mut bits = 0;
        for eighth in 0..8u8 {
            let side = 8 * word + eighth;
            if bends.contains(side / 2 + 1) {
                bits = with_eighth(bits, eighth, self.sums(other, side).equal(cost));
            }
        }
        bits
    }

    /// The costs at a side, by stage.
    fn lanes(&self, side: u8) -> StageCosts
        requires { side < 24 }
        ensures lanes { AreLanes result.0 (λ stage. cost_at self.now (8 * side + stage)) }
    {
        self.0[usize::from(side)]
    }

    /// The sums of both costs at a side, by stage.
    fn sums(&self, other: &ActionCosts, side: u8) -> StageCosts
        requires side { side < 24 }
        requires room { (stage : ℕ) → stage < 8
            → cost_at self.now (8 * side + stage) + cost_at other.now (8 * side + stage) < 2 ^ 32 }
        ensures lanes { AreLanes result.0
            (λ stage. cost_at (sum_costs self.now other.now) (8 * side + stage)) }
    {
        self.lanes(side).plus(other.lanes(side))
    }

    /// Sets the costs at a side, and leaves all else.
    fn set_lanes(&mut self, side: u8, costs: StageCosts)
        requires { side < 24 }
        ensures costs { AreCosts self.new (λ place. if place / 8 == side
            then slice_index costs.0 (place % 8) else cost_at self.old place) }
    {
        self.0[usize::from(side)] = costs;
    }
}

/// The bits of a word, and at one of its eighths, the places of a side, those of these stages.
fn with_eighth(bits: u64, eighth: u8, stages: StageSet) -> u64
    requires { eighth < 8 }
    ensures bits { AreBits result (λ bit. bit_at bits bit == 1
        || (bit / 8 == eighth && Stages.has stages (bit % 8))) }
{
    bits | (u64::from(stages.0) << (8 * eighth))
}
