//! What a plan by each action at a key costs by what is known: its sum and its slack.
ghost use Rattle.std.specs.Prelude.{◌≡◌, ℕ, ◌+◌, ◌*◌, ◌/◌, ◌<◌, ◌≤◌, ◌↔◌, false, IsTrue};
ghost use Rattle.stage_lanes.specs.Lanes.{AreLanes};
ghost use Rattle.stage_lanes.specs.ActionSets.{side_of, has_place};
ghost use Rattle.action_lanes.specs.Costs.{cost_at, sum_costs, is_of, IsLeastCost};
ghost use Rattle.action_lanes.specs.Tested.{IsTested};
ghost use Rattle.bb_search.specs.Totals.{HaveRoom, NoneGivesBelow};

use action_lanes::{ActionCosts, tested_by};
use brake_base::{Back, Mask};
use stage_lanes::{ActionSet, BLOCKED, StageCosts};

/// The totals of a bend's actions with this side at the back, by stage.
fn side_totals(sums: &ActionCosts, slack: &ActionCosts, bend: u8, back: Back) -> StageCosts
    requires room { HaveRoom sums.now slack.now }
    requires first { 1 ≤ bend }
    requires last { bend ≤ 12 }
    ensures { AreLanes result.0
        (λ stage. cost_at (sum_costs sums.now slack.now) (8 * side_of bend back + stage)) }
{
    sums.side(bend, back).plus(slack.side(bend, back))
}

/// The least total of the actions of these bends, [`BLOCKED`] where none is below that.
pub(crate) fn least_total(sums: &ActionCosts, slack: &ActionCosts, bends: Mask) -> u32
    requires room { HaveRoom sums.now slack.now }
    ensures { IsLeastCost (sum_costs sums.now slack.now) bends result }
{
    let mut low = StageCosts::all(BLOCKED);
    for bend in 1..13u8 {
        if bends.contains(bend) {
            let parent = side_totals(sums, slack, bend, Back::Parent);
            let child = side_totals(sums, slack, bend, Back::Child);
            low = low.lesser(parent).lesser(child);
        }
    }
    low.least()
}

/// The actions of these bends that have to be tested at a key whose worth by what is known is this
/// one. Where no action leads on, or one with a sum below the worth gives it, these are the ones with
/// such a sum, and it isn't asked which others give the worth.
pub(crate) fn tested_for(
    sums: &ActionCosts,
    slack: &ActionCosts,
    bends: Mask,
    best: u32,
) -> ActionSet
    requires room { HaveRoom sums.now slack.now }
    requires best { IsLeastCost (sum_costs sums.now slack.now) bends best }
    ensures tested { (place : ℕ) → place < 192
        → IsTrue (has_place result place)
        ↔ IsTested bends sums.now (sum_costs sums.now slack.now) place }
    ensures rest { (place : ℕ) → place < 192 → IsTrue (is_of bends place)
        → has_place result place ≡ false → best ≤ cost_at sums.now place }
    ensures most { (place : ℕ) → place < 192 → IsTrue (has_place result place)
        → cost_at sums.now place ≤ best }
{
    if best >= BLOCKED {
        return sums.below(bends, best);
    }
    if is_given_below(sums, slack, bends, best) {
        return sums.below(bends, best);
    }
    tested_by(sums, slack, bends, best)
}

/// Whether one of these bends' actions has a sum below the best worth and gives it.
fn is_given_below(sums: &ActionCosts, slack: &ActionCosts, bends: Mask, best: u32) -> bool
    requires room { HaveRoom sums.now slack.now }
    ensures { IsTrue result
        → NoneGivesBelow sums.now slack.now best (λ place. IsTrue (is_of bends place)) → ⊥ }
{
    for bend in 1..13u8 {
        if bends.contains(bend) && is_given_by(sums, slack, bend, best) {
            return true;
        }
    }
    false
}

/// Whether one of a bend's actions has a sum below the best worth and gives it.
fn is_given_by(sums: &ActionCosts, slack: &ActionCosts, bend: u8, best: u32) -> bool
    requires room { HaveRoom sums.now slack.now }
    requires first { 1 ≤ bend }
    requires last { bend ≤ 12 }
    ensures { IsTrue result
        → NoneGivesBelow sums.now slack.now best (λ place. place / 16 + 1 ≡ bend) → ⊥ }
{
    if is_given_at(sums, slack, bend, Back::Parent, best) {
        return true;
    }
    is_given_at(sums, slack, bend, Back::Child, best)
}

/// Whether one of a bend's actions with this side at the back has a sum below the best worth and gives
/// it.
fn is_given_at(sums: &ActionCosts, slack: &ActionCosts, bend: u8, back: Back, best: u32) -> bool
    requires room { HaveRoom sums.now slack.now }
    requires first { 1 ≤ bend }
    requires last { bend ≤ 12 }
    ensures { IsTrue result
        → NoneGivesBelow sums.now slack.now best (λ place. place / 8 ≡ side_of bend back) → ⊥ }
{
    let giving = side_totals(sums, slack, bend, back).equal(best);
    let below = sums.side(bend, back).below(best);
    !giving.intersection(below).is_empty()
}
