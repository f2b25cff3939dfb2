//! Which actions a search has to test at a key.
ghost use Rattle.std.specs.Prelude.{◌≡◌, ◌↔◌, ℕ, ◌+◌, ◌^◌, ◌<◌, ◌≤◌, ◌==◌, ◌&&◌, IsTrue, false};
ghost use Rattle.stage_lanes.specs.ActionSets.{has_place, ArePlaces};
ghost use Rattle.action_lanes.specs.Costs.{cost_at, sum_costs, is_of, IsLeastCost};
ghost use Rattle.action_lanes.specs.declared.costs.ActionCosts.{ActionCosts};
ghost use Rattle.action_lanes.specs.Tested.{IsTested, AreTested};

use crate::costs::ActionCosts;
use brake_base::Mask;
use stage_lanes::{ActionSet, BLOCKED};

/// The actions that have to be tested at a key where the best worth is this one, of those of the
/// bends that are leads there: they are tested by their sums, ties by number, until one leads to
/// plans that cost no more than the next one's sum. A plan by an action costs its sum and its slack.
///
/// No other action can give less than the worth, and none that is tested has a greater sum.
pub fn tested_by(sums: &ActionCosts, slack: &ActionCosts, leads: Mask, best: u32) -> ActionSet
    requires room { (place : ℕ) → place < 192 → IsTrue (is_of leads place)
        → cost_at sums.now place + cost_at slack.now place < 2 ^ 32 }
    requires best { IsLeastCost (sum_costs sums.now slack.now) leads best }
    ensures tested { (place : ℕ) → place < 192
        → IsTrue (has_place result place)
        ↔ IsTested leads sums.now (sum_costs sums.now slack.now) place }
    ensures rest { (place : ℕ) → place < 192 → IsTrue (is_of leads place)
        → has_place result place ≡ false → best ≤ cost_at sums.now place }
    ensures most { (place : ℕ) → place < 192 → IsTrue (has_place result place)
        → cost_at sums.now place ≤ best }
{
    let giving = sums.equal_sum(slack, leads, best);
    tested_until(sums, leads, best, giving)
}

/// The actions that have to be tested at a key, where these are the ones that give the best worth.
fn tested_until(sums: &ActionCosts, leads: Mask, best: u32, giving: ActionSet) -> ActionSet
    ensures { (known : ActionCosts)
        → ((place : ℕ) → place < 192 → IsTrue (is_of leads place)
        → cost_at sums.now place ≤ cost_at known place)
        → IsLeastCost known leads best
        → ArePlaces giving (λ place. is_of leads place && (cost_at known place == best))
        → AreTested leads sums.now known best result }
{
    let below = sums.below(leads, best);
    if best >= BLOCKED {
        return below;
    }
    if !giving.intersection(below).is_empty() {
        return below;
    }
    match giving.first() {
        Some(first) => {
            let until = ActionSet::before(first).with(first);
            below.union(sums.equal(leads, best).intersection(until))
        }
        None => below,
    }
}
