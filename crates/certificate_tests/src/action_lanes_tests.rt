//! Costs of two bends.

ghost use Rattle.std.specs.Prelude.{◌<◌, ◌≤◌};
ghost use Rattle.brake_base.specs.Actions.{IsActionAmong};

use crate::asserts::assert_equal;
use action_lanes::ActionCosts;
use brake_base::{Action, Back, Mask};
use stage_lanes::{ActionSet, BLOCKED, StageCosts};

/// The action of bend 2 or 3 with the parent at the back.
fn action(bend: u8, stage: u8) -> Action
    requires first { 2 ≤ bend }
    requires last { bend ≤ 3 }
    requires stage { stage < 8 }
    ensures { IsActionAmong 12 8 result }
{
    Action {
        bend,
        back: Back::Parent,
        stage,
    }
}

/// The bends 2 and 3.
fn leads() -> Mask {
    Mask::empty().with(2).with(3)
}

/// Sums at two stages of bend 2, and at one of bend 3.
fn sums() -> ActionCosts {
    let mut sums = ActionCosts::all(BLOCKED);
    sums.set_side(2, Back::Parent, StageCosts::of(&[40, 50]));
    sums.set_cost(action(3, 1), 50);
    sums
}

#[test]
fn costs_of_actions(rt: HostRuntime) {
    let sums = sums();
    assert_equal(&rt, &sums.cost(action(2, 1)), &50);
    assert_equal(&rt, &sums.side(3, Back::Parent).least(), &50);
    assert_equal(&rt, &sums.least(leads()), &40);
    assert_equal(&rt, &sums.least(Mask::empty().with(1)), &BLOCKED);
    let both = ActionSet::empty().with(action(2, 1)).with(action(3, 1));
    assert_equal(&rt, &sums.equal(leads(), 50), &both);
    assert_equal(&rt, &sums.only(both).least(leads()), &50);
    assert_equal(&rt, &sums.only(both).equal(leads(), 50), &both);
    assert_equal(&rt, &sums.only(ActionSet::empty()).least(leads()), &BLOCKED);
    assert_equal(
        &rt,
        &sums.below(leads(), 50),
        &ActionSet::empty().with(action(2, 0)),
    );
    assert_equal(
        &rt,
        &sums.below(Mask::empty().with(3), 50).is_empty(),
        &true,
    );
}
