//! The lanes past the last stage, costs, sets and codes worked out by hand.

use crate::asserts::assert_equal;
use brake_base::{Action, Back, Mask, Quarter, Reason};
use stage_lanes::{ActionSet, BLOCKED, FREE, StageCodes, StageCosts, StageSet, code_of, reason_of};

fn costs() -> StageCosts {
    StageCosts::of(&[50, 20, 20, 70, 90, 60])
}

#[test]
fn lanes_past_the_last_stage_are_blocked(rt: HostRuntime) {
    assert_equal(&rt, &costs().0, &[50, 20, 20, 70, 90, 60, BLOCKED, BLOCKED]);
    assert_equal(&rt, &StageCosts::of(&[]).least(), &BLOCKED);
    assert_equal(&rt, &costs().below(BLOCKED), &StageSet::first(6));
}

#[test]
fn costs_by_stage(rt: HostRuntime) {
    let other = StageCosts([10, 90, 20, 0, 7, 7, 1, 2]);
    assert_equal(&rt, &costs().lesser(other).0, &[10, 20, 20, 0, 7, 7, 1, 2]);
    assert_equal(
        &rt,
        &costs().greater(other).0,
        &[50, 90, 20, 70, 90, 60, BLOCKED, BLOCKED],
    );
    assert_equal(
        &rt,
        &costs().with(7, 3).0,
        &[50, 20, 20, 70, 90, 60, BLOCKED, 3],
    );
    assert_equal(&rt, &costs().least(), &20);
    assert_equal(&rt, &costs().with(7, 3).least(), &3);
    assert_equal(&rt, &StageCosts::all(u32::MAX).least(), &u32::MAX);
    assert_equal(&rt, &costs().below(60), &StageSet(0b0000_0111));
    assert_equal(&rt, &costs().equal(20), &StageSet(0b0000_0110));
    assert_equal(&rt, &costs().cost(4), &90);
    let some = costs().only(StageSet(0b1000_0101), StageCosts::all(7));
    assert_equal(&rt, &some.0, &[50, 7, 20, 7, 7, 7, 7, BLOCKED]);
}

#[test]
fn sets_of_stages(rt: HostRuntime) {
    assert_equal(&rt, &StageSet::first(8), &StageSet(255));
    assert_equal(&rt, &StageSet::first(0).is_empty(), &true);
    assert_equal(
        &rt,
        &StageSet(0b0110_0001).intersection(StageSet::first(6)),
        &StageSet(0b0010_0001),
    );
    assert_equal(&rt, &StageSet(4).contains(2), &true);
    assert_equal(&rt, &StageSet(4).contains(1), &false);
}

#[test]
fn sets_of_actions(rt: HostRuntime) {
    let last = Action {
        bend: 12,
        back: Back::Child,
        stage: 7,
    };
    let fourth = Action {
        bend: 4,
        back: Back::Child,
        stage: 7,
    };
    let fifth = Action {
        bend: 5,
        back: Back::Parent,
        stage: 0,
    };
    let set = ActionSet::empty().with(last).with(fifth).with(fourth);
    assert_equal(&rt, &set.words, &[1 << 63, 1, 1 << 63]);
    assert_equal(&rt, &set.first(), &Some(fourth));
    assert_equal(&rt, &set.except(fourth).first(), &Some(fifth));
    assert_equal(&rt, &set.contains(last), &true);
    assert_equal(
        &rt,
        &set.without(ActionSet::before(last)).actions().as_slice(),
        &[last].as_slice(),
    );
    assert_equal(
        &rt,
        &set.actions().as_slice(),
        &[fourth, fifth, last].as_slice(),
    );
    assert_equal(&rt, &ActionSet::before(fifth).words, &[u64::MAX, 0, 0]);
    assert_equal(&rt, &ActionSet::before(last).contains(last), &false);
    assert_equal(&rt, &ActionSet::empty().first(), &None);
    assert_equal(&rt, &ActionSet::empty().is_empty(), &true);
}

#[test]
fn stages_of_a_bend(rt: HostRuntime) {
    let leads = Mask::empty().with(1).with(12);
    let set = ActionSet::of_bends(leads, StageSet::first(6));
    assert_equal(&rt, &set.words, &[0x3f3f, 0, 0x3f3f << 48]);
    assert_equal(&rt, &set.stages(12, Back::Child), &StageSet::first(6));
    assert_equal(&rt, &set.stages(11, Back::Child).is_empty(), &true);
    let some = ActionSet::empty().with_stages(12, Back::Child, StageSet(0b10_0001));
    assert_equal(&rt, &some.words, &[0, 0, 0x21 << 56]);
    assert_equal(&rt, &set.intersection(some), &some);
    assert_equal(&rt, &set.union(some), &set);
}

#[test]
fn codes_of_reasons(rt: HostRuntime) {
    let hit = Reason::Upper(24, Quarter::Q4, 63);
    assert_equal(&rt, &reason_of(code_of(hit)), &Some(hit));
    assert!(rt; code_of(Reason::Load) < code_of(Reason::NoGauge));
    assert!(rt; code_of(Reason::NoGauge) < FREE);
    let first = StageCodes::all(FREE)
        .with(2, code_of(hit))
        .with(3, code_of(Reason::Load));
    let second = StageCodes::all(FREE)
        .with(2, code_of(Reason::Cover))
        .with(3, code_of(hit));
    let earlier = first.lesser(second);
    assert_equal(&rt, &earlier.code(2), &code_of(Reason::Cover));
    assert_equal(&rt, &earlier.code(3), &code_of(hit));
    assert_equal(&rt, &earlier.code(4), &FREE);
    assert_equal(&rt, &earlier.equal(FREE), &StageSet(0b1111_0011));
}
