//! The cheapest of tried setups.

use brake_base::Worth;
use setup_choice::{Tried, best};
use std::test::Fail;

const NONE: Tried = Tried::Planned(Worth::Blocked);

/// A setup whose plans cost at least this.
fn cost(cost: u64) -> Tried {
    Tried::Planned(Worth::Cost(cost))
}

#[test]
fn first_of_least_cost(rt: HostRuntime) -> Result<(), Fail> {
    assert!(rt; best(&[NONE, Tried::Short, cost(100)]) == Some(2));
    assert!(rt; best(&[cost(420), cost(100), Tried::Short, cost(100)]) == Some(1));
    assert!(rt; best(&[cost(100), cost(100)]) == Some(0));
    assert!(rt; best(&[cost(0), cost(0)]) == Some(0));
    assert!(rt; best(&[cost(3), cost(2), cost(1)]) == Some(2));
    Ok(())
}

#[test]
fn none_without_a_plan(rt: HostRuntime) -> Result<(), Fail> {
    assert!(rt; best(&[]).is_none());
    assert!(rt; best(&[Tried::Short, NONE, Tried::Short]).is_none());
    assert!(rt; best(&[Tried::Short; 16]).is_none());
    Ok(())
}

#[test]
fn all_places(rt: HostRuntime) -> Result<(), Fail> {
    let mut tried = [cost(7); 16];
    tried[15] = cost(6);
    assert!(rt; best(&tried) == Some(15));
    Ok(())
}
