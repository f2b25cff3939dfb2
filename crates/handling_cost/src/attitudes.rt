//! What becomes of the part as its attitude changes, and what that costs.
ghost use Rattle.std.specs.Prelude.{◌≡◌, ◌≤◌};
ghost use Rattle.brake_base.specs.Turns.{turn_of};
ghost use Rattle.handling_cost.specs.StepCost.{change, kind_of_change, price_of};

use brake_base::Turn;
use machine_file::Costs;

/// What becomes of the part as its attitude changes.
#[derive(Clone, Copy, Debug, PartialEq, Eq)]
pub enum Change {
    /// It is held as before.
    Same,
    /// It makes a quarter turn about the vertical.
    Quarter,
    /// It makes a half turn about the vertical.
    Half,
    /// What pointed up points down.
    Flip,
    /// What pointed up points aside.
    Roll,
}

/// What becomes of the part from one attitude to another.
pub fn change_between(from: Turn, to: Turn) -> Change
    ensures { result ≡ kind_of_change (change from to) }
{
    change_of(from.inverse().then(to))
}

fn change_of(turn: Turn) -> Change
    ensures { result ≡ kind_of_change (turn_of turn) }
{
    match turn.number() {
        0 => Change::Same,
        2 => Change::Half,
        1 | 3 => Change::Quarter,
        _ => change_of_tilt(turn),
    }
}

/// What a turn is after which what pointed up doesn't.
fn change_of_tilt(turn: Turn) -> Change
    requires { 4 ≤ turn }
    ensures { result ≡ kind_of_change (turn_of turn) }
{
    if turn.number() < 8 {
        Change::Flip
    } else {
        Change::Roll
    }
}

/// What a change costs, in tenths of a second.
pub(crate) fn price_of(costs: &Costs, change: Change) -> u64
    ensures { result ≡ price_of costs.now change }
{
    match change {
        Change::Same => 0,
        Change::Quarter => costs.quarter,
        Change::Half => costs.half,
        Change::Flip => costs.flip,
        Change::Roll => costs.roll,
    }
}
