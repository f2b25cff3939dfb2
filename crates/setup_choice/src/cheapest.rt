//! The cheapest of the setups that were tried.
ghost use Rattle.std.specs.Prelude.{◌≡◌, ◌≤◌, ◌+◌, length, List, Some};
ghost use Rattle.std.specs.List.{slice_get};
ghost use Rattle.setup_choice.specs.Best.{IsBest, IsCheapestOf};

use brake_base::Worth;

/// What was found of a setup: that the stock has no choice of pieces for it, or the least cost of
/// its plans, in tenths of a second; Blocked where it has none.
#[derive(Clone, Copy, Debug, PartialEq, Eq)]
pub enum Tried {
    Short,
    Planned(Worth),
}

/// A setup that has a plan, by its place, and the least cost of its plans.
#[derive(Clone, Copy, Debug)]
struct Cheapest {
    place: u8,
    cost: u64,
}

/// The setup of this place, where it has a plan and the cheapest before it costs more or there is
/// none; else the cheapest before it.
fn cheaper(before: Option<Cheapest>, place: u8, tried: &Tried) -> Option<Cheapest>
    ensures { (all : List Tried) → slice_get all place ≡ Some tried.now
        → IsCheapestOf all place before → IsCheapestOf all (place + 1) result }
{
    match tried {
        Tried::Planned(Worth::Cost(cost)) => match before {
            Some(cheapest) if cheapest.cost <= *cost => before,
            _ => Some(Cheapest { place, cost: *cost }),
        },
        _ => before,
    }
}

/// The cheapest of the setups that were tried, the first of them where several cost as little.
fn least_of(tried: &[Tried]) -> Option<Cheapest>
    requires { length tried.now ≤ 16 }
    ensures { IsCheapestOf tried.now (length tried.now) result }
{
    let mut least = None;
    for (place, one) in tried.iter().enumerate() {
        least = cheaper(least, place as u8, one);
    }
    least
}

/// The first place of least cost; None exactly where no setup has a plan, since each is Short or
/// Blocked.
pub fn best(tried: &[Tried]) -> Option<u8>
    requires { length tried.now ≤ 16 }
    ensures { IsBest tried.now result }
{
    match least_of(tried) {
        Some(least) => Some(least.place),
        None => None,
    }
}
