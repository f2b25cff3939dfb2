//! A row of a pool, in 40 bytes.
ghost use Rattle.std.specs.Prelude.{◌≡◌, Some, None};
ghost use Rattle.row_pool.specs.Worths.{worth_of};
ghost use Rattle.stage_lanes.specs.ActionSets.{IsNone};

use brake_base::{Key, Worth};
use stage_lanes::ActionSet;
use std::mem::size_of;

/// What was found of the worth of a row.
#[derive(Clone, Copy)]
pub enum Found {
    Nothing,
    Cost,
    Blocked,
}

/// A key, what is left to pay from it in tenths of a second, where that was found, and the actions
/// for which it has the reason that is common to all rows with its set of folded bends.
#[derive(Clone, Copy)]
pub struct Row {
    pub key: Key,
    pub found: Found,
    /// The cost, where one was found. An `Option<Worth>` in place of both would take 24 bytes.
    pub cost: u64,
    pub notes: ActionSet,
}

const _: () = prove!(size_of::<Row>() == 40);

impl Row {
    /// The worth, if one was found.
    pub fn worth(&self) -> Option<Worth>
        ensures worth { result ≡ worth_of self.now }
    {
        match self.found {
            Found::Nothing => None,
            Found::Cost => Some(Worth::Cost(self.cost)),
            Found::Blocked => Some(Worth::Blocked),
        }
    }

    /// Sets the worth, and leaves all else.
    pub fn set_worth(&mut self, worth: Worth)
        ensures worth { worth_of self.new ≡ Some worth }
        ensures key { self.new.key ≡ self.old.key }
        ensures notes { self.new.notes ≡ self.old.notes }
    {
        match worth {
            Worth::Cost(cost) => {
                self.found = Found::Cost;
                self.cost = cost;
            }
            Worth::Blocked => self.found = Found::Blocked,
        }
    }
}
