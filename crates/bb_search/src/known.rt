//! What is known of the actions at a set of folded bends.
ghost use Rattle.std.specs.Prelude.{◌≡◌, false};
ghost use Rattle.brake_base.specs.Actions.{IsActionAmong};
ghost use Rattle.bb_search.specs.KnownActions.{KnowsNothing, IsRefusal, IsLearnt};

use action_lanes::ActionCosts;
use brake_base::Action;
use stage_lanes::{ActionSet, BLOCKED};

/// What is known of the actions at a set of folded bends. It grows: what is known of an action
/// stays.
#[derive(Clone, Copy, Debug)]
pub struct KnownActions {
    /// Those of which it is known that a reason refuses them, or what the worth of their next key
    /// is.
    pub known: ActionSet,
    /// Those of them that a reason refuses.
    pub refused: ActionSet,
    /// How much the worth of an action's next key is above that key's bound, in tenths of a second;
    /// [`BLOCKED`] where there is no way on or where that isn't known.
    pub slack: ActionCosts,
}

impl KnownActions {
    /// Nothing is known.
    pub fn none() -> KnownActions
        ensures { KnowsNothing result }
    {
        KnownActions {
            known: ActionSet::empty(),
            refused: ActionSet::empty(),
            slack: ActionCosts::all(BLOCKED),
        }
    }

    /// A reason refuses an action, of which nothing was known.
    pub fn refuse(&mut self, action: Action)
        requires action { IsActionAmong 12 8 action }
        ensures { IsRefusal action self.old self.new }
    {
        self.known = self.known.with(action);
        self.refused = self.refused.with(action);
    }

    /// The worth of an action's next key is so much above that key's bound.
    pub fn learn(&mut self, action: Action, slack: u32)
        requires action { IsActionAmong 12 8 action }
        ensures { IsLearnt action slack self.old self.new }
    {
        self.known = self.known.with(action);
        self.slack.set_cost(action, slack);
    }
}
