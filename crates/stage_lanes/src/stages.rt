//! Sets of stages.
ghost use Rattle.std.specs.Prelude.{◌≡◌, ◌↔◌, ℕ, ◌<◌, ◌≤◌, nat_lt, ◌&&◌, false, IsTrue};
ghost use Rattle.stage_lanes.specs.Stages.{has, AreStages};

/// A set of the stages 0 to 7: bit `stage` is set where the stage is in the set.
#[derive(Clone, Copy, Debug, Default, PartialEq, Eq)]
pub struct StageSet(pub u8);

impl StageSet {
    /// The first so many stages.
    pub fn first(count: u8) -> StageSet
        requires { count ≤ 8 }
        ensures stages { AreStages result (λ stage. nat_lt stage count) }
    {
        StageSet(((1u16 << count) - 1) as u8)
    }

    /// Whether the stage is in the set.
    pub fn contains(self, stage: u8) -> bool
        requires { stage < 8 }
        ensures { result ≡ has self stage }
    {
        (self.0 >> stage) & 1 == 1
    }

    /// The stages of both sets.
    pub fn intersection(self, other: StageSet) -> StageSet
        ensures stages { AreStages result (λ stage. has self stage && has other stage) }
    {
        StageSet(self.0 & other.0)
    }

    /// Whether the set has no stage.
    pub fn is_empty(self) -> bool
        ensures { IsTrue result ↔ AreStages self (λ stage. false) }
    {
        self.0 == 0
    }
}
