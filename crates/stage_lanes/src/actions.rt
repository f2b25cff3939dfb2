//! Sets of actions.
ghost use Rattle.std.specs.Prelude.{◌≡◌, ◌↔◌, ℕ, ◌+◌, ◌*◌, ◌/◌, ◌%◌, ◌<◌, ◌≤◌, ◌==◌, ◌&&◌, ◌||◌, not, nat_lt, IsTrue, IfSome, IfNone, All, map, length, slice_index};
ghost use Rattle.std.specs.Int.{bit_at};
ghost use Rattle.brake_base.specs.Actions.{IsActionAmong};
ghost use Rattle.brake_base.specs.Masks;
ghost use Rattle.stage_lanes.specs.Stages;
ghost use Rattle.stage_lanes.specs.Stages.{AreStages};
ghost use Rattle.stage_lanes.specs.ActionSets.{place_of, side_of, has_place, has, ArePlaces, IsNone, IsFirst, places_of};

use crate::stages::StageSet;
use arrayvec::ArrayVec;
use brake_base::{Action, Back, Mask};

/// A set of actions of the bends 1 to 12 and the stages 0 to 7. An action's place is its number on
/// a machine of eight stages, and bit `place % 64` of word `place / 64` is set where it is in the
/// set. So a bend with one side at the back has eight places in a row, one for each stage, in one
/// word.
#[derive(Clone, Copy, Debug, PartialEq, Eq)]
pub struct ActionSet {
    pub words: [u64; 3],
}

impl ActionSet {
    /// The set of no action.
    pub fn empty() -> ActionSet
        ensures value { IsNone result }
    {
        ActionSet { words: [0; 3] }
    }

    /// Whether the action is in the set.
    pub fn contains(self, action: Action) -> bool
        requires { IsActionAmong 12 8 action }
        ensures { result ≡ has self action }
    {
        self.has(place(action))
    }

    /// The set and the action.
    pub fn with(self, action: Action) -> ActionSet
        requires { IsActionAmong 12 8 action }
        ensures places { ArePlaces result
            (λ place. has_place self place || place == place_of action) }
    {
        let place = place(action);
        let mut words = self.words;
        let word = usize::from(place / 64);
        words[word] = words[word] | (1 << (place % 64));
        ActionSet { words }
    }

    /// The set but for the action.
    pub fn except(self, action: Action) -> ActionSet
        requires { IsActionAmong 12 8 action }
        ensures places { ArePlaces result (λ place. has_place self place
            && not (place == place_of action)) }
    {
        let place = place(action);
        let mut words = self.words;
        let word = usize::from(place / 64);
        words[word] = words[word] & !(1 << (place % 64));
        ActionSet { words }
    }

    /// The set and the actions of a bend with this side at the back, at these stages.
    pub fn with_stages(self, bend: u8, back: Back, stages: StageSet) -> ActionSet
        requires first { 1 ≤ bend }
        requires last { bend ≤ 12 }
        ensures places { ArePlaces result (λ place. has_place self place
            || (place / 8 == side_of bend back && Stages.has stages (place % 8))) }
    {
        let side = side(bend, back);
        let mut words = self.words;
        let word = usize::from(side / 8);
        words[word] = words[word] | (u64::from(stages.0) << (8 * (side % 8)));
        ActionSet { words }
    }

    /// The stages of the set's actions of a bend with this side at the back.
    pub fn stages(self, bend: u8, back: Back) -> StageSet
        requires first { 1 ≤ bend }
        requires last { bend ≤ 12 }
        ensures stages { AreStages result
            (λ stage. has_place self (8 * side_of bend back + stage)) }
    {
        self.stages_at(side(bend, back))
    }

    /// The stages of the set's actions at a side, a bend's place with one side at the back among the
    /// 24: those of the eight places from `8 * side` on.
    pub fn stages_at(self, side: u8) -> StageSet
        requires { side < 24 }
        ensures stages { AreStages result (λ stage. has_place self (8 * side + stage)) }
    {
        StageSet(((self.words[usize::from(side / 8)] >> (8 * (side % 8))) & 255) as u8)
    }

    /// The actions of one set or the other.
    pub fn union(self, other: ActionSet) -> ActionSet
        ensures places { ArePlaces result (λ place. has_place self place || has_place other place) }
    {
        let (a, b) = (self.words, other.words);
        ActionSet {
            words: [a[0] | b[0], a[1] | b[1], a[2] | b[2]],
        }
    }

    /// The actions of both sets.
    pub fn intersection(self, other: ActionSet) -> ActionSet
        ensures places { ArePlaces result (λ place. has_place self place && has_place other place) }
    {
        let (a, b) = (self.words, other.words);
        ActionSet {
            words: [a[0] & b[0], a[1] & b[1], a[2] & b[2]],
        }
    }

    /// The actions of this set that aren't in the other.
    pub fn without(self, other: ActionSet) -> ActionSet
        ensures places { ArePlaces result (λ place. has_place self place
            && not (has_place other place)) }
    {
        let (a, b) = (self.words, other.words);
        ActionSet {
            words: [a[0] & !b[0], a[1] & !b[1], a[2] & !b[2]],
        }
    }

    /// Whether the set has no action.
    pub fn is_empty(self) -> bool
        ensures { IsTrue result ↔ IsNone self }
    {
        let words = self.words;
        words[0] | words[1] | words[2] == 0
    }

    /// The first action of the set in the order of their numbers, on a machine of any stages. None
    /// exactly where the set is empty.
    pub fn first(self) -> Option<Action>
        ensures some { IfSome result (IsFirst self) }
        ensures none { IfNone result (IsNone self) }
    {
        let words = self.words;
        if words[0] != 0 {
            return Some(action_at(words[0].trailing_zeros() as u8));
        }
        if words[1] != 0 {
            return Some(action_at(64 + words[1].trailing_zeros() as u8));
        }
        if words[2] != 0 {
            return Some(action_at(128 + words[2].trailing_zeros() as u8));
        }
        None
    }

    /// The actions of the set in the order of their numbers.
    pub fn actions(self) -> ArrayVec<Action, 192>
        ensures places { map place_of result.items ≡ places_of self }
        ensures actions { All (IsActionAmong 12 8) result.items }
    {
        let mut actions = ArrayVec::new();
        for place in 0..192u8 {
            if self.has(place) {
                actions.push(action_at(place));
            }
        }
        actions
    }

    /// All actions of these bends at these stages.
    pub fn of_bends(bends: Mask, stages: StageSet) -> ActionSet
        ensures places { ArePlaces result (λ place. Masks.has bends (place / 16 + 1)
            && Stages.has stages (place % 8)) }
    {
        let mut set = ActionSet::empty();
        for bend in 1..13u8 {
            if bends.contains(bend) {
                set = set
                    .with_stages(bend, Back::Parent, stages)
                    .with_stages(bend, Back::Child, stages);
            }
        }
        set
    }

    /// All actions before this one.
    pub fn before(action: Action) -> ActionSet
        requires { IsActionAmong 12 8 action }
        ensures places { ArePlaces result (λ place. nat_lt place (place_of action)) }
    {
        let end = place(action);
        ActionSet {
            words: [
                ones_before(0, end),
                ones_before(1, end),
                ones_before(2, end),
            ],
        }
    }
    /// Whether the action at a place is in the set.
    fn has(self, place: u8) -> bool
        requires { place < 192 }
        ensures { result ≡ has_place self place }
    {
        (self.words[usize::from(place / 64)] >> (place % 64)) & 1 == 1
    }
}

/// The place of a bend with this side at the back among the 24, that of its actions in eights.
pub fn side(bend: u8, back: Back) -> u8
    requires first { 1 ≤ bend }
    requires last { bend ≤ 12 }
    ensures value { result ≡ side_of bend back }
    ensures below { result < 24 }
{
    let back = match back {
        Back::Parent => 0,
        Back::Child => 1,
    };
    (bend - 1) * 2 + back
}

/// The place of an action in sets.
pub fn place(action: Action) -> u8
    requires { IsActionAmong 12 8 action }
    ensures value { result ≡ place_of action }
    ensures below { result < 192 }
{
    side(action.bend, action.back) * 8 + action.stage
}

/// The action at a place.
fn action_at(place: u8) -> Action
    requires { place < 192 }
    ensures action { IsActionAmong 12 8 result }
    ensures value { place_of result ≡ place }
{
    let side = place / 8;
    Action {
        bend: side / 2 + 1,
        back: if side % 2 == 0 {
            Back::Parent
        } else {
            Back::Child
        },
        stage: place % 8,
    }
}

/// The bits of a word whose places are before the end.
fn ones_before(word: u8, end: u8) -> u64
    requires { word < 3 }
    ensures bits { (bit : ℕ) → bit < 64
        → (bit_at result bit == 1) ≡ nat_lt (64 * word + bit) end }
{
    let start = 64 * word;
    if end <= start {
        0
    } else if end - start >= 64 {
        u64::MAX
    } else {
        (1 << (end - start)) - 1
    }
}
