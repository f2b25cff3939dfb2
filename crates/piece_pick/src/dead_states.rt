//! States of the search for a want's pieces from which there are none, as many as a table of fixed
//! size keeps: a state takes the place of an older one that falls on the same.
ghost use Rattle.std.specs.Prelude.{◌≡◌, ℤ, pos, ◌≤ℤ◌, ◌<ℤ◌, ◌<◌, ◌≤◌, IsTrue, List, drop, length, All};
ghost use Rattle.piece_pick.specs.declared.dead_states.DeadState.{DeadState};
ghost use Rattle.piece_pick.specs.Search.{IsDead, HasNoFill};

/// The supply from a place on has no pieces, at most so many, that make up a rest above 0. Where
/// the rest is 0, nothing is said.
#[derive(Clone, Copy, Debug, Default)]
pub struct DeadState {
    pub from: usize,
    pub rest: i64,
    pub room: usize,
}

/// The place of a state in a table of so many.
fn place_of(from: usize, rest: &i64, places: usize) -> usize
    requires places { 0 < places }
    requires rest { pos 0 ≤ℤ rest.now }
    ensures { result < places }
{
    (*rest as usize).wrapping_mul(31).wrapping_add(from) % places
}

/// A table of dead states.
#[derive(Drop)]
pub struct DeadStates<const N: usize> {
    pub states: [DeadState; N],
}

impl<const N: usize> DeadStates<N> {
    /// Nothing is known.
    pub fn new() -> DeadStates<N>
        ensures { (supply : List ℤ) → All (IsDead supply) result.states }
    {
        DeadStates {
            states: [DeadState::default(); N],
        }
    }

    /// Whether the table says that the supply from this place on has no pieces, at most so many,
    /// that make up the rest.
    pub fn holds(&self, from: usize, rest: &i64, room: usize) -> bool
        requires some { 0 < N }
        requires rest { pos 0 <ℤ rest.now }
        ensures { IsTrue result → (supply : List ℤ) → All (IsDead supply) self.now.states
            → HasNoFill (drop from supply) rest.now room }
    {
        let state = &self.states[place_of(from, rest, N)];
        state.from == from && state.rest == *rest && room <= state.room
    }

    /// Notes that it has none.
    pub fn note(&mut self, from: usize, rest: &i64, room: usize)
        requires some { 0 < N }
        requires rest { pos 0 <ℤ rest.now }
        ensures { (supply : List ℤ) → All (IsDead supply) self.old.states
            → HasNoFill (drop from supply) rest.now room
            → All (IsDead supply) self.new.states }
    {
        self.states[place_of(from, rest, N)] = DeadState {
            from,
            rest: *rest,
            room,
        };
    }
}
