//! The search for the pieces of one want.
ghost use Rattle.std.specs.Prelude.{◌≡◌, ◌<◌, ◌≤◌, ◌+◌, ◌-◌, ◌⊎◌, ℤ, pos, ◌-ℤ◌, ◌<ℤ◌, ◌≤ℤ◌, [], length, take, drop, slice_index_or, All, IsTrue, IsFalse};
ghost use Rattle.piece_pick.specs.Choice.{total};
ghost use Rattle.piece_pick.specs.Search.{IsSupply, IsDead, HasNoFill, shorter};

use crate::dead_states::DeadStates;
use crate::supply::Supply;
use crate::want::{MOST_PIECES, Pieces, Want};

/// How many dead states are kept.
const PLACES: usize = 4093;

/// A want, the pieces that it may take and those that are taken of them, and what is known of the
/// states from which none make up its length.
#[derive(Drop)]
pub struct PieceSearch {
    pub want: Want,
    pub supply: Supply,
    pub pieces: Pieces,
    dead: DeadStates<PLACES>,
    ghost supply_is: { IsSupply supply.items },
    ghost dead_are: { All (IsDead supply.items) dead.states },
}

/// Whether the first pieces of the supply, at most so many, are as long together as the rest.
fn is_within_reach(supply: &[i64], rest: &i64, room: usize) -> bool
    requires long { All (λ piece. pos 1 ≤ℤ piece) supply.now }
    requires rest { pos 0 <ℤ rest.now }
    ensures short { IsFalse result → total (take room supply.now) <ℤ rest.now }
    ensures supply { IsTrue result → 0 < length supply.now }
    ensures room { IsTrue result → 0 < room }
{
    let mut left = *rest;
    for (i, piece) in supply.iter().enumerate() {
        if i == room {
            return false;
        }
        if *piece >= left {
            return true;
        }
        left -= *piece;
    }
    false
}

/// The place of the first piece of the supply, from a place on, that hasn't this length.
fn next_shorter(supply: &[i64], from: usize, piece: &i64) -> usize
    requires { from ≤ length supply.now }
    ensures value { drop result supply.now ≡ shorter piece.now (drop from supply.now) }
    ensures after { from ≤ result }
    ensures within { result ≤ length supply.now }
{
    let mut next = from;
    while next < supply.len() && supply[next] == *piece {
        next += 1;
    }
    next
}

impl PieceSearch {
    /// No piece is taken.
    pub fn new(want: &Want, supply: Supply) -> PieceSearch
        requires { IsSupply supply.items }
        ensures want { result.want ≡ want.now }
        ensures supply { result.supply.items ≡ supply.items }
        ensures pieces { result.pieces.items ≡ [] }
    {
        PieceSearch {
            want: *want,
            supply,
            pieces: Pieces::new(),
            dead: DeadStates::new(),
        }
    }

    /// How many more pieces the want may take.
    pub fn room(&self) -> usize
        ensures { length self.now.pieces.items + result ≡ 32 }
    {
        MOST_PIECES - self.pieces.len()
    }

    /// The place of the first piece after this one that is shorter.
    pub fn after(&self, from: usize) -> usize
        requires { from < length self.now.supply.items }
        ensures value { (piece : ℤ) → slice_index_or self.now.supply.items from piece ≡ piece
            → drop result self.now.supply.items
            ≡ shorter piece (drop (from + 1) self.now.supply.items) }
        ensures after { from < result }
        ensures within { result ≤ length self.now.supply.items }
    {
        let supply = self.supply.as_slice();
        next_shorter(supply, from + 1, &supply[from])
    }

    /// Whether at most so many pieces of the supply, from this place on, make up the rest.
    #[cycle(making_up)]
    pub fn may_make_up(&mut self, from: usize, rest: &i64, room: usize) -> bool
        requires from { from ≤ length self.old.supply.items }
        requires rest { pos 0 ≤ℤ rest.now }
        ensures none { IsFalse result → HasNoFill (drop from self.old.supply.items) rest.now room }
        ensures supply { IsTrue result → pos 0 <ℤ rest.now → from < length self.old.supply.items }
        ensures room { IsTrue result → pos 0 <ℤ rest.now → 0 < room }
        ensures same_want { self.new.want ≡ self.old.want }
        ensures same_supply { self.new.supply.items ≡ self.old.supply.items }
        ensures same_pieces { self.new.pieces.items ≡ self.old.pieces.items }
    {
        if *rest == 0 {
            return true;
        }
        if !is_within_reach(&self.supply.as_slice()[from..], rest, room) {
            return false;
        }
        if self.dead.holds(from, rest, room) {
            return false;
        }
        if self.may_go_on(from, rest, room) {
            return true;
        }
        self.dead.note(from, rest, room);
        false
    }

    /// The same of a rest above 0, with the first of them or without its length.
    #[cycle(making_up)]
    fn may_go_on(&mut self, from: usize, rest: &i64, room: usize) -> bool
        requires from { from < length self.old.supply.items }
        requires rest { pos 0 <ℤ rest.now }
        requires room { 0 < room }
        ensures none { IsFalse result → HasNoFill (drop from self.old.supply.items) rest.now room }
        ensures same_want { self.new.want ≡ self.old.want }
        ensures same_supply { self.new.supply.items ≡ self.old.supply.items }
        ensures same_pieces { self.new.pieces.items ≡ self.old.pieces.items }
    {
        if self.may_take(from, rest, room) {
            return true;
        }
        let next = self.after(from);
        self.may_make_up(next, rest, room)
    }

    /// The same, with the first of them.
    #[cycle(making_up)]
    fn may_take(&mut self, from: usize, rest: &i64, room: usize) -> bool
        requires from { from < length self.old.supply.items }
        requires rest { pos 0 <ℤ rest.now }
        requires room { 0 < room }
        ensures none { IsFalse result → (piece : ℤ)
            → slice_index_or self.old.supply.items from piece ≡ piece
            → (rest.now <ℤ piece)
            ⊎ HasNoFill (drop (from + 1) self.old.supply.items) (rest.now -ℤ piece) (room - 1) }
        ensures same_want { self.new.want ≡ self.old.want }
        ensures same_supply { self.new.supply.items ≡ self.old.supply.items }
        ensures same_pieces { self.new.pieces.items ≡ self.old.pieces.items }
    {
        let piece = self.supply[from];
        if piece > *rest {
            return false;
        }
        let left = *rest - piece;
        self.may_make_up(from + 1, &left, room - 1)
    }
}
