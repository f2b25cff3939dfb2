//! The first choice of pieces.
ghost use Rattle.std.specs.Prelude.{◌≡◌, ◌≤◌, ◌<◌, ◌+◌, ℤ, pos, ◌<ℤ◌, ◌≤ℤ◌, ◌++◌, ◌∷◌, [], length, drop, slice_index_or, option_map, None, All, IsFalse};
ghost use Rattle.tool_library.specs.Tools.{tools_data, IsTools};
ghost use Rattle.piece_pick.specs.Choice.{lists_of, IsWant, IsPick};
ghost use Rattle.piece_pick.specs.Search.{shorter, IsSupply, HasNoFill, IsPart, IsAsked, IsState, Begins, GoesOn, HasNone, Finds};

use crate::divisor::may_divide;
use crate::grid::has_pieces_off;
use crate::piece_search::PieceSearch;
use crate::stock_length::is_stock_enough;
use crate::supply::{Supply, supply_for};
use crate::want::{MOST_PIECES, Picked, Pieces, Want};
use tool_library::Tools;

/// A copy of the pieces.
fn copy_of(pieces: &Pieces) -> Pieces
    ensures { result.items ≡ pieces.now.items }
{
    let mut copy = Pieces::new();
    let _ = copy.try_extend_from_slice(pieces.as_slice());
    copy
}

/// Whether pieces of the supply may make up the want's length. Where it is false, none do.
fn may_be_served(want: &Want, supply: Supply) -> bool
    requires supply { IsSupply supply.items }
    requires long { pos 0 ≤ℤ want.now.length }
    ensures { IsFalse result → HasNoFill supply.items want.now.length 32 }
{
    if !may_divide(supply.as_slice(), &want.length) {
        return false;
    }
    let mut search = PieceSearch::new(want, supply);
    search.may_make_up(0, &want.length, MOST_PIECES)
}

/// Whether each of the wants without pieces can be served by itself from what is left. Where one
/// can't, no choice begins with what is picked.
fn is_each_served(tools: &Tools, wants: &[Want], picked: &[Pieces]) -> bool
    requires asked { IsAsked (tools_data tools.now) wants.now }
    requires within { length picked.now ≤ length wants.now }
    ensures { IsFalse result
        → HasNone (tools_data tools.now) wants.now (Begins (lists_of picked.now)) }
{
    for i in picked.len()..wants.len() {
        let want = &wants[i];
        let supply = supply_for(tools, wants, picked, want);
        if !has_pieces_off(&wants[i..], want, supply.as_slice()) {
            return false;
        }
        if !may_be_served(want, supply) {
            return false;
        }
    }
    true
}

/// Picks the pieces of the wants that have none: the first choice that begins with those that are
/// picked. False where there is none; then nothing is picked.
#[cycle(picking)]
fn pick_rest(tools: &Tools, wants: &[Want], picked: &mut Picked) -> bool
    requires asked { IsAsked (tools_data tools.now) wants.now }
    requires within { length picked.old.items ≤ length wants.now }
    requires part { IsPart (tools_data tools.now) wants.now (lists_of picked.old.items) }
    ensures { Finds (tools_data tools.now) wants.now (Begins (lists_of picked.old.items))
        (lists_of picked.old.items) result (lists_of picked.new.items) }
{
    let served = picked.len();
    if served == wants.len() {
        return true;
    }
    if !is_each_served(tools, wants, picked.as_slice()) {
        return false;
    }
    let want = &wants[served];
    let supply = supply_for(tools, wants, picked.as_slice(), want);
    let mut search = PieceSearch::new(want, supply);
    make_up(tools, wants, picked, &mut search, 0, &want.length)
}

/// The same, where the next want has some of its pieces: the first choice in which it goes on with
/// pieces of its supply from a place on, which make up the rest.
#[cycle(picking)]
fn make_up(
    tools: &Tools,
    wants: &[Want],
    picked: &mut Picked,
    search: &mut PieceSearch,
    from: usize,
    rest: &i64,
) -> bool
    requires state { IsState (tools_data tools.now) wants.now (lists_of picked.old.items)
        search.old.want search.old.supply.items search.old.pieces.items from rest.now }
    ensures found { Finds (tools_data tools.now) wants.now
        (GoesOn (lists_of picked.old.items) search.old.pieces.items
        (drop from search.old.supply.items))
        (lists_of picked.old.items) result (lists_of picked.new.items) }
    ensures same_want { IsFalse result → search.new.want ≡ search.old.want }
    ensures same_supply { IsFalse result → search.new.supply.items ≡ search.old.supply.items }
    ensures same_pieces { IsFalse result → search.new.pieces.items ≡ search.old.pieces.items }
{
    let room = search.room();
    if *rest == 0 {
        return finish(tools, wants, picked, search);
    }
    if !search.may_make_up(from, rest, room) {
        return false;
    }
    if take_next(tools, wants, picked, search, from, rest) {
        return true;
    }
    leave_length(tools, wants, picked, search, from, rest)
}

/// The same, where the want takes the piece at that place.
#[cycle(picking)]
fn take_next(
    tools: &Tools,
    wants: &[Want],
    picked: &mut Picked,
    search: &mut PieceSearch,
    from: usize,
    rest: &i64,
) -> bool
    requires state { IsState (tools_data tools.now) wants.now (lists_of picked.old.items)
        search.old.want search.old.supply.items search.old.pieces.items from rest.now }
    requires from { from < length search.old.supply.items }
    requires room { length search.old.pieces.items < 32 }
    ensures found { (piece : ℤ) → slice_index_or search.old.supply.items from piece ≡ piece
        → Finds (tools_data tools.now) wants.now
        (GoesOn (lists_of picked.old.items) (search.old.pieces.items ++ piece ∷ [])
        (drop (from + 1) search.old.supply.items))
        (lists_of picked.old.items) result (lists_of picked.new.items) }
    ensures same_want { IsFalse result → search.new.want ≡ search.old.want }
    ensures same_supply { IsFalse result → search.new.supply.items ≡ search.old.supply.items }
    ensures same_pieces { IsFalse result → search.new.pieces.items ≡ search.old.pieces.items }
{
    let piece = search.supply[from];
    if piece > *rest {
        return false;
    }
    search.pieces.push(piece);
    let left = *rest - piece;
    if make_up(tools, wants, picked, search, from + 1, &left) {
        return true;
    }
    search.pieces.pop();
    false
}

/// The same, where the want takes no piece of the length at that place.
#[cycle(picking)]
fn leave_length(
    tools: &Tools,
    wants: &[Want],
    picked: &mut Picked,
    search: &mut PieceSearch,
    from: usize,
    rest: &i64,
) -> bool
    requires state { IsState (tools_data tools.now) wants.now (lists_of picked.old.items)
        search.old.want search.old.supply.items search.old.pieces.items from rest.now }
    requires from { from < length search.old.supply.items }
    ensures found { (piece : ℤ) → slice_index_or search.old.supply.items from piece ≡ piece
        → Finds (tools_data tools.now) wants.now
        (GoesOn (lists_of picked.old.items) search.old.pieces.items
        (shorter piece (drop (from + 1) search.old.supply.items)))
        (lists_of picked.old.items) result (lists_of picked.new.items) }
    ensures same_want { IsFalse result → search.new.want ≡ search.old.want }
    ensures same_supply { IsFalse result → search.new.supply.items ≡ search.old.supply.items }
    ensures same_pieces { IsFalse result → search.new.pieces.items ≡ search.old.pieces.items }
{
    let next = search.after(from);
    make_up(tools, wants, picked, search, next, rest)
}

/// The same, where the want has all its pieces.
#[cycle(picking)]
fn finish(tools: &Tools, wants: &[Want], picked: &mut Picked, search: &PieceSearch) -> bool
    requires asked { IsAsked (tools_data tools.now) wants.now }
    requires within { length picked.old.items < length wants.now }
    requires part { IsPart (tools_data tools.now) wants.now
        (lists_of picked.old.items ++ search.now.pieces.items ∷ []) }
    ensures { Finds (tools_data tools.now) wants.now
        (Begins (lists_of picked.old.items ++ search.now.pieces.items ∷ []))
        (lists_of picked.old.items) result (lists_of picked.new.items) }
{
    picked.push(copy_of(&search.pieces));
    if pick_rest(tools, wants, picked) {
        return true;
    }
    picked.pop();
    false
}

/// Whether there is a choice for the wants.
fn has_choice(tools: &Tools, wants: &[Want]) -> bool
    requires asked { IsAsked (tools_data tools.now) wants.now }
    ensures { IsFalse result → IsPick (tools_data tools.now) wants.now None }
{
    let mut picked = Picked::new();
    pick_rest(tools, wants, &mut picked)
}

/// Whether there is a choice for the wants from a place on. Where there is none, there is none for
/// all.
fn has_end(tools: &Tools, wants: &[Want], from: usize) -> bool
    requires asked { IsAsked (tools_data tools.now) wants.now }
    requires from { from ≤ length wants.now }
    ensures { IsFalse result → IsPick (tools_data tools.now) wants.now None }
{
    has_choice(tools, &wants[from..])
}

/// Whether there is a choice for the last want, for the last two, and so on up to all but the
/// first.
fn has_each_end(tools: &Tools, wants: &[Want]) -> bool
    requires asked { IsAsked (tools_data tools.now) wants.now }
    ensures { IsFalse result → IsPick (tools_data tools.now) wants.now None }
{
    for count in 1..wants.len() {
        let from = wants.len() - count;
        if !has_end(tools, wants, from) {
            return false;
        }
    }
    true
}

/// The first choice of pieces for the wants, in the order of choices; None exactly where there is
/// none. It takes no memory.
pub fn pick(tools: &Tools, wants: &[Want]) -> Option<Picked>
    requires tools { IsTools (tools_data tools.now) }
    requires few { length wants.now ≤ 6 }
    requires wants { All (IsWant (tools_data tools.now)) wants.now }
    ensures { IsPick (tools_data tools.now) wants.now
        (option_map (λ picked. lists_of picked.items) result) }
{
    if !is_stock_enough(tools, wants) {
        return None;
    }
    if !has_each_end(tools, wants) {
        return None;
    }
    let mut picked = Picked::new();
    if pick_rest(tools, wants, &mut picked) {
        Some(picked)
    } else {
        None
    }
}
