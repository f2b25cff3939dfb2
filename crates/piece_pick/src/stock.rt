//! What the stock still holds of a tool's pieces, after those of the wants before.
ghost use Rattle.std.specs.Prelude.{◌≡◌, ◌≤◌, ◌-◌, length, map};
ghost use Rattle.std.specs.List.{slice_get};
ghost use Rattle.tool_library.specs.Tools.{tools_data, punch_data, die_data};
ghost use Rattle.tool_library.specs.Stock.{punch_sections, die_sections};
ghost use Rattle.piece_pick.specs.Stock.{sections_of, is_of, taken_by, taken};
ghost use Rattle.piece_pick.specs.Choice.{lists_of};
ghost use Rattle.piece_pick.specs.Search.{left, left_for};

use crate::want::{MOST_PIECES, Pieces, Want};
use tool_library::stock::{count_of, held};
use tool_library::{Die, Punch, Tools};

/// A punch or a die, by its place among the tools.
#[derive(Clone, Copy, Debug)]
pub enum Tool {
    Punch(u8),
    Die(u8),
}

/// The lengths that the shop has of the punch at a place, and how often.
fn punch_sections(punches: &[Punch], place: u8) -> &[(i64, u16)]
    ensures value { result.now ≡ punch_sections (slice_get (map punch_data punches.now) place) }
    ensures few { length result.now ≤ 16 }
{
    match punches.get(usize::from(place)) {
        Some(punch) => punch.sections.as_slice(),
        None => &[],
    }
}

/// The lengths that the shop has of the die at a place, and how often.
fn die_sections(dies: &[Die], place: u8) -> &[(i64, u16)]
    ensures value { result.now ≡ die_sections (slice_get (map die_data dies.now) place) }
    ensures few { length result.now ≤ 16 }
{
    match dies.get(usize::from(place)) {
        Some(die) => die.sections.as_slice(),
        None => &[],
    }
}

/// The lengths that the shop has of the tool, and how often.
pub fn sections_of(tools: &Tools, tool: Tool) -> &[(i64, u16)]
    ensures value { result.now ≡ sections_of (tools_data tools.now) tool }
    ensures few { length result.now ≤ 16 }
{
    match tool {
        Tool::Punch(place) => punch_sections(&tools.punches, place),
        Tool::Die(place) => die_sections(&tools.dies, place),
    }
}

/// Whether the want is one of the tool's.
pub fn is_of(tool: Tool, want: &Want) -> bool
    ensures { result ≡ is_of tool want.now }
{
    match tool {
        Tool::Punch(place) => want.punch == place,
        Tool::Die(place) => want.die == place,
    }
}

/// How many pieces of this length a want's pieces take from the tool.
fn taken_by(tool: Tool, piece: &i64, want: &Want, pieces: &Pieces) -> usize
    ensures value { result ≡ taken_by tool piece.now want.now pieces.now.items }
    ensures few { result ≤ 32 }
{
    if is_of(tool, want) {
        count_of(pieces.as_slice(), piece)
    } else {
        0
    }
}

/// How many pieces of this length the wants that have pieces take from the tool.
fn taken(tool: Tool, piece: &i64, wants: &[Want], picked: &[Pieces]) -> usize
    requires few { length picked.now ≤ 6 }
    requires each { length picked.now ≤ length wants.now }
    ensures { result ≡ taken tool piece.now wants.now (lists_of picked.now) }
{
    let mut taken = 0;
    for (i, pieces) in picked.iter().enumerate() {
        taken += taken_by(tool, piece, &wants[i], pieces);
    }
    taken
}

/// How many pieces of this length the wants that have pieces leave of the tool.
fn left(tools: &Tools, wants: &[Want], picked: &[Pieces], tool: Tool, piece: &i64) -> usize
    requires few { length picked.now ≤ 6 }
    requires each { length picked.now ≤ length wants.now }
    ensures { result ≡ left (tools_data tools.now) wants.now
        (lists_of picked.now) tool piece.now }
{
    held(sections_of(tools, tool), piece).saturating_sub(taken(tool, piece, wants, picked))
}

/// How many of them they leave of both tools of a want, and one want may take.
pub fn left_for(tools: &Tools, wants: &[Want], picked: &[Pieces], want: &Want, piece: &i64) -> usize
    requires few { length picked.now ≤ 6 }
    requires each { length picked.now ≤ length wants.now }
    ensures { result ≡ left_for (tools_data tools.now) wants.now
        (lists_of picked.now) want.now piece.now }
{
    let of_punch = left(tools, wants, picked, Tool::Punch(want.punch), piece);
    let of_die = left(tools, wants, picked, Tool::Die(want.die), piece);
    of_punch.min(of_die).min(MOST_PIECES)
}
