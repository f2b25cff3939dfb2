//! How long the pieces that the shop has of a tool are together, and the wants that are made of
//! them.
ghost use Rattle.std.specs.Prelude.{◌≡◌, ◌≤◌, ◌<◌, ◌*◌, ◌^◌, length, None, All, IsFalse};
ghost use Rattle.tool_library.specs.Tools.{tools_data};
ghost use Rattle.piece_pick.specs.Stock.{sections_of, section_length, stock_length, needed_by, needed};
ghost use Rattle.piece_pick.specs.Choice.{IsPick};

use crate::stock::{Tool, is_of, sections_of};
use crate::want::Want;
use tool_library::Tools;

/// How long the pieces of the section are together.
fn section_length(section: &(i64, u16)) -> u128
    ensures value { result ≡ section_length section.now }
    ensures few { result ≤ 2 ^ 63 * 65535 }
{
    u128::from(section.0.unsigned_abs()) * u128::from(section.1)
}

/// How long the pieces of the sections are together.
fn stock_length(sections: &[(i64, u16)]) -> u128
    requires { length sections.now ≤ 16 }
    ensures { result ≡ stock_length sections.now }
{
    let mut total = 0;
    for section in sections {
        total += section_length(section);
    }
    total
}

/// How long the want's pieces of the tool are together.
fn needed_by(tool: Tool, want: &Want) -> u128
    ensures value { result ≡ needed_by tool want.now }
    ensures few { result ≤ 2 ^ 63 }
{
    if is_of(tool, want) {
        u128::from(want.length.unsigned_abs())
    } else {
        0
    }
}

/// How long the wants' pieces of the tool are together.
fn needed(tool: Tool, wants: &[Want]) -> u128
    requires { length wants.now ≤ 6 }
    ensures { result ≡ needed tool wants.now }
{
    let mut total = 0;
    for want in wants {
        total += needed_by(tool, want);
    }
    total
}

/// Whether the pieces that the shop has of the tool are as long together as the wants' pieces of
/// it. Where they aren't, there is no choice.
fn is_long_enough(tools: &Tools, wants: &[Want], tool: Tool) -> bool
    requires { length wants.now ≤ 6 }
    ensures { IsFalse result → IsPick (tools_data tools.now) wants.now None }
{
    needed(tool, wants) <= stock_length(sections_of(tools, tool))
}

/// The same of both tools of each want.
pub fn is_stock_enough(tools: &Tools, wants: &[Want]) -> bool
    requires { length wants.now ≤ 6 }
    ensures { IsFalse result → IsPick (tools_data tools.now) wants.now None }
{
    for want in wants {
        if !is_long_enough(tools, wants, Tool::Punch(want.punch)) {
            return false;
        }
        if !is_long_enough(tools, wants, Tool::Die(want.die)) {
            return false;
        }
    }
    true
}
