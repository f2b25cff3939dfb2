//! The width of a die's opening.
ghost use Rattle.std.specs.Prelude.{◌≡◌, ◌↔◌, IfSome, IsTrue};
ghost use Rattle.toml.specs.View.{table_view};
ghost use Rattle.tool_library.specs.Tools.{IsOpening};
ghost use Rattle.tool_library.specs.ToolsFile.{is_opening, opening_at};

use crate::bounds::{GREATEST_OPENING, LEAST_OPENING};
use toml::Table;
use toml_fields::{is_within, whole_at};

/// Whether the width of an opening is even and in range.
pub fn is_opening(v: i64) -> bool
    ensures value { result ≡ is_opening v }
    ensures exact { IsTrue result ↔ IsOpening v }
{
    is_within(v, LEAST_OPENING, GREATEST_OPENING) && v % 2 == 0
}

/// The width of an opening at a table's key.
pub fn opening_at(table: &Table, key: &str) -> Option<i64>
    ensures value { result ≡ opening_at key.now (table_view table.now) }
    ensures fit { IfSome result IsOpening }
{
    match whole_at(table, key) {
        Some(v) if is_opening(v) => Some(v),
        _ => None,
    }
}
