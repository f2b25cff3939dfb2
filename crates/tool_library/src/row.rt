//! The rows of a tools file: its allow rows, punches, dies and load rows, each read from a table.
ghost use Rattle.std.specs.Prelude.{◌≡◌, ℕ, ◌+◌, ◌≤◌, Result, length, map, All, IfOk};
ghost use Rattle.toml.specs.Data.{Members};
ghost use Rattle.toml.specs.View.{view, table_view};
ghost use Rattle.toml_fields.specs.Results.{Gives, GivesOr, each_from};
ghost use Rattle.tool_library.specs.declared.fault.ToolFault.{ToolFault};
ghost use Rattle.tool_library.specs.ToolsFile.{of_table};

use crate::fault::ToolFault;
use std::alloc::Global;
use toml::{Table, Value};

/// A refusal of a key.
pub fn bad_field(table: u16, key: u8) -> ToolFault
    ensures { result ≡ ToolFault.BadField table key }
{
    ToolFault::BadField { table, key }
}

/// A row of one of the four arrays of a tools file.
pub trait Row: Sized {
    /// The number of the array's key.
    const KEY: u8;

    ghost KEY: { ℕ };

    // what contracts see of a row, what a table gives, and the rules of the file
    ghost View: { Type 0 };

    ghost view_of: { Self → View };

    ghost row_of: { ℕ → Members → Result View ToolFault };

    ghost IsRow: { View → Type 0 };

    /// The row of a table, which has this number.
    fn from_table(number: u16, table: &Table) -> Result<Self, ToolFault>
        ensures value { Gives Self.view_of result (Self.row_of number (table_view table.now)) }
        ensures fit { IfOk result (λ row. Self.IsRow (Self.view_of row)) };
}

/// The row of an item, whose table has this number.
fn row_at<R: Row>(number: u16, item: &Value) -> Result<R, ToolFault>
    ensures value { Gives R.view_of result (of_table R.KEY R.row_of number (view item.now)) }
    ensures fit { IfOk result (λ row. R.IsRow (R.view_of row)) }
{
    match item.as_table() {
        Some(table) => R::from_table(number, table),
        None => Err(bad_field(0, R::KEY)),
    }
}

/// The rows of the items, whose tables are numbered from `first` on.
pub fn rows_of<R: Row + Drop>(
    alloc: Global,
    first: u16,
    items: &[Value],
) -> Result<Vec<R>, ToolFault>
    requires { first + length items.now ≤ 1000 }
    ensures value { GivesOr ToolFault.NoMemory (λ rows. map R.view_of rows.items) result
        (each_from (of_table R.KEY R.row_of) first (map view items.now)) }
    ensures fit { IfOk result (λ rows. All R.IsRow (map R.view_of rows.items)) }
    ensures count { IfOk result (λ rows. length rows.items ≡ length items.now) }
{
    let mut rows = Vec::new(alloc);
    for (i, item) in items.iter().enumerate() {
        let row = row_at(first + i as u16, item)?;
        if rows.push(row).is_err() {
            return Err(ToolFault::NoMemory);
        }
    }
    Ok(rows)
}
