//! Why a tools file is refused.

use thiserror::Error;

/// Why a tools file is refused. Table 0 is the top table, and the allow rows, the punches, the
/// dies and the load rows are numbered from 1 in this order.
#[derive(Clone, Copy, Debug, PartialEq, Eq, Error)]
pub enum ToolFault {
    /// The bytes aren't a TOML document.
    #[error("not TOML")]
    NotToml,
    /// A key that is needed is missing, or its value has another type or range.
    #[error("table {table} has no valid value at key {key}")]
    BadField { table: u16, key: u8 },
    /// A table has a key that isn't listed for it.
    #[error("table {table} has an unknown key")]
    UnknownKey { table: u16 },
    /// A table has a list that is longer than its limit.
    #[error("table {table} has too many entries in a list")]
    TooMany { table: u16 },
    /// A punch or die has the name of an earlier one.
    #[error("table {table} has the name of an earlier tool")]
    SameName { table: u16 },
    /// A box of a body is out of order or range.
    #[error("table {table} has a box out of order or range")]
    BadBox { table: u16 },
    /// Memory ran out.
    #[error("out of memory")]
    NoMemory,
}
