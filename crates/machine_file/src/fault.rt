//! Why a machine file is refused.

use thiserror::Error;

/// Why a machine file is refused. Table 0 is the top table, table 1 is `gauge`, table 2 is
/// `cost`, table 3 + i is stage i's.
#[derive(Clone, Copy, Debug, PartialEq, Eq, Error)]
pub enum MachineFault {
    /// The bytes aren't a TOML document.
    #[error("the machine file is not TOML")]
    NotToml,
    /// A key that is needed is missing, or its value has another type or range.
    #[error("table {table} of the machine file has no valid key {key}")]
    BadField { table: u8, key: u8 },
    /// A table has a key that isn't known there.
    #[error("table {table} of the machine file has an unknown key")]
    UnknownKey { table: u8 },
    /// A list of the table is too long.
    #[error("a list in table {table} of the machine file is too long")]
    TooMany { table: u8 },
    /// A range or box of the table is out of order or range.
    #[error("table {table} of the machine file has a box out of order or range")]
    BadBox { table: u8 },
    /// Memory ran out.
    #[error("out of memory")]
    NoMemory,
}
