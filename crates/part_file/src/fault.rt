//! Why a part file is refused.

use thiserror::Error;

/// Why a part file is refused. Table 0 is the top table, table 1 + i is face i's.
#[derive(Clone, Copy, Debug, PartialEq, Eq, Error)]
pub enum PartFault {
    /// The bytes aren't a TOML document.
    #[error("the part file is not TOML")]
    NotToml,
    /// A key that is needed is missing, or its value has another type or range.
    #[error("table {table} of the part file has no valid key {key}")]
    BadField { table: u8, key: u8 },
    /// A table has a key that isn't known there.
    #[error("table {table} of the part file has an unknown key")]
    UnknownKey { table: u8 },
    /// There are more than 13 faces.
    #[error("the part has more than 13 faces")]
    TooMany,
    /// A face has a size out of range, or isn't within the side on which it stands.
    #[error("face {face} has a bad size or place")]
    BadSize { face: u8 },
    /// A face stands on no earlier face.
    #[error("face {face} stands on no earlier face")]
    UnknownParent { face: u8 },
    /// The thickness is odd.
    #[error("the thickness is odd")]
    OddThickness,
    /// A face has the name of an earlier face.
    #[error("face {face} has the name of an earlier face")]
    SameName { face: u8 },
    /// Memory ran out.
    #[error("out of memory")]
    NoMemory,
}
