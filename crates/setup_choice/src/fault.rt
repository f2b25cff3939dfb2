//! Why setups are refused.

use job_setup::JobFault;
use thiserror::Error;

/// Why a setups file, or one of its setups, is refused. Table 0 is the top table; from 1 on each
/// setup's table is numbered and then its stages', setup after setup.
#[derive(Clone, Copy, Debug, PartialEq, Eq, Error)]
pub enum SetupFault {
    /// The bytes aren't a TOML document.
    #[error("the setups file is not TOML")]
    NotToml,
    /// A key that is needed is missing, or its value has another type or range.
    #[error("table {table} of the setups file has no valid key {key}")]
    BadField { table: u8, key: u8 },
    /// A table has a key that isn't known there.
    #[error("table {table} of the setups file has an unknown key")]
    UnknownKey { table: u8 },
    /// A list of the table is too long.
    #[error("a list in table {table} of the setups file is too long")]
    TooMany { table: u8 },
    /// The first setup whose name an earlier one has.
    #[error("setup {setup} has the name of an earlier one")]
    SameName { setup: u8 },
    /// The first setup that gives no job, and why. The reader never answers it.
    #[error("setup {setup} gives no job")]
    Job { setup: u8, fault: JobFault },
    /// Memory ran out.
    #[error("out of memory")]
    NoMemory,
}
