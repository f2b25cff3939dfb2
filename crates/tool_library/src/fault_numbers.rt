//! The numbers of a refusal of the tools file.
ghost use Rattle.std.specs.Prelude.{◌≡◌};
ghost use Rattle.tool_library.specs.FaultNumbers.{tool_numbers};

use crate::fault::ToolFault;
use refusal_numbers::{Numbers, numbers};

impl ToolFault {
    /// The number of the refusal, and then its own numbers.
    pub fn numbers(self) -> Numbers
        ensures { result.items ≡ tool_numbers self }
    {
        match self {
            ToolFault::NotToml => numbers(&[1]),
            ToolFault::BadField { table, key } => numbers(&[2, u32::from(table), u32::from(key)]),
            ToolFault::UnknownKey { table } => numbers(&[3, u32::from(table)]),
            ToolFault::TooMany { table } => numbers(&[4, u32::from(table)]),
            ToolFault::SameName { table } => numbers(&[5, u32::from(table)]),
            ToolFault::BadBox { table } => numbers(&[6, u32::from(table)]),
            ToolFault::NoMemory => numbers(&[7]),
        }
    }
}
