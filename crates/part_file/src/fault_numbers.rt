//! The numbers of a refusal of the part file.
ghost use Rattle.std.specs.Prelude.{◌≡◌};
ghost use Rattle.part_file.specs.FaultNumbers.{part_numbers};

use crate::fault::PartFault;
use refusal_numbers::{Numbers, numbers};

impl PartFault {
    /// The number of the refusal, and then its own numbers.
    pub fn numbers(self) -> Numbers
        ensures { result.items ≡ part_numbers self }
    {
        match self {
            PartFault::NotToml => numbers(&[1]),
            PartFault::BadField { table, key } => numbers(&[2, u32::from(table), u32::from(key)]),
            PartFault::UnknownKey { table } => numbers(&[3, u32::from(table)]),
            PartFault::TooMany => numbers(&[4]),
            PartFault::BadSize { face } => numbers(&[5, u32::from(face)]),
            PartFault::UnknownParent { face } => numbers(&[6, u32::from(face)]),
            PartFault::OddThickness => numbers(&[7]),
            PartFault::SameName { face } => numbers(&[8, u32::from(face)]),
            PartFault::NoMemory => numbers(&[9]),
        }
    }
}
