//! The numbers of a refusal of the machine file.
ghost use Rattle.std.specs.Prelude.{◌≡◌};
ghost use Rattle.machine_file.specs.FaultNumbers.{machine_numbers};

use crate::fault::MachineFault;
use refusal_numbers::{Numbers, numbers};

impl MachineFault {
    /// The number of the refusal, and then its own numbers.
    pub fn numbers(self) -> Numbers
        ensures { result.items ≡ machine_numbers self }
    {
        match self {
            MachineFault::NotToml => numbers(&[1]),
            MachineFault::BadField { table, key } => {
                numbers(&[2, u32::from(table), u32::from(key)])
            }
            MachineFault::UnknownKey { table } => numbers(&[3, u32::from(table)]),
            MachineFault::TooMany { table } => numbers(&[4, u32::from(table)]),
            MachineFault::BadBox { table } => numbers(&[5, u32::from(table)]),
            MachineFault::NoMemory => numbers(&[6]),
        }
    }
}
