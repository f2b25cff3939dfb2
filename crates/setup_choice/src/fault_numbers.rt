//! The numbers of a refusal of setups.
ghost use Rattle.std.specs.Prelude.{◌≡◌};
ghost use Rattle.setup_choice.specs.FaultNumbers.{setup_numbers};

use crate::fault::SetupFault;
use refusal_numbers::{Numbers, number_before, numbers};

impl SetupFault {
    /// The number of the refusal, and then its own numbers. Those of a job stand behind that of its
    /// setup.
    pub fn numbers(self) -> Numbers
        ensures { result.items ≡ setup_numbers self }
    {
        match self {
            SetupFault::NotToml => numbers(&[1]),
            SetupFault::BadField { table, key } => numbers(&[2, u32::from(table), u32::from(key)]),
            SetupFault::UnknownKey { table } => numbers(&[3, u32::from(table)]),
            SetupFault::TooMany { table } => numbers(&[4, u32::from(table)]),
            SetupFault::SameName { setup } => numbers(&[5, u32::from(setup)]),
            SetupFault::Job { setup, fault } => {
                number_before(6, &number_before(u32::from(setup), &fault.numbers()))
            }
            SetupFault::NoMemory => numbers(&[7]),
        }
    }
}
