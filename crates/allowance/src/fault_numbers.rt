//! The number of a refusal of the deduction.
ghost use Rattle.std.specs.Prelude.{◌≡◌};
ghost use Rattle.allowance.specs.FaultNumbers.{allow_number};

use crate::table::AllowFault;

impl AllowFault {
    /// The number of the refusal, which has no others of its own.
    pub fn number(self) -> u32
        ensures { result ≡ allow_number self }
    {
        match self {
            AllowFault::NoRow => 1,
            AllowFault::TwoRows => 2,
            AllowFault::BelowHalfThickness => 3,
        }
    }
}
