//! The numbers of a refusal of the blank.
ghost use Rattle.std.specs.Prelude.{◌≡◌, ◌≤◌, length};
ghost use Rattle.unfolder.specs.FaultNumbers.{unfold_numbers};

use crate::blank::UnfoldFault;
use refusal_numbers::{Numbers, numbers};

impl UnfoldFault {
    /// The number of the refusal, and then its own numbers: at most three.
    pub fn numbers(self) -> Numbers
        ensures value { result.items ≡ unfold_numbers self }
        ensures few { length result.items ≤ 3 }
    {
        match self {
            UnfoldFault::CoreTooSmall { face } => numbers(&[1, u32::from(face)]),
            UnfoldFault::BendOffFace { bend } => numbers(&[2, u32::from(bend)]),
            UnfoldFault::FlatOverlap { a, b } => numbers(&[3, u32::from(a), u32::from(b)]),
        }
    }
}
