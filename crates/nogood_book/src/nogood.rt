//! A reason with the bends that must be folded for it and those that mustn't.
ghost use Rattle.std.specs.Prelude.{◌↔◌, IsTrue};
ghost use Rattle.nogood_book.specs.Nogood.{AreDisjoint, Matches};
ghost use Rattle.nogood_book.specs.Book.{Refutes};

use brake_base::{Action, Mask, Reason};

/// That a reason holds against an action wherever the bends of one set are folded and those of
/// another are flat.
#[derive(Clone, Copy, Debug, PartialEq, Eq)]
pub struct Nogood {
    pub action: Action,
    pub reason: Reason,
    pub folded: Mask,
    pub flat: Mask,
}

impl Nogood {
    /// Whether the nogood matches a set of folded bends: its folded bends are folded there, and its
    /// flat ones are not.
    pub fn matches(&self, mask: Mask) -> bool
        ensures { IsTrue result ↔ Matches self.now mask }
    {
        self.folded.is_subset(mask) && are_disjoint(self.flat, mask)
    }

    /// Whether the nogood is of this action and matches the set of folded bends.
    pub fn refutes(&self, mask: Mask, action: Action) -> bool
        ensures { IsTrue result ↔ Refutes self.now mask action }
    {
        self.action == action && self.matches(mask)
    }
}

/// Whether no bend is in both sets.
pub(crate) fn are_disjoint(a: Mask, b: Mask) -> bool
    ensures { IsTrue result ↔ AreDisjoint a b }
{
    a.intersection(b).is_empty()
}
