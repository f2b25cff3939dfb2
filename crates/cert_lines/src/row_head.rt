//! The head of a row.

use brake_base::{Key, Worth};

/// A settled key, and what is proved to be left to pay from it.
#[derive(Clone, Copy, Debug, PartialEq, Eq)]
pub struct RowHead {
    pub key: Key,
    pub worth: Worth,
}
