//! Notes.

use brake_base::{Action, Reason};

/// A reason against an action, by its number, at the key of a row, by its place.
#[derive(Clone, Copy, Debug, PartialEq, Eq)]
pub struct Note {
    pub row: u32,
    pub action: u8,
    pub reason: Reason,
}

/// A line of a note, without its line feed, and what its words say.
#[derive(Clone, Copy)]
pub struct KnownNote<'a> {
    pub line: &'a [u8],
    pub action: Action,
    pub reason: Reason,
}
