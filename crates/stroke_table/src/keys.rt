//! Which stroke, and which box in it.

use brake_base::{Back, Mask};

/// The strokes of a group with this side at the back, whatever is folded before them.
#[derive(Clone, Copy, PartialEq, Eq)]
pub struct GroupKey {
    pub group: Mask,
    pub back: Back,
}

/// One of these strokes, by the bends that are folded before it.
#[derive(Clone, Copy)]
pub struct StrokeKey {
    pub of: GroupKey,
    pub mask: Mask,
}

/// A box in the strokes of a group, where of the bends that decide where it lies these are folded.
#[derive(Clone, Copy, PartialEq, Eq)]
pub struct BoxKey {
    pub of: GroupKey,
    pub number: u8,
    pub folded: Mask,
}
