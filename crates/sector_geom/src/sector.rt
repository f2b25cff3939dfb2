//! Annular sectors about the bend line, seen along it: y to the back, z up, the bend line at the origin.

/// How far a piece is swept: one half of the sheet turns by 45 degrees, one half against the other by 90.
#[derive(Clone, Copy, Debug, PartialEq, Eq)]
pub enum Sweep {
    Eighth,
    Fourth,
}

/// The points whose squared distance from the origin, in square micrometres, is from `near2` to `far2`, and which lie
/// counterclockwise from the ray through `lower` to the ray through `upper`. It spans at most half a turn.
#[derive(Clone, Copy, Debug, PartialEq, Eq)]
pub struct Sector {
    pub near2: i128,
    pub far2: i128,
    pub lower: (i64, i64),
    pub upper: (i64, i64),
}
