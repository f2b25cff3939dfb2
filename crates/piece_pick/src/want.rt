//! What a stage wants, and the pieces that are picked for it.

use arrayvec::ArrayVec;

/// The greatest number of a want's pieces.
pub const MOST_PIECES: usize = 32;

/// The greatest number of wants.
pub const MOST_WANTS: usize = 6;

/// The greatest number of pieces that a want may choose from: of each length as many as it may take.
pub const MOST_SUPPLY: usize = 512;

/// What a stage wants: its punch and its die, by their places among the tools, and its length.
#[derive(Clone, Copy, Debug, Default, PartialEq, Eq)]
pub struct Want {
    pub punch: u8,
    pub die: u8,
    pub length: i64,
}

/// The lengths of a want's pieces, the longest first.
pub type Pieces = ArrayVec<i64, MOST_PIECES>;

/// The pieces of each want.
pub type Picked = ArrayVec<Pieces, MOST_WANTS>;
