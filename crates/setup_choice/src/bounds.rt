//! The bounds of what a setups file may say, as the reader takes them; the definitions have their
//! own (`specs/Bounds.antt`). Lengths are in micrometres.

/// The greatest number of setups.
pub const MOST_SETUPS: usize = 16;

/// The least length of a wanted stage.
pub const LEAST_STAGE_LENGTH: i64 = 1;

/// The greatest length of a wanted stage: 20 m.
pub const GREATEST_STAGE_LENGTH: i64 = 20_000_000;
