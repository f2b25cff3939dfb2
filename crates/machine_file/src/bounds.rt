//! The bounds of what a machine file may say, as the reader and the tests of validity take them; the
//! definitions have their own (`specs/Bounds.antt`). Lengths are in micrometres.

/// The greatest distance of a coordinate from 0: 20 m.
pub const COORDINATE_LIMIT: i64 = 20_000_000;

/// The greatest number of side frames.
pub const MOST_FRAMES: usize = 4;

/// The greatest number of boxes above the bed, and of boxes below it.
pub const MOST_BOXES: usize = 16;

/// The greatest number of stages.
pub const MOST_STAGES: usize = 6;

/// The greatest number of a stage's pieces.
pub const MOST_PIECES: usize = 32;

/// The least length of a piece.
pub const LEAST_PIECE: i64 = 1;

/// The greatest length of a piece.
pub const GREATEST_PIECE: i64 = 10_000_000;

/// The greatest length that may stay uncovered at each end of a bend line.
pub const GREATEST_UNCOVERED: i64 = 1_000_000;

/// The greatest length of the backgauge.
pub const GREATEST_LENGTH: i64 = 10_000_000;

/// The least width and the least depth of a finger.
pub const LEAST_FINGER: i64 = 1;

/// The greatest cost, in tenths of a second.
pub const GREATEST_COST: u64 = 1_000_000;

/// The greatest limit of the force, in newtons; the least is 0, which stands for no limit.
pub const GREATEST_FORCE: i64 = 100_000_000;

/// The greatest number of times that a piece of the part may be halved in a row.
pub const GREATEST_FINE: u8 = 12;
