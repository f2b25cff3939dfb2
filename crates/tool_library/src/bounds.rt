//! The bounds of what a tools file may say, as the reader and the tests of validity take them; the
//! definitions have their own (`specs/Bounds.antt`). Those of an allow row are `allowance`'s and
//! `part_file`'s. Lengths are in micrometres, loads and limits in newtons per millimetre.

/// The greatest number of punches.
pub const MOST_PUNCHES: usize = 32;

/// The greatest number of dies.
pub const MOST_DIES: usize = 32;

/// The greatest number of load rows.
pub const MOST_LOAD_ROWS: usize = 256;

/// The greatest number of boxes of a body.
pub const MOST_BOXES: usize = 8;

/// The greatest number of sections of a tool.
pub const MOST_SECTIONS: usize = 16;

/// The least height of a tool.
pub const LEAST_HEIGHT: i64 = 1;

/// The greatest height of a tool.
pub const GREATEST_HEIGHT: i64 = 1_000_000;

/// The greatest distance of a body's boxes from the tool's middle.
pub const FARTHEST_ACROSS: i64 = 1_000_000;

/// The least length of a section.
pub const LEAST_LENGTH: i64 = 1;

/// The greatest length of a section.
pub const GREATEST_LENGTH: i64 = 10_000_000;

/// The least count of a section.
pub const LEAST_COUNT: i64 = 1;

/// The greatest count of a section.
pub const GREATEST_COUNT: i64 = 1000;

/// The least width of a die's opening.
pub const LEAST_OPENING: i64 = 2;

/// The greatest width of a die's opening.
pub const GREATEST_OPENING: i64 = 1_000_000;

/// The greatest that a die's shortest flange may be.
pub const GREATEST_FLANGE: i64 = 1_000_000;

/// The greatest limit of a tool's load; the least is 0, which stands for no limit.
pub const GREATEST_LIMIT: i64 = 1_000_000;

/// The least load of a load row.
pub const LEAST_LOAD: i64 = 1;

/// The greatest load of a load row.
pub const GREATEST_LOAD: i64 = 1_000_000;
