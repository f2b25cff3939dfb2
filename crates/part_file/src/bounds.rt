//! The ends of the ranges of a part file, in micrometres, and how many faces a part may have.

/// The least thickness of the sheet.
pub const LEAST_THICKNESS: i64 = 2;

/// The greatest thickness of the sheet.
pub const GREATEST_THICKNESS: i64 = 50_000;

/// The least inner radius of the bends.
pub const LEAST_RADIUS: i64 = 1;

/// The greatest inner radius of the bends.
pub const GREATEST_RADIUS: i64 = 50_000;

/// The least width or length of a face.
pub const LEAST_SIZE: i64 = 1;

/// The greatest width or length of a face.
pub const GREATEST_SIZE: i64 = 10_000_000;

/// The greatest number of faces.
pub const MOST_FACES: usize = 13;
