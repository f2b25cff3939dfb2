//! The ends of the ranges of a row of the table.

/// The least correction factor, in thousandths.
pub const LEAST_FACTOR: i64 = 0;

/// The greatest correction factor, in thousandths.
pub const GREATEST_FACTOR: i64 = 1_000;

/// The least half deduction that may be measured, in micrometres.
pub const LEAST_MEASURED: i64 = 1;

/// The greatest half deduction that may be measured, in micrometres; none by a factor is greater.
pub const GREATEST_HALF_DEDUCTION: i64 = 100_000;

/// The greatest number of rows.
pub const MOST_ROWS: usize = 256;
