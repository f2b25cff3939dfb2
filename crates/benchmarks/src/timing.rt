//! The time of a call.

use std::time::Instant;

/// The nanoseconds of one of so many calls, between two times.
pub fn nanoseconds(from: Instant, to: Instant, calls: u32) -> u128 {
    to.duration_since(from).as_nanos() / u128::from(calls.max(1))
}
