//! What a run answers.

/// What a search found: the least cost of a plan in tenths of a second, that there is no plan, or
/// that more keys are reached than its budget allows.
#[derive(Clone, Copy, Debug, PartialEq, Eq)]
pub enum Outcome {
    Best { cost: u64 },
    Blocked,
    Spent,
}
