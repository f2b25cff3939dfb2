//! What becomes of a setup that isn't refused.

use job_setup::Job;

/// What becomes of a setup that isn't refused: the job with the first choice of its pieces, or that
/// the stock has no choice.
#[derive(Drop)]
pub enum Fit {
    Ready(Job),
    Short,
}
