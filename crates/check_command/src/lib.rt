//! What `check` answers to a certificate alone: its claim, or the first cause why it is refused.
#![tactic(auto)]

mod answer;

pub use answer::{answer_alone, cert_refused, verdict_answer};
