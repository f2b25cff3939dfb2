//! What the tests of several crates share: the texts of worked files and certificates, and the jobs
//! that such files give.
#![tactic(auto)]

mod certificates;
mod files;
mod jobs;

pub use certificates::{FINE_JOB, GANG_JOB, ROWS, STEPS, VERSION_1_JOB, VERSION_2_JOB};
pub use files::{
    EAST_FLANGE, FLAT_OVERLAP, L_SECTION, LID, MACHINE, PAN, STAGE, TOOLS, TWO_FLANGES, U_CHANNEL,
};
pub use jobs::{job_of, made_of};
