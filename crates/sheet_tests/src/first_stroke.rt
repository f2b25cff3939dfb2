//! The first stroke of the U channel, which a worked page shows.

use brake_base::{Action, Back, Key, Mask, Turn};
use job_setup::Job;
use std::alloc::Global;
use std::test::Fail;
use test_fixtures::{MACHINE, STAGE, TOOLS, U_CHANNEL, job_of};

pub fn u_channel(alloc: Global) -> Result<Job, Fail> {
    let machine = format!(in alloc; "{MACHINE}{STAGE}")?;
    job_of(alloc, U_CHANNEL, TOOLS, &machine)
}

/// The start, where no bend is folded.
pub fn start() -> Key {
    Key {
        mask: Mask(0),
        attitude: Turn::from_number(0),
        stage: 0,
    }
}

/// The south flange, with the web at the back.
pub fn south() -> Action {
    Action {
        bend: 2,
        back: Back::Parent,
        stage: 0,
    }
}
