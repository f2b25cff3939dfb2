//! Times what the speed of a search rests on, and prints nanoseconds to standard error.
#![tactic(auto)]

mod folds;
mod jobs;
mod pools;
mod sectors;
mod timing;

use folds::time_folds;
use jobs::time_jobs;
use pools::time_pools;
use sectors::time_sectors;

fn main(rt: HostRuntime) -> anyhow::Result<()> {
    time_sectors(&rt)?;
    time_folds(&rt)?;
    time_jobs(&rt)?;
    time_pools(&rt)
}
