//! How many keys there can be.
ghost use Rattle.std.specs.Prelude.{◌≡◌, ◌-◌, ◌^◌, ◌<◌, ◌≤◌};
ghost use Rattle.handling_cost.specs.Reach.{nodes};

use job_setup::Job;

/// The most keys at which a bend is left that the job can have: the start, and for each other set
/// of bends that isn't full one for each attitude and stage. 0 where there is no bend.
pub fn nodes(job: &Job) -> u32
    ensures value { result ≡ nodes job.now }
    ensures most { result ≤ 589537 }
{
    let bends = job.bends();
    if bends == 0 {
        return 0;
    }
    1 + inner_sets(bends) * (24 * u32::from(job.stages()))
}

/// The number of sets of so many bends that are neither empty nor full.
fn inner_sets(bends: u8) -> u32
    requires some { 0 < bends }
    requires few { bends ≤ 12 }
    ensures value { result ≡ 2 ^ bends - 2 }
    ensures most { result ≤ 4094 }
{
    (1 << bends) - 2
}
