//! What stands around the part at a stage. It is the same for all strokes.
ghost use Rattle.std.specs.Prelude.{◌≡◌, ◌<◌, length};
ghost use Rattle.sweep_check.specs.Around.{AreSurroundings};

use crate::noses::{PunchNose, noses};
use arrayvec::ArrayVec;
use job_setup::{Job, Obstacle, lower_group, upper_group};

/// What stands around the part at a stage: the beam and the punches, the punches' noses, and the bed
/// and the dies.
#[derive(Drop)]
pub struct Surroundings {
    pub stage: u8,
    pub upper: ArrayVec<Obstacle, 64>,
    pub noses: ArrayVec<PunchNose, 6>,
    pub lower: ArrayVec<Obstacle, 64>,
}

impl Surroundings {
    /// What stands around the part at a stage of a job.
    pub fn at(job: &Job, stage: u8) -> Surroundings
        requires { stage < length job.now.setup.stages }
        ensures stage { result.stage ≡ stage }
        ensures value { AreSurroundings job.now result }
    {
        Surroundings {
            stage,
            upper: upper_group(job),
            noses: noses(job.setup().stages.as_slice()),
            lower: lower_group(job, stage),
        }
    }
}
