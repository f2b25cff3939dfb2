//! The stages of a job, and the joints of its bends.
ghost use Rattle.std.specs.Prelude.{◌≡◌, ◌<◌, ◌≤◌, length};
ghost use Rattle.unfolder.specs.Cores.{joint_of};
ghost use Rattle.job_setup.specs.Near.{IsNearStage};
ghost use Rattle.job_setup.specs.Setup.{stage_data};
ghost use Rattle.job_setup.specs.StageOf.{stage_of};

use job_setup::{Job, Stage};
use part_file::Joint;
use unfolder::cores::joint_of;

/// A stage of the job.
pub fn stage_at(job: &Job, number: u8) -> &Stage
    requires { number < length job.now.setup.stages }
    ensures value { stage_data result.now ≡ stage_of job.now number }
    ensures near { IsNearStage (stage_data result.now) }
{
    &job.setup().stages.as_slice()[usize::from(number)]
}

/// The joint of a bend.
pub fn joint_at(job: &Job, bend: u8) -> Joint
    requires some { 0 < bend }
    requires bend { bend < length job.now.part.faces }
    ensures value { result ≡ joint_of job.now.part.faces bend }
    ensures few { result.on ≤ 12 }
{
    joint_of(job.part(), bend)
}
