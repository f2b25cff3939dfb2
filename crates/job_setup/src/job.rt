//! A job, which is valid by its type.
ghost use Rattle.std.specs.Prelude.{◌≡◌, ◌+◌, ◌<◌, ◌≤◌, ◌<ℤ◌, length};
ghost use Rattle.part_file.specs.Part.{part_data};
ghost use Rattle.unfolder.specs.Near.{IsWithin as IsNear};
ghost use Rattle.job_setup.specs.Setup.{setup_data, shape_of};
ghost use Rattle.job_setup.specs.StageOf.{stage_of};
ghost use Rattle.job_setup.specs.ValidJob.{IsJob};

use crate::setup::Setup;
use fold_boxes::Shape;
use part_file::Part;
use std::marker::Model;

/// A part, its half deduction and the setup on which it is bent. Its type keeps that it is valid:
/// the part unfolds, all ranges of its file and of the machine's file hold, and the stages are
/// equally high, apart, on the bed, and at least one.
#[derive(Drop)]
pub struct Job {
    shape: Shape,
    setup: Setup,
}

impl Model for Job {
    ghost use Rattle.job_setup.specs.Setup.{JobData, setup_data};
    ghost use Rattle.job_setup.specs.ValidJob.{IsJob};

    ghost Value = { JobData };

    ghost view = { λ j. record { part = j.shape.part; q = j.shape.q; setup = setup_data j.setup } };

    ghost invariant = { λ j. IsJob (record { part = j.shape.part; q = j.shape.q; setup = setup_data j.setup }) };
}

impl Job {
    /// The job of a part, its half deduction and a setup that are known to be valid.
    pub(crate) fn new(part: &Part, q: i64, setup: Setup) -> Job
        requires { IsJob (record { part = part_data part.now; q = q; setup = setup_data setup }) }
        ensures { result ≡ record { part = part_data part.now; q = q; setup = setup_data setup } }
    {
        Job {
            shape: Shape::new(part, q),
            setup,
        }
    }

    /// A copy of the job. It takes no memory.
    pub fn copy(&self) -> Job
        ensures value { result ≡ self.now }
        ensures valid { IsJob self.now }
    {
        let shape = self.shape.copy();
        let setup = self.setup.copy();
        Job { shape, setup }
    }

    /// The part.
    pub fn part(&self) -> &Part
        ensures value { part_data result.now ≡ self.now.part }
        ensures valid { IsJob self.now }
    {
        self.shape.part()
    }

    /// Half of what the part's outside sizes lose at each bend, in micrometres.
    pub fn q(&self) -> i64
        ensures value { result ≡ self.now.q }
        ensures valid { IsJob self.now }
    {
        self.shape.q()
    }

    /// The part with its half deduction.
    pub fn shape(&self) -> &Shape
        ensures value { result.now ≡ shape_of self.now }
        ensures valid { IsJob self.now }
    {
        &self.shape
    }

    /// The setup.
    pub fn setup(&self) -> &Setup
        ensures value { setup_data result.now ≡ self.now.setup }
        ensures valid { IsJob self.now }
    {
        &self.setup
    }

    /// The number of bends: one for each face but face 0.
    pub fn bends(&self) -> u8
        ensures value { result + 1 ≡ length self.now.part.faces }
        ensures few { result ≤ 12 }
        ensures valid { IsJob self.now }
    {
        self.shape.faces() - 1
    }

    /// The number of stages.
    pub fn stages(&self) -> u8
        ensures value { result ≡ length self.now.setup.stages }
        ensures few { result ≤ 6 }
        ensures valid { IsJob self.now }
    {
        self.setup.stages.len() as u8
    }

    /// The range of a stage along the bed, in micrometres.
    pub fn stage_range(&self, stage: u8) -> (i64, i64)
        requires { stage < length self.now.setup.stages }
        ensures from { result.0 ≡ (stage_of self.now stage).x0 }
        ensures to { result.1 ≡ (stage_of self.now stage).x1 }
        ensures order { result.0 <ℤ result.1 }
        ensures near_from { IsNear 1000000000 result.0 }
        ensures near_to { IsNear 1000000000 result.1 }
        ensures valid { IsJob self.now }
    {
        let stage = &self.setup().stages.as_slice()[usize::from(stage)];
        (stage.x0, stage.x1)
    }

    /// Recalls that the job is valid, which its type keeps. It does nothing else.
    pub fn recall_valid(&self)
        ensures { IsJob self.now }
    {
        let _setup = &self.setup;
    }
}
