//! What is begun of a part, a setup and a stage, before their other lines are read.
#![tactic(auto, using(crate::proofs::Texts::pieces))]

ghost use Rattle.std.specs.Prelude.{◌≡◌};
ghost use Rattle.part_file.specs.Part.{part_data};
ghost use Rattle.tool_library.specs.Tools.{punch_data, die_data};
ghost use Rattle.job_setup.specs.Setup.{setup_data, stage_data};
ghost use Rattle.cert_lines.specs.JobLines.{begun_part, begun_punch, begun_die, begun_stage, begun_setup};

use arrayvec::ArrayVec;
use brake_base::Name;
use job_setup::{Setup, Stage};
use machine_file::{Costs, GaugeRule};
use part_file::Part;
use tool_library::{Die, Punch};

/// A part without faces.
pub fn begun_part(material: Name, thickness: i64, radius: i64) -> Part
    ensures { part_data result ≡ begun_part material.bytes thickness radius }
{
    Part {
        material,
        thickness,
        radius,
        faces: ArrayVec::new(),
    }
}

/// A punch without boxes.
pub fn begun_punch(name: Name, height: i64, nose: i64) -> Punch
    ensures { punch_data result ≡ begun_punch name.bytes height nose }
{
    Punch {
        name,
        height,
        nose,
        body: ArrayVec::new(),
        sections: ArrayVec::new(),
        limit: 0,
    }
}

/// A die without boxes.
pub fn begun_die(name: Name, height: i64, v: i64, least_flange: i64) -> Die
    ensures { die_data result ≡ begun_die name.bytes height v least_flange }
{
    Die {
        name,
        height,
        v,
        least_flange,
        body: ArrayVec::new(),
        sections: ArrayVec::new(),
        limit: 0,
    }
}

/// A stage of which only its range is known.
pub fn begun_stage(x0: i64, x1: i64) -> Stage
    ensures { stage_data result ≡ begun_stage x0 x1 }
{
    Stage {
        punch: begun_punch(Name::new(), 0, 0),
        die: begun_die(Name::new(), 0, 0, 0),
        x0,
        x1,
        pieces: ArrayVec::new(),
        load: 0,
        limit: 0,
    }
}

/// A setup of which only its bed is known.
pub fn begun_setup(bed: (i64, i64)) -> Setup
    ensures { setup_data result ≡ begun_setup bed }
{
    Setup {
        bed,
        frames: ArrayVec::new(),
        upper: ArrayVec::new(),
        lower: ArrayVec::new(),
        uncovered: 0,
        gauge: GaugeRule::default(),
        cost: Costs::default(),
        stages: ArrayVec::new(),
        gang: false,
        force: 0,
        fine: 0,
    }
}
