//! The job of a number.
ghost use Rattle.std.specs.Prelude.{◌≡◌};
ghost use Rattle.part_file.specs.Part.{part_data};
ghost use Rattle.part_gen.specs.Generator.{generated_part, generated_job};

use crate::faces::made_faces;
use crate::setup::{common_setup, name_of};
use job_setup::{Job, job_from};
use part_file::Part;

/// Half of what a bend takes from the outside sizes of 2 mm of S235 with an inner radius of 2 mm
/// and a factor k of 0.65, in micrometres.
const HALF_DEDUCTION: i64 = 1919;

/// The part of a number.
fn made_part(n: u32) -> Part
    ensures { part_data result ≡ generated_part n }
{
    Part {
        material: name_of("S235"),
        thickness: 2000,
        radius: 2000,
        faces: made_faces(n),
    }
}

/// The job of a number: a rectangle of sheet of 100 to 150 mm by 80 to 120 mm, with a flange on
/// each side and a second one along that of N, of S, and, where it is drawn, of E and of W. The
/// sizes and the directions of its six to eight bends are drawn from the number. All jobs have
/// the same material, half deduction and setup of two stages. Each number gives a valid job, so
/// there is no refusal; it takes no memory.
pub fn made_job(n: u32) -> Job
    ensures { result ≡ generated_job n }
{
    match job_from(made_part(n), HALF_DEDUCTION, common_setup()) {
        Some(job) => job,
        None => unreachable!(),
    }
}
