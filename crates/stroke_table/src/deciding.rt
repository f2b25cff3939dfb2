//! Which bends decide where a box lies, for all faces and boxes of a job.
ghost use Rattle.std.specs.Prelude.{◌<◌, IfOk, length};
ghost use Rattle.fold_boxes.specs.Pose.{face_of_box};
ghost use Rattle.stroke_table.specs.Records.{AreDeciding, AreAllDeciding};

use box_support::{face_of_box, is_deciding};
use brake_base::Mask;
use job_setup::Job;
use std::alloc::{AllocError, Global};

/// For each face and each box the bends that decide where the box lies as seen from the face: those of
/// face f and box b at place 25 f + b.
pub(crate) fn deciding_bends(alloc: Global, job: &Job) -> Result<Vec<Mask>, AllocError>
    ensures { IfOk result (λ deciding. AreAllDeciding job.now deciding.items) }
{
    job.recall_valid();
    let mut deciding = Vec::with_capacity(alloc, 325)?;
    for place in 0..325u16 {
        let from = (place / 25) as u8;
        let number = (place % 25) as u8;
        deciding.push_reserved(bends_from(job, from, number));
    }
    Ok(deciding)
}

/// The bends that decide where a box lies as seen from a face; none where the part lacks either.
fn bends_from(job: &Job, from: u8, number: u8) -> Mask
    ensures { from < length job.now.part.faces → face_of_box number < length job.now.part.faces
        → AreDeciding job.now from number result }
{
    if from <= job.bends() && face_of_box(number) <= job.bends() {
        bends_between(job, from, number)
    } else {
        Mask::empty()
    }
}

/// The bends that decide where a box lies as seen from a face.
fn bends_between(job: &Job, from: u8, number: u8) -> Mask
    requires from { from < length job.now.part.faces }
    requires number { face_of_box number < length job.now.part.faces }
    ensures { AreDeciding job.now from number result }
{
    let mut bends = Mask::empty();
    for bend in 1..job.bends() + 1 {
        if is_deciding(job.part(), from, number, bend) {
            bends = bends.with(bend);
        }
    }
    bends
}
