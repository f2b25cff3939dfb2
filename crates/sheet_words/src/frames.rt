//! The side frame in which a box would stand, in words.
ghost use Rattle.std.specs.Prelude.{◌≡◌, ◌==◌, ◌++◌, find, option_map, OnOk};
ghost use Rattle.fold_boxes.specs.Pose.{pose_data};
ghost use Rattle.job_setup.specs.Places.{is_overlap};
ghost use Rattle.job_setup.specs.Reasons.{x_range};
ghost use Rattle.sheet_words.specs.Reasons.{frame_met, range_words, frame_words};

use crate::faces::put_box;
use crate::lists::put_mm;
use crate::phrases::IN_SIDE_FRAME;
use brake_base::Box3;
use brake_text::put_word;
use fold_boxes::{Pose, PoseBox};
use job_setup::Job;
use std::alloc::AllocError;

/// Whether a box shares x with a side frame.
fn is_in_frame(body: &Box3, frame: &(i64, i64)) -> bool
    ensures { result ≡ is_overlap (x_range body.now) frame.now }
{
    body.lo.x.max(frame.0) < body.hi.x.min(frame.1)
}

/// The first side frame that a box meets.
fn frame_of<'a>(frames: &'a [(i64, i64)], body: &Box3) -> Option<&'a (i64, i64)>
    ensures { option_map (λ frame. frame.now) result
        ≡ find (is_overlap (x_range body.now)) frames.now }
{
    frames.iter().find(|frame| is_in_frame(body, frame))
}

/// The box of a number.
fn box_of<'a>(boxes: &'a [PoseBox], id: u8) -> Option<&'a PoseBox>
    ensures { option_map (λ b. b.now) result ≡ find (λ b. b.id == id) boxes.now }
{
    boxes.iter().find(|pose_box| pose_box.id == id)
}

/// The first side frame that the box of a number meets, and (0, 0) where there is none.
fn frame_met(frames: &[(i64, i64)], boxes: &[PoseBox], id: u8) -> (i64, i64)
    ensures { result ≡ frame_met frames.now boxes.now id }
{
    match box_of(boxes, id) {
        Some(pose_box) => match frame_of(frames, &pose_box.body) {
            Some(frame) => *frame,
            None => (0, 0),
        },
        None => (0, 0),
    }
}

/// The same of a job's frames and the boxes of a pose.
fn frame_for(job: &Job, pose: &Pose, id: u8) -> (i64, i64)
    ensures { result ≡ frame_met job.now.setup.frames pose.now.boxes.items id }
{
    frame_met(job.setup().frames.as_slice(), pose.boxes.as_slice(), id)
}

/// A range, in millimetres.
#[tactic(auto, using(crate::proofs::Texts::pieces), unfolding(crate::specs::Reasons::range_words))]
fn put_range(out: &mut Vec<u8>, range: (i64, i64)) -> Result<(), AllocError>
    ensures { OnOk result (out.new.items ≡ out.old.items ++ range_words range) }
{
    put_mm(out, range.0)?;
    put_word(out, b" to ")?;
    put_mm(out, range.1)?;
    put_word(out, b" mm")
}

/// A box stands in a side frame.
#[tactic(auto, using(crate::proofs::Texts::pieces), unfolding(crate::specs::Reasons::frame_words))]
pub(crate) fn put_frame(out: &mut Vec<u8>, job: &Job, pose: &Pose, id: u8) -> Result<(), AllocError>
    ensures { OnOk result (out.new.items
        ≡ out.old.items ++ frame_words job.now (pose_data pose.now) id) }
{
    put_box(out, job, id)?;
    put_word(out, IN_SIDE_FRAME)?;
    put_range(out, frame_for(job, pose, id))
}
