//! The boxes of the part against the side frames.
ghost use Rattle.std.specs.Prelude.{◌≡◌, ◌↔◌, ◌<◌, IsTrue, All, Any, AllPairs};
ghost use Rattle.job_setup.specs.Reasons.{MeetsAlong};
ghost use Rattle.sweep_check.specs.Hits.{IsLeastNumber};

use crate::ranges::is_overlap;
use fold_boxes::PoseBox;

/// The number of the first box whose range along the bed meets a frame's.
pub(crate) fn first_in_frame(boxes: &[PoseBox], frames: &[(i64, i64)]) -> Option<u8>
    requires ascend { AllPairs (λ a b. a.id < b.id) boxes.now }
    ensures { IsLeastNumber (λ body. body.id)
        (λ body. Any (MeetsAlong body) frames.now) boxes.now result }
{
    for body in boxes {
        if is_in_frame(body, frames) {
            return Some(body.id);
        }
    }
    None
}

/// Whether the box's range along the bed meets that of a frame.
pub(crate) fn is_in_frame(body: &PoseBox, frames: &[(i64, i64)]) -> bool
    ensures { IsTrue result ↔ Any (MeetsAlong body.now) frames.now }
{
    frames.iter().any(|frame| meets_along(body, *frame))
}

/// Whether the box's range along the bed shares an interior point with this one.
fn meets_along(body: &PoseBox, range: (i64, i64)) -> bool
    ensures { IsTrue result ↔ MeetsAlong body.now range }
{
    is_overlap((body.body.lo.x, body.body.hi.x), range)
}
