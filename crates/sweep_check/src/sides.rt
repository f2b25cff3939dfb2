//! The sides of the lead's bend, and the halves in which they lie.
ghost use Rattle.std.specs.Prelude.{◌≡◌, ◌<◌, length};
ghost use Rattle.job_setup.specs.Reasons.{side_in};
ghost use Rattle.sweep_check.specs.FirstReasons.{back_in};

use brake_base::{Back, Half};
use fold_boxes::PoseBox;

/// The side at the back in a pose: that of the half in which the lead's child lies, which is the box
/// of the lead's number.
pub(crate) fn back_of(boxes: &[PoseBox], lead: u8) -> Back
    requires { lead < length boxes.now }
    ensures { result ≡ back_in boxes.now lead }
{
    match boxes[usize::from(lead)].half {
        Half::Back => Back::Child,
        Half::Front => Back::Parent,
    }
}

/// The side that lies in a half, where this side is at the back.
pub(crate) fn side_in(half: Half, back: Back) -> Back
    ensures { result ≡ side_in half back }
{
    match (half, back) {
        (Half::Back, side) => side,
        (Half::Front, Back::Parent) => Back::Child,
        (Half::Front, Back::Child) => Back::Parent,
    }
}
