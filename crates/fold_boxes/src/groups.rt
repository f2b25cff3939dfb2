//! The bends that may be bent in one stroke.
ghost use Rattle.std.specs.Prelude.{◌≡◌, ◌↔◌, ℕ, ◌<◌, length, IfSome, IsTrue};
ghost use Rattle.brake_base.specs.Masks.{has, IsLeast};
ghost use Rattle.fold_boxes.specs.Groups.{is_mate, same_joint, line_from, line_to, span};
ghost use Rattle.fold_boxes.specs.Spans.{enclosing_range, IsNearRange};
ghost use Rattle.fold_boxes.specs.Pose.{IsGroup};

use crate::shape::Shape;
use brake_base::Mask;
use part_file::Joint;
use unfolder::cores::joint_of;

/// The bends with this bend's parent, side and direction, itself included.
pub fn mates(shape: &Shape, bend: u8) -> Mask
    requires some { 0 < bend }
    requires bend { bend < length shape.now.part.faces }
    ensures { (other : ℕ) → has result other ≡ is_mate shape.now bend other }
{
    let part = shape.part();
    let ours = joint_of(part, bend);
    let mut mates = Mask::empty();
    for other in 1..shape.faces() {
        if is_mate(&ours, &joint_of(part, other)) {
            mates = mates.with(other);
        }
    }
    mates
}

/// Whether the joints have the same parent, side and direction.
fn is_mate(ours: &Joint, theirs: &Joint) -> bool
    ensures { result ≡ same_joint ours.now theirs.now }
{
    theirs.on == ours.on && theirs.side == ours.side && theirs.dir == ours.dir
}

/// Whether the bends of the group may be bent in one stroke where those of the mask are folded: there
/// are some, none of them is folded, and all have the parent, the side and the direction of the least.
pub fn is_group(shape: &Shape, mask: Mask, group: Mask) -> bool
    ensures { IsTrue result ↔ IsGroup shape.now mask group }
{
    match group.least() {
        Some(lead) => is_group_of(shape, mask, group, lead),
        None => false,
    }
}

/// The same of a group whose least bend is known.
fn is_group_of(shape: &Shape, mask: Mask, group: Mask, lead: u8) -> bool
    requires { IsLeast group lead }
    ensures { IsTrue result ↔ IsGroup shape.now mask group }
{
    if lead < shape.faces() {
        group.is_subset(mates(shape, lead).without(mask))
    } else {
        false
    }
}

/// The range that the lines of a group's bends cover along the side that they share, from the start
/// of that side, in micrometres: from the least to the greatest of their ends. Both numbers are 0
/// where the group is empty.
pub fn span(shape: &Shape, group: Mask) -> (i64, i64)
    ensures value { result ≡ span shape.now (has group) }

    // The first is at most the second, and both lie within 100,000,000 micrometres of 0.
    ensures near { IsNearRange result }
{
    let mut range = None;
    for bend in 1..shape.faces() {
        if group.contains(bend) {
            range = Some(enclosing_range(range, line_range(shape, bend)));
        }
    }
    range.unwrap_or((0, 0))
}

/// Where the line of a bend begins and ends along its parent's side.
fn line_range(shape: &Shape, bend: u8) -> (i64, i64)
    requires some { 0 < bend }
    requires bend { bend < length shape.now.part.faces }
    ensures from { result.0 ≡ line_from shape.now bend }
    ensures to { result.1 ≡ line_to shape.now bend }
    ensures near { IsNearRange result }
{
    let joint = joint_of(shape.part(), bend);
    let core = shape.core(bend);
    (joint.at + core.x0, joint.at + core.x1)
}

/// The least range that holds both; the second alone, where there is no first.
fn enclosing_range(first: Option<(i64, i64)>, second: (i64, i64)) -> (i64, i64)
    ensures value { result ≡ enclosing_range first second }
    ensures near { IfSome first IsNearRange → IsNearRange second → IsNearRange result }
{
    match first {
        Some(first) => (first.0.min(second.0), first.1.max(second.1)),
        None => second,
    }
}
