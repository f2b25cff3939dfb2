//! What the side views of a stroke show.
ghost use Rattle.std.specs.Prelude.{◌≡◌, ◌<◌, pos, neg_ℤ, ◌*ℤ◌, ◌≤ℤ◌, Some, [], ◌∷◌, All, IfSome, length, map, flat_map, fold};
ghost use Rattle.std.specs.Int.{int_max, int_div_euclid};
ghost use Rattle.fold_boxes.specs.Posing.{IsNearPoseBox};
ghost use Rattle.job_setup.specs.Setup.{stage_data};
ghost use Rattle.job_setup.specs.Near.{IsNearProfile, HasNearTools};
ghost use Rattle.job_setup.specs.ValidJob.{IsStage};
ghost use Rattle.job_setup.specs.Reasons.{across};
ghost use Rattle.sheet_views.specs.Near.{IsNearFingers, IsNearArea};
ghost use Rattle.sheet_views.specs.SideArea.{rect_reach, die_reach, tool_corners, turned, swept, box_corners, far_corners, finger_corners, shown_points, IsLeastRect, Grows, IsNearPoint};

use crate::fingers::Fingers;
use crate::stations::stage_at;
use brake_base::{Box3, Half, Rect};
use fold_boxes::{Pose, PoseBox};
use job_setup::{Job, Stage};

/// A point across the bed, in micrometres.
#[derive(Clone, Copy, Debug, Default, PartialEq, Eq)]
pub struct Point {
    pub y: i64,
    pub z: i64,
}

/// The rectangle of a box across the bed.
pub fn across(body: &Box3) -> Rect
    ensures { result ≡ across body.now }
{
    Rect {
        y0: body.lo.y,
        y1: body.hi.y,
        z0: body.lo.z,
        z1: body.hi.z,
    }
}

/// The least rectangle across the bed that holds what the side views of a stroke at a stage show:
/// the tools' working ends, the part before the stroke and after it, and the fingers.
pub fn side_area(job: &Job, stage: u8, pose: &Pose, fingers: Option<Fingers>) -> Rect
    requires stage { stage < length job.now.setup.stages }
    requires near { All IsNearPoseBox pose.now.boxes.items }
    requires fingers { IfSome fingers IsNearFingers }
    ensures value { IsLeastRect (shown_points job.now stage pose.now.boxes.items fingers) result }
    ensures near { IsNearArea result }
{
    let tools = tools_area(job.part().thickness, stage_at(job, stage));
    let part = with_boxes(&tools, pose.boxes.as_slice());
    match fingers {
        Some(fingers) => with_fingers(&part, &fingers),
        None => part,
    }
}

/// The least rectangle that holds the tools' working ends.
fn tools_area(thickness: i64, stage: &Stage) -> Rect
    requires thin { pos 0 ≤ℤ thickness }
    requires thick { thickness ≤ℤ pos 50000 }
    requires stage { IsStage (stage_data stage.now) }
    requires near { HasNearTools (stage_data stage.now) }
    ensures { IsLeastRect (tool_corners thickness (stage_data stage.now)) result }
{
    let reach = die_reach(stage);
    let low = Point {
        y: -reach,
        z: -thickness - stage.die.v,
    };
    let high = Point {
        y: reach,
        z: top_of_view(stage),
    };
    with_point(&only(&low), &high)
}

/// How high above the sheet the tools are shown.
fn top_of_view(stage: &Stage) -> i64
    requires { IsStage (stage_data stage.now) }
    ensures { result ≡ int_max (pos 2 *ℤ stage.now.punch.nose) (pos 2 *ℤ stage.now.die.v) }
{
    (2 * stage.punch.nose).max(2 * stage.die.v)
}

/// How far the die is shown on both sides of the bend line.
fn die_reach(stage: &Stage) -> i64
    requires stage { IsStage (stage_data stage.now) }
    requires near { HasNearTools (stage_data stage.now) }
    ensures value { result ≡ die_reach (stage_data stage.now) }
    ensures low { pos 0 ≤ℤ result }
    ensures high { result ≤ℤ pos 3000000 }
{
    let v = stage.die.v;
    farthest(stage.die.body.as_slice()).max(v).min(3 * v)
}

/// How far the farthest of some boxes reaches from the bend line; 0 where there is none.
fn farthest(boxes: &[Rect]) -> i64
    requires { All IsNearProfile boxes.now }
    ensures { result ≡ fold int_max (pos 0) (map rect_reach boxes.now) }
{
    let mut far = 0;
    for rect in boxes {
        far = farther(far, rect);
    }
    far
}

/// The greater of a distance and how far a box reaches from the bend line.
fn farther(far: i64, rect: &Rect) -> i64
    requires { IsNearProfile rect.now }
    ensures { result ≡ int_max far (rect_reach rect.now) }
{
    far.max(rect_reach(rect))
}

/// How far a box reaches from the bend line.
fn rect_reach(rect: &Rect) -> i64
    requires { IsNearProfile rect.now }
    ensures { result ≡ rect_reach rect.now }
{
    rect.y0.abs().max(rect.y1.abs())
}

/// The area with the corners of the part's boxes, before the stroke and after it.
fn with_boxes(area: &Rect, boxes: &[PoseBox]) -> Rect
    requires near { All IsNearPoseBox boxes.now }
    ensures { Grows area.now (flat_map box_corners boxes.now) result }
{
    let mut grown = *area;
    for pose_box in boxes {
        grown = with_box(&grown, pose_box);
    }
    grown
}

/// The area with the four corners of a box, before the stroke and after it.
fn with_box(area: &Rect, pose_box: &PoseBox) -> Rect
    requires near { IsNearPoseBox pose_box.now }
    ensures { Grows area.now (box_corners pose_box.now) result }
{
    let half = pose_box.half;
    let (lo, hi) = (pose_box.body.lo, pose_box.body.hi);
    let low = with_corner(area, half, &Point { y: lo.y, z: lo.z });
    let low = with_corner(&low, half, &Point { y: hi.y, z: lo.z });
    let high = with_corner(&low, half, &Point { y: lo.y, z: hi.z });
    with_corner(&high, half, &Point { y: hi.y, z: hi.z })
}

/// The area with a corner of a half, before the stroke and after it.
fn with_corner(area: &Rect, half: Half, corner: &Point) -> Rect
    requires near { IsNearPoint corner.now }
    ensures { Grows area.now (swept half corner.now) result }
{
    with_point(&with_point(area, corner), &turned(half, corner))
}

/// Where a point of a half is after the stroke, or a little beyond.
fn turned(half: Half, p: &Point) -> Point
    requires near { IsNearPoint p.now }
    ensures { result ≡ turned half p.now }
{
    match half {
        Half::Back => turned_back(p),
        Half::Front => turned_front(p),
    }
}

/// Where a point of the back half is then.
fn turned_back(p: &Point) -> Point
    requires near { IsNearPoint p.now }
    ensures { result ≡ turned Half.Back p.now }
{
    Point {
        y: five_sevenths(p.y - p.z),
        z: five_sevenths(p.y + p.z),
    }
}

/// Where a point of the front half is then.
fn turned_front(p: &Point) -> Point
    requires near { IsNearPoint p.now }
    ensures { result ≡ turned Half.Front p.now }
{
    Point {
        y: five_sevenths(p.y + p.z),
        z: five_sevenths(p.z - p.y),
    }
}

/// 5/7 of a length, rounded down: 5/7 stands for the cosine of 45 degrees.
fn five_sevenths(n: i64) -> i64
    requires low { neg_ℤ (pos 2000000000) ≤ℤ n }
    requires high { n ≤ℤ pos 2000000000 }
    ensures { result ≡ int_div_euclid (pos 5 *ℤ n) (pos 7) }
{
    (5 * n).div_euclid(7)
}

/// The area with the far ends of the fingers.
fn with_fingers(area: &Rect, fingers: &Fingers) -> Rect
    ensures { Grows area.now (finger_corners (Some fingers.now)) result }
{
    with_finger(&with_finger(area, &fingers.left), &fingers.right)
}

/// The area with a finger's far end.
fn with_finger(area: &Rect, finger: &Box3) -> Rect
    ensures { Grows area.now (far_corners finger.now) result }
{
    let y = finger.hi.y;
    let low = with_point(area, &Point { y, z: finger.lo.z });
    with_point(&low, &Point { y, z: finger.hi.z })
}

/// The rectangle that is one point.
fn only(p: &Point) -> Rect
    ensures { IsLeastRect (p.now ∷ []) result }
{
    Rect {
        y0: p.y,
        y1: p.y,
        z0: p.z,
        z1: p.z,
    }
}

/// The least rectangle that holds a rectangle and a point.
fn with_point(area: &Rect, p: &Point) -> Rect
    ensures { Grows area.now (p.now ∷ []) result }
{
    Rect {
        y0: area.y0.min(p.y),
        y1: area.y1.max(p.y),
        z0: area.z0.min(p.z),
        z1: area.z1.max(p.z),
    }
}
