//! What the rules don't test of the stop fingers.
ghost use Rattle.std.specs.Prelude.{◌≡◌, ◌+◌, ◌<◌, ◌≤◌, ◌++◌, pos, neg_ℤ, ◌≤ℤ◌, int_lt, ◌||◌, length, All};
ghost use Rattle.std.specs.List.{list_any};
ghost use Rattle.job_setup.specs.Setup.{stage_data};
ghost use Rattle.job_setup.specs.Near.{IsNearBox, IsNearProfile};
ghost use Rattle.job_setup.specs.Obstacles.{raised_box, along_stage};
ghost use Rattle.job_setup.specs.Places.{is_overlap};
ghost use Rattle.sheet_views.specs.Hazards.{body_of, overlaps, is_met, is_some_met, is_tool_met, is_hazard, which, warning_of, by_station, warnings, IsHazardOf};

use crate::fingers::Fingers;
use crate::stations::{is_overlap, stage_at};
use arrayvec::ArrayVec;
use brake_base::{Box3, Rect, V3, overlap};
use job_setup::{Job, Stage, lower_boxes, upper_boxes};
use machine_file::Fixed;

/// Which of the stop fingers.
#[derive(Clone, Copy, Debug, Default, PartialEq, Eq)]
pub enum Finger {
    #[default]
    Left,
    Right,
    Both,
}

/// What the rules don't test of a finger.
#[derive(Clone, Copy, Debug, Default, PartialEq, Eq)]
pub enum Hazard {
    /// It reaches into the bed under the dies.
    #[default]
    Bed,
    /// It reaches into the die of a station.
    Die(u8),
    /// It reaches into the beam above the punches.
    Beam,
    /// It reaches into the punch of a station.
    Punch(u8),
    /// It stands in a side frame.
    SideFrame,
    /// It doesn't stand within the bed's range.
    BesideBed,
}

/// A hazard, and for which finger.
#[derive(Clone, Copy, Debug, Default, PartialEq, Eq)]
pub struct Warning {
    pub finger: Finger,
    pub hazard: Hazard,
}

/// The warnings of a stroke.
pub type Warnings = ArrayVec<Warning, 16>;

/// What the rules don't test of these fingers, in the order of the hazards, each once: where a finger
/// reaches into the bed, the beam or a tool as they rest before the stroke, with the dies lowered by
/// the sheet's thickness; where it stands in a side frame; and where it stands beside the bed.
pub fn warnings(job: &Job, fingers: &Fingers) -> Warnings
    ensures { result.items ≡ warnings job.now fingers.now }
{
    let mut found = ArrayVec::new();
    put_warning(job, fingers, Hazard::Bed, &mut found);
    put_dies(job, fingers, &mut found);
    put_warning(job, fingers, Hazard::Beam, &mut found);
    put_punches(job, fingers, &mut found);
    put_warning(job, fingers, Hazard::SideFrame, &mut found);
    put_warning(job, fingers, Hazard::BesideBed, &mut found);
    found
}

/// Puts the warnings of the dies.
fn put_dies(job: &Job, fingers: &Fingers, found: &mut Warnings)
    requires room { length found.old.items + 6 ≤ 16 }
    ensures value { found.new.items
        ≡ found.old.items ++ by_station job.now fingers.now Hazard.Die }
    ensures few { length found.new.items ≤ length found.old.items + 6 }
{
    for station in 0..job.stages() {
        put_warning(job, fingers, Hazard::Die(station), found);
    }
}

/// Puts the warnings of the punches.
fn put_punches(job: &Job, fingers: &Fingers, found: &mut Warnings)
    requires room { length found.old.items + 6 ≤ 16 }
    ensures value { found.new.items
        ≡ found.old.items ++ by_station job.now fingers.now Hazard.Punch }
    ensures few { length found.new.items ≤ length found.old.items + 6 }
{
    for station in 0..job.stages() {
        put_warning(job, fingers, Hazard::Punch(station), found);
    }
}

/// Puts the warning of a hazard, where it is there for a finger.
fn put_warning(job: &Job, fingers: &Fingers, hazard: Hazard, found: &mut Warnings)
    requires hazard { IsHazardOf (length job.now.setup.stages) hazard }
    requires room { length found.old.items + 1 ≤ 16 }
    ensures value { found.new.items ≡ found.old.items ++ warning_of job.now fingers.now hazard }
    ensures few { length found.new.items ≤ length found.old.items + 1 }
{
    let left = is_hazard(job, &fingers.left, hazard);
    let right = is_hazard(job, &fingers.right, hazard);
    if let Some(finger) = which(left, right) {
        found.push(Warning { finger, hazard });
    }
}

/// Which of the fingers, by whether it is the left one and whether it is the right one.
fn which(left: bool, right: bool) -> Option<Finger>
    ensures { result ≡ which left right }
{
    match (left, right) {
        (true, true) => Some(Finger::Both),
        (true, false) => Some(Finger::Left),
        (false, true) => Some(Finger::Right),
        (false, false) => None,
    }
}

/// Whether the hazard is there for a finger.
fn is_hazard(job: &Job, finger: &Box3, hazard: Hazard) -> bool
    requires { IsHazardOf (length job.now.setup.stages) hazard }
    ensures { result ≡ is_hazard job.now finger.now hazard }
{
    match hazard {
        Hazard::Bed => is_in_bed(job, finger),
        Hazard::Die(station) => is_in_die(job, finger, station),
        Hazard::Beam => is_in_beam(job, finger),
        Hazard::Punch(station) => is_in_punch(job, finger, station),
        Hazard::SideFrame => is_in_frame(finger, job.setup().frames.as_slice()),
        Hazard::BesideBed => is_beside(finger, job.setup().bed),
    }
}

/// Whether a finger reaches into the bed.
fn is_in_bed(job: &Job, finger: &Box3) -> bool
    ensures { result ≡ is_hazard job.now finger.now Hazard.Bed }
{
    let count = job.setup().lower.len();
    let boxes = lower_boxes(job);
    is_some_met(finger, -job.part().thickness, &boxes.as_slice()[..count])
}

/// Whether a finger reaches into the beam.
fn is_in_beam(job: &Job, finger: &Box3) -> bool
    ensures { result ≡ is_hazard job.now finger.now Hazard.Beam }
{
    let count = job.setup().upper.len();
    let boxes = upper_boxes(job);
    is_some_met(finger, 0, &boxes.as_slice()[..count])
}

/// Whether a finger reaches into the die of a station.
fn is_in_die(job: &Job, finger: &Box3, station: u8) -> bool
    requires { station < length job.now.setup.stages }
    ensures { result ≡ is_hazard job.now finger.now (Hazard.Die station) }
{
    let stage = stage_at(job, station);
    is_tool_met(
        finger,
        -job.part().thickness,
        stage,
        stage.die.body.as_slice(),
    )
}

/// Whether a finger reaches into the punch of a station.
fn is_in_punch(job: &Job, finger: &Box3, station: u8) -> bool
    requires { station < length job.now.setup.stages }
    ensures { result ≡ is_hazard job.now finger.now (Hazard.Punch station) }
{
    let stage = stage_at(job, station);
    is_tool_met(finger, 0, stage, stage.punch.body.as_slice())
}

/// Whether a finger reaches into one of the boxes, moved up by so much.
fn is_some_met(finger: &Box3, by: i64, boxes: &[Fixed]) -> bool
    requires near { All IsNearBox boxes.now }
    requires low { neg_ℤ (pos 50000) ≤ℤ by }
    requires high { by ≤ℤ pos 0 }
    ensures { result ≡ is_some_met finger.now by boxes.now }
{
    boxes.iter().any(|fixed| is_met(finger, by, fixed))
}

/// Whether a finger reaches into one of the boxes of a tool that stands on a stage.
fn is_tool_met(finger: &Box3, by: i64, stage: &Stage, profile: &[Rect]) -> bool
    requires near { All IsNearProfile profile.now }
    requires low { neg_ℤ (pos 50000) ≤ℤ by }
    requires high { by ≤ℤ pos 0 }
    ensures { result ≡ is_tool_met finger.now by (stage_data stage.now) profile.now }
{
    profile
        .iter()
        .any(|rect| is_rect_met(finger, by, stage, rect))
}

/// Whether a finger reaches into a box of such a tool.
fn is_rect_met(finger: &Box3, by: i64, stage: &Stage, rect: &Rect) -> bool
    requires near { IsNearProfile rect.now }
    requires low { neg_ℤ (pos 50000) ≤ℤ by }
    requires high { by ≤ℤ pos 0 }
    ensures { result ≡ is_met finger.now by (along_stage (stage_data stage.now) rect.now) }
{
    overlaps(finger, &raised_box(stage.x0, stage.x1, rect, by))
}

/// Whether a finger reaches into a box.
fn is_met(finger: &Box3, by: i64, fixed: &Fixed) -> bool
    requires near { IsNearBox fixed.now }
    requires low { neg_ℤ (pos 50000) ≤ℤ by }
    requires high { by ≤ℤ pos 0 }
    ensures { result ≡ is_met finger.now by fixed.now }
{
    overlaps(finger, &raised_box(fixed.x0, fixed.x1, &fixed.rect, by))
}

/// A rectangle across the bed over a range along it, moved up by so much.
fn raised_box(x0: i64, x1: i64, rect: &Rect, by: i64) -> Box3
    requires near { IsNearProfile rect.now }
    requires low { neg_ℤ (pos 50000) ≤ℤ by }
    requires high { by ≤ℤ pos 0 }
    ensures { result ≡ body_of (raised_box by (record { x0 = x0; x1 = x1; rect = rect.now })) }
{
    Box3 {
        lo: V3 {
            x: x0,
            y: rect.y0,
            z: rect.z0 + by,
        },
        hi: V3 {
            x: x1,
            y: rect.y1,
            z: rect.z1 + by,
        },
    }
}

/// Whether the interiors of two boxes share a point.
fn overlaps(a: &Box3, b: &Box3) -> bool
    ensures { result ≡ overlaps a.now b.now }
{
    overlap(a, b)
}

/// Whether a finger stands in a side frame.
fn is_in_frame(finger: &Box3, frames: &[(i64, i64)]) -> bool
    ensures { result ≡ list_any (is_overlap (finger.now.lo.x, finger.now.hi.x)) frames.now }
{
    frames
        .iter()
        .any(|frame| is_overlap((finger.lo.x, finger.hi.x), *frame))
}

/// Whether a finger doesn't stand within a range of the bed.
fn is_beside(finger: &Box3, bed: (i64, i64)) -> bool
    ensures { result ≡ (int_lt finger.now.lo.x bed.0 || int_lt bed.1 finger.now.hi.x) }
{
    finger.lo.x < bed.0 || bed.1 < finger.hi.x
}
