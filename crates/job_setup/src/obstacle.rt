//! What stands around the part at a stage. Lengths are in micrometres.
ghost use Rattle.std.specs.Prelude.{◌≡◌, ◌+◌, ◌<◌, ◌≤◌, pos, neg_ℤ, ◌≤ℤ◌, int_div, int_le, ◌||◌, ◌++◌, length, map, flat_map, All};
ghost use Rattle.std.specs.List.{enumerate_from};
ghost use Rattle.tool_library.specs.Tools.{IsDie, die_data};
ghost use Rattle.unfolder.specs.Extent.{IsNear};
ghost use Rattle.job_setup.specs.Setup.{stage_data};
ghost use Rattle.job_setup.specs.ValidJob.{IsJob};
ghost use Rattle.job_setup.specs.Near.{IsNearBox};
ghost use Rattle.job_setup.specs.Obstacles.{raised, raised_box, along_stage, upper_boxes, lower_boxes, is_sunk, swept_rect, upper_obstacle, lower_obstacle, upper_group, lower_group, obstacles_of, AreBendSizes, GivesFirst};

use crate::job::Job;
use crate::setup::Stage;
use crate::strokes::stage_at;
use arrayvec::ArrayVec;
use brake_base::Rect;
use machine_file::Fixed;
use std::marker::Model;
use tool_library::Die;

/// On which side of the sheet an obstacle stands: with the punches, which rest, or with the dies,
/// which rise as the sheet is bent. A sunk box can't be met by the sheet that rises from it.
#[derive(Clone, Copy, Debug, Default, PartialEq, Eq)]
pub enum Group {
    #[default]
    Upper,
    Lower { sunk: bool },
}

/// A box of the machine or of a tool: its number within its group, its range along the bed, and its
/// rectangle across it, y to the back and z up from the sheet's upper surface.
#[derive(Clone, Copy, Debug, Default, PartialEq, Eq)]
pub struct Obstacle {
    pub index: u8,
    pub x0: i64,
    pub x1: i64,
    pub rect: Rect,
    pub group: Group,
}

/// The obstacles that are still to be given: the upper group, then the lower group.
#[derive(Drop)]
pub struct ObstacleIter {
    upper: ArrayVec<Obstacle, 64>,
    lower: ArrayVec<Obstacle, 64>,
    upper_given: usize,
    lower_given: usize,
}

impl Model for ObstacleIter {
    ghost use Rattle.std.specs.Prelude.{List, ◌++◌, drop};
    ghost use Rattle.job_setup.specs.declared.obstacle.Obstacle.{Obstacle};

    ghost Value = { List Obstacle };

    ghost view = { λ o. drop o.upper_given o.upper.items ++ drop o.lower_given o.lower.items };
}

/// The obstacles of a stroke at a stage.
pub fn obstacles(job: &Job, stage: u8) -> ObstacleIter
    requires stage { stage < length job.now.setup.stages }
    ensures value { result ≡ obstacles_of job.now stage }
{
    ObstacleIter {
        upper: upper_group(job),
        lower: lower_group(job, stage),
        upper_given: 0,
        lower_given: 0,
    }
}

impl ObstacleIter {
    /// The first obstacle that is still to be given, and the others are left. None exactly where none is.
    pub fn next(&mut self) -> Option<Obstacle>
        ensures { GivesFirst self.old result self.new }
    {
        if self.upper_given < self.upper.len() {
            let obstacle = self.upper.as_slice()[self.upper_given];
            self.upper_given += 1;
            return Some(obstacle);
        }
        if self.lower_given < self.lower.len() {
            let obstacle = self.lower.as_slice()[self.lower_given];
            self.lower_given += 1;
            return Some(obstacle);
        }
        None
    }
}

/// The upper group, which is the same at each stage: the beam and the punches.
pub fn upper_group(job: &Job) -> ArrayVec<Obstacle, 64>
    requires some { 0 < length job.now.setup.stages }
    ensures value { result.items ≡ upper_group job.now }
    ensures valid { IsJob job.now }
{
    let boxes = upper_boxes(job);
    upper_obstacles(boxes.as_slice())
}

/// The lower group, for a stroke at a stage: the bed and the dies.
pub fn lower_group(job: &Job, stage: u8) -> ArrayVec<Obstacle, 64>
    requires stage { stage < length job.now.setup.stages }
    ensures value { result.items ≡ lower_group job.now stage }
    ensures valid { IsJob job.now }
{
    let thickness = job.part().thickness;
    let boxes = lower_boxes(job);
    let half_opening = half_opening(&stage_at(job, stage).die);
    lower_obstacles(boxes.as_slice(), thickness, half_opening)
}

fn upper_obstacles(boxes: &[Fixed]) -> ArrayVec<Obstacle, 64>
    requires few { length boxes.now ≤ 64 }
    ensures value { result.items ≡ map upper_obstacle (enumerate_from 0 boxes.now) }
{
    let mut group = ArrayVec::new();
    for fixed in boxes {
        group.push(upper_obstacle(group.len() as u8, fixed));
    }
    group
}

fn lower_obstacles(boxes: &[Fixed], thickness: i64, half_opening: i64) -> ArrayVec<Obstacle, 64>
    requires few { length boxes.now ≤ 64 }
    requires near { All IsNearBox boxes.now }
    requires sweep { AreBendSizes thickness half_opening }
    ensures value { result.items
        ≡ map (lower_obstacle thickness half_opening) (enumerate_from 0 boxes.now) }
{
    let mut group = ArrayVec::new();
    for fixed in boxes {
        group.push(lower_obstacle(group.len() as u8, fixed, thickness, half_opening));
    }
    group
}

/// Half of the width of a die's opening.
fn half_opening(die: &Die) -> i64
    requires { IsDie (die_data die.now) }
    ensures value { result ≡ int_div die.now.v (pos 2) }
    ensures low { pos 0 ≤ℤ result }
    ensures high { result ≤ℤ pos 500000 }
{
    die.v / 2
}

fn upper_obstacle(index: u8, fixed: &Fixed) -> Obstacle
    ensures { result ≡ upper_obstacle (index, fixed.now) }
{
    Obstacle {
        index,
        x0: fixed.x0,
        x1: fixed.x1,
        rect: fixed.rect,
        group: Group::Upper,
    }
}

fn lower_obstacle(index: u8, fixed: &Fixed, thickness: i64, half_opening: i64) -> Obstacle
    requires near { IsNearBox fixed.now }
    requires sweep { AreBendSizes thickness half_opening }
    ensures { result ≡ lower_obstacle thickness half_opening (index, fixed.now) }
{
    Obstacle {
        index,
        x0: fixed.x0,
        x1: fixed.x1,
        rect: swept_rect(&fixed.rect, thickness, half_opening),
        group: Group::Lower {
            sunk: is_sunk(&fixed.rect, half_opening),
        },
    }
}

/// Where a lower box stands while the sheet is bent.
fn swept_rect(rect: &Rect, thickness: i64, half_opening: i64) -> Rect
    requires low { IsNear rect.now.z0 }
    requires high { IsNear rect.now.z1 }
    requires sweep { AreBendSizes thickness half_opening }
    ensures { result ≡ swept_rect thickness half_opening rect.now }
{
    Rect {
        z0: rect.z0 - thickness,
        z1: rect.z1 - thickness + half_opening,
        ..*rect
    }
}

/// Whether the rising sheet can't meet a lower box.
fn is_sunk(rect: &Rect, half_opening: i64) -> bool
    requires low { pos 0 ≤ℤ half_opening }
    requires high { half_opening ≤ℤ pos 500000 }
    ensures { result ≡ is_sunk half_opening rect.now }
{
    rect.z1 <= 0 && is_away(rect, half_opening)
}

/// Whether the box lies behind, before or as deep as half the opening.
fn is_away(rect: &Rect, half_opening: i64) -> bool
    requires low { pos 0 ≤ℤ half_opening }
    requires high { half_opening ≤ℤ pos 500000 }
    ensures { result ≡ ((int_le half_opening rect.now.y0 || int_le rect.now.y1 (neg_ℤ half_opening))
        || int_le rect.now.z1 (neg_ℤ half_opening)) }
{
    is_beside(rect, half_opening) || is_past(rect.z1, half_opening)
}

/// Whether it lies behind or before it.
fn is_beside(rect: &Rect, half_opening: i64) -> bool
    requires low { pos 0 ≤ℤ half_opening }
    requires high { half_opening ≤ℤ pos 500000 }
    ensures { result ≡ (int_le half_opening rect.now.y0
        || int_le rect.now.y1 (neg_ℤ half_opening)) }
{
    rect.y0 >= half_opening || is_past(rect.y1, half_opening)
}

/// Whether a coordinate is as far on the negative side.
fn is_past(end: i64, half_opening: i64) -> bool
    requires low { pos 0 ≤ℤ half_opening }
    requires high { half_opening ≤ℤ pos 500000 }
    ensures { result ≡ int_le end (neg_ℤ half_opening) }
{
    end <= -half_opening
}

/// The boxes of the upper group, which is the same at each stage: the beam and the punches.
pub fn upper_boxes(job: &Job) -> ArrayVec<Fixed, 64>
    requires some { 0 < length job.now.setup.stages }
    ensures value { result.items ≡ upper_boxes job.now }
    ensures valid { IsJob job.now }
    ensures few { length result.items ≤ 64 }
{
    let setup = job.setup();
    let mut boxes = ArrayVec::new();
    put_raised(
        setup.upper.as_slice(),
        stage_at(job, 0).punch.height,
        &mut boxes,
    );
    put_punches(setup.stages.as_slice(), &mut boxes);
    boxes
}

/// The boxes of the lower group: the bed and the dies of all stages.
pub fn lower_boxes(job: &Job) -> ArrayVec<Fixed, 64>
    requires some { 0 < length job.now.setup.stages }
    ensures value { result.items ≡ lower_boxes job.now }
    ensures valid { IsJob job.now }
    ensures few { length result.items ≤ 64 }
    ensures near { All IsNearBox result.items }
{
    let setup = job.setup();
    let mut boxes = ArrayVec::new();
    put_raised(
        setup.lower.as_slice(),
        -stage_at(job, 0).die.height,
        &mut boxes,
    );
    put_dies(setup.stages.as_slice(), &mut boxes);
    boxes
}

/// Puts the machine's boxes on top of the tools, or under them.
fn put_raised(fixed: &[Fixed], by: i64, boxes: &mut ArrayVec<Fixed, 64>)
    requires near { All IsNearBox fixed.now }
    requires by { IsNear by }
    requires room { length boxes.old.items + length fixed.now ≤ 64 }
    ensures value { boxes.new.items ≡ boxes.old.items ++ map (raised_box by) fixed.now }
{
    for one in fixed {
        boxes.push(raised_box(one, by));
    }
}

fn raised_box(fixed: &Fixed, by: i64) -> Fixed
    requires near { IsNearBox fixed.now }
    requires by { IsNear by }
    ensures { result ≡ raised_box by fixed.now }
{
    Fixed {
        x0: fixed.x0,
        x1: fixed.x1,
        rect: raised(&fixed.rect, by),
    }
}

fn raised(rect: &Rect, by: i64) -> Rect
    requires low { IsNear rect.now.z0 }
    requires high { IsNear rect.now.z1 }
    requires by { IsNear by }
    ensures { result ≡ raised by rect.now }
{
    Rect {
        z0: rect.z0 + by,
        z1: rect.z1 + by,
        ..*rect
    }
}

/// Puts the boxes of the stages' punches.
fn put_punches(stages: &[Stage], boxes: &mut ArrayVec<Fixed, 64>)
    requires few { length stages.now ≤ 6 }
    requires room { length boxes.old.items ≤ 16 }
    ensures value { boxes.new.items
        ≡ boxes.old.items
        ++ flat_map (λ stage. map (along_stage (stage_data stage)) stage.punch.body.items)
        stages.now }
    ensures few { length boxes.new.items ≤ 64 }
{
    for stage in stages {
        put_profile(stage, stage.punch.body.as_slice(), boxes);
    }
}

/// Puts the boxes of their dies.
fn put_dies(stages: &[Stage], boxes: &mut ArrayVec<Fixed, 64>)
    requires few { length stages.now ≤ 6 }
    requires room { length boxes.old.items ≤ 16 }
    ensures value { boxes.new.items
        ≡ boxes.old.items
        ++ flat_map (λ stage. map (along_stage (stage_data stage)) stage.die.body.items) stages.now }
    ensures few { length boxes.new.items ≤ 64 }
{
    for stage in stages {
        put_profile(stage, stage.die.body.as_slice(), boxes);
    }
}

/// Puts the boxes of a tool's profile, along its stage.
fn put_profile(stage: &Stage, profile: &[Rect], boxes: &mut ArrayVec<Fixed, 64>)
    requires room { length boxes.old.items + length profile.now ≤ 64 }
    ensures value { boxes.new.items
        ≡ boxes.old.items ++ map (along_stage (stage_data stage.now)) profile.now }
{
    for rect in profile {
        boxes.push(Fixed {
            x0: stage.x0,
            x1: stage.x1,
            rect: *rect,
        });
    }
}
