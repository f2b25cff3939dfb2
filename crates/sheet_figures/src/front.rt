//! The stations from the front.
ghost use Rattle.std.specs.Prelude.{◌≡◌, ◌^◌, ◌<◌, ◌≤◌, ◌++◌, pos, unsigned_abs, codes, take, length, flat_map, All, OnOk};
ghost use Rattle.job_setup.specs.Setup.{stage_data};
ghost use Rattle.job_setup.specs.Near.{IsNearStage};
ghost use Rattle.job_setup.specs.ValidJob.{IsStage};
ghost use Rattle.sheet_paper.specs.Windows.{IsDrawable, IsPaper, IsWindow};
ghost use Rattle.sheet_paper.specs.FigureLines.{rectangle_line};
ghost use Rattle.sheet_figures.specs.Extending.{Extends};
ghost use Rattle.sheet_figures.specs.Fronts.{punch_area, die_area, joint_line, piece_end, joint_lines, front_station, front_of, machine_lines, machine_shapes, front_shapes, front_paper, HasFrontLines, IsFrontWindow, IsFrontFigure};
ghost use Rattle.job_setup.specs.Obstacles.{upper_boxes, lower_boxes};

use crate::forms::{LOWER_BOX, UPPER_BOX};
use crate::front_ends::{ends_of, low_margin, put_ends};
use crate::numbers::put_station_numbers;
use crate::side::{downwards, put_begin};
use crate::tools::{put_numbered, stage_at};
use crate::windows::window_for;
use job_setup::{Job, Stage, lower_boxes, upper_boxes};
use machine_file::Fixed;
use sheet_paper::{
    Area, Dashes, Paper, Window, put_figure_end, put_frame, put_line_between, put_rectangle,
    put_shapes_end,
};
use std::alloc::AllocError;

const TITLE: &[u8] = b"The stations, from the front";

const SENTENCE: &[u8] =
    b"Punches above and dies below, over their ranges of x, cut into their pieces.";

/// The rectangle of a box of the machine from the front.
fn front_of(body: &Fixed) -> Area
    ensures { result ≡ front_of body.now }
{
    Area {
        x0: body.x0,
        x1: body.x1,
        y0: body.rect.z0,
        y1: body.rect.z1,
    }
}

/// Boxes of the machine from the front, by their numbers.
fn put_boxes(
    out: &mut Vec<u8>,
    window: &Window,
    form: &'static [u8],
    boxes: &[Fixed],
) -> Result<(), AllocError>
    requires window { IsWindow window.now }
    requires few { length boxes.now ≤ 64 }
    ensures { OnOk result (out.new.items
        ≡ out.old.items ++ machine_lines form.now window.now 0 boxes.now) }
{
    for (i, body) in boxes.iter().enumerate() {
        put_numbered(out, window, form, i as u8, &front_of(body))?;
    }
    Ok(())
}

/// The machine's boxes of the upper group.
fn put_upper(out: &mut Vec<u8>, window: &Window, job: &Job) -> Result<(), AllocError>
    requires window { IsWindow window.now }
    requires some { 0 < length job.now.setup.stages }
    ensures { OnOk result (out.new.items ≡ out.old.items ++ machine_lines UPPER_BOX.now window.now 0
        (take (length job.now.setup.upper) (upper_boxes job.now))) }
{
    let count = job.setup().upper.len();
    let boxes = upper_boxes(job);
    put_boxes(out, window, UPPER_BOX, &boxes.as_slice()[..count])?;
    Ok(())
}

/// The machine's boxes of the lower group.
fn put_lower(out: &mut Vec<u8>, window: &Window, job: &Job) -> Result<(), AllocError>
    requires window { IsWindow window.now }
    requires some { 0 < length job.now.setup.stages }
    ensures { OnOk result (out.new.items ≡ out.old.items ++ machine_lines LOWER_BOX.now window.now 0
        (take (length job.now.setup.lower) (lower_boxes job.now))) }
{
    let count = job.setup().lower.len();
    let boxes = lower_boxes(job);
    put_boxes(out, window, LOWER_BOX, &boxes.as_slice()[..count])?;
    Ok(())
}

/// The machine's boxes.
#[tactic(auto, using(sheet_paper::proofs::Texts::pieces), unfolding(crate::specs::Fronts::machine_shapes))]
fn put_machine(out: &mut Vec<u8>, window: &Window, job: &Job) -> Result<(), AllocError>
    requires window { IsWindow window.now }
    requires some { 0 < length job.now.setup.stages }
    ensures { OnOk result (out.new.items ≡ out.old.items ++ machine_shapes window.now job.now) }
{
    put_upper(out, window, job)?;
    put_lower(out, window, job)
}

/// A line over the punch and the die of a station, where two pieces meet.
fn put_joint(
    out: &mut Vec<u8>,
    window: &Window,
    stage: &Stage,
    joint: i64,
) -> Result<(), AllocError>
    requires window { IsWindow window.now }
    requires stage { IsStage (stage_data stage.now) }
    ensures { OnOk result (out.new.items
        ≡ out.old.items ++ joint_line window.now (stage_data stage.now) joint) }
{
    let pen: (&'static [u8], i64, Dashes) = (b"thin", 1, Dashes::Whole);
    let foot = (joint, downwards(stage.die.height));
    let head = (joint, stage.punch.height);
    put_line_between(out, window, pen, foot, head)?;
    Ok(())
}

/// What the end of a piece shows: a joint, where the station goes on.
#[tactic(auto, using(sheet_paper::proofs::Texts::pieces), unfolding(crate::specs::Fronts::piece_end))]
fn put_piece_end(
    out: &mut Vec<u8>,
    window: &Window,
    stage: &Stage,
    end: i64,
) -> Result<(), AllocError>
    requires window { IsWindow window.now }
    requires stage { IsStage (stage_data stage.now) }
    ensures { OnOk result (out.new.items
        ≡ out.old.items ++ piece_end window.now (stage_data stage.now) end) }
{
    if end < stage.x1 {
        put_joint(out, window, stage, end)
    } else {
        Ok(())
    }
}

/// The joints of a station's pieces.
fn put_joints(out: &mut Vec<u8>, window: &Window, stage: &Stage) -> Result<(), AllocError>
    requires window { IsWindow window.now }
    requires stage { IsStage (stage_data stage.now) }
    requires near { IsNearStage (stage_data stage.now) }
    ensures { OnOk result (out.new.items ≡ out.old.items
        ++ joint_lines window.now (stage_data stage.now) stage.now.x0 stage.now.pieces.items) }
{
    let mut end = stage.x0;
    for piece in stage.pieces.as_slice() {
        end += *piece;
        put_piece_end(out, window, stage, end)?;
    }
    Ok(())
}

/// The rectangle of a station's punch.
fn punch_area(stage: &Stage) -> Area
    ensures { result ≡ punch_area (stage_data stage.now) }
{
    Area {
        x0: stage.x0,
        x1: stage.x1,
        y0: 0,
        y1: stage.punch.height,
    }
}

/// The rectangle of a station's die.
fn die_area(stage: &Stage) -> Area
    requires { IsStage (stage_data stage.now) }
    ensures { result ≡ die_area (stage_data stage.now) }
{
    Area {
        x0: stage.x0,
        x1: stage.x1,
        y0: downwards(stage.die.height),
        y1: 0,
    }
}

/// A punch or a die.
#[tactic(auto, using(sheet_paper::proofs::Texts::pieces))]
fn put_body(out: &mut Vec<u8>, window: &Window, area: &Area) -> Result<(), AllocError>
    requires { IsWindow window.now }
    ensures { OnOk result (out.new.items
        ≡ out.old.items ++ rectangle_line window.now (codes "body") (pos 2) area.now) }
{
    put_rectangle(out, window, b"body", 2, area)
}

/// A station: its punch, its die, and a line over both at each joint of two pieces.
#[tactic(auto, using(sheet_paper::proofs::Texts::pieces), unfolding(crate::specs::Fronts::front_station))]
fn put_station(out: &mut Vec<u8>, window: &Window, stage: &Stage) -> Result<(), AllocError>
    requires window { IsWindow window.now }
    requires stage { IsStage (stage_data stage.now) }
    requires near { IsNearStage (stage_data stage.now) }
    ensures { OnOk result (out.new.items
        ≡ out.old.items ++ front_station window.now (stage_data stage.now)) }
{
    put_body(out, window, &punch_area(stage))?;
    put_body(out, window, &die_area(stage))?;
    put_joints(out, window, stage)
}

/// The stations.
fn put_stations(out: &mut Vec<u8>, window: &Window, job: &Job) -> Result<(), AllocError>
    requires { IsWindow window.now }
    ensures { OnOk result (out.new.items
        ≡ out.old.items ++ flat_map (front_station window.now) job.now.setup.stages) }
{
    for stage in 0..job.stages() {
        put_station(out, window, stage_at(job, stage))?;
    }
    Ok(())
}

/// The machine's boxes and the stations.
#[tactic(auto, using(sheet_paper::proofs::Texts::pieces), unfolding(crate::specs::Fronts::front_shapes))]
fn put_shapes(out: &mut Vec<u8>, window: &Window, job: &Job) -> Result<(), AllocError>
    requires window { IsWindow window.now }
    requires some { 0 < length job.now.setup.stages }
    ensures { OnOk result (out.new.items ≡ out.old.items ++ front_shapes window.now job.now) }
{
    put_machine(out, window, job)?;
    put_stations(out, window, job)?;
    put_shapes_end(out)
}

/// The paper of the view, with this much room below the window, in millimetres.
fn front_paper(low: i64) -> Paper
    requires { unsigned_abs low ≤ 2 ^ 9 }
    ensures value { result ≡ front_paper low }
    ensures valid { IsPaper result }
{
    Paper {
        width: 186,
        height: 42 + low,
        left: 1,
        right: 1,
        top: 7,
        bottom: low,
    }
}

/// How much room the view shows above the tools, and as much below them.
fn spare_height(x0: i64, x1: i64) -> i64
    requires x0 { unsigned_abs x0 ≤ 2 ^ 40 }
    requires x1 { unsigned_abs x1 ≤ 2 ^ 40 }
    ensures { unsigned_abs result ≤ 2 ^ 42 }
{
    (x1 - x0) / 60 + 1
}

/// What the view shows: the first to the last end, and the tools with some room above and below.
fn front_area(x0: i64, x1: i64, stage: &Stage) -> Area
    requires x0 { unsigned_abs x0 ≤ 2 ^ 40 }
    requires x1 { unsigned_abs x1 ≤ 2 ^ 40 }
    requires stage { IsStage (stage_data stage.now) }
    ensures { IsDrawable result }
{
    let spare = spare_height(x0, x1);
    Area {
        x0,
        x1,
        y0: -stage.die.height - spare,
        y1: stage.punch.height + spare,
    }
}

/// The first of some ends.
fn first_of(ends: &[i64]) -> i64
    requires some { 0 < length ends.now }
    requires near { All (λ end. unsigned_abs end ≤ 2 ^ 40) ends.now }
    ensures { unsigned_abs result ≤ 2 ^ 40 }
{
    ends[0]
}

/// The last of some ends.
fn last_of(ends: &[i64]) -> i64
    requires some { 0 < length ends.now }
    requires near { All (λ end. unsigned_abs end ≤ 2 ^ 40) ends.now }
    ensures { unsigned_abs result ≤ 2 ^ 40 }
{
    ends[ends.len() - 1]
}

/// The window of the view, with this much room below it, in millimetres.
fn front_window(job: &Job, ends: &[i64], low: i64, number: i64) -> Window
    requires stages { 0 < length job.now.setup.stages }
    requires some { 0 < length ends.now }
    requires near { All (λ end. unsigned_abs end ≤ 2 ^ 40) ends.now }
    requires low { unsigned_abs low ≤ 2 ^ 9 }
    ensures value { IsFrontWindow number result }
    ensures valid { IsWindow result }
{
    let area = front_area(first_of(ends), last_of(ends), stage_at(job, 0));
    window_for(front_paper(low), &area, number)
}

/// The numbers of the stations above the window, and their ends below it.
fn put_marks(out: &mut Vec<u8>, window: &Window, job: &Job, ends: &[i64]) -> Result<(), AllocError>
    requires window { IsWindow window.now }
    requires stages { 0 < length job.now.setup.stages }
    requires few { length ends.now ≤ 16 }
    requires near { All (λ end. unsigned_abs end ≤ 2 ^ 40) ends.now }
    ensures { OnOk result (Extends out.old.items out.new.items) }
{
    put_station_numbers(out, window, job, window.head())?;
    put_ends(out, window, ends, stage_at(job, 0).die.height)?;
    Ok(())
}

/// The view in a window.
fn put_view(out: &mut Vec<u8>, window: &Window, job: &Job, ends: &[i64]) -> Result<(), AllocError>
    requires window { IsWindow window.now }
    requires stages { 0 < length job.now.setup.stages }
    requires few { length ends.now ≤ 16 }
    requires near { All (λ end. unsigned_abs end ≤ 2 ^ 40) ends.now }
    ensures value { OnOk result
        (HasFrontLines window.now job.now out.old.items out.new.items) }
    ensures grows { OnOk result (Extends out.old.items out.new.items) }
{
    put_begin(out, window, TITLE, SENTENCE)?;
    put_shapes(out, window, job)?;
    put_frame(out, window)?;
    put_marks(out, window, job, ends)?;
    put_figure_end(out, window, TITLE)?;
    Ok(())
}

/// The stations from the front: punches above and dies below, cut into their pieces, and where each
/// begins and ends.
pub fn put_front(out: &mut Vec<u8>, job: &Job, number: i64) -> Result<(), AllocError>
    ensures value { OnOk result (IsFrontFigure job.now number out.old.items out.new.items) }
    ensures grows { OnOk result (Extends out.old.items out.new.items) }
{
    let ends = ends_of(job);
    let low = low_margin(*out.allocator(), ends.as_slice())?;
    let window = front_window(job, ends.as_slice(), low, number);
    put_view(out, &window, job, ends.as_slice())?;
    Ok(())
}
