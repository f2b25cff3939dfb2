//! The whole bed from the front.
ghost use Rattle.std.specs.Prelude.{◌≡◌, ◌^◌, ◌<◌, ◌≤◌, ◌++◌, unsigned_abs, length, flat_map, OnOk};
ghost use Rattle.job_setup.specs.StageOf.{stage_of};
ghost use Rattle.sheet_paper.specs.Windows.{IsWindow, IsPaper, IsDrawable, IsScale};
ghost use Rattle.sheet_paper.specs.FigureLines.{label_data, IsLabel};
ghost use Rattle.sheet_figures.specs.Beds.{stripe, half_width, station_stripe, bed_range_line, side_frame_line, station_line, bed_shapes, end_label, bed_end_line, HasBedMarks, bed_paper, bed_area, IsBedWindow, IsBedFigure};
ghost use Rattle.sheet_figures.specs.Extending.{Extends};

use crate::numbers::{middle, put_station_numbers, range_of};
use crate::side::put_begin;
use brake_text::put_word;
use job_setup::Job;
use sheet_paper::{
    Area, Label, Paper, Window, least_scale, put_figure_end, put_label, put_rectangle,
    put_shapes_end,
};
use sheet_words::{mm, put_mm, put_plural};
use std::alloc::{AllocError, Global};

const TITLE: &[u8] = b"The whole bed, from the front";

/// The range of the bed.
fn bed_of(job: &Job) -> (i64, i64)
    ensures value { result ≡ job.now.setup.bed }
    ensures from { unsigned_abs result.0 ≤ 2 ^ 40 }
    ensures to { unsigned_abs result.1 ≤ 2 ^ 40 }
{
    job.setup().bed
}

/// A range of the bed between two heights, in tenths of a millimetre of paper.
fn stripe(window: &Window, x0: i64, x1: i64, low: i64, high: i64) -> Area
    requires window { IsWindow window.now }
    requires low { unsigned_abs low ≤ 2 ^ 20 }
    requires high { unsigned_abs high ≤ 2 ^ 20 }
    ensures { result ≡ stripe window.now x0 x1 low high }
{
    Area {
        x0,
        x1,
        y0: window.tenths(low),
        y1: window.tenths(high),
    }
}

/// Half of the width at which a range is drawn, which is never too narrow to be seen.
fn half_width(window: &Window, middle: i64, x1: i64) -> i64
    requires window { IsWindow window.now }
    requires middle { unsigned_abs middle ≤ 2 ^ 48 }
    requires x1 { unsigned_abs x1 ≤ 2 ^ 47 }
    ensures value { result ≡ half_width window.now middle x1 }
    ensures near { unsigned_abs result ≤ 2 ^ 50 }
{
    (x1 - middle).max(window.tenths(5))
}

/// The range of a station, as it is drawn.
fn station_stripe(window: &Window, x0: i64, x1: i64) -> Area
    requires window { IsWindow window.now }
    requires x0 { unsigned_abs x0 ≤ 2 ^ 40 }
    requires x1 { unsigned_abs x1 ≤ 2 ^ 40 }
    ensures { result ≡ station_stripe window.now x0 x1 }
{
    let at = middle(x0, x1);
    let half = half_width(window, at, x1);
    stripe(window, at - half, at + half, 10, 40)
}

/// A station, seen from the front.
fn put_station(out: &mut Vec<u8>, window: &Window, job: &Job, stage: u8) -> Result<(), AllocError>
    requires window { IsWindow window.now }
    requires stage { stage < length job.now.setup.stages }
    ensures { OnOk result (out.new.items
        ≡ out.old.items ++ station_line window.now (stage_of job.now stage)) }
{
    let range = range_of(job, stage);
    let area = station_stripe(window, range.0, range.1);
    put_rectangle(out, window, b"solid", 1, &area)?;
    Ok(())
}

/// The stations.
fn put_stations(out: &mut Vec<u8>, window: &Window, job: &Job) -> Result<(), AllocError>
    requires { IsWindow window.now }
    ensures { OnOk result (out.new.items
        ≡ out.old.items ++ flat_map (station_line window.now) job.now.setup.stages) }
{
    for stage in 0..job.stages() {
        put_station(out, window, job, stage)?;
    }
    Ok(())
}

/// A side frame.
#[tactic(auto, using(sheet_paper::proofs::Texts::pieces))]
fn put_side_frame(out: &mut Vec<u8>, window: &Window, frame: &(i64, i64)) -> Result<(), AllocError>
    requires { IsWindow window.now }
    ensures { OnOk result (out.new.items ≡ out.old.items ++ side_frame_line window.now frame.now) }
{
    put_rectangle(
        out,
        window,
        b"body",
        2,
        &stripe(window, frame.0, frame.1, 0, 50),
    )
}

/// Side frames.
fn put_side_frames(
    out: &mut Vec<u8>,
    window: &Window,
    frames: &[(i64, i64)],
) -> Result<(), AllocError>
    requires { IsWindow window.now }
    ensures { OnOk result (out.new.items
        ≡ out.old.items ++ flat_map (side_frame_line window.now) frames.now) }
{
    for frame in frames {
        put_side_frame(out, window, frame)?;
    }
    Ok(())
}

/// The side frames of the bed.
fn put_bed_frames(out: &mut Vec<u8>, window: &Window, job: &Job) -> Result<(), AllocError>
    requires { IsWindow window.now }
    ensures { OnOk result (out.new.items
        ≡ out.old.items ++ flat_map (side_frame_line window.now) job.now.setup.frames) }
{
    put_side_frames(out, window, job.setup().frames.as_slice())?;
    Ok(())
}

/// The bed.
fn put_bed_range(out: &mut Vec<u8>, window: &Window, job: &Job) -> Result<(), AllocError>
    requires { IsWindow window.now }
    ensures { OnOk result (out.new.items
        ≡ out.old.items ++ bed_range_line window.now job.now.setup.bed) }
{
    let bed = bed_of(job);
    let area = stripe(window, bed.0, bed.1, 10, 40);
    put_rectangle(out, window, b"edge", 2, &area)?;
    Ok(())
}

/// The bed, its side frames and its stations.
#[tactic(auto, using(sheet_paper::proofs::Texts::pieces), unfolding(crate::specs::Beds::bed_shapes))]
fn put_shapes(out: &mut Vec<u8>, window: &Window, job: &Job) -> Result<(), AllocError>
    requires { IsWindow window.now }
    ensures { OnOk result (out.new.items
        ≡ out.old.items ++ bed_shapes window.now job.now.setup) }
{
    put_bed_range(out, window, job)?;
    put_bed_frames(out, window, job)?;
    put_stations(out, window, job)?;
    put_shapes_end(out)
}

/// The label of an end of the bed.
fn end_label(at: i64) -> Label
    requires { unsigned_abs at ≤ 2 ^ 40 }
    ensures value { label_data result ≡ end_label at }
    ensures label { IsLabel (label_data result) }
{
    Label {
        at: (at, 0),
        moved: (0, -32),
        size: 24,
        class: b"",
    }
}

/// An end of the bed.
fn put_bed_end(out: &mut Vec<u8>, window: &Window, at: i64) -> Result<(), AllocError>
    requires window { IsWindow window.now }
    requires at { unsigned_abs at ≤ 2 ^ 40 }
    ensures { OnOk result (out.new.items ≡ out.old.items ++ bed_end_line window.now at) }
{
    let words = mm(*out.allocator(), at)?;
    put_label(out, window, &end_label(at), words.as_slice())
}

/// What the view says to those who can't see it.
fn bed_sentence(alloc: Global, x0: i64, x1: i64, stages: u8) -> Result<Vec<u8>, AllocError> {
    let mut out = Vec::new(alloc);
    put_word(&mut out, b"The bed from ")?;
    put_mm(&mut out, x0)?;
    put_word(&mut out, b" to ")?;
    put_mm(&mut out, x1)?;
    put_word(&mut out, b" mm with ")?;
    put_plural(&mut out, usize::from(stages), b"station")?;
    put_word(&mut out, b".")?;
    Ok(out)
}

/// The paper of the view.
fn bed_paper() -> Paper
    ensures value { result ≡ bed_paper }
    ensures valid { IsPaper result }
{
    Paper {
        width: 186,
        height: 18,
        left: 6,
        right: 6,
        top: 8,
        bottom: 5,
    }
}

/// What the view shows: the bed, so high that its side frames are 5 millimetres high on the paper.
fn bed_area(x0: i64, x1: i64, scale: i64) -> Area
    requires x0 { unsigned_abs x0 ≤ 2 ^ 40 }
    requires x1 { unsigned_abs x1 ≤ 2 ^ 40 }
    requires scale { IsScale scale }
    ensures value { result ≡ bed_area x0 x1 scale }
    ensures drawable { IsDrawable result }
{
    Area {
        x0,
        x1,
        y0: 0,
        y1: 50 * scale,
    }
}

/// The window of the view.
fn bed_window(bed: (i64, i64), number: i64) -> Window
    requires from { unsigned_abs bed.0 ≤ 2 ^ 40 }
    requires to { unsigned_abs bed.1 ≤ 2 ^ 40 }
    ensures value { IsBedWindow bed number result }
    ensures valid { IsWindow result }
{
    let scale = least_scale(bed.1 - bed.0, 0, 1740, 1);
    let area = bed_area(bed.0, bed.1, scale);
    Window::around(bed_paper(), scale, &area, number)
}

/// Where the side frames end on the paper.
fn frames_head(window: &Window) -> i64
    requires { IsWindow window.now }
    ensures { unsigned_abs result ≤ 2 ^ 50 }
{
    -window.tenths(50)
}

/// The numbers of the stations, and the ends of the bed.
fn put_marks(
    out: &mut Vec<u8>,
    window: &Window,
    job: &Job,
    bed: (i64, i64),
) -> Result<(), AllocError>
    requires window { IsWindow window.now }
    requires from { unsigned_abs bed.0 ≤ 2 ^ 40 }
    requires to { unsigned_abs bed.1 ≤ 2 ^ 40 }
    ensures { OnOk result (HasBedMarks window.now bed out.old.items out.new.items) }
{
    put_station_numbers(out, window, job, frames_head(window))?;
    put_bed_end(out, window, bed.0)?;
    put_bed_end(out, window, bed.1)?;
    Ok(())
}

/// The whole bed from the front: its ends, the side frames, and where each station stands.
pub fn put_bed(out: &mut Vec<u8>, job: &Job, number: i64) -> Result<(), AllocError>
    ensures value { OnOk result (IsBedFigure job.now number out.old.items out.new.items) }
    ensures grows { OnOk result (Extends out.old.items out.new.items) }
{
    let bed = bed_of(job);
    let window = bed_window(bed, number);
    let sentence = bed_sentence(*out.allocator(), bed.0, bed.1, job.stages())?;
    put_begin(out, &window, TITLE, sentence.as_slice())?;
    put_shapes(out, &window, job)?;
    put_marks(out, &window, job, bed)?;
    put_figure_end(out, &window, TITLE)?;
    Ok(())
}
