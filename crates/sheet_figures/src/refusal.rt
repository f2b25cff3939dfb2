//! What a refused stroke would hit.
ghost use Rattle.std.specs.Prelude.{◌≡◌, ◌^◌, ◌<◌, ◌≤◌, ◌++◌, pos, ◌*ℤ◌, ◌≤ℤ◌, int_lt, unsigned_abs, length, None, IfOk, OnOk};
ghost use Rattle.brake_base.specs.Actions.{IsActionAmong};
ghost use Rattle.job_setup.specs.Setup.{bend_count, stage_count};
ghost use Rattle.sheet_paper.specs.Windows.{IsPaper, IsScale, IsWindow};
ghost use Rattle.sheet_views.specs.Drawing.{drawing_data};
ghost use Rattle.sheet_views.specs.Near.{IsNearArea, IsNearDrawing, IsNearSwept};
ghost use Rattle.sheet_views.specs.SideArea.{shown_points, IsLeastRect};
ghost use Rattle.sheet_views.specs.Swept.{swept_by};
ghost use Rattle.sheet_words.specs.Reasons.{reason_words};
ghost use Rattle.sheet_figures.specs.Extending.{Extends};
ghost use Rattle.sheet_figures.specs.Refusals.{back_words, near_words, title_words, caption_words, before_stroke, IsPicture, shows_more, refusal_paper, AreRefusalWindows, ArePictures, IsRefusal};

use crate::after::opening;
use crate::bend_words::put_bends;
use crate::parts::{Shown, put_part};
use crate::side::{put_begin, put_tools_before};
use crate::sides::near_area;
use crate::sweep::put_swept;
use crate::titles::{BY_THE_TOOLS, FLANGE_AT_BACK, PARENT_AT_BACK};
use crate::windows::{tools_window, window_for};
use brake_base::{Action, Back, Mask, Reason, Rect};
use brake_text::{put_number, put_word};
use job_setup::Job;
use sector_geom::Sector;
use sheet_paper::{Paper, Window, put_figure_end, put_frame};
use sheet_views::{Drawing, DrawnBox, Swept, side_area, swept_by};
use sheet_words::put_reason;
use std::alloc::{AllocError, Global};

/// The tools and the part before a refused stroke.
#[tactic(auto, using(sheet_paper::proofs::Texts::pieces), unfolding(crate::specs::Refusals::before_stroke))]
fn put_before_stroke(
    out: &mut Vec<u8>,
    window: &Window,
    job: &Job,
    stage: u8,
    boxes: &[DrawnBox],
) -> Result<(), AllocError>
    requires window { IsWindow window.now }
    requires stage { stage < length job.now.setup.stages }
    ensures { OnOk result (out.new.items
        ≡ out.old.items ++ before_stroke window.now job.now stage boxes.now) }
{
    put_tools_before(out, window, job, stage)?;
    put_part(out, window, Shown::Whole, boxes)
}

/// A title and the words for what is refused.
#[derive(Drop)]
struct Told {
    title: Vec<u8>,
    words: Vec<u8>,
}

/// The word for the side at the back.
#[tactic(auto, unfolding(crate::specs::Refusals::back_words))]
fn back_word(back: Back) -> &'static [u8]
    ensures { result.now ≡ back_words back }
{
    match back {
        Back::Parent => PARENT_AT_BACK,
        Back::Child => FLANGE_AT_BACK,
    }
}

/// The words for a picture at the tools.
#[tactic(auto, unfolding(crate::specs::Refusals::near_words))]
fn near_word(is_near: bool) -> &'static [u8]
    ensures { result.now ≡ near_words is_near }
{
    if is_near { BY_THE_TOOLS } else { b"" }
}

/// The title of a refused stroke of these bends.
#[tactic(auto, using(sheet_paper::proofs::Texts::pieces), unfolding(crate::specs::Refusals::title_words))]
fn title_of(
    alloc: Global,
    bends: Mask,
    action: Action,
    is_near: bool,
) -> Result<Vec<u8>, AllocError>
    ensures { IfOk result (λ title. title.items ≡ title_words bends action is_near) }
{
    let mut out = Vec::new(alloc);
    put_bends(&mut out, bends.bends().as_slice())?;
    put_word(&mut out, back_word(action.back))?;
    put_number(&mut out, i64::from(action.stage))?;
    put_word(&mut out, near_word(is_near))?;
    Ok(out)
}

/// The caption of a refused stroke.
#[tactic(auto, using(sheet_paper::proofs::Texts::pieces), unfolding(crate::specs::Refusals::caption_words))]
fn caption_of(alloc: Global, told: &Told) -> Result<Vec<u8>, AllocError>
    ensures { IfOk result (λ caption. caption.items
        ≡ caption_words told.now.title.items told.now.words.items) }
{
    let mut out = Vec::new(alloc);
    put_word(&mut out, told.title.as_slice())?;
    put_word(&mut out, b": ")?;
    put_word(&mut out, told.words.as_slice())?;
    Ok(out)
}

/// A refused stroke: its action, the reason, and what the box of the reason sweeps.
#[derive(Clone, Copy)]
struct Refused {
    action: Action,
    reason: Reason,
    swept: Swept,
}

/// The title of a refused stroke and the words of its reason.
#[tactic(auto, using(sheet_paper::proofs::Texts::pieces))]
fn told_of(
    alloc: Global,
    job: &Job,
    drawing: &Drawing,
    refused: &Refused,
    is_near: bool,
) -> Result<Told, AllocError>
    requires action { IsActionAmong (bend_count job.now) (stage_count job.now) refused.now.action }
    requires lead { drawing.now.pose.bend ≡ refused.now.action.bend }
    requires drawing { IsNearDrawing (drawing_data drawing.now) }
    ensures title { IfOk result (λ told. told.title.items
        ≡ title_words (drawing_data drawing.now).pose.group refused.now.action is_near) }
    ensures words { IfOk result (λ told. told.words.items
        ≡ reason_words job.now refused.now.action (drawing_data drawing.now).pose
        refused.now.reason) }
{
    let title = title_of(alloc, drawing.pose.group, refused.action, is_near)?;
    let mut words = Vec::new(alloc);
    put_reason(
        &mut words,
        job,
        refused.action,
        &drawing.pose,
        refused.reason,
    )?;
    Ok(Told { title, words })
}

/// A picture of a refused stroke.
fn put_picture(
    out: &mut Vec<u8>,
    window: &Window,
    job: &Job,
    drawing: &Drawing,
    refused: &Refused,
    is_near: bool,
) -> Result<(), AllocError>
    requires window { IsWindow window.now }
    requires action { IsActionAmong (bend_count job.now) (stage_count job.now) refused.now.action }
    requires lead { drawing.now.pose.bend ≡ refused.now.action.bend }
    requires drawing { IsNearDrawing (drawing_data drawing.now) }
    requires swept { IsNearSwept refused.now.swept }
    ensures { OnOk result (IsPicture window.now job.now (drawing_data drawing.now) refused.now
        is_near out.old.items out.new.items) }
{
    let told = told_of(*out.allocator(), job, drawing, refused, is_near)?;
    let caption = caption_of(*out.allocator(), &told)?;
    put_begin(out, window, told.title.as_slice(), told.words.as_slice())?;
    let boxes = drawing.before.as_slice();
    put_before_stroke(out, window, job, refused.action.stage, boxes)?;
    put_swept(out, window, &refused.swept)?;
    put_frame(out, window)?;
    put_figure_end(out, window, caption.as_slice())?;
    Ok(())
}

/// Whether a cover comes within 20 mm of paper, at a scale, of the bend line.
fn comes_near(cover: &Sector, scale: i64) -> bool
    requires { IsScale scale }
    ensures { result ≡ int_lt cover.now.near2 ((pos 200 *ℤ scale) *ℤ (pos 200 *ℤ scale)) }
{
    let reach = 200 * scale;
    cover.near2 < i128::from(reach * reach)
}

/// Whether a second picture shows more: the die's opening shows as less than 2.5 mm, and the cover
/// comes near at the second picture's scale.
fn shows_more(v: i64, scale: i64, near_scale: i64, cover: &Sector) -> bool
    requires scale { IsScale scale }
    requires near_scale { IsScale near_scale }
    ensures { result ≡ shows_more v scale near_scale cover.now }
{
    v < 25 * scale && comes_near(cover, near_scale)
}

/// The paper of these pictures.
fn refusal_paper() -> Paper
    ensures value { result ≡ refusal_paper }
    ensures valid { IsPaper result }
{
    Paper::framed(91, 52, 1)
}

/// What the pictures show.
fn refusal_area(job: &Job, stage: u8, drawing: &Drawing) -> Rect
    requires stage { stage < length job.now.setup.stages }
    requires drawing { IsNearDrawing (drawing_data drawing.now) }
    ensures value { IsLeastRect (shown_points job.now stage (drawing_data drawing.now).pose.boxes None)
        result }
    ensures near { IsNearArea result }
{
    side_area(job, stage, &drawing.pose, None)
}

/// The windows of the pictures of a refused stroke: one around what the side views show, and one at
/// the tools, and whether the second shows more.
#[derive(Clone, Copy)]
struct RefusalWindows {
    around: Window,
    near: Window,
    shows_more: bool,
}

/// The windows of the pictures of a refused stroke that are numbered from `number`.
fn refusal_windows(job: &Job, drawing: &Drawing, refused: &Refused, number: i64) -> RefusalWindows
    requires action { IsActionAmong (bend_count job.now) (stage_count job.now) refused.now.action }
    requires drawing { IsNearDrawing (drawing_data drawing.now) }
    requires number { unsigned_abs number ≤ 2 ^ 20 }
    ensures value { AreRefusalWindows job.now (drawing_data drawing.now) refused.now number result }
    ensures around { IsWindow result.around }
    ensures near { IsWindow result.near }
{
    let stage = refused.action.stage;
    let shown = refusal_area(job, stage, drawing);
    let around = window_for(refusal_paper(), &near_area(&shown), number);
    let near = tools_window(refusal_paper(), 80, job, stage, number + 1);
    let v = opening(job, stage);
    let shows_more = shows_more(v, around.scale, near.scale, &refused.swept.cover);
    RefusalWindows {
        around,
        near,
        shows_more,
    }
}

/// The pictures of a refused stroke, numbered from `number`, and how many: one, or a second at the
/// tools.
fn put_pictures(
    out: &mut Vec<u8>,
    job: &Job,
    drawing: &Drawing,
    refused: &Refused,
    number: i64,
) -> Result<i64, AllocError>
    requires action { IsActionAmong (bend_count job.now) (stage_count job.now) refused.now.action }
    requires lead { drawing.now.pose.bend ≡ refused.now.action.bend }
    requires drawing { IsNearDrawing (drawing_data drawing.now) }
    requires swept { IsNearSwept refused.now.swept }
    requires number { unsigned_abs number ≤ 2 ^ 20 }
    ensures value { IfOk result (λ count. ArePictures job.now (drawing_data drawing.now) refused.now
        number count out.old.items out.new.items) }
    ensures grows { OnOk result (Extends out.old.items out.new.items) }
    ensures count { IfOk result (λ count. (pos 0 ≤ℤ count) × (count ≤ℤ pos 2)) }
{
    let windows = refusal_windows(job, drawing, refused, number);
    put_picture(out, &windows.around, job, drawing, refused, false)?;
    if !windows.shows_more {
        return Ok(1);
    }
    put_picture(out, &windows.near, job, drawing, refused, true)?;
    Ok(2)
}

/// The pictures of a refused stroke, numbered from `number`, and how many: none where nothing is
/// hit, one, or a second at the tools.
pub fn put_refusal(
    out: &mut Vec<u8>,
    job: &Job,
    action: Action,
    drawing: &Drawing,
    reason: Reason,
    number: i64,
) -> Result<i64, AllocError>
    requires action { IsActionAmong (bend_count job.now) (stage_count job.now) action }
    requires lead { drawing.now.pose.bend ≡ action.bend }
    requires drawing { IsNearDrawing (drawing_data drawing.now) }
    requires number { unsigned_abs number ≤ 2 ^ 20 }
    ensures value { IfOk result (λ count. IsRefusal
        (swept_by job.now action.stage (drawing_data drawing.now).pose reason) job.now
        (drawing_data drawing.now) action reason number count out.old.items out.new.items) }
    ensures grows { OnOk result (Extends out.old.items out.new.items) }
    ensures count { IfOk result (λ count. (pos 0 ≤ℤ count) × (count ≤ℤ pos 2)) }
{
    match swept_by(job, action.stage, &drawing.pose, reason) {
        Some(swept) => {
            let refused = Refused {
                action,
                reason,
                swept,
            };
            put_pictures(out, job, drawing, &refused, number)
        }
        None => Ok(0),
    }
}
