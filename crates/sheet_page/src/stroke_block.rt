//! The blocks of the strokes.
ghost use Rattle.std.specs.Prelude.{◌≡◌, ◌+◌, ◌^◌, ◌<◌, ◌≤◌, ◌++◌, pos, ◌+ℤ◌, ◌≤ℤ◌, unsigned_abs, length, IfOk, OnOk};
ghost use Rattle.handling_cost.specs.Plan.{start};
ghost use Rattle.handling_cost.specs.StepCost.{IsKeyOf};
ghost use Rattle.setup_sheet.specs.OrderSheet.{AreSteps};
ghost use Rattle.sheet_views.specs.Drawing.{drawing_data};
ghost use Rattle.sheet_page.specs.Blocks.{stroke_class, block_words, ArePictures, AreOthers, IsBlock, AreBlocks, IsFigureAt};
ghost use Rattle.sheet_page.specs.Strokes.{stroke_data, IsStroke};

use crate::forms::{DIV_END, FACTS, ROW, SECTION, SECTION_END};
use crate::stroke::{Stroke, first_key, stroke_at};
use crate::stroke_facts::put_facts;
use crate::stroke_heading::put_heading;
use crate::warning::put_warnings;
use brake_base::{Key, Step};
use job_setup::Job;
use sheet_figures::{put_above, put_bodies, put_sides};
use std::alloc::AllocError;
use svg_text::{Hole, put_line};

/// The attribute of the first stroke's block, which begins a page, and of the others'.
const FIRST_STROKE: &[u8] = b" class=\"stroke newpage\"";

const LATER_STROKE: &[u8] = b" class=\"stroke\"";

/// The attribute of the block of a stroke.
#[tactic(auto, unfolding(crate::specs::Blocks::stroke_class))]
fn stroke_class(number: usize) -> &'static [u8]
    ensures { result.now ≡ stroke_class number }
{
    if number == 1 {
        FIRST_STROKE
    } else {
        LATER_STROKE
    }
}

/// What a block says of its stroke, of so many.
#[tactic(auto, using(sheet_paper::proofs::Texts::pieces), unfolding(crate::specs::Blocks::block_words))]
fn put_words(out: &mut Vec<u8>, job: &Job, stroke: &Stroke, count: usize) -> Result<(), AllocError>
    requires stroke { IsStroke job.now (stroke_data stroke.now) }
    requires number { stroke.now.number < 2 ^ 63 }
    requires count { count < 2 ^ 63 }
    ensures { OnOk result (out.new.items
        ≡ out.old.items ++ block_words job.now count (stroke_data stroke.now)) }
{
    put_line(out, SECTION, &[Hole::Word(stroke_class(stroke.number))])?;
    put_heading(out, job, stroke, count)?;
    put_line(out, FACTS, &[])?;
    put_facts(out, job, stroke)?;
    put_warnings(out, job, &stroke.fingers)
}

/// The view from above and the part before and after the stroke, numbered from `figure`: three
/// figures.
fn put_others(out: &mut Vec<u8>, job: &Job, stroke: &Stroke, figure: i64) -> Result<(), AllocError>
    requires stroke { IsStroke job.now (stroke_data stroke.now) }
    requires figure { unsigned_abs figure < 2 ^ 20 }
    ensures { OnOk result (AreOthers job.now (stroke_data stroke.now) figure
        out.old.items out.new.items) }
{
    let (drawing, fingers) = (&stroke.drawing, &stroke.fingers);
    put_above(out, job, stroke.step.action, drawing, fingers, figure)?;
    put_bodies(out, drawing, figure + 1)
}

/// The pictures of a stroke, numbered from `figure`: the side views and three others. How many side
/// views there are.
fn put_pictures(
    out: &mut Vec<u8>,
    job: &Job,
    stroke: &Stroke,
    figure: i64,
) -> Result<i64, AllocError>
    requires stroke { IsStroke job.now (stroke_data stroke.now) }
    requires figure { unsigned_abs figure < 2 ^ 19 }
    ensures rows { IfOk result (λ sides.
        ArePictures job.now (stroke_data stroke.now) figure sides out.old.items out.new.items) }
    ensures sides { IfOk result (λ sides. (pos 2 ≤ℤ sides) × (sides ≤ℤ pos 3)) }
{
    let (drawing, fingers) = (&stroke.drawing, &stroke.fingers);
    put_line(out, ROW, &[])?;
    let sides = put_sides(out, job, stroke.step.action, drawing, fingers, figure)?;
    put_line(out, DIV_END, &[])?;
    put_line(out, ROW, &[])?;
    put_others(out, job, stroke, figure + sides)?;
    put_line(out, DIV_END, &[])?;
    Ok(sides)
}

/// The block of a stroke, of so many, its figures numbered from `figure`; how many side views it
/// has.
fn put_stroke(
    out: &mut Vec<u8>,
    job: &Job,
    stroke: &Stroke,
    count: usize,
    figure: i64,
) -> Result<i64, AllocError>
    requires stroke { IsStroke job.now (stroke_data stroke.now) }
    requires number { stroke.now.number < 2 ^ 63 }
    requires count { count < 2 ^ 63 }
    requires figure { unsigned_abs figure < 2 ^ 19 }
    ensures block { IfOk result (λ sides.
        IsBlock job.now count (stroke_data stroke.now) figure sides
        out.old.items out.new.items) }
    ensures sides { IfOk result (λ sides. (pos 2 ≤ℤ sides) × (sides ≤ℤ pos 3)) }
{
    put_words(out, job, stroke, count)?;
    let sides = put_pictures(out, job, stroke, figure)?;
    put_line(out, SECTION_END, &[])?;
    Ok(sides)
}

/// Where a plan's strokes go on: the number of the next one, the key before it, and the number of
/// its first figure.
#[derive(Clone, Copy)]
struct Place {
    number: usize,
    key: Key,
    figure: i64,
}

/// Where they go on behind a stroke, which has so many side views and three other figures.
fn next_place(place: &Place, stroke: &Stroke, sides: i64) -> Place
    requires number { place.now.number ≤ 16 }
    requires figure { IsFigureAt place.now.number place.now.figure }
    requires sides { (pos 2 ≤ℤ sides) × (sides ≤ℤ pos 3) }
    ensures number { result.number ≡ place.now.number + 1 }
    ensures key { result.key ≡ stroke.now.after }
    ensures figure { IsFigureAt result.number result.figure }
    ensures next { result.figure ≡ (place.now.figure +ℤ sides) +ℤ pos 3 }
{
    Place {
        number: place.number + 1,
        key: stroke.after,
        figure: place.figure + sides + 3,
    }
}

/// The blocks of the last strokes, of so many.
fn put_last_strokes(
    out: &mut Vec<u8>,
    job: &Job,
    count: usize,
    place: &Place,
    steps: &[Step],
) -> Result<(), AllocError>
    requires key { IsKeyOf job.now place.now.key }
    requires steps { AreSteps job.now place.now.key steps.now }
    requires count { count ≤ 16 }
    requires number { place.now.number + length steps.now ≤ 16 }
    requires figure { IsFigureAt place.now.number place.now.figure }
    ensures { OnOk result (AreBlocks job.now count place.now.number place.now.figure place.now.key
        steps.now out.old.items out.new.items) }
{
    match steps {
        [] => Ok(()),
        [step, steps @ ..] => {
            let stroke = stroke_at(job, place.number, &place.key, step);
            let sides = put_stroke(out, job, &stroke, count, place.figure)?;
            let next = next_place(place, &stroke, sides);
            put_last_strokes(out, job, count, &next, steps)
        }
    }
}

/// The blocks of all strokes, their figures numbered from `figure`.
pub fn put_strokes(
    out: &mut Vec<u8>,
    job: &Job,
    steps: &[Step],
    figure: i64,
) -> Result<(), AllocError>
    requires steps { AreSteps job.now start steps.now }
    requires few { length steps.now ≤ 12 }
    requires figure { IsFigureAt 0 figure }
    ensures { OnOk result (AreBlocks job.now (length steps.now) 1 figure start steps.now
        out.old.items out.new.items) }
{
    let key = first_key(job);
    let place = Place {
        number: 1,
        key,
        figure,
    };
    put_last_strokes(out, job, steps.len(), &place, steps)
}
