//! The table of the strokes in order.
ghost use Rattle.std.specs.Prelude.{◌≡◌, ◌+◌, ◌^◌, ◌<◌, ◌≤◌, ◌++◌, length, IfOk, OnOk};
ghost use Rattle.handling_cost.specs.StepCost.{IsKeyOf};
ghost use Rattle.handling_cost.specs.Plan.{start};
ghost use Rattle.setup_sheet.specs.OrderSheet.{AreSteps};
ghost use Rattle.sheet_words.specs.Turns.{turn_words};
ghost use Rattle.sheet_page.specs.Orders.{dir_word, bends_cell, flanges_cell, back_cell, AreCells, row_line, order_row, order_rows, order_text};
ghost use Rattle.sheet_page.specs.Strokes.{stroke_data, IsStroke};

use crate::forms::{H2, ORDER_HEAD, ORDER_ROW, ORDER_SUM, SECTION, SECTION_END, TABLE, TABLE_END};
use crate::holes::{length, seconds};
use crate::job_parts::joint_at;
use crate::lists::{put_labels, put_names};
use crate::stroke::{Stroke, first_key, stroke_at};
use crate::stroke_facts::faces_at_back;
use brake_base::{Key, Step, Turn};
use brake_text::put_word;
use job_setup::Job;
use part_file::Dir;
use sheet_figures::put_number_list;
use sheet_words::put_turn;
use std::alloc::{AllocError, Global};
use svg_text::{Hole, put_line};

const TITLE: &[u8] = b"Order of bends";

/// The direction of a bend.
#[tactic(auto, unfolding(crate::specs::Orders::dir_word))]
pub fn dir_word(dir: Dir) -> &'static [u8]
    ensures { result.now ≡ dir_word dir }
{
    match dir {
        Dir::Up => b" up",
        Dir::Down => b" down",
    }
}

/// The texts in the row of a stroke: its bends and their direction, the names of its flanges, the
/// turn before it, and the faces at the back.
#[derive(Drop)]
pub(crate) struct Cells {
    pub(crate) bends: Vec<u8>,
    pub(crate) flanges: Vec<u8>,
    pub(crate) turn: Vec<u8>,
    pub(crate) back: Vec<u8>,
}

/// The bends of a stroke and their direction.
#[tactic(auto, using(sheet_paper::proofs::Texts::pieces), unfolding(crate::specs::Orders::bends_cell))]
fn bends_cell(alloc: Global, job: &Job, stroke: &Stroke) -> Result<Vec<u8>, AllocError>
    requires { IsStroke job.now (stroke_data stroke.now) }
    ensures { IfOk result (λ cell. cell.items ≡ bends_cell job.now (stroke_data stroke.now)) }
{
    let mut cell = Vec::new(alloc);
    put_number_list(&mut cell, stroke.group().bends().as_slice())?;
    let joint = joint_at(job, stroke.step.action.bend);
    put_word(&mut cell, dir_word(joint.dir))?;
    Ok(cell)
}

/// The names of a stroke's flanges.
fn flanges_cell(alloc: Global, job: &Job, stroke: &Stroke) -> Result<Vec<u8>, AllocError>
    ensures { IfOk result (λ cell. cell.items ≡ flanges_cell job.now (stroke_data stroke.now)) }
{
    let mut cell = Vec::new(alloc);
    put_names(&mut cell, job, stroke.group().bends().as_slice())?;
    Ok(cell)
}

/// The turn before a stroke.
fn turn_cell(alloc: Global, turn: Turn) -> Result<Vec<u8>, AllocError>
    ensures { IfOk result (λ cell. cell.items ≡ turn_words turn) }
{
    let mut cell = Vec::new(alloc);
    put_turn(&mut cell, turn)?;
    Ok(cell)
}

/// The faces at the back.
fn back_cell(alloc: Global, job: &Job, stroke: &Stroke) -> Result<Vec<u8>, AllocError>
    requires { IsStroke job.now (stroke_data stroke.now) }
    ensures { IfOk result (λ cell. cell.items ≡ back_cell job.now (stroke_data stroke.now)) }
{
    let mut cell = Vec::new(alloc);
    put_labels(&mut cell, job, faces_at_back(job, stroke).as_slice())?;
    Ok(cell)
}

/// The texts in the row of a stroke.
fn cells_of(alloc: Global, job: &Job, stroke: &Stroke) -> Result<Cells, AllocError>
    requires { IsStroke job.now (stroke_data stroke.now) }
    ensures { IfOk result (AreCells job.now (stroke_data stroke.now)) }
{
    let bends = bends_cell(alloc, job, stroke)?;
    let flanges = flanges_cell(alloc, job, stroke)?;
    let turn = turn_cell(alloc, stroke.turn)?;
    let back = back_cell(alloc, job, stroke)?;
    Ok(Cells {
        bends,
        flanges,
        turn,
        back,
    })
}

/// The line of a row with these texts.
#[tactic(auto, using(sheet_paper::proofs::Texts::pieces))]
fn put_cells(out: &mut Vec<u8>, stroke: &Stroke, cells: &Cells) -> Result<(), AllocError>
    requires number { stroke.now.number < 2 ^ 63 }
    requires cost { stroke.now.cost < 2 ^ 63 }
    ensures { OnOk result (out.new.items
        ≡ out.old.items ++ row_line (stroke_data stroke.now) cells.now.bends.items cells.now.flanges.items
        cells.now.turn.items cells.now.back.items) }
{
    let holes = [
        Hole::Number(stroke.number as i64),
        Hole::Text(cells.bends.as_slice()),
        Hole::Text(cells.flanges.as_slice()),
        Hole::Text(cells.turn.as_slice()),
        Hole::Text(cells.back.as_slice()),
        Hole::Number(i64::from(stroke.step.action.stage)),
        length(stroke.fingers.edge),
        length(stroke.fingers.left.lo.x),
        length(stroke.fingers.right.lo.x),
        seconds(stroke.cost),
    ];
    put_line(out, ORDER_ROW, &holes)
}

/// The row of a stroke.
fn put_row(out: &mut Vec<u8>, job: &Job, stroke: &Stroke) -> Result<(), AllocError>
    requires stroke { IsStroke job.now (stroke_data stroke.now) }
    requires number { stroke.now.number < 2 ^ 63 }
    ensures { OnOk result (out.new.items
        ≡ out.old.items ++ order_row job.now (stroke_data stroke.now)) }
{
    let cells = cells_of(*out.allocator(), job, stroke)?;
    put_cells(out, stroke, &cells)
}

/// A row for each of the last strokes, from a number on.
#[tactic(auto, using(sheet_paper::proofs::Texts::pieces))]
fn put_rows(
    out: &mut Vec<u8>,
    job: &Job,
    number: usize,
    key: &Key,
    steps: &[Step],
) -> Result<(), AllocError>
    requires key { IsKeyOf job.now key.now }
    requires steps { AreSteps job.now key.now steps.now }
    requires number { number + length steps.now ≤ 16 }
    ensures { OnOk result (out.new.items
        ≡ out.old.items ++ order_rows job.now number key.now steps.now) }
{
    match steps {
        [] => Ok(()),
        [step, steps @ ..] => {
            let stroke = stroke_at(job, number, key, step);
            put_row(out, job, &stroke)?;
            put_rows(out, job, number + 1, &stroke.after, steps)
        }
    }
}

/// A row for each stroke.
fn put_all_rows(out: &mut Vec<u8>, job: &Job, steps: &[Step]) -> Result<(), AllocError>
    requires steps { AreSteps job.now start steps.now }
    requires few { length steps.now ≤ 12 }
    ensures { OnOk result (out.new.items
        ≡ out.old.items ++ order_rows job.now 1 start steps.now) }
{
    let key = first_key(job);
    put_rows(out, job, 1, &key, steps)
}

/// The table of the strokes in order, and what they cost together.
#[tactic(auto, using(sheet_paper::proofs::Texts::pieces), unfolding(crate::specs::Orders::order_text))]
pub fn put_order(out: &mut Vec<u8>, job: &Job, steps: &[Step], cost: u64) -> Result<(), AllocError>
    requires steps { AreSteps job.now start steps.now }
    requires few { length steps.now ≤ 12 }
    requires cost { cost < 2 ^ 63 }
    ensures { OnOk result (out.new.items ≡ out.old.items ++ order_text job.now steps.now cost) }
{
    put_line(out, SECTION, &[Hole::Word(b"")])?;
    put_line(out, H2, &[Hole::Text(TITLE)])?;
    put_line(out, TABLE, &[])?;
    put_line(out, ORDER_HEAD, &[])?;
    put_all_rows(out, job, steps)?;
    put_line(out, ORDER_SUM, &[seconds(cost)])?;
    put_line(out, TABLE_END, &[])?;
    put_line(out, SECTION_END, &[])
}
