//! What is told of a stroke: the turn, the faces at the back, the station, the backgauge, the stop
//! fingers and the time.
ghost use Rattle.std.specs.Prelude.{◌≡◌, ◌^◌, ◌<◌, ◌≤◌, ◌++◌, [], ◌∷◌, flat_map, length, IfOk, OnOk};
ghost use Rattle.job_setup.specs.Setup.{stage_data};
ghost use Rattle.sheet_page.specs.Facts.{icon_line, turn_end_line, turn_fact, faces_at_back, back_fact, tools_words, station_fact, edges_words, gauge_fact, fingers_fact, cost_part, turn_cost, way_cost, cost_words, time_fact, facts_text};
ghost use Rattle.sheet_page.specs.Strokes.{stroke_data, IsStroke};

use crate::forms::{
    FACT_BACK, FACT_FINGERS, FACT_GAUGE, FACT_STATION, FACT_TIME, FACT_TURN, FACT_TURN_END, ICON,
};
use crate::holes::{length, seconds};
use crate::job_parts::{joint_at, stage_at};
use crate::stroke::Stroke;
use arrayvec::ArrayVec;
use brake_base::{Back, Gauge, Turn};
use brake_text::put_word;
use handling_cost::change_cost;
use job_setup::{Job, Stage};
use machine_file::Costs;
use sheet_words::{Movement, looks, movements_of, put_face, put_faces, put_seconds, put_turn};
use std::alloc::{AllocError, Global};
use svg_text::{Hole, put_line};

/// The icon of a movement, with the words at its left and right.
#[tactic(auto, using(sheet_paper::proofs::Texts::pieces))]
fn put_icon(out: &mut Vec<u8>, movement: Movement) -> Result<(), AllocError>
    ensures { OnOk result (out.new.items ≡ out.old.items ++ icon_line movement) }
{
    let holes = [
        Hole::Word(movement.icon()),
        Hole::Word(movement.left()),
        Hole::Word(movement.right()),
    ];
    put_line(out, ICON, &holes)
}

/// The icons of some movements.
fn put_icons(out: &mut Vec<u8>, movements: &[Movement]) -> Result<(), AllocError>
    ensures { OnOk result (out.new.items ≡ out.old.items ++ flat_map icon_line movements.now) }
{
    for movement in movements {
        put_icon(out, *movement)?;
    }
    Ok(())
}

/// The turn before a stroke in words, and where side A looks then.
#[tactic(auto, using(sheet_paper::proofs::Texts::pieces))]
fn put_turn_end(out: &mut Vec<u8>, turn: Turn, attitude: Turn) -> Result<(), AllocError>
    ensures { OnOk result (out.new.items ≡ out.old.items ++ turn_end_line turn attitude) }
{
    let mut words = Vec::new(*out.allocator());
    put_turn(&mut words, turn)?;
    let holes = [Hole::Text(words.as_slice()), Hole::Word(looks(attitude))];
    put_line(out, FACT_TURN_END, &holes)
}

/// The turn before a stroke, by its icons and in words, and where side A looks then.
#[tactic(auto, using(sheet_paper::proofs::Texts::pieces), unfolding(crate::specs::Facts::turn_fact))]
fn put_turn_fact(out: &mut Vec<u8>, turn: Turn, attitude: Turn) -> Result<(), AllocError>
    ensures { OnOk result (out.new.items ≡ out.old.items ++ turn_fact turn attitude) }
{
    put_line(out, FACT_TURN, &[])?;
    put_icons(out, movements_of(turn).as_slice())?;
    put_turn_end(out, turn, attitude)
}

/// One face alone.
fn one(face: u8) -> ArrayVec<u8, 16>
    ensures { result.items ≡ face ∷ [] }
{
    let mut faces = ArrayVec::new();
    faces.push(face);
    faces
}

/// The faces at the back: the parent, or the flanges.
#[tactic(auto, unfolding(crate::specs::Facts::faces_at_back))]
pub fn faces_at_back(job: &Job, stroke: &Stroke) -> ArrayVec<u8, 16>
    requires { IsStroke job.now (stroke_data stroke.now) }
    ensures { result.items ≡ faces_at_back job.now (stroke_data stroke.now) }
{
    match stroke.step.action.back {
        Back::Parent => one(joint_at(job, stroke.step.action.bend).on),
        Back::Child => stroke.group().bends(),
    }
}

#[tactic(auto, using(sheet_paper::proofs::Texts::pieces))]
fn put_back_fact(out: &mut Vec<u8>, job: &Job, faces: &[u8]) -> Result<(), AllocError>
    ensures { OnOk result (out.new.items ≡ out.old.items ++ back_fact job.now faces.now) }
{
    let mut words = Vec::new(*out.allocator());
    put_faces(&mut words, job, faces)?;
    put_line(out, FACT_BACK, &[Hole::Text(words.as_slice())])
}

/// The punch and the die of a station.
#[tactic(auto, using(sheet_paper::proofs::Texts::pieces), unfolding(crate::specs::Facts::tools_words))]
fn tools_words(alloc: Global, stage: &Stage) -> Result<Vec<u8>, AllocError>
    ensures { IfOk result (λ words. words.items ≡ tools_words (stage_data stage.now)) }
{
    let mut words = Vec::new(alloc);
    put_word(&mut words, stage.punch.name.as_bytes())?;
    put_word(&mut words, b" / ")?;
    put_word(&mut words, stage.die.name.as_bytes())?;
    Ok(words)
}

#[tactic(auto, using(sheet_paper::proofs::Texts::pieces))]
fn put_station_fact(out: &mut Vec<u8>, job: &Job, number: u8) -> Result<(), AllocError>
    requires { number < length job.now.setup.stages }
    ensures { OnOk result (out.new.items ≡ out.old.items ++ station_fact job.now number) }
{
    let words = tools_words(*out.allocator(), stage_at(job, number))?;
    let holes = [
        Hole::Number(i64::from(number)),
        Hole::Text(words.as_slice()),
    ];
    put_line(out, FACT_STATION, &holes)
}

/// The faces against whose edges the fingers stand.
#[tactic(auto, using(sheet_paper::proofs::Texts::pieces), unfolding(crate::specs::Facts::edges_words))]
fn put_edges(out: &mut Vec<u8>, job: &Job, gauge: Gauge) -> Result<(), AllocError>
    ensures { OnOk result (out.new.items ≡ out.old.items ++ edges_words job.now gauge) }
{
    if gauge.left_face == gauge.right_face {
        put_word(out, b"edge of ")?;
        put_face(out, job, gauge.left_face)
    } else {
        put_word(out, b"edges of ")?;
        put_faces(out, job, &[gauge.left_face, gauge.right_face])
    }
}

#[tactic(auto, using(sheet_paper::proofs::Texts::pieces))]
fn put_gauge_fact(out: &mut Vec<u8>, job: &Job, stroke: &Stroke) -> Result<(), AllocError>
    ensures { OnOk result (out.new.items
        ≡ out.old.items ++ gauge_fact job.now (stroke_data stroke.now)) }
{
    let mut words = Vec::new(*out.allocator());
    put_edges(&mut words, job, stroke.step.gauge)?;
    let holes = [length(stroke.fingers.edge), Hole::Text(words.as_slice())];
    put_line(out, FACT_GAUGE, &holes)
}

/// Where the fingers begin along the bed, and the ends of the bend line.
#[tactic(auto, using(sheet_paper::proofs::Texts::pieces))]
fn put_fingers_fact(out: &mut Vec<u8>, stroke: &Stroke) -> Result<(), AllocError>
    ensures { OnOk result (out.new.items
        ≡ out.old.items ++ fingers_fact (stroke_data stroke.now)) }
{
    let holes = [
        length(stroke.fingers.left.lo.x),
        length(stroke.fingers.right.lo.x),
        length(stroke.drawing.line.0),
        length(stroke.drawing.line.1),
    ];
    put_line(out, FACT_FINGERS, &holes)
}

/// A part of a stroke's cost, where there is one.
#[tactic(auto, using(sheet_paper::proofs::Texts::pieces), unfolding(crate::specs::Facts::cost_part))]
fn put_cost_part(out: &mut Vec<u8>, word: &[u8], cost: u64) -> Result<(), AllocError>
    requires { cost < 2 ^ 63 }
    ensures { OnOk result (out.new.items ≡ out.old.items ++ cost_part word.now cost) }
{
    if cost == 0 {
        return Ok(());
    }
    put_word(out, word)?;
    put_seconds(out, cost)
}

/// What the machine's costs are.
fn costs_of(job: &Job) -> &Costs
    ensures { result.now ≡ job.now.setup.cost }
{
    &job.setup().cost
}

/// What a stroke itself costs.
fn stroke_cost(job: &Job) -> u64
    ensures { result ≡ job.now.setup.cost.stroke }
{
    costs_of(job).stroke
}

/// What the turn before a stroke costs.
fn turn_cost(job: &Job, stroke: &Stroke) -> u64
    ensures { result ≡ turn_cost job.now (stroke_data stroke.now) }
{
    change_cost(costs_of(job), stroke.before.attitude, stroke.after.attitude)
}

/// What the way to a stroke's station costs.
fn way_cost(job: &Job, stroke: &Stroke) -> u64
    requires { IsStroke job.now (stroke_data stroke.now) }
    ensures { result ≡ way_cost job.now (stroke_data stroke.now) }
{
    stroke.cost - stroke_cost(job) - turn_cost(job, stroke)
}

/// The parts of a stroke's cost.
#[tactic(auto, using(sheet_paper::proofs::Texts::pieces), unfolding(crate::specs::Facts::cost_words))]
fn put_cost_words(out: &mut Vec<u8>, job: &Job, stroke: &Stroke) -> Result<(), AllocError>
    requires { IsStroke job.now (stroke_data stroke.now) }
    ensures { OnOk result (out.new.items
        ≡ out.old.items ++ cost_words job.now (stroke_data stroke.now)) }
{
    put_word(out, b"stroke ")?;
    put_seconds(out, stroke_cost(job))?;
    put_cost_part(out, b" + turn ", turn_cost(job, stroke))?;
    put_cost_part(out, b" + station ", way_cost(job, stroke))
}

#[tactic(auto, using(sheet_paper::proofs::Texts::pieces))]
fn put_time_fact(out: &mut Vec<u8>, job: &Job, stroke: &Stroke) -> Result<(), AllocError>
    requires { IsStroke job.now (stroke_data stroke.now) }
    ensures { OnOk result (out.new.items
        ≡ out.old.items ++ time_fact job.now (stroke_data stroke.now)) }
{
    let mut words = Vec::new(*out.allocator());
    put_cost_words(&mut words, job, stroke)?;
    let holes = [seconds(stroke.cost), Hole::Text(words.as_slice())];
    put_line(out, FACT_TIME, &holes)
}

/// The facts of a stroke.
#[tactic(auto, using(sheet_paper::proofs::Texts::pieces), unfolding(crate::specs::Facts::facts_text))]
pub fn put_facts(out: &mut Vec<u8>, job: &Job, stroke: &Stroke) -> Result<(), AllocError>
    requires { IsStroke job.now (stroke_data stroke.now) }
    ensures { OnOk result (out.new.items
        ≡ out.old.items ++ facts_text job.now (stroke_data stroke.now)) }
{
    put_turn_fact(out, stroke.turn, stroke.after.attitude)?;
    put_back_fact(out, job, faces_at_back(job, stroke).as_slice())?;
    put_station_fact(out, job, stroke.step.action.stage)?;
    put_gauge_fact(out, job, stroke)?;
    put_fingers_fact(out, stroke)?;
    put_time_fact(out, job, stroke)
}
