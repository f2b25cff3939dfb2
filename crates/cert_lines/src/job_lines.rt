//! The lines of a job.
#![tactic(auto, using(crate::proofs::Texts::pieces), unfolding(crate::specs::Lines::line_text))]

ghost use Rattle.std.specs.Prelude.{◌≡◌, ◌++◌, [], ◌∷◌, codes, OnOk, Some};
ghost use Rattle.std.specs.List.{flat_map};
ghost use Rattle.std.specs.Fmt.{signed_decimal};
ghost use Rattle.part_file.specs.Part.{part_data, face_data};
ghost use Rattle.tool_library.specs.Tools.{punch_data, die_data};
ghost use Rattle.machine_file.specs.Machine.{IsCosts};
ghost use Rattle.job_setup.specs.Setup.{stage_data, setup_data};
ghost use Rattle.job_setup.specs.ValidJob.{IsJob};
ghost use Rattle.cert_lines.specs.Lines.{number, side_word, dir_word, spaced, face_words, fixed_words, text_line, line_text, lines_text, face_line, bed_line, frame_line, gauge_line, box_line};
ghost use Rattle.cert_lines.specs.JobText.{costs_line, part_lines, fixture_lines, fine_lines, rule_lines, punch_lines, die_lines, stage_lines, job_text};

use crate::words::{put_count, put_named_line, put_number_line, put_numbers, put_spaced};
use brake_base::Rect;
use brake_text::put_word;
use job_setup::{Job, Setup, Stage};
use machine_file::{Costs, Fixed, GaugeRule};
use part_file::{Dir, Face, Joint, Part, Side};
use std::alloc::AllocError;
use tool_library::{Die, Punch};

/// The word for a side.
fn side_word(side: Side) -> &'static [u8]
    ensures { result.now ≡ side_word side }
{
    match side {
        Side::N => b"N",
        Side::E => b"E",
        Side::S => b"S",
        Side::W => b"W",
    }
}

/// The word for a bend's direction.
fn dir_word(dir: Dir) -> &'static [u8]
    ensures { result.now ≡ dir_word dir }
{
    match dir {
        Dir::Up => b"up",
        Dir::Down => b"down",
    }
}

/// The number and the side of the face on which a face stands.
fn put_parent(out: &mut Vec<u8>, joint: &Joint) -> Result<(), AllocError>
    ensures { OnOk result (out.new.items
        ≡ out.old.items ++ flat_map spaced (number joint.now.on ∷ side_word joint.now.side ∷ [])) }
{
    put_count(out, u64::from(joint.on))?;
    put_spaced(out, side_word(joint.side))
}

/// Where on that side the face stands, its sizes, and the direction of the bend between them.
fn put_standing(out: &mut Vec<u8>, face: &Face, joint: &Joint) -> Result<(), AllocError>
    ensures { OnOk result (out.new.items
        ≡ out.old.items ++ flat_map spaced (signed_decimal joint.now.at
        ∷ signed_decimal face.now.width ∷ signed_decimal face.now.length ∷ dir_word joint.now.dir
        ∷ [])) }
{
    put_numbers(out, &[joint.at, face.width, face.length])?;
    put_spaced(out, dir_word(joint.dir))
}

/// The line of a face that stands on another one.
fn put_child(out: &mut Vec<u8>, face: &Face, joint: &Joint) -> Result<(), AllocError>
    ensures { OnOk result (out.new.items
        ≡ out.old.items ++ text_line (codes "face")
        (face_words (face_data face.now) (Some joint.now))) }
{
    put_word(out, b"face")?;
    put_spaced(out, face.name.as_str().as_bytes())?;
    put_parent(out, joint)?;
    put_standing(out, face, joint)?;
    put_word(out, b"\n")
}

/// The line of a face.
fn put_face(out: &mut Vec<u8>, face: &Face) -> Result<(), AllocError>
    ensures { OnOk result (out.new.items
        ≡ out.old.items ++ line_text (face_line (face_data face.now))) }
{
    match &face.joint {
        None => put_named_line(
            out,
            b"face",
            face.name.as_str().as_bytes(),
            &[face.width, face.length],
        ),
        Some(joint) => put_child(out, face, joint),
    }
}

/// A line for each face.
#[tactic(auto)]
fn put_faces(out: &mut Vec<u8>, faces: &[Face]) -> Result<(), AllocError>
    ensures { OnOk result (out.new.items
        ≡ out.old.items ++ flat_map (λ face. line_text (face_line (face_data face))) faces.now) }
{
    for face in faces {
        put_face(out, face)?;
    }
    Ok(())
}

/// The lines of a part and its half deduction.
fn put_part(out: &mut Vec<u8>, part: &Part, q: i64) -> Result<(), AllocError>
    ensures { OnOk result (out.new.items
        ≡ out.old.items ++ lines_text (part_lines (part_data part.now) q)) }
{
    put_named_line(
        out,
        b"part",
        part.material.as_str().as_bytes(),
        &[part.thickness, part.radius, q],
    )?;
    put_faces(out, part.faces.as_slice())
}

/// A line for each side frame.
fn put_frames(out: &mut Vec<u8>, frames: &[(i64, i64)]) -> Result<(), AllocError>
    ensures { OnOk result (out.new.items
        ≡ out.old.items ++ flat_map (λ frame. line_text (frame_line frame)) frames.now) }
{
    for frame in frames {
        put_number_line(out, b"frame", &[frame.0, frame.1])?;
    }
    Ok(())
}

/// The line of a fixed box.
fn put_fixed(out: &mut Vec<u8>, keyword: &[u8], fixed: &Fixed) -> Result<(), AllocError>
    ensures { OnOk result (out.new.items
        ≡ out.old.items ++ text_line keyword.now (fixed_words fixed.now)) }
{
    let rect = &fixed.rect;
    put_number_line(
        out,
        keyword,
        &[fixed.x0, fixed.x1, rect.y0, rect.y1, rect.z0, rect.z1],
    )
}

/// A line for each fixed box.
#[tactic(auto)]
fn put_all_fixed(out: &mut Vec<u8>, keyword: &[u8], boxes: &[Fixed]) -> Result<(), AllocError>
    ensures { OnOk result (out.new.items ≡ out.old.items
        ++ flat_map (λ fixed. text_line keyword.now (fixed_words fixed)) boxes.now) }
{
    for fixed in boxes {
        put_fixed(out, keyword, fixed)?;
    }
    Ok(())
}

/// The line of the bed.
fn put_bed(out: &mut Vec<u8>, bed: &(i64, i64)) -> Result<(), AllocError>
    ensures { OnOk result (out.new.items ≡ out.old.items ++ line_text (bed_line bed.now)) }
{
    put_number_line(out, b"bed", &[bed.0, bed.1])
}

/// The lines of what is fixed on the machine.
fn put_fixtures(out: &mut Vec<u8>, setup: &Setup) -> Result<(), AllocError>
    ensures { OnOk result (out.new.items
        ≡ out.old.items ++ lines_text (fixture_lines (setup_data setup.now))) }
{
    put_bed(out, &setup.bed)?;
    put_frames(out, setup.frames.as_slice())?;
    put_all_fixed(out, b"upper", setup.upper.as_slice())?;
    put_all_fixed(out, b"lower", setup.lower.as_slice())?;
    Ok(())
}

/// The line of the backgauge.
fn put_gauge(out: &mut Vec<u8>, gauge: &GaugeRule) -> Result<(), AllocError>
    ensures { OnOk result (out.new.items ≡ out.old.items ++ line_text (gauge_line gauge.now)) }
{
    put_number_line(
        out,
        b"gauge",
        &[
            gauge.near,
            gauge.far,
            gauge.inset,
            gauge.finger,
            gauge.gap,
            gauge.depth,
            gauge.above,
            gauge.below,
        ],
    )
}

/// The line of the handling costs.
fn put_costs(out: &mut Vec<u8>, cost: &Costs) -> Result<(), AllocError>
    requires { IsCosts cost.now }
    ensures { OnOk result (out.new.items ≡ out.old.items ++ line_text (costs_line cost.now)) }
{
    put_number_line(
        out,
        b"cost",
        &[
            cost.stroke as i64,
            cost.quarter as i64,
            cost.half as i64,
            cost.flip as i64,
            cost.roll as i64,
            cost.stage as i64,
        ],
    )
}

/// The line that says how often in a row a piece may be halved, where it may at all.
fn put_fine(out: &mut Vec<u8>, fine: u8) -> Result<(), AllocError>
    ensures { OnOk result (out.new.items ≡ out.old.items ++ lines_text (fine_lines fine)) }
{
    if fine == 0 {
        return Ok(());
    }
    put_number_line(out, b"fine", &[i64::from(fine)])
}

/// The lines of the machine's rules and costs.
fn put_rules(out: &mut Vec<u8>, setup: &Setup) -> Result<(), AllocError>
    requires { IsCosts setup.now.cost }
    ensures { OnOk result (out.new.items
        ≡ out.old.items ++ lines_text (rule_lines (setup_data setup.now))) }
{
    put_number_line(out, b"uncovered", &[setup.uncovered])?;
    put_gauge(out, &setup.gauge)?;
    put_costs(out, &setup.cost)?;
    put_number_line(out, b"gang", &[i64::from(setup.gang)])?;
    put_number_line(out, b"force", &[setup.force])?;
    put_fine(out, setup.fine)
}

/// The line of a box of a tool.
fn put_box(out: &mut Vec<u8>, rect: &Rect) -> Result<(), AllocError>
    ensures { OnOk result (out.new.items ≡ out.old.items ++ line_text (box_line rect.now)) }
{
    put_number_line(out, b"box", &[rect.y0, rect.y1, rect.z0, rect.z1])
}

/// A line for each box of a tool.
#[tactic(auto)]
fn put_boxes(out: &mut Vec<u8>, boxes: &[Rect]) -> Result<(), AllocError>
    ensures { OnOk result (out.new.items
        ≡ out.old.items ++ flat_map (λ rect. line_text (box_line rect)) boxes.now) }
{
    for rect in boxes {
        put_box(out, rect)?;
    }
    Ok(())
}

/// The lines of a punch.
fn put_punch(out: &mut Vec<u8>, punch: &Punch) -> Result<(), AllocError>
    ensures { OnOk result (out.new.items
        ≡ out.old.items ++ lines_text (punch_lines (punch_data punch.now))) }
{
    put_named_line(
        out,
        b"punch",
        punch.name.as_str().as_bytes(),
        &[punch.height, punch.nose],
    )?;
    put_boxes(out, punch.body.as_slice())
}

/// The lines of a die.
fn put_die(out: &mut Vec<u8>, die: &Die) -> Result<(), AllocError>
    ensures { OnOk result (out.new.items
        ≡ out.old.items ++ lines_text (die_lines (die_data die.now))) }
{
    put_named_line(
        out,
        b"die",
        die.name.as_str().as_bytes(),
        &[die.height, die.v, die.least_flange],
    )?;
    put_boxes(out, die.body.as_slice())
}

/// The lines of a stage.
fn put_stage(out: &mut Vec<u8>, stage: &Stage) -> Result<(), AllocError>
    ensures { OnOk result (out.new.items
        ≡ out.old.items ++ lines_text (stage_lines (stage_data stage.now))) }
{
    put_number_line(out, b"stage", &[stage.x0, stage.x1])?;
    put_punch(out, &stage.punch)?;
    put_die(out, &stage.die)?;
    put_number_line(out, b"pieces", stage.pieces.as_slice())?;
    put_number_line(out, b"load", &[stage.load, stage.limit])
}

/// The lines of all stages.
#[tactic(auto)]
fn put_stages(out: &mut Vec<u8>, stages: &[Stage]) -> Result<(), AllocError>
    ensures { OnOk result (out.new.items
        ≡ out.old.items ++ flat_map
        (λ stage. lines_text (stage_lines (stage_data stage))) stages.now) }
{
    for stage in stages {
        put_stage(out, stage)?;
    }
    Ok(())
}

/// The lines of a job.
pub fn put_job(out: &mut Vec<u8>, job: &Job) -> Result<(), AllocError>
    ensures text { OnOk result (out.new.items ≡ out.old.items ++ job_text job.now) }
    ensures valid { OnOk result (IsJob job.now) }
{
    let setup = job.setup();
    put_part(out, job.part(), job.q())?;
    put_fixtures(out, setup)?;
    put_rules(out, setup)?;
    put_stages(out, setup.stages.as_slice())?;
    Ok(())
}
