//! The setup sheet.
ghost use Rattle.std.specs.Prelude.{◌≡◌, ◌≤◌, ◌++◌, length, map, OnOk, IfOk};
ghost use Rattle.std.specs.List.{flat_map};
ghost use Rattle.job_setup.specs.Setup.{stage_data};
ghost use Rattle.setup_sheet.specs.Sheets.{field, stage_place, stage_lines, stages_lines, setup_text};

use crate::words::put_field;
use brake_text::put_word;
use job_setup::{Job, Stage};
use std::alloc::{AllocError, Global};

/// A number behind a space, for each piece of a stage.
fn put_pieces(out: &mut Vec<u8>, pieces: &[i64]) -> Result<(), AllocError>
    ensures { OnOk result (out.new.items ≡ out.old.items ++ flat_map field pieces.now) }
{
    for piece in pieces {
        put_field(out, *piece)?;
    }
    Ok(())
}

/// The number of a stage, its punch and its die, and where it stands on the bed.
#[tactic(auto, using(crate::proofs::Texts::pieces), unfolding(crate::specs::Sheets::stage_place))]
fn put_place(out: &mut Vec<u8>, number: u8, stage: &Stage) -> Result<(), AllocError>
    ensures { OnOk result (out.new.items
        ≡ out.old.items ++ stage_place number (stage_data stage.now)) }
{
    put_word(out, b"stage")?;
    put_field(out, i64::from(number))?;
    put_word(out, b" ")?;
    put_word(out, stage.punch.name.as_bytes())?;
    put_word(out, b" ")?;
    put_word(out, stage.die.name.as_bytes())?;
    put_field(out, stage.x0)?;
    put_field(out, stage.x1)
}

/// The two lines of a stage.
#[tactic(auto, using(crate::proofs::Texts::pieces), unfolding(crate::specs::Sheets::stage_lines))]
fn put_stage(out: &mut Vec<u8>, number: u8, stage: &Stage) -> Result<(), AllocError>
    ensures { OnOk result (out.new.items
        ≡ out.old.items ++ stage_lines number (stage_data stage.now)) }
{
    put_place(out, number, stage)?;
    put_word(out, b"\npieces")?;
    put_pieces(out, stage.pieces.as_slice())?;
    put_word(out, b"\n")
}

/// The lines of all stages.
#[tactic(auto, unfolding(crate::specs::Sheets::stages_lines))]
fn put_stages(out: &mut Vec<u8>, stages: &[Stage]) -> Result<(), AllocError>
    requires { length stages.now ≤ 6 }
    ensures { OnOk result (out.new.items
        ≡ out.old.items ++ stages_lines (map stage_data stages.now)) }
{
    for (i, stage) in stages.iter().enumerate() {
        put_stage(out, i as u8, stage)?;
    }
    Ok(())
}

/// The setup sheet of a job: for each stage its tools, where it stands on the bed and its pieces,
/// in micrometres.
#[tactic(auto, using(crate::proofs::Texts::pieces), unfolding(crate::specs::Sheets::setup_text))]
pub fn setup_sheet(alloc: Global, job: &Job) -> Result<Vec<u8>, AllocError>
    ensures { IfOk result (λ sheet. sheet.items ≡ setup_text job.now) }
{
    let mut out = Vec::new(alloc);
    put_word(&mut out, b"setup\n")?;
    put_stages(&mut out, job.setup().stages.as_slice())?;
    Ok(out)
}
