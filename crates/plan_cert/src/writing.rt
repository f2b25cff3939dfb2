//! The text of a certificate.
ghost use Rattle.std.specs.Prelude.{◌≡◌, ◌<◌, ◌^◌, ◌++◌, ◌∷◌, [], length, All, OnOk, IfOk};
ghost use Rattle.std.specs.List.{flat_map};
ghost use Rattle.plan_cert.specs.Cert.{cert_data};
ghost use Rattle.cert_lines.specs.Lines.{line_text, claim_line, step_line};
ghost use Rattle.cert_lines.specs.Lines.{IsWorth};
ghost use Rattle.plan_cert.specs.WellFormed.{IsWellFormed};
ghost use Rattle.plan_cert.specs.CertText.{cert_text2};
ghost use Rattle.cert_lines.specs.JobText.{job_text};
ghost use Rattle.plan_cert.specs.ExactTexts.{IsOnlyJobOf};

use crate::cert::Cert;
use crate::rows::{put_action, put_rows, put_worth};
use brake_base::{Step, Worth};
use brake_text::put_word;
use cert_lines::{put_count, put_job};
use job_setup::Job;
use std::alloc::{AllocError, Global};

/// The line of the claim.
#[tactic(auto, using(cert_lines::proofs::Texts::pieces), unfolding(cert_lines::specs::Lines::line_text))]
fn put_claim(out: &mut Vec<u8>, claim: Worth) -> Result<(), AllocError>
    requires { IsWorth claim }
    ensures { OnOk result (out.new.items ≡ out.old.items ++ line_text (claim_line claim)) }
{
    put_word(out, b"claim")?;
    put_worth(out, claim)?;
    put_word(out, b"\n")
}

/// The line of a step.
#[tactic(auto, using(cert_lines::proofs::Texts::pieces), unfolding(cert_lines::specs::Lines::line_text))]
fn put_step(out: &mut Vec<u8>, step: &Step) -> Result<(), AllocError>
    ensures { OnOk result (out.new.items ≡ out.old.items ++ line_text (step_line step.now)) }
{
    put_word(out, b"step")?;
    put_action(out, &step.action)?;
    put_count(out, u64::from(step.gauge.left_face))?;
    put_count(out, u64::from(step.gauge.right_face))?;
    put_word(out, b"\n")
}

/// A line for each step.
fn put_steps(out: &mut Vec<u8>, steps: &[Step]) -> Result<(), AllocError>
    ensures { OnOk result (out.new.items
        ≡ out.old.items ++ flat_map (λ step. line_text (step_line step)) steps.now) }
{
    for step in steps {
        put_step(out, step)?;
    }
    Ok(())
}

/// The text of a certificate of a job, in version 2: the job's lines, the claim, the steps, and
/// the rows in order, each with its notes. It is shorter than 2^30 bytes.
#[tactic(auto, using(crate::proofs::CertTexts::actions_below))]
pub fn write_cert(alloc: Global, job: &Job, cert: &Cert) -> Result<Vec<u8>, AllocError>
    requires { IsWellFormed job.now (cert_data cert.now) }
    ensures text { IfOk result (λ text. text.items ≡ cert_text2 job.now (cert_data cert.now)) }
    ensures short { IfOk result (λ text. length text.items < 2 ^ 30) }
{
    let mut out = Vec::new(alloc);
    put_word(&mut out, b"brake-cert 2\n")?;
    put_job(&mut out, job)?;
    put_claim(&mut out, cert.claim)?;
    put_steps(&mut out, cert.steps.as_slice())?;
    put_rows(
        &mut out,
        job.stages(),
        cert.rows.as_slice(),
        cert.notes.as_slice(),
    )?;
    put_word(&mut out, b"end\n")?;
    Ok(out)
}

/// The lines of a job alone, as a certificate of version 2 has them. No other job has this text.
pub fn write_job(alloc: Global, job: &Job) -> Result<Vec<u8>, AllocError>
    ensures text { IfOk result (λ text. text.items ≡ job_text job.now) }
    ensures only { IfOk result (λ text. IsOnlyJobOf job.now text.items) }
{
    let mut out = Vec::new(alloc);
    put_job(&mut out, job)?;
    Ok(out)
}
