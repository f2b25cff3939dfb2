//! What `trial` answers.
ghost use Rattle.std.specs.Prelude.{◌≡◌, IfOk};
ghost use Rattle.job_setup.specs.Setup.{JobData};
ghost use Rattle.plan_cert.specs.Cert.{CertData};
ghost use Rattle.cert_lines.specs.Lines.{IsWorth};
ghost use Rattle.cert_check.specs.Checking.{IsGoodText};
ghost use Rattle.command_runner.specs.Answers.{answer_data};
ghost use Rattle.command_runner.specs.Delivery.{IsCutShort};
ghost use Rattle.brake_commands.specs.TrialAnswer.{trial_line, IsTrialAnswer};

use crate::plan::{claim_status, least_cert};
use brake_base::Worth;
use brake_text::put_word;
use cert_check::{CheckFault, check};
use command_runner::Answer;
use part_gen::made_job;
use plan_cert::{put_count, put_worth};
use std::alloc::{AllocError, Global};

/// Checks a certificate by its text alone.
fn confirm(alloc: Global, text: &[u8]) -> Result<(), AllocError>
    requires { (job : JobData) × (cert : CertData) × IsGoodText text.now job cert }
{
    match check(alloc, text) {
        Ok(_) => Ok(()),
        Err(fault) => match fault {
            CheckFault::NoMemory => Err(AllocError),
            _ => unreachable!(),
        },
    }
}

/// The line of a trial.
#[tactic(auto, using(cert_lines::proofs::Texts::pieces), unfolding(crate::specs::TrialAnswer::trial_line))]
fn trial_line(alloc: Global, number: u32, bends: u8, claim: Worth) -> Result<Vec<u8>, AllocError>
    requires { IsWorth claim }
    ensures { IfOk result (λ line. line.items ≡ trial_line number bends claim) }
{
    let mut out = Vec::new(alloc);
    put_word(&mut out, b"trial")?;
    put_count(&mut out, u64::from(number))?;
    put_word(&mut out, b" bends")?;
    put_count(&mut out, u64::from(bends))?;
    put_word(&mut out, b" cost")?;
    put_worth(&mut out, claim)?;
    put_word(&mut out, b" checked\n")?;
    Ok(out)
}

/// The answer to a number: its made job is planned, and the certificate checked in memory.
pub fn answer(alloc: Global, number: u32) -> Result<Answer, AllocError>
    ensures answer { IfOk result (λ answer. IsTrialAnswer number (answer_data answer)) }
    ensures status { IfOk result (λ answer. ¬ IsCutShort answer.status) }
{
    let job = made_job(number);
    let bends = job.bends();
    let cert = least_cert(alloc, &job)?;
    let text = cert.text.gather(alloc)?;
    confirm(alloc, text.as_slice())?;
    let line = trial_line(alloc, number, bends, cert.claim)?;
    Answer::one_text(alloc, claim_status(cert.claim), line)
}
