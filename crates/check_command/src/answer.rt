//! The answer to a certificate's text.
ghost use Rattle.std.specs.Prelude.{◌≡◌, ◌≤◌, [], codes, IfOk};
ghost use Rattle.cert_lines.specs.Lines.{text_line};
ghost use Rattle.cert_check.specs.FaultWords.{check_fault_words};
ghost use Rattle.command_runner.specs.Answers.{answer_data};
ghost use Rattle.command_runner.specs.Delivery.{IsCutShort};
ghost use Rattle.command_runner.specs.Reading.{AnswersText};
ghost use Rattle.check_command.specs.CheckAnswer.{optimal_line, IsClaim, verdict_answer, IsCertRefusal, IsCheckAnswer};

use brake_io::{Reader, Window};
use brake_text::put_word;
use cert_check::{CheckFault, Verdict, check_from};
use command_runner::{Answer, Status};
use plan_cert::put_count;
use std::alloc::{AllocError, Global};

/// The line of a least cost.
#[tactic(auto, using(cert_lines::proofs::Texts::pieces), unfolding(crate::specs::CheckAnswer::optimal_line))]
fn optimal_line(alloc: Global, cost: u64) -> Result<Vec<u8>, AllocError>
    requires { cost ≤ 1000000000 }
    ensures { IfOk result (λ line. line.items ≡ optimal_line cost) }
{
    let mut out = Vec::new(alloc);
    put_word(&mut out, b"optimal")?;
    put_count(&mut out, cost)?;
    put_word(&mut out, b"\n")?;
    Ok(out)
}

/// The answer of an accepted certificate.
#[tactic(auto, unfolding(crate::specs::CheckAnswer::no_plan_line))]
pub fn verdict_answer(alloc: Global, verdict: Verdict) -> Result<Answer, AllocError>
    requires { IsClaim verdict }
    ensures answer { IfOk result (λ answer. answer_data answer ≡ verdict_answer verdict) }
    ensures status { IfOk result (λ answer. ¬ IsCutShort answer.status) }
{
    match verdict {
        Verdict::Optimal { cost } => {
            Answer::one_text(alloc, Status::Done, optimal_line(alloc, cost)?)
        }
        Verdict::NoPlan => {
            Answer::one_text(alloc, Status::NoPlan, Vec::from_slice(alloc, b"no plan\n")?)
        }
    }
}

/// The line of a refusal, with the words of its first fault.
#[tactic(auto, using(cert_lines::proofs::Texts::pieces))]
fn refusal_line(alloc: Global, fault: CheckFault) -> Result<Vec<u8>, AllocError>
    ensures { IfOk result (λ line. line.items
        ≡ text_line (codes "certificate refused") (check_fault_words fault)) }
{
    let mut out = Vec::new(alloc);
    put_word(&mut out, b"certificate refused")?;
    fault.put_words(&mut out)?;
    put_word(&mut out, b"\n")?;
    Ok(out)
}

/// The answer of a certificate that is refused for this, unless that is for want of memory.
pub fn cert_refused(alloc: Global, fault: CheckFault) -> Result<Answer, AllocError>
    ensures answer { IfOk result (λ answer. IsCertRefusal fault (answer_data answer)) }
    ensures status { IfOk result (λ answer. ¬ IsCutShort answer.status) }
{
    match fault {
        CheckFault::NoMemory => Err(AllocError),
        _ => Answer::one_text(alloc, Status::CertRefused, refusal_line(alloc, fault)?),
    }
}

/// The answer to the text of a certificate.
pub fn answer_alone<R: Reader + Drop>(
    alloc: Global,
    window: &mut Window<R>,
) -> Result<Answer, AllocError>
    ensures answer { IfOk result (λ answer.
        AnswersText IsCheckAnswer window.old window.new [] (answer_data answer)) }
    ensures status { IfOk result (λ answer. ¬ IsCutShort answer.status) }
{
    match check_from(alloc, window) {
        Ok(checked) => verdict_answer(alloc, checked.verdict),
        Err(fault) => cert_refused(alloc, fault),
    }
}
