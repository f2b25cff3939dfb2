//! What `check` answers with the files of a job.
ghost use Rattle.std.specs.Prelude.{◌≡◌, [], length, map, Ok, IfOk};
ghost use Rattle.std.specs.Vec.{vec_items};
ghost use Rattle.cert_check.specs.Checking.{checked_data};
ghost use Rattle.command_runner.specs.Answers.{answer_data};
ghost use Rattle.command_runner.specs.Delivery.{IsCutShort};
ghost use Rattle.command_runner.specs.Fetching.{word_at};
ghost use Rattle.command_runner.specs.Reading.{AnswersText};
ghost use Rattle.check_command.specs.CheckAnswer.{IsClaim};
ghost use Rattle.brake_commands.specs.CheckAnswer.{other_job, other_job_line, IsAnswerOf, IsAnswerFor, IsCheckFilesAnswer};

use crate::job_files::{is_one_job, job_at};
use crate::refusal::stopped;
use brake_io::{Reader, Window};
use cert_check::{Checked, check_from};
use check_command::{cert_refused, verdict_answer};
use command_runner::{Answer, Status};
use job_setup::Job;
use std::alloc::{AllocError, Global};

/// The answer that the certificate is of another job.
#[tactic(auto, unfolding(crate::specs::CheckAnswer::other_job_line))]
fn other_job(alloc: Global) -> Result<Answer, AllocError>
    ensures answer { IfOk result (λ answer. answer_data answer ≡ other_job) }
    ensures status { IfOk result (λ answer. ¬ IsCutShort answer.status) }
{
    let line = Vec::from_slice(alloc, b"certificate refused job\n")?;
    Answer::one_text(alloc, Status::CertRefused, line)
}

/// The answer of an accepted certificate, which is to be of this job.
fn accepted(alloc: Global, checked: &Checked, job: &Job) -> Result<Answer, AllocError>
    requires { IsClaim checked.now.verdict }
    ensures answer { IfOk result (λ answer.
        IsAnswerOf job.now (Ok (checked_data checked.now)) (answer_data answer)) }
    ensures status { IfOk result (λ answer. ¬ IsCutShort answer.status) }
{
    let same = is_one_job(alloc, &checked.job, job)?;
    if same {
        verdict_answer(alloc, checked.verdict)
    } else {
        other_job(alloc)
    }
}

/// The answer to the text of a certificate, which is to be of this job.
fn answer_of_job<R: Reader + Drop>(
    alloc: Global,
    window: &mut Window<R>,
    job: &Job,
) -> Result<Answer, AllocError>
    ensures answer { IfOk result (λ answer.
        AnswersText (λ contents. IsAnswerFor (word_at contents 0) job.now) window.old window.new []
        (answer_data answer)) }
    ensures status { IfOk result (λ answer. ¬ IsCutShort answer.status) }
{
    match check_from(alloc, window) {
        Ok(checked) => accepted(alloc, &checked, job),
        Err(fault) => cert_refused(alloc, fault),
    }
}

/// The answer to the text of a certificate and the contents of the three files of a job. Where those
/// are refused the text isn't read.
pub fn answer_with_files<R: Reader + Drop>(
    alloc: Global,
    window: &mut Window<R>,
    contents: &[Vec<u8>],
) -> Result<Answer, AllocError>
    requires { length contents.now ≡ 3 }
    ensures answer { IfOk result (λ answer. AnswersText IsCheckFilesAnswer window.old window.new
        (map vec_items contents.now) (answer_data answer)) }
    ensures status { IfOk result (λ answer. ¬ IsCutShort answer.status) }
{
    match job_at(alloc, contents, 0) {
        Ok(job) => answer_of_job(alloc, window, &job),
        Err(stop) => stopped(alloc, stop),
    }
}
