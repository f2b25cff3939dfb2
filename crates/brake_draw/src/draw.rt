//! What is answered to a certificate: the page that is stored, and the line that is put.
ghost use Rattle.std.specs.Prelude.{◌≡◌, ◌^◌, ◌<◌, pos, int_le, unsigned_abs, length, map, string_bytes, IsTrue, IfOk};
ghost use Rattle.std.specs.Vec.{vec_items};
ghost use Rattle.brake_base.specs.declared.stroke.Worth.TheVariants.{Cost, Blocked};
ghost use Rattle.cert_check.specs.Checking.{IsAccepted, IsTrueOf};
ghost use Rattle.command_runner.specs.Answers.{answer_data};
ghost use Rattle.command_runner.specs.Fetching.{word_at};
ghost use Rattle.command_runner.specs.Delivery.{IsCutShort};
ghost use Rattle.brake_draw.specs.Draw.{told_size, drawn_line, no_plan_line, stored_page, refusal_line, refusal_text, IsProved, IsDrawn, IsCertRefusal, IsTextAnswer, IsDrawAnswer};

use crate::say::put_sentence;
use crate::steps::steps_of;
use brake_io::{Shelf, StoreFault};
use brake_text::{put_number, put_word};
use cert_check::{CheckFault, Verdict, check};
use command_runner::{Answer, Command, Status, StoredText, WordKind, word_at};
use job_setup::Job;
use plan_cert::{CertFault, read_cert};
use refusal_words::sentence;
use sheet_page::{no_plan_page, plan_page};
use std::alloc::{AllocError, Global};

/// `CERT OUT`: the certificate is checked, and its page is stored.
#[derive(Clone, Copy, Debug, PartialEq, Eq)]
pub struct Draw;

/// The line of how many strokes are drawn.
#[tactic(auto, using(cert_lines::proofs::Texts::pieces), unfolding(crate::specs::Draw::drawn_line))]
fn drawn_line(alloc: Global, strokes: usize) -> Result<Vec<u8>, AllocError>
    requires { strokes < 2 ^ 63 }
    ensures { IfOk result (λ line. line.items ≡ drawn_line strokes) }
{
    let mut line = Vec::new(alloc);
    put_word(&mut line, b"drawn ")?;
    put_number(&mut line, strokes as i64)?;
    put_word(&mut line, b"\n")?;
    Ok(line)
}

/// The line that there is no plan.
#[tactic(auto, unfolding(crate::specs::Draw::no_plan_line))]
fn no_plan_line(alloc: Global) -> Result<Vec<u8>, AllocError>
    ensures { IfOk result (λ line. line.items ≡ no_plan_line) }
{
    Vec::from_slice(alloc, b"no plan\n")
}

/// The answer that stores a page under the name and puts a line.
fn stored(
    alloc: Global,
    name: &str,
    page: Vec<u8>,
    status: Status,
    line: Vec<u8>,
) -> Result<Answer, AllocError>
    requires { ¬ IsCutShort status }
    ensures answer { IfOk result (λ answer. answer_data answer
        ≡ stored_page name.now page.items status line.items) }
    ensures status { IfOk result (λ answer. ¬ IsCutShort answer.status) }
{
    let mut stored = Vec::new(alloc);
    stored.push(StoredText {
        name: String::from_str(alloc, name)?,
        text: page,
    })?;
    let mut texts = Vec::new(alloc);
    texts.push(line)?;
    Ok(Answer {
        stored,
        status,
        texts,
    })
}

/// How many bytes a page tells that its certificate has.
fn told_size(text: &[u8]) -> i64
    ensures value { unsigned_abs result ≡ told_size text.now }
    ensures sign { IsTrue (int_le (pos 0) result) }
{
    text.len().min(usize::MAX / 2) as i64
}

/// The answer to the certificate of a plan of least cost, which is read once more up to the line
/// behind its steps: its page is stored under the name.
fn plan_drawn(
    alloc: Global,
    name: &str,
    text: &[u8],
    job: &Job,
    cost: u64,
) -> Result<Answer, AllocError>
    requires { IsProved text.now job.now (Cost cost) }
    ensures answer { IfOk result (λ answer. IsDrawn name.now text.now (answer_data answer)) }
    ensures status { IfOk result (λ answer. ¬ IsCutShort answer.status) }
{
    let steps = steps_of(text);
    let page = plan_page(alloc, job, steps.as_slice(), cost, told_size(text))?;
    let line = drawn_line(alloc, steps.len())?;
    stored(alloc, name, page, Status::Done, line)
}

/// The answer to the certificate of a job without a plan, which is read once more for its rows and
/// notes: its page is stored under the name.
fn no_plan_drawn(alloc: Global, name: &str, text: &[u8], job: &Job) -> Result<Answer, AllocError>
    requires { IsProved text.now job.now Blocked }
    ensures answer { IfOk result (λ answer. IsDrawn name.now text.now (answer_data answer)) }
    ensures status { IfOk result (λ answer. ¬ IsCutShort answer.status) }
{
    match read_cert(alloc, text) {
        Ok(file) => {
            let page = no_plan_page(alloc, job, &file.cert, told_size(text))?;
            let line = no_plan_line(alloc)?;
            stored(alloc, name, page, Status::NoPlan, line)
        }
        Err(fault) => match fault {
            CertFault::NoMemory => Err(AllocError),
            _ => unreachable!(),
        },
    }
}

/// The answer to the text of a good certificate of the job, of which this is proved.
fn drawn(
    alloc: Global,
    name: &str,
    text: &[u8],
    job: &Job,
    verdict: Verdict,
) -> Result<Answer, AllocError>
    requires accepted { IsAccepted text.now (record { verdict = verdict; job = job.now }) }
    requires truth { IsTrueOf job.now verdict }
    ensures answer { IfOk result (λ answer. IsDrawn name.now text.now (answer_data answer)) }
    ensures status { IfOk result (λ answer. ¬ IsCutShort answer.status) }
{
    match verdict {
        Verdict::Optimal { cost } => plan_drawn(alloc, name, text, job, cost),
        Verdict::NoPlan => no_plan_drawn(alloc, name, text, job),
    }
}

/// The line of a refusal, without its line feed: the words of its first fault.
#[tactic(auto, using(cert_lines::proofs::Texts::pieces), unfolding(crate::specs::Draw::refusal_line))]
fn refusal_line(alloc: Global, fault: CheckFault) -> Result<Vec<u8>, AllocError>
    ensures { IfOk result (λ line. line.items ≡ refusal_line fault) }
{
    let mut line = Vec::new(alloc);
    put_word(&mut line, b"certificate refused")?;
    fault.put_words(&mut line)?;
    Ok(line)
}

/// The line of a refusal, and its sentence behind it where it has one.
#[tactic(auto, using(cert_lines::proofs::Texts::pieces), unfolding(crate::specs::Draw::refusal_text))]
fn refusal_text(alloc: Global, fault: CheckFault) -> Result<Vec<u8>, AllocError>
    ensures { IfOk result (λ text. text.items ≡ refusal_text fault) }
{
    let mut text = refusal_line(alloc, fault)?;
    let said = sentence(alloc, text.as_slice())?;
    put_word(&mut text, b"\n")?;
    put_sentence(&mut text, said)?;
    Ok(text)
}

/// The answer to a certificate that is refused for this, unless that is for want of memory.
fn refused(alloc: Global, fault: CheckFault) -> Result<Answer, AllocError>
    ensures answer { IfOk result (λ answer. IsCertRefusal fault (answer_data answer)) }
    ensures status { IfOk result (λ answer. ¬ IsCutShort answer.status) }
{
    match fault {
        CheckFault::NoMemory => Err(AllocError),
        _ => Answer::one_text(alloc, Status::CertRefused, refusal_text(alloc, fault)?),
    }
}

/// The answer to the content of the certificate's file, whose page is stored under the name.
fn answer_of(alloc: Global, name: &str, text: &[u8]) -> Result<Answer, AllocError>
    ensures answer { IfOk result (λ answer. IsTextAnswer name.now text.now (answer_data answer)) }
    ensures status { IfOk result (λ answer. ¬ IsCutShort answer.status) }
{
    match check(alloc, text) {
        Ok(checked) => drawn(alloc, name, text, &checked.job, checked.verdict),
        Err(fault) => refused(alloc, fault),
    }
}

/// The content of a command's file.
fn content_at(contents: &[Vec<u8>], place: usize) -> &[u8]
    requires { place < length contents.now }
    ensures { result.now ≡ word_at (map vec_items contents.now) place }
{
    contents[place].as_slice()
}

/// The answer to the words `CERT OUT` and the content of the certificate's file.
fn draw_answer(alloc: Global, words: &[String], contents: &[Vec<u8>]) -> Result<Answer, AllocError>
    requires { length contents.now ≡ 1 }
    ensures answer { IfOk result (λ answer. IsDrawAnswer (map string_bytes words.now)
        (map vec_items contents.now) (answer_data answer)) }
    ensures status { IfOk result (λ answer. ¬ IsCutShort answer.status) }
{
    answer_of(alloc, word_at(words, 1), content_at(contents, 0))
}

impl Command for Draw {
    ghost use Rattle.command_runner.specs.Ends.{no_beginning};
    ghost use Rattle.brake_draw.specs.Draw.{draw_form, IsDrawAnswer};

    ghost form = { λ _. draw_form };

    ghost meaning = { λ _. IsDrawAnswer };

    ghost begins = { λ _. no_beginning };

    fn kinds(&self) -> &'static [WordKind] {
        &[WordKind::Certificate, WordKind::Output]
    }

    fn answer<H: Shelf>(
        &self,
        alloc: Global,
        words: &[String],
        contents: &[Vec<u8>],
        _: &mut H,
    ) -> Result<Answer, StoreFault> {
        Ok(draw_answer(alloc, words, contents)?)
    }
}
