//! What `plan` answers.
ghost use Rattle.std.specs.Prelude.{◌≡◌, ◌⊎◌, ℕ, Option, Some, None, length, map, IfOk, OnOk, OnErr, IsErrOf};
ghost use Rattle.std.specs.Vec.{vec_items};
ghost use Rattle.job_setup.specs.ValidJob.{IsJob};
ghost use Rattle.brake_io.specs.Rose.{Rose};
ghost use Rattle.brake_io.specs.Meanings.{NoCountFalls};
ghost use Rattle.command_runner.specs.Answers.{answer_data, one_text, one_stored};
ghost use Rattle.command_runner.specs.Fetching.{HasDueCall};
ghost use Rattle.command_runner.specs.Delivery.{IsCutShort, AreStored, AreStoredUpTo};
ghost use Rattle.command_runner.specs.Ends.{StoresFirst, StoresBeginning};
ghost use Rattle.brake_commands.specs.PlanAnswer.{spent_line, claim_status, last_text, written_rest, IsStoredOf, IsPlanned, IsWrittenPlan, Finds, IsBlankSheet, IsPlanAnswer};

use crate::job_files::job_at;
use crate::refusal::stopped;
use bb_search::{Outcome, Search, WrittenCert, nodes};
use brake_base::Worth;
use brake_io::{Shelf, StoreFault};
use brake_text::put_word;
use command_runner::{Answer, Status, store_pieces};
use job_setup::Job;
use plan_cert::put_count;
use setup_sheet::{blank_sheet, order_sheet, setup_sheet};
use std::alloc::{AllocError, Global};
use unfolder::unfold;

/// What a search that settles at most so many keys finds: a certificate of the least cost or of
/// there being no plan. None where more keys are reached.
fn find_cert(alloc: Global, job: &Job, budget: u32) -> Result<Option<WrittenCert>, AllocError>
    ensures { IfOk result (Finds job.now budget) }
{
    let mut search = Search::open(alloc, job, budget)?;
    match search.run(job) {
        Outcome::Spent => Ok(None),
        _ => Ok(Some(search.write(alloc, job)?)),
    }
}

/// The certificate of the least cost or of there being no plan.
pub fn least_cert(alloc: Global, job: &Job) -> Result<WrittenCert, AllocError>
    requires { IsJob job.now }
    ensures { IfOk result (IsWrittenPlan None job.now) }
{
    let found = find_cert(alloc, job, nodes(job).max(1))?;
    match found {
        Some(cert) => Ok(cert),
        None => unreachable!(),
    }
}

/// The blank sheet of a job.
fn blank_sheet_of(alloc: Global, job: &Job) -> Result<Vec<u8>, AllocError>
    ensures sheet { IfOk result (λ sheet. IsBlankSheet job.now sheet.items) }
    ensures valid { IsJob job.now }
{
    match unfold(job.part(), job.q()) {
        Ok(blank) => blank_sheet(alloc, job.part(), &blank),
        Err(_) => unreachable!(),
    }
}

/// The order sheet of a certificate's steps, or that there is no plan.
#[tactic(auto, unfolding(crate::specs::PlanAnswer::no_plan_line))]
fn last_text(alloc: Global, job: &Job, cert: &WrittenCert) -> Result<Vec<u8>, AllocError>
    requires { (budget : Option ℕ) × IsWrittenPlan budget job.now cert.now }
    ensures { IfOk result (λ text.
        text.items ≡ last_text job.now cert.now.claim cert.now.steps.items) }
{
    match cert.claim {
        Worth::Cost(_) => order_sheet(alloc, job, cert.steps.as_slice()),
        Worth::Blocked => Vec::from_slice(alloc, b"no plan\n"),
    }
}

/// How a run ends whose claim is this.
pub fn claim_status(claim: Worth) -> Status
    ensures value { result ≡ claim_status claim }
    ensures whole { ¬ IsCutShort result }
{
    match claim {
        Worth::Cost(_) => Status::Done,
        Worth::Blocked => Status::NoPlan,
    }
}

/// The sheets of a certificate, the first of which is given.
fn sheets(
    alloc: Global,
    job: &Job,
    sheet: Vec<u8>,
    cert: &WrittenCert,
) -> Result<Vec<Vec<u8>>, AllocError>
    requires { (budget : Option ℕ) × IsWrittenPlan budget job.now cert.now }
    ensures { IfOk result (λ texts.
        map vec_items texts.items ≡ (written_rest job.now sheet.items cert.now).texts) }
{
    let mut texts = Vec::new(alloc);
    texts.push(sheet)?;
    texts.push(setup_sheet(alloc, job)?)?;
    texts.push(last_text(alloc, job, cert)?)?;
    Ok(texts)
}

/// What is left of the answer by a certificate once its text is stored. The sheets, the first of which
/// is given, are made before that.
fn stored_answer<H: Shelf>(
    alloc: Global,
    name: &str,
    job: &Job,
    sheet: Vec<u8>,
    cert: WrittenCert,
    shelf: &mut H,
) -> Result<Answer, StoreFault>
    requires { (budget : Option ℕ) × IsWrittenPlan budget job.now cert }
    ensures answer { IfOk result (λ answer.
        answer_data answer ≡ written_rest job.now sheet.items cert) }
    ensures status { IfOk result (λ answer. ¬ IsCutShort answer.status) }
    ensures ok { OnOk result (AreStored (one_stored name.now cert.text)
        (H.state shelf.old) (H.state shelf.new)) }
    ensures err { OnErr result ((H.state shelf.new ≡ H.state shelf.old)
        ⊎ AreStoredUpTo (one_stored name.now cert.text)
        (H.state shelf.old) (H.state shelf.new)) }
    ensures never_falls { NoCountFalls (H.state shelf.old) (H.state shelf.new) }
    ensures faults { OnOk result ((H.state shelf.new).faults ≡ (H.state shelf.old).faults) }
    ensures failed { IsErrOf result StoreFault.Failed →
        Rose (H.state shelf.old).faults (H.state shelf.new).faults }
    ensures cause { IsErrOf result StoreFault.Failed →
        HasDueCall (H.state shelf.old) (H.state shelf.new) }
{
    let texts = sheets(alloc, job, sheet, &cert)?;
    let status = claim_status(cert.claim);
    let mut text = cert.text;
    store_pieces(alloc, name, &mut text, shelf)?;
    Ok(Answer {
        stored: Vec::new(alloc),
        status,
        texts,
    })
}

/// The line of a budget that isn't enough.
#[tactic(auto, using(cert_lines::proofs::Texts::pieces), unfolding(crate::specs::PlanAnswer::spent_line))]
fn spent_line(alloc: Global, budget: u32) -> Result<Vec<u8>, AllocError>
    ensures { IfOk result (λ line. line.items ≡ spent_line budget) }
{
    let mut out = Vec::new(alloc);
    put_word(&mut out, b"spent")?;
    put_count(&mut out, u64::from(budget))?;
    put_word(&mut out, b"\n")?;
    Ok(out)
}

/// The answer that a budget isn't enough.
fn spent_answer(alloc: Global, budget: u32) -> Result<Answer, AllocError>
    ensures answer { IfOk result (λ answer. answer_data answer
        ≡ one_text Status.Spent (spent_line budget)) }
    ensures status { IfOk result (λ answer. ¬ IsCutShort answer.status) }
{
    Answer::one_text(alloc, Status::Spent, spent_line(alloc, budget)?)
}

/// The answer to a job that has this blank sheet, by a search that settles at most so many keys. Its
/// certificate is stored here.
fn plan_within<H: Shelf>(
    alloc: Global,
    name: &str,
    budget: u32,
    job: &Job,
    sheet: Vec<u8>,
    shelf: &mut H,
) -> Result<Answer, StoreFault>
    requires job { IsJob job.now }
    requires sheet { IsBlankSheet job.now sheet.items }
    ensures answer { IfOk result (λ answer.
        StoresFirst (IsPlanned name.now (Some budget) job.now) (answer_data answer)
        (H.state shelf.old) (H.state shelf.new)) }
    ensures status { IfOk result (λ answer. ¬ IsCutShort answer.status) }
    ensures begins { OnErr result ((H.state shelf.new ≡ H.state shelf.old)
        ⊎ StoresBeginning (IsStoredOf (IsPlanned name.now (Some budget) job.now))
        (H.state shelf.old) (H.state shelf.new)) }
    ensures never_falls { NoCountFalls (H.state shelf.old) (H.state shelf.new) }
    ensures failed { IsErrOf result StoreFault.Failed →
        Rose (H.state shelf.old).faults (H.state shelf.new).faults }
    ensures cause { IsErrOf result StoreFault.Failed →
        HasDueCall (H.state shelf.old) (H.state shelf.new) }
{
    let found = find_cert(alloc, job, budget)?;
    match found {
        Some(cert) => stored_answer(alloc, name, job, sheet, cert, shelf),
        None => Ok(spent_answer(alloc, budget)?),
    }
}

/// The answer to a job, within the budget if one is given. Its certificate is stored here.
fn plan_job<H: Shelf>(
    alloc: Global,
    name: &str,
    budget: Option<u32>,
    job: &Job,
    shelf: &mut H,
) -> Result<Answer, StoreFault>
    ensures answer { IfOk result (λ answer.
        StoresFirst (IsPlanned name.now budget job.now) (answer_data answer)
        (H.state shelf.old) (H.state shelf.new)) }
    ensures status { IfOk result (λ answer. ¬ IsCutShort answer.status) }
    ensures begins { OnErr result ((H.state shelf.new ≡ H.state shelf.old)
        ⊎ StoresBeginning (IsStoredOf (IsPlanned name.now budget job.now))
        (H.state shelf.old) (H.state shelf.new)) }
    ensures never_falls { NoCountFalls (H.state shelf.old) (H.state shelf.new) }
    ensures failed { IsErrOf result StoreFault.Failed →
        Rose (H.state shelf.old).faults (H.state shelf.new).faults }
    ensures cause { IsErrOf result StoreFault.Failed →
        HasDueCall (H.state shelf.old) (H.state shelf.new) }
{
    let sheet = blank_sheet_of(alloc, job)?;
    match budget {
        Some(budget) => plan_within(alloc, name, budget, job, sheet, shelf),
        None => {
            let cert = least_cert(alloc, job)?;
            stored_answer(alloc, name, job, sheet, cert, shelf)
        }
    }
}

/// The answer to the contents of the part's file, the tools file and the machine file, within the
/// budget of settled keys if one is given. Its certificate is stored here, in pieces; what is given
/// back is left to put.
pub fn answer<H: Shelf>(
    alloc: Global,
    name: &str,
    budget: Option<u32>,
    contents: &[Vec<u8>],
    shelf: &mut H,
) -> Result<Answer, StoreFault>
    requires { length contents.now ≡ 3 }
    ensures answer { IfOk result (λ answer.
        StoresFirst (IsPlanAnswer name.now budget (map vec_items contents.now)) (answer_data answer)
        (H.state shelf.old) (H.state shelf.new)) }
    ensures status { IfOk result (λ answer. ¬ IsCutShort answer.status) }
    ensures begins { OnErr result ((H.state shelf.new ≡ H.state shelf.old)
        ⊎ StoresBeginning (IsStoredOf (IsPlanAnswer name.now budget (map vec_items contents.now)))
        (H.state shelf.old) (H.state shelf.new)) }
    ensures never_falls { NoCountFalls (H.state shelf.old) (H.state shelf.new) }
    ensures failed { IsErrOf result StoreFault.Failed →
        Rose (H.state shelf.old).faults (H.state shelf.new).faults }
    ensures cause { IsErrOf result StoreFault.Failed →
        HasDueCall (H.state shelf.old) (H.state shelf.new) }
{
    match job_at(alloc, contents, 0) {
        Ok(job) => plan_job(alloc, name, budget, &job, shelf),
        Err(stop) => Ok(stopped(alloc, stop)?),
    }
}
