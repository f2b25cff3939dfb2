//! What is told of a table.
ghost use Rattle.std.specs.Prelude.{◌≡◌, ◌⊎◌, ◌<◌, ◌≤◌, ◌^◌, [], codes, IfOk, OnOk, OnErr, IsErrOf};
ghost use Rattle.cert_lines.specs.Lines.{IsWorth};
ghost use Rattle.cert_merge.specs.Table.{TableData};
ghost use Rattle.cert_merge.specs.MergedTexts.{IsToldOf};
ghost use Rattle.brake_io.specs.Rose.{Rose};
ghost use Rattle.brake_io.specs.Meanings.{NoCountFalls};
ghost use Rattle.command_runner.specs.declared.status.Status.TheVariants as status;
ghost use Rattle.command_runner.specs.Answers.{answer_data, one_stored, refusal};
ghost use Rattle.command_runner.specs.Fetching.{HasDueCall};
ghost use Rattle.command_runner.specs.Delivery.{IsCutShort, AreStored, AreStoredUpTo};
ghost use Rattle.brake_commands.specs.TableAnswer.{rows_line, at_least_line, proved_line, told_answer, table_answer, stored_table};

use crate::plan::claim_status;
use brake_base::Worth;
use brake_io::{Shelf, StoreFault};
use brake_text::put_word;
use cert_merge::{MergedText, MergedTexts, SettledText};
use command_runner::{Answer, Status, refusal, store_pieces};
use job_setup::Job;
use plan_cert::put_count;
use std::alloc::{AllocError, Global};

/// The line of a table's number of rows.
#[tactic(auto, using(cert_lines::proofs::Texts::pieces), unfolding(crate::specs::TableAnswer::rows_line))]
fn rows_line(alloc: Global, count: usize) -> Result<Vec<u8>, AllocError>
    requires { count < 2 ^ 63 }
    ensures { IfOk result (λ line. line.items ≡ rows_line count) }
{
    let mut out = Vec::new(alloc);
    put_word(&mut out, b"rows")?;
    put_count(&mut out, count as u64)?;
    put_word(&mut out, b"\n")?;
    Ok(out)
}

/// The line of what every plan costs at least.
#[tactic(auto, using(cert_lines::proofs::Texts::pieces), unfolding(crate::specs::TableAnswer::at_least_line))]
fn at_least_line(alloc: Global, cost: u64) -> Result<Vec<u8>, AllocError>
    requires { cost ≤ 1000000000 }
    ensures { IfOk result (λ line. line.items ≡ at_least_line cost) }
{
    let mut out = Vec::new(alloc);
    put_word(&mut out, b"at least")?;
    put_count(&mut out, cost)?;
    put_word(&mut out, b"\n")?;
    Ok(out)
}

/// The line of a worth that is proved of the start.
#[tactic(auto, unfolding(crate::specs::PlanAnswer::no_plan_line))]
fn proved_line(alloc: Global, worth: Worth) -> Result<Vec<u8>, AllocError>
    requires { IsWorth worth }
    ensures { IfOk result (λ line. line.items ≡ proved_line worth) }
{
    match worth {
        Worth::Cost(cost) => at_least_line(alloc, cost),
        Worth::Blocked => Vec::from_slice(alloc, b"no plan\n"),
    }
}

/// The answer that tells so many rows and a worth that they prove of the start, without a text to
/// store.
pub fn told_answer(alloc: Global, rows: usize, worth: Worth) -> Result<Answer, AllocError>
    requires rows { rows < 2 ^ 63 }
    requires worth { IsWorth worth }
    ensures answer { IfOk result (λ answer. answer_data answer ≡ told_answer [] rows worth) }
    ensures status { IfOk result (λ answer. ¬ IsCutShort answer.status) }
{
    let mut texts = Vec::new(alloc);
    texts.push(rows_line(alloc, rows)?)?;
    texts.push(proved_line(alloc, worth)?)?;
    Ok(Answer {
        stored: Vec::new(alloc),
        status: claim_status(worth),
        texts,
    })
}

/// What is left of the answer to the merge of two tables once its text is stored under this name. The
/// text is stored here, in pieces.
pub fn merged_text_answer<H: Shelf>(
    alloc: Global,
    name: &str,
    job: &Job,
    merged: &MergedTexts,
    shelf: &mut H,
) -> Result<Answer, StoreFault>
    requires told { (table : TableData) × IsToldOf job.now table merged.now }
    requires worth { IsWorth merged.now.at_start }
    ensures answer { (table : TableData) → IsToldOf job.now table merged.now
        → IfOk result (λ answer. answer_data answer ≡ table_answer [] job.now table) }
    ensures status { IfOk result (λ answer. ¬ IsCutShort answer.status) }
    ensures ok { (table : TableData) → IsToldOf job.now table merged.now
        → OnOk result (AreStored (stored_table name.now job.now table)
        (H.state shelf.old) (H.state shelf.new)) }
    ensures err { (table : TableData) → IsToldOf job.now table merged.now
        → OnErr result ((H.state shelf.new ≡ H.state shelf.old)
        ⊎ AreStoredUpTo (stored_table name.now job.now table)
        (H.state shelf.old) (H.state shelf.new)) }
    ensures never_falls { NoCountFalls (H.state shelf.old) (H.state shelf.new) }
    ensures faults { OnOk result ((H.state shelf.new).faults ≡ (H.state shelf.old).faults) }
    ensures failed { IsErrOf result StoreFault.Failed →
        Rose (H.state shelf.old).faults (H.state shelf.new).faults }
    ensures cause { IsErrOf result StoreFault.Failed →
        HasDueCall (H.state shelf.old) (H.state shelf.new) }
{
    let answer = told_answer(alloc, merged.rows.heads.len(), merged.at_start)?;
    let mut text = MergedText::open(alloc, job, merged)?;
    store_pieces(alloc, name, &mut text, shelf)?;
    Ok(answer)
}

/// What is left of the answer to a table that is given as its text, with what is told of it, once the
/// text is stored under this name. The text is stored here, in pieces.
pub fn settled_text_answer<H: Shelf>(
    alloc: Global,
    name: &str,
    settled: SettledText,
    shelf: &mut H,
) -> Result<Answer, StoreFault>
    requires rows { settled.rows < 2 ^ 63 }
    requires worth { IsWorth settled.at_start }
    ensures answer { IfOk result (λ answer. answer_data answer
        ≡ told_answer [] settled.entry.rows settled.entry.at_start) }
    ensures status { IfOk result (λ answer. ¬ IsCutShort answer.status) }
    ensures ok { OnOk result (AreStored (one_stored name.now settled.entry.text)
        (H.state shelf.old) (H.state shelf.new)) }
    ensures err { OnErr result ((H.state shelf.new ≡ H.state shelf.old)
        ⊎ AreStoredUpTo (one_stored name.now settled.entry.text)
        (H.state shelf.old) (H.state shelf.new)) }
    ensures never_falls { NoCountFalls (H.state shelf.old) (H.state shelf.new) }
    ensures faults { OnOk result ((H.state shelf.new).faults ≡ (H.state shelf.old).faults) }
    ensures failed { IsErrOf result StoreFault.Failed →
        Rose (H.state shelf.old).faults (H.state shelf.new).faults }
    ensures cause { IsErrOf result StoreFault.Failed →
        HasDueCall (H.state shelf.old) (H.state shelf.new) }
{
    let answer = told_answer(alloc, settled.rows, settled.at_start)?;
    let mut text = settled.text;
    store_pieces(alloc, name, &mut text, shelf)?;
    Ok(answer)
}

/// The answer that a table is of another job.
pub fn other_job(alloc: Global) -> Result<Answer, AllocError>
    ensures answer { IfOk result (λ answer. answer_data answer
        ≡ refusal status.CertRefused (codes "table refused job") []) }
    ensures status { IfOk result (λ answer. ¬ IsCutShort answer.status) }
{
    refusal(alloc, Status::CertRefused, b"table refused job", &[])
}
