//! What `settle` answers.
ghost use Rattle.std.specs.Prelude.{◌≡◌, ◌⊎◌, ◌↔◌, ◌+◌, ◌^◌, ◌<◌, ◌≤◌, [], codes, length, map, IfOk, OnErr, IsErrOf, IsTrue};
ghost use Rattle.std.specs.Vec.{vec_items};
ghost use Rattle.job_setup.specs.Setup.{bend_count};
ghost use Rattle.brake_io.specs.Rose.{Rose};
ghost use Rattle.brake_io.specs.Meanings.{NoCountFalls};
ghost use Rattle.cert_merge.specs.SettledText.{IsClosedText};
ghost use Rattle.cert_merge.specs.Table.{TableData};
ghost use Rattle.cert_merge.specs.TableTexts.{empty_table};
ghost use Rattle.command_runner.specs.declared.status.Status.TheVariants as status;
ghost use Rattle.command_runner.specs.Answers.{answer_data, refusal};
ghost use Rattle.command_runner.specs.Fetching.{HasDueCall};
ghost use Rattle.command_runner.specs.Delivery.{IsCutShort};
ghost use Rattle.command_runner.specs.Ends.{StoresFirst, StoresBeginning};
ghost use Rattle.brake_commands.specs.PlanAnswer.{IsStoredOf};
ghost use Rattle.brake_commands.specs.TableCheck.{AnswersTable};
ghost use Rattle.brake_commands.specs.TableStops.{checked_file, IsCheckedText};
ghost use Rattle.brake_commands.specs.SettleAnswer.{IsRange, AnswersRange, IsSettledAnswer, AnswersBase, IsSettleAnswer, IsSettleOverAnswer};

use crate::job_files::{content_at, is_one_job, job_at};
use crate::refusal::stopped;
use crate::table_answer::{other_job, settled_text_answer};
use crate::table_check::{CheckedText, checked_text, table_stopped};
use brake_io::{Shelf, StoreFault};
use cert_merge::{settle_text, settle_text_over};
use command_runner::{Answer, Status, refusal};
use job_setup::Job;
use std::alloc::{AllocError, Global};

/// A range of sets of bends, as numbers.
#[derive(Clone, Copy, Debug, PartialEq, Eq)]
pub struct Range {
    pub low: u16,
    pub high: u16,
}

impl Range {
    /// Whether it is in order, and each set leaves a bend of the job unfolded.
    fn is_of(self, job: &Job) -> bool
        ensures { IsTrue result ↔ IsRange self.low self.high job.now }
    {
        self.low <= self.high && u32::from(self.high) + 1 < 1 << job.bends()
    }
}

/// The answer that the range isn't one of the job's sets.
fn range_refused(alloc: Global) -> Result<Answer, AllocError>
    ensures answer { IfOk result (λ answer. answer_data answer
        ≡ refusal status.Refused (codes "refused range") []) }
    ensures status { IfOk result (λ answer. ¬ IsCutShort answer.status) }
{
    refusal(alloc, Status::Refused, b"refused range", &[])
}

/// The answer to a range of a job over the text of a closed base.
fn settled_answer<H: Shelf>(
    alloc: Global,
    name: &str,
    range: Range,
    base: &[u8],
    job: &Job,
    shelf: &mut H,
) -> Result<Answer, StoreFault>
    requires range { IsRange range.low range.high job.now }
    requires base { (table : TableData) × IsClosedText job.now table base.now }
    ensures answer { (table : TableData) → IsClosedText job.now table base.now
        → IfOk result (λ answer. StoresFirst
        (IsSettledAnswer name.now range.low range.high table job.now)
        (answer_data answer) (H.state shelf.old) (H.state shelf.new)) }
    ensures status { IfOk result (λ answer. ¬ IsCutShort answer.status) }
    ensures begins { (table : TableData) → IsClosedText job.now table base.now
        → OnErr result ((H.state shelf.new ≡ H.state shelf.old) ⊎ StoresBeginning
        (IsStoredOf (IsSettledAnswer name.now range.low range.high table job.now))
        (H.state shelf.old) (H.state shelf.new)) }
    ensures never_falls { NoCountFalls (H.state shelf.old) (H.state shelf.new) }
    ensures failed { IsErrOf result StoreFault.Failed →
        Rose (H.state shelf.old).faults (H.state shelf.new).faults }
    ensures cause { IsErrOf result StoreFault.Failed →
        HasDueCall (H.state shelf.old) (H.state shelf.new) }
{
    let settled = settle_text_over(alloc, job, base, range.low, range.high)?;
    settled_text_answer(alloc, name, settled, shelf)
}

/// The answer to a range of a job over the text of a closed table, which is to be of this job.
fn answer_to_base<H: Shelf>(
    alloc: Global,
    name: &str,
    range: Range,
    job: &Job,
    base: &CheckedText,
    shelf: &mut H,
) -> Result<Answer, StoreFault>
    requires range { IsRange range.low range.high job.now }
    requires base { (table : TableData) × IsCheckedText table base.now }
    ensures answer { (table : TableData) → IsCheckedText table base.now
        → IfOk result (λ answer. StoresFirst (AnswersBase name.now range.low range.high job.now
        (checked_file base.now table))
        (answer_data answer) (H.state shelf.old) (H.state shelf.new)) }
    ensures status { IfOk result (λ answer. ¬ IsCutShort answer.status) }
    ensures begins { (table : TableData) → IsCheckedText table base.now
        → OnErr result ((H.state shelf.new ≡ H.state shelf.old) ⊎ StoresBeginning
        (IsStoredOf (AnswersBase name.now range.low range.high job.now
        (checked_file base.now table)))
        (H.state shelf.old) (H.state shelf.new)) }
    ensures never_falls { NoCountFalls (H.state shelf.old) (H.state shelf.new) }
    ensures failed { IsErrOf result StoreFault.Failed →
        Rose (H.state shelf.old).faults (H.state shelf.new).faults }
    ensures cause { IsErrOf result StoreFault.Failed →
        HasDueCall (H.state shelf.old) (H.state shelf.new) }
{
    let same = is_one_job(alloc, &base.job, job)?;
    if same {
        settled_answer(alloc, name, range, base.text, job, shelf)
    } else {
        Ok(other_job(alloc)?)
    }
}

/// The answer to a range of a job over the table of a text.
fn answer_over<H: Shelf>(
    alloc: Global,
    name: &str,
    range: Range,
    text: &[u8],
    job: &Job,
    shelf: &mut H,
) -> Result<Answer, StoreFault>
    requires { IsRange range.low range.high job.now }
    ensures answer { IfOk result (λ answer. StoresFirst (AnswersTable 5
        (AnswersBase name.now range.low range.high job.now) text.now)
        (answer_data answer) (H.state shelf.old) (H.state shelf.new)) }
    ensures status { IfOk result (λ answer. ¬ IsCutShort answer.status) }
    ensures begins { OnErr result ((H.state shelf.new ≡ H.state shelf.old) ⊎ StoresBeginning
        (IsStoredOf (AnswersTable 5
        (AnswersBase name.now range.low range.high job.now) text.now))
        (H.state shelf.old) (H.state shelf.new)) }
    ensures never_falls { NoCountFalls (H.state shelf.old) (H.state shelf.new) }
    ensures failed { IsErrOf result StoreFault.Failed →
        Rose (H.state shelf.old).faults (H.state shelf.new).faults }
    ensures cause { IsErrOf result StoreFault.Failed →
        HasDueCall (H.state shelf.old) (H.state shelf.new) }
{
    match checked_text(alloc, text) {
        Ok(base) => answer_to_base(alloc, name, range, job, &base, shelf),
        Err(stop) => Ok(table_stopped(alloc, 5, stop)?),
    }
}

/// What is left of the answer to a range of a job, over no base, once the text of its table is stored.
/// It is stored here, in pieces.
fn answer_over_none<H: Shelf>(
    alloc: Global,
    name: &str,
    range: Range,
    job: &Job,
    shelf: &mut H,
) -> Result<Answer, StoreFault>
    requires range { IsRange range.low range.high job.now }
    ensures answer { IfOk result (λ answer.
        StoresFirst (IsSettledAnswer name.now range.low range.high empty_table job.now)
        (answer_data answer) (H.state shelf.old) (H.state shelf.new)) }
    ensures status { IfOk result (λ answer. ¬ IsCutShort answer.status) }
    ensures begins { OnErr result ((H.state shelf.new ≡ H.state shelf.old) ⊎ StoresBeginning
        (IsStoredOf (IsSettledAnswer name.now range.low range.high empty_table job.now))
        (H.state shelf.old) (H.state shelf.new)) }
    ensures never_falls { NoCountFalls (H.state shelf.old) (H.state shelf.new) }
    ensures failed { IsErrOf result StoreFault.Failed →
        Rose (H.state shelf.old).faults (H.state shelf.new).faults }
    ensures cause { IsErrOf result StoreFault.Failed →
        HasDueCall (H.state shelf.old) (H.state shelf.new) }
{
    let settled = settle_text(alloc, job, range.low, range.high)?;
    settled_text_answer(alloc, name, settled, shelf)
}

/// The answer to a job, over no base.
fn answer_to_job<H: Shelf>(
    alloc: Global,
    name: &str,
    range: Range,
    job: &Job,
    shelf: &mut H,
) -> Result<Answer, StoreFault>
    ensures answer { IfOk result (λ answer. StoresFirst (AnswersRange range.low range.high
        (IsSettledAnswer name.now range.low range.high empty_table) job.now)
        (answer_data answer) (H.state shelf.old) (H.state shelf.new)) }
    ensures status { IfOk result (λ answer. ¬ IsCutShort answer.status) }
    ensures begins { OnErr result ((H.state shelf.new ≡ H.state shelf.old) ⊎ StoresBeginning
        (IsStoredOf (AnswersRange range.low range.high
        (IsSettledAnswer name.now range.low range.high empty_table) job.now))
        (H.state shelf.old) (H.state shelf.new)) }
    ensures never_falls { NoCountFalls (H.state shelf.old) (H.state shelf.new) }
    ensures failed { IsErrOf result StoreFault.Failed →
        Rose (H.state shelf.old).faults (H.state shelf.new).faults }
    ensures cause { IsErrOf result StoreFault.Failed →
        HasDueCall (H.state shelf.old) (H.state shelf.new) }
{
    job.recall_valid();
    if range.is_of(job) {
        answer_over_none(alloc, name, range, job, shelf)
    } else {
        Ok(range_refused(alloc)?)
    }
}

/// The answer to the contents of the part's file, the tools file and the machine file. The text of its
/// table is stored here, in pieces; what is given back is left to put.
pub fn answer<H: Shelf>(
    alloc: Global,
    name: &str,
    range: Range,
    contents: &[Vec<u8>],
    shelf: &mut H,
) -> Result<Answer, StoreFault>
    requires { length contents.now ≡ 3 }
    ensures answer { IfOk result (λ answer. StoresFirst
        (IsSettleAnswer name.now range.low range.high (map vec_items contents.now))
        (answer_data answer) (H.state shelf.old) (H.state shelf.new)) }
    ensures status { IfOk result (λ answer. ¬ IsCutShort answer.status) }
    ensures begins { OnErr result ((H.state shelf.new ≡ H.state shelf.old) ⊎ StoresBeginning
        (IsStoredOf (IsSettleAnswer name.now range.low range.high (map vec_items contents.now)))
        (H.state shelf.old) (H.state shelf.new)) }
    ensures never_falls { NoCountFalls (H.state shelf.old) (H.state shelf.new) }
    ensures failed { IsErrOf result StoreFault.Failed →
        Rose (H.state shelf.old).faults (H.state shelf.new).faults }
    ensures cause { IsErrOf result StoreFault.Failed →
        HasDueCall (H.state shelf.old) (H.state shelf.new) }
{
    match job_at(alloc, contents, 0) {
        Ok(job) => answer_to_job(alloc, name, range, &job, shelf),
        Err(stop) => Ok(stopped(alloc, stop)?),
    }
}

/// The answer to a job and the text of the base's file.
fn answer_to_job_over<H: Shelf>(
    alloc: Global,
    name: &str,
    range: Range,
    text: &[u8],
    job: &Job,
    shelf: &mut H,
) -> Result<Answer, StoreFault>
    ensures answer { IfOk result (λ answer. StoresFirst (AnswersRange range.low range.high
        (λ job. AnswersTable 5 (AnswersBase name.now range.low range.high job) text.now) job.now)
        (answer_data answer) (H.state shelf.old) (H.state shelf.new)) }
    ensures status { IfOk result (λ answer. ¬ IsCutShort answer.status) }
    ensures begins { OnErr result ((H.state shelf.new ≡ H.state shelf.old) ⊎ StoresBeginning
        (IsStoredOf (AnswersRange range.low range.high
        (λ job. AnswersTable 5 (AnswersBase name.now range.low range.high job) text.now) job.now))
        (H.state shelf.old) (H.state shelf.new)) }
    ensures never_falls { NoCountFalls (H.state shelf.old) (H.state shelf.new) }
    ensures failed { IsErrOf result StoreFault.Failed →
        Rose (H.state shelf.old).faults (H.state shelf.new).faults }
    ensures cause { IsErrOf result StoreFault.Failed →
        HasDueCall (H.state shelf.old) (H.state shelf.new) }
{
    if range.is_of(job) {
        answer_over(alloc, name, range, text, job, shelf)
    } else {
        Ok(range_refused(alloc)?)
    }
}

/// The answer to these and to the content of the base's file. The text of its table is stored here, in
/// pieces; what is given back is left to put.
pub fn answer_with_base<H: Shelf>(
    alloc: Global,
    name: &str,
    range: Range,
    contents: &[Vec<u8>],
    shelf: &mut H,
) -> Result<Answer, StoreFault>
    requires { length contents.now ≡ 4 }
    ensures answer { IfOk result (λ answer. StoresFirst (IsSettleOverAnswer name.now range.low range.high
        (map vec_items contents.now))
        (answer_data answer) (H.state shelf.old) (H.state shelf.new)) }
    ensures status { IfOk result (λ answer. ¬ IsCutShort answer.status) }
    ensures begins { OnErr result ((H.state shelf.new ≡ H.state shelf.old) ⊎ StoresBeginning
        (IsStoredOf (IsSettleOverAnswer name.now range.low range.high
        (map vec_items contents.now)))
        (H.state shelf.old) (H.state shelf.new)) }
    ensures never_falls { NoCountFalls (H.state shelf.old) (H.state shelf.new) }
    ensures failed { IsErrOf result StoreFault.Failed →
        Rose (H.state shelf.old).faults (H.state shelf.new).faults }
    ensures cause { IsErrOf result StoreFault.Failed →
        HasDueCall (H.state shelf.old) (H.state shelf.new) }
{
    match job_at(alloc, contents, 0) {
        Ok(job) => {
            let text = content_at(contents, 3);
            answer_to_job_over(alloc, name, range, text, &job, shelf)
        }
        Err(stop) => Ok(stopped(alloc, stop)?),
    }
}
