//! What `merge` answers.
ghost use Rattle.std.specs.Prelude.{◌≡◌, ◌⊎◌, length, map, IfOk, OnErr, IsErrOf};
ghost use Rattle.std.specs.Vec.{vec_items};
ghost use Rattle.brake_io.specs.Rose.{Rose};
ghost use Rattle.brake_io.specs.Meanings.{NoCountFalls};
ghost use Rattle.cert_merge.specs.Table.{TableData};
ghost use Rattle.command_runner.specs.Answers.{answer_data};
ghost use Rattle.command_runner.specs.Fetching.{HasDueCall};
ghost use Rattle.command_runner.specs.Delivery.{IsCutShort};
ghost use Rattle.command_runner.specs.Ends.{StoresFirst, StoresBeginning};
ghost use Rattle.brake_commands.specs.PlanAnswer.{IsStoredOf};
ghost use Rattle.brake_commands.specs.TableCheck.{AnswersTable};
ghost use Rattle.brake_commands.specs.TableStops.{checked_file, IsCheckedText};
ghost use Rattle.brake_commands.specs.MergeAnswer.{IsMergedAnswer, AnswersBoth, IsMergeAnswer};

use crate::job_files::{content_at, is_one_job};
use crate::table_answer::{merged_text_answer, other_job};
use crate::table_check::{CheckedText, checked_text, table_stopped};
use brake_io::{Shelf, StoreFault};
use cert_merge::merge_texts;
use command_runner::Answer;
use std::alloc::Global;

/// The answer to the texts of two closed tables of one job.
fn merged_answer<H: Shelf>(
    alloc: Global,
    name: &str,
    a: &CheckedText,
    b: &CheckedText,
    shelf: &mut H,
) -> Result<Answer, StoreFault>
    requires one_job { a.now.job ≡ b.now.job }
    requires checked { (x : TableData) × (y : TableData)
        × IsCheckedText x a.now × IsCheckedText y b.now }
    ensures answer { (x y : TableData) → IsCheckedText x a.now → IsCheckedText y b.now
        → IfOk result (λ answer. StoresFirst
        (IsMergedAnswer name.now (checked_file a.now x) (checked_file b.now y))
        (answer_data answer) (H.state shelf.old) (H.state shelf.new)) }
    ensures status { IfOk result (λ answer. ¬ IsCutShort answer.status) }
    ensures begins { (x y : TableData) → IsCheckedText x a.now → IsCheckedText y b.now
        → OnErr result ((H.state shelf.new ≡ H.state shelf.old) ⊎ StoresBeginning
        (IsStoredOf (IsMergedAnswer name.now (checked_file a.now x) (checked_file b.now y)))
        (H.state shelf.old) (H.state shelf.new)) }
    ensures never_falls { NoCountFalls (H.state shelf.old) (H.state shelf.new) }
    ensures failed { IsErrOf result StoreFault.Failed →
        Rose (H.state shelf.old).faults (H.state shelf.new).faults }
    ensures cause { IsErrOf result StoreFault.Failed →
        HasDueCall (H.state shelf.old) (H.state shelf.new) }
{
    let merged = merge_texts(alloc, &a.job, a.text, b.text)?;
    merged_text_answer(alloc, name, &a.job, &merged, shelf)
}

/// The answer to the texts of two closed tables, which are to be of one job.
fn answer_to_both<H: Shelf>(
    alloc: Global,
    name: &str,
    a: &CheckedText,
    b: &CheckedText,
    shelf: &mut H,
) -> Result<Answer, StoreFault>
    requires checked { (x : TableData) × (y : TableData)
        × IsCheckedText x a.now × IsCheckedText y b.now }
    ensures answer { (x y : TableData) → IsCheckedText x a.now → IsCheckedText y b.now
        → IfOk result (λ answer. StoresFirst
        (AnswersBoth name.now (checked_file a.now x) (checked_file b.now y))
        (answer_data answer) (H.state shelf.old) (H.state shelf.new)) }
    ensures status { IfOk result (λ answer. ¬ IsCutShort answer.status) }
    ensures begins { (x y : TableData) → IsCheckedText x a.now → IsCheckedText y b.now
        → OnErr result ((H.state shelf.new ≡ H.state shelf.old) ⊎ StoresBeginning
        (IsStoredOf (AnswersBoth name.now (checked_file a.now x) (checked_file b.now y)))
        (H.state shelf.old) (H.state shelf.new)) }
    ensures never_falls { NoCountFalls (H.state shelf.old) (H.state shelf.new) }
    ensures failed { IsErrOf result StoreFault.Failed →
        Rose (H.state shelf.old).faults (H.state shelf.new).faults }
    ensures cause { IsErrOf result StoreFault.Failed →
        HasDueCall (H.state shelf.old) (H.state shelf.new) }
{
    let same = is_one_job(alloc, &a.job, &b.job)?;
    if same {
        merged_answer(alloc, name, a, b, shelf)
    } else {
        Ok(other_job(alloc)?)
    }
}

/// The answer to the text of a closed table and to that of the second one, which isn't checked yet.
fn answer_to_second<H: Shelf>(
    alloc: Global,
    name: &str,
    a: &CheckedText,
    text: &[u8],
    shelf: &mut H,
) -> Result<Answer, StoreFault>
    requires { (x : TableData) × IsCheckedText x a.now }
    ensures answer { (x : TableData) → IsCheckedText x a.now
        → IfOk result (λ answer. StoresFirst
        (AnswersTable 2 (AnswersBoth name.now (checked_file a.now x)) text.now)
        (answer_data answer) (H.state shelf.old) (H.state shelf.new)) }
    ensures status { IfOk result (λ answer. ¬ IsCutShort answer.status) }
    ensures begins { (x : TableData) → IsCheckedText x a.now
        → OnErr result ((H.state shelf.new ≡ H.state shelf.old) ⊎ StoresBeginning
        (IsStoredOf (AnswersTable 2 (AnswersBoth name.now (checked_file a.now x)) text.now))
        (H.state shelf.old) (H.state shelf.new)) }
    ensures never_falls { NoCountFalls (H.state shelf.old) (H.state shelf.new) }
    ensures failed { IsErrOf result StoreFault.Failed →
        Rose (H.state shelf.old).faults (H.state shelf.new).faults }
    ensures cause { IsErrOf result StoreFault.Failed →
        HasDueCall (H.state shelf.old) (H.state shelf.new) }
{
    match checked_text(alloc, text) {
        Ok(b) => answer_to_both(alloc, name, a, &b, shelf),
        Err(stop) => Ok(table_stopped(alloc, 2, stop)?),
    }
}

/// The answer to the contents of the tables' files; the first is checked before the second. The text of
/// the merge is stored here, in pieces; what is given back is left to put.
pub fn answer<H: Shelf>(
    alloc: Global,
    name: &str,
    contents: &[Vec<u8>],
    shelf: &mut H,
) -> Result<Answer, StoreFault>
    requires { length contents.now ≡ 2 }
    ensures answer { IfOk result (λ answer. StoresFirst (IsMergeAnswer name.now (map vec_items contents.now))
        (answer_data answer) (H.state shelf.old) (H.state shelf.new)) }
    ensures status { IfOk result (λ answer. ¬ IsCutShort answer.status) }
    ensures begins { OnErr result ((H.state shelf.new ≡ H.state shelf.old) ⊎ StoresBeginning
        (IsStoredOf (IsMergeAnswer name.now (map vec_items contents.now)))
        (H.state shelf.old) (H.state shelf.new)) }
    ensures never_falls { NoCountFalls (H.state shelf.old) (H.state shelf.new) }
    ensures failed { IsErrOf result StoreFault.Failed →
        Rose (H.state shelf.old).faults (H.state shelf.new).faults }
    ensures cause { IsErrOf result StoreFault.Failed →
        HasDueCall (H.state shelf.old) (H.state shelf.new) }
{
    match checked_text(alloc, content_at(contents, 0)) {
        Ok(a) => answer_to_second(alloc, name, &a, content_at(contents, 1), shelf),
        Err(stop) => Ok(table_stopped(alloc, 1, stop)?),
    }
}
