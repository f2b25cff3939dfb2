//! What `prove` answers.
ghost use Rattle.std.specs.Prelude.{[], IfOk};
ghost use Rattle.command_runner.specs.Answers.{answer_data};
ghost use Rattle.command_runner.specs.Delivery.{IsCutShort};
ghost use Rattle.command_runner.specs.Reading.{AnswersText};
ghost use Rattle.brake_commands.specs.ProveAnswer.{IsProveAnswer};

use crate::table_answer::told_answer;
use crate::table_check::{TableStop, table_stopped};
use brake_io::{Reader, Window};
use cert_merge::prove_text_from;
use command_runner::Answer;
use std::alloc::{AllocError, Global};

/// The answer to the text of a table.
pub fn answer<R: Reader + Drop>(alloc: Global, window: &mut Window<R>) -> Result<Answer, AllocError>
    ensures answer { IfOk result (λ answer.
        AnswersText IsProveAnswer window.old window.new [] (answer_data answer)) }
    ensures status { IfOk result (λ answer. ¬ IsCutShort answer.status) }
{
    match prove_text_from(alloc, window) {
        Ok(proved) => told_answer(alloc, proved.rows as usize, proved.at_start),
        Err(fault) => table_stopped(alloc, 1, TableStop::from(fault)),
    }
}
