//! What `blank` answers.
ghost use Rattle.std.specs.Prelude.{◌≡◌, length, map, IfOk};
ghost use Rattle.std.specs.Vec.{vec_items};
ghost use Rattle.command_runner.specs.Answers.{answer_data};
ghost use Rattle.command_runner.specs.Delivery.{IsCutShort};
ghost use Rattle.brake_commands.specs.Stops.{Reads};
ghost use Rattle.brake_commands.specs.BlankAnswer.{blank_sheet_of, blank_answer};

use crate::refusal::{ReadStop, stopped};
use allowance::find;
use command_runner::{Answer, Status};
use part_file::read_part;
use setup_sheet::blank_sheet;
use std::alloc::{AllocError, Global};
use tool_library::read_tools;
use unfolder::unfold;

/// The blank sheet of a part's file and a tools file, or the first refusal: of the part, of the
/// tools, of the deduction, of the blank.
#[tactic(auto, using(setup_sheet::proofs::Bounds::blank_is_bounded), unfolding(job_setup::specs::JobOf::blank_in, job_setup::specs::JobOf::blank_of, crate::specs::BlankAnswer::blank_sheet_of))]
fn blank_sheet_of(alloc: Global, part: &[u8], tools: &[u8]) -> Result<Vec<u8>, ReadStop>
    ensures { Reads result (blank_sheet_of part.now tools.now) }
{
    let part = read_part(alloc, part)?;
    let tools = read_tools(alloc, tools)?;
    let q = find(&tools.allow, &part)?;
    let blank = unfold(&part, q)?;
    match blank_sheet(alloc, &part, &blank) {
        Ok(sheet) => Ok(sheet),
        Err(_) => Err(ReadStop::NoMemory),
    }
}

/// The answer to the contents of the part's file and the tools file: the blank sheet, or the line of
/// the first refusal.
pub fn answer(alloc: Global, contents: &[Vec<u8>]) -> Result<Answer, AllocError>
    requires { length contents.now ≡ 2 }
    ensures answer { IfOk result (λ answer.
        answer_data answer ≡ blank_answer (map vec_items contents.now)) }
    ensures status { IfOk result (λ answer. ¬ IsCutShort answer.status) }
{
    match blank_sheet_of(alloc, contents[0].as_slice(), contents[1].as_slice()) {
        Ok(sheet) => Answer::one_text(alloc, Status::Done, sheet),
        Err(stop) => stopped(alloc, stop),
    }
}
