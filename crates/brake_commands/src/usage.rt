//! The usage text.
ghost use Rattle.std.specs.Prelude.{◌≡◌, ◌++◌, IfOk, OnOk};
ghost use Rattle.std.specs.List.{flat_map};
ghost use Rattle.command_runner.specs.Answers.{answer_data};
ghost use Rattle.brake_commands.specs.Commands.{ended_line, usage_text, usage};

use brake_text::put_word;
use command_runner::{Answer, Status};
use std::alloc::{AllocError, Global};

/// The lines of the usage text: the forms of the words.
const LINES: [&str; 9] = [
    "usage: brake blank PART TOOLS",
    "usage: brake plan PART TOOLS MACHINE CERT [--budget N]",
    "usage: brake check CERT [PART TOOLS MACHINE]",
    "usage: brake trial N",
    "usage: brake why PART TOOLS MACHINE",
    "usage: brake setups PART TOOLS MACHINE SETUPS CERT",
    "usage: brake settle PART TOOLS MACHINE OUT LOW HIGH [BASE]",
    "usage: brake merge TABLE TABLE OUT",
    "usage: brake prove TABLE",
];

/// A line and its line feed.
#[tactic(auto, unfolding(crate::specs::Commands::ended_line))]
fn put_line(out: &mut Vec<u8>, line: &str) -> Result<(), AllocError>
    ensures { OnOk result (out.new.items ≡ out.old.items ++ ended_line line.now) }
{
    put_word(out, line.as_bytes())?;
    put_word(out, b"\n")
}

/// Each line, and its line feed.
fn put_lines(out: &mut Vec<u8>, lines: &[&str]) -> Result<(), AllocError>
    ensures { OnOk result (out.new.items
        ≡ out.old.items ++ flat_map (λ line. ended_line line.now) lines.now) }
{
    for line in lines {
        put_line(out, line)?;
    }
    Ok(())
}

#[tactic(auto, unfolding(crate::specs::Commands::usage_text))]
fn usage_text(alloc: Global) -> Result<Vec<u8>, AllocError>
    ensures { IfOk result (λ text. text.items ≡ usage_text) }
{
    let mut text = Vec::new(alloc);
    put_lines(&mut text, &LINES)?;
    Ok(text)
}

/// The answer to words that have no form.
pub fn usage(alloc: Global) -> Result<Answer, AllocError>
    ensures answer { IfOk result (λ answer. answer_data answer ≡ usage) }
    ensures status { IfOk result (λ answer. answer.status ≡ Status.Usage) }
{
    Answer::one_text(alloc, Status::Usage, usage_text(alloc)?)
}
