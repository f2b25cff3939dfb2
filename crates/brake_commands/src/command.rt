//! The commands: what the words say, and what they answer.
ghost use Rattle.std.specs.Prelude.{◌≡◌, ◌↔◌, IfOk, IfSome, IsTrue, Some, length, map, string_bytes, false};
ghost use Rattle.std.specs.Vec.{vec_items};
ghost use Rattle.command_runner.specs.Answers.{answer_data};
ghost use Rattle.command_runner.specs.Delivery.{IsCutShort, Outside};
ghost use Rattle.command_runner.specs.Ends.{Ends, CountsFault, MayFault};
ghost use Rattle.command_runner.specs.Fetching.{file_words};
ghost use Rattle.command_runner.specs.Kinds.{is_form};
ghost use Rattle.brake_commands.specs.Forms.{kinds_of, form_of, read_by, command_of};
ghost use Rattle.brake_commands.specs.Commands.{meaning_of, begins_of, reads_in_pieces, stores_in_turn};
ghost use Rattle.brake_commands.specs.SetupsWords.{AreSetupsWords};
ghost use Rattle.brake_commands.specs.declared.command.Command.TheVariants.{Setups};

use crate::form::{FORMS, Form};
use crate::in_pieces::PieceCommand;
use crate::settle::Range;
use crate::{blank, merge, plan, settle, setups, trial, why};
use brake_io::{Shelf, Sink, StoreFault};
use command_runner::{Answer, Status, WordKind, is_form, run, run_reading, word_at};
use std::alloc::{AllocError, Global};

/// A command, with the places of its words among all words, and its numbers.
#[derive(Clone, Copy, Debug, PartialEq, Eq)]
pub enum Command {
    Blank {
        part: usize,
        tools: usize,
    },
    /// `budget` is the greatest number of settled keys.
    Plan {
        part: usize,
        tools: usize,
        machine: usize,
        cert: usize,
        budget: Option<u32>,
    },
    Check {
        cert: usize,
    },
    /// `check` with the files of a job.
    CheckFiles {
        cert: usize,
        part: usize,
        tools: usize,
        machine: usize,
    },
    /// `n` is the number of a generated job.
    Trial {
        n: u32,
    },
    Why {
        part: usize,
        tools: usize,
        machine: usize,
    },
    Setups {
        part: usize,
        tools: usize,
        machine: usize,
        setups: usize,
        cert: usize,
    },
    /// `low` and `high` are sets of bends as numbers.
    Settle {
        part: usize,
        tools: usize,
        machine: usize,
        out: usize,
        low: u16,
        high: u16,
        base: Option<usize>,
    },
    Merge {
        a: usize,
        b: usize,
        out: usize,
    },
    Prove {
        table: usize,
    },
}

impl Command {
    /// The form of its words.
    fn form(self) -> Form
        ensures { result ≡ form_of self }
    {
        match self {
            Command::Blank { .. } => Form::Blank,
            Command::Plan { budget: None, .. } => Form::Plan,
            Command::Plan { .. } => Form::PlanWithin,
            Command::Check { .. } => Form::Check,
            Command::CheckFiles { .. } => Form::CheckFiles,
            Command::Trial { .. } => Form::Trial,
            Command::Why { .. } => Form::Why,
            Command::Setups { .. } => Form::Setups,
            Command::Settle { base: None, .. } => Form::Settle,
            Command::Settle { .. } => Form::SettleOver,
            Command::Merge { .. } => Form::Merge,
            Command::Prove { .. } => Form::Prove,
        }
    }

    /// The answer of a command whose files are fetched and that stores nothing before it is given.
    fn answer_at_once(
        self,
        alloc: Global,
        words: &[String],
        contents: &[Vec<u8>],
    ) -> Result<Answer, AllocError>
        requires count { length contents.now ≡ length (file_words (kinds_of (form_of self))) }
        requires fetched { reads_in_pieces self ≡ false }
        requires at_once { stores_in_turn self ≡ false }
        ensures answer { IfOk result (λ answer. meaning_of self (map string_bytes words.now)
            (map vec_items contents.now) (answer_data answer)) }
        ensures status { IfOk result (λ answer. ¬ IsCutShort answer.status) }
    {
        match self {
            Command::Blank { .. } => blank::answer(alloc, contents),
            Command::Plan { .. } => unreachable!(),
            Command::Check { .. } => unreachable!(),
            Command::CheckFiles { .. } => unreachable!(),
            Command::Trial { n } => trial::answer(alloc, n),
            Command::Why { .. } => why::answer(alloc, contents),
            Command::Setups { .. } => unreachable!(),
            Command::Settle { .. } => unreachable!(),
            Command::Merge { .. } => unreachable!(),
            Command::Prove { .. } => unreachable!(),
        }
    }
}

/// A command whose files are fetched before it answers.
#[derive(Clone, Copy)]
struct FetchedCommand {
    command: Command,
    ghost fetched: { reads_in_pieces command ≡ false },
}

impl command_runner::Command for FetchedCommand {
    ghost use Rattle.brake_commands.specs.Forms.{kinds_of, form_of};
    ghost use Rattle.brake_commands.specs.Commands.{meaning_of, begins_of};

    ghost form = { λ fetched. kinds_of (form_of fetched.command) };

    ghost meaning = { λ fetched. meaning_of fetched.command };

    ghost begins = { λ fetched. begins_of fetched.command };

    fn kinds(&self) -> &'static [WordKind] {
        self.command.form().kinds()
    }

    fn answer<H: Shelf>(
        &self,
        alloc: Global,
        words: &[String],
        contents: &[Vec<u8>],
        shelf: &mut H,
    ) -> Result<Answer, StoreFault> {
        match self.command {
            Command::Plan { cert, budget, .. } => {
                plan::answer(alloc, word_at(words, cert), budget, contents, shelf)
            }
            Command::Setups { cert, .. } => {
                setups::answer(alloc, word_at(words, cert), contents, shelf)
            }
            Command::Settle {
                out,
                low,
                high,
                base: None,
                ..
            } => {
                let range = Range { low, high };
                settle::answer(alloc, word_at(words, out), range, contents, shelf)
            }
            Command::Settle {
                out,
                low,
                high,
                base: Some(_),
                ..
            } => {
                let range = Range { low, high };
                settle::answer_with_base(alloc, word_at(words, out), range, contents, shelf)
            }
            Command::Merge { out, .. } => {
                merge::answer(alloc, word_at(words, out), contents, shelf)
            }
            _ => Ok(self.command.answer_at_once(alloc, words, contents)?),
        }
    }
}

/// Runs a command: some read their first file themselves, and of any other all files are fetched.
pub fn run_command<H: Shelf, K: Sink>(
    alloc: Global,
    command: Command,
    words: &[String],
    shelf: &mut H,
    out: &mut K,
) -> Status
    requires { IsTrue (is_form (kinds_of (form_of command)) (map string_bytes words.now)) }
    ensures ends { Ends (kinds_of (form_of command)) (meaning_of command) (begins_of command)
        (map string_bytes words.now)
        (record { shelf = H.state shelf.old; sink = K.state out.old })
        (record { shelf = H.state shelf.new; sink = K.state out.new }) result }
    ensures fault { result ≡ Status.Fault → CountsFault
        (record { shelf = H.state shelf.old; sink = K.state out.old })
        (record { shelf = H.state shelf.new; sink = K.state out.new }) }
    ensures cause { result ≡ Status.Fault → MayFault (kinds_of (form_of command))
        (map string_bytes words.now)
        (record { shelf = H.state shelf.old; sink = K.state out.old })
        (record { shelf = H.state shelf.new; sink = K.state out.new }) }
{
    match command {
        Command::Check { .. } => run_reading(alloc, &PieceCommand::Check, words, shelf, out),
        Command::CheckFiles { .. } => {
            run_reading(alloc, &PieceCommand::CheckFiles, words, shelf, out)
        }
        Command::Prove { .. } => run_reading(alloc, &PieceCommand::Prove, words, shelf, out),
        _ => run(alloc, &FetchedCommand { command }, words, shelf, out),
    }
}

/// The command by the first of some forms that the words have.
fn read_by(forms: &[Form], words: &[String]) -> Option<Command>
    ensures value { result ≡ read_by forms.now (map string_bytes words.now) }
    ensures form { IfSome result (λ command.
        IsTrue (is_form (kinds_of (form_of command)) (map string_bytes words.now))) }
{
    match forms {
        [] => None,
        [form, forms @ ..] => {
            if is_form(form.kinds(), words) {
                form.read(words)
            } else {
                read_by(forms, words)
            }
        }
    }
}

/// The command that the words say. None exactly where they have no command's form, or a number of
/// the form isn't in its range.
#[tactic(auto, unfolding(crate::specs::Forms::command_of))]
pub fn read_words(words: &[String]) -> Option<Command>
    ensures value { result ≡ command_of (map string_bytes words.now) }
    ensures form { IfSome result (λ command.
        IsTrue (is_form (kinds_of (form_of command)) (map string_bytes words.now))) }
    ensures setups { result ≡ Some (Setups 1 2 3 4 5)
        ↔ AreSetupsWords (map string_bytes words.now) }
{
    read_by(&FORMS, words)
}
