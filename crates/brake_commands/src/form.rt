//! The forms of the words of the commands.
ghost use Rattle.std.specs.Prelude.{◌≡◌, ◌≤◌, IfSome, map, string_bytes};
ghost use Rattle.command_runner.specs.Kinds.{number_in};
ghost use Rattle.command_runner.specs.Fetching.{word_at};
ghost use Rattle.brake_commands.specs.declared.command.Command.TheVariants.{Plan};
ghost use Rattle.brake_commands.specs.Forms.{kinds_of, settle_in, read_as, form_of};

use crate::command::Command;
use command_runner::{Keyword, WordKind, number_in, word_at};

/// A form of words.
#[derive(Clone, Copy, Debug, PartialEq, Eq)]
pub enum Form {
    Blank,
    Plan,
    /// `plan` with `--budget N`.
    PlanWithin,
    Check,
    /// `check` with the files of a job.
    CheckFiles,
    Trial,
    Why,
    Setups,
    Settle,
    /// `settle` over the table BASE.
    SettleOver,
    Merge,
    Prove,
}

/// All forms.
pub const FORMS: [Form; 12] = [
    Form::Blank,
    Form::Plan,
    Form::PlanWithin,
    Form::Check,
    Form::CheckFiles,
    Form::Trial,
    Form::Why,
    Form::Setups,
    Form::Settle,
    Form::SettleOver,
    Form::Merge,
    Form::Prove,
];

/// The word that stands for `--budget`.
const BUDGET: WordKind = WordKind::Literal(Keyword::Budget);

impl Form {
    /// The kinds of its words.
    pub fn kinds(self) -> &'static [WordKind]
        ensures { result.now ≡ kinds_of self }
    {
        match self {
            Form::Blank => &[
                WordKind::Literal(Keyword::Blank),
                WordKind::Input,
                WordKind::Input,
            ],
            Form::Plan => &[
                WordKind::Literal(Keyword::Plan),
                WordKind::Input,
                WordKind::Input,
                WordKind::Input,
                WordKind::Output,
            ],
            Form::PlanWithin => &[
                WordKind::Literal(Keyword::Plan),
                WordKind::Input,
                WordKind::Input,
                WordKind::Input,
                WordKind::Output,
                BUDGET,
                WordKind::Number,
            ],
            Form::Check => &[WordKind::Literal(Keyword::Check), WordKind::Certificate],
            Form::CheckFiles => &[
                WordKind::Literal(Keyword::Check),
                WordKind::Certificate,
                WordKind::Input,
                WordKind::Input,
                WordKind::Input,
            ],
            Form::Trial => &[WordKind::Literal(Keyword::Trial), WordKind::Number],
            Form::Why => &[
                WordKind::Literal(Keyword::Why),
                WordKind::Input,
                WordKind::Input,
                WordKind::Input,
            ],
            Form::Setups => &[
                WordKind::Literal(Keyword::Setups),
                WordKind::Input,
                WordKind::Input,
                WordKind::Input,
                WordKind::Input,
                WordKind::NumberedOutput,
            ],
            Form::Settle => &[
                WordKind::Literal(Keyword::Settle),
                WordKind::Input,
                WordKind::Input,
                WordKind::Input,
                WordKind::Output,
                WordKind::Number,
                WordKind::Number,
            ],
            Form::SettleOver => &[
                WordKind::Literal(Keyword::Settle),
                WordKind::Input,
                WordKind::Input,
                WordKind::Input,
                WordKind::Output,
                WordKind::Number,
                WordKind::Number,
                WordKind::Table,
            ],
            Form::Merge => &[
                WordKind::Literal(Keyword::Merge),
                WordKind::Table,
                WordKind::Table,
                WordKind::Output,
            ],
            Form::Prove => &[WordKind::Literal(Keyword::Prove), WordKind::Table],
        }
    }

    /// The command that words of this form say. None where a number of it isn't in its range.
    pub fn read(self, words: &[String]) -> Option<Command>
        ensures value { result ≡ read_as self (map string_bytes words.now) }
        ensures form { IfSome result (λ command. form_of command ≡ self) }
    {
        match self {
            Form::Blank => Some(Command::Blank { part: 1, tools: 2 }),
            Form::Plan => Some(plan(None)),
            Form::PlanWithin => Some(plan(Some(number_at(words, 6, 1, u32::MAX)?))),
            Form::Check => Some(Command::Check { cert: 1 }),
            Form::CheckFiles => Some(Command::CheckFiles {
                cert: 1,
                part: 2,
                tools: 3,
                machine: 4,
            }),
            Form::Trial => Some(Command::Trial {
                n: number_at(words, 1, 0, u32::MAX)?,
            }),
            Form::Why => Some(Command::Why {
                part: 1,
                tools: 2,
                machine: 3,
            }),
            Form::Setups => Some(Command::Setups {
                part: 1,
                tools: 2,
                machine: 3,
                setups: 4,
                cert: 5,
            }),
            Form::Settle => settle_in(words, None),
            Form::SettleOver => settle_in(words, Some(7)),
            Form::Merge => Some(Command::Merge { a: 1, b: 2, out: 3 }),
            Form::Prove => Some(Command::Prove { table: 1 }),
        }
    }
}

/// The number that the word at this place spells. None where it spells no number of the range.
fn number_at(words: &[String], place: usize, least: u32, most: u32) -> Option<u32>
    ensures value { result ≡ number_in least most (word_at (map string_bytes words.now) place) }
    ensures within { IfSome result (λ n. n ≤ most) }
{
    number_in(word_at(words, place).as_bytes(), least, most)
}

/// `plan`, within a budget of settled keys or without one.
fn plan(budget: Option<u32>) -> Command
    ensures { result ≡ Plan 1 2 3 4 budget }
{
    Command::Plan {
        part: 1,
        tools: 2,
        machine: 3,
        cert: 4,
        budget,
    }
}

/// The greatest set of bends, as a number.
const ALL_BENDS: u32 = 4095;

/// `settle` over the table at this place among the words, or over none. None where LOW or HIGH is
/// no set of bends.
fn settle_in(words: &[String], base: Option<usize>) -> Option<Command>
    ensures { result ≡ settle_in base (map string_bytes words.now) }
{
    let low = number_at(words, 5, 0, ALL_BENDS)? as u16;
    let high = number_at(words, 6, 0, ALL_BENDS)? as u16;
    Some(Command::Settle {
        part: 1,
        tools: 2,
        machine: 3,
        out: 4,
        low,
        high,
        base,
    })
}
