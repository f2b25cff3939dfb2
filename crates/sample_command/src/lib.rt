//! A command that stores a text and may answer in two ways, as a planner may where several plans are
//! least: it shows what the clauses of a run say of such a command.
#![tactic(auto)]

ghost use Rattle.std.specs.Prelude.{◌≡◌, map, string_bytes, length, IfOk, IsTrue};
ghost use Rattle.std.specs.Vec.{vec_items};
ghost use Rattle.command_runner.specs.Kinds.{is_form};
ghost use Rattle.command_runner.specs.Answers.{answer_data};
ghost use Rattle.command_runner.specs.Delivery.{Outside};
ghost use Rattle.command_runner.specs.Ends.{no_beginning, Ends};
ghost use Rattle.command_runner.specs.declared.status.Status.TheVariants.{Done};
ghost use Rattle.sample_command.specs.Sample.{sample_form, marked, IsSampleAnswer};

use brake_io::{Shelf, Sink, StoreFault};
use command_runner::{Answer, Command, Keyword, Status, StoredText, WordKind, run};
use std::alloc::{AllocError, Global};

/// `plan PART OUT`: it stores a mark under OUT, and puts the mark and the content of PART.
#[derive(Clone, Copy, Debug, PartialEq, Eq)]
pub enum Sample {
    One,
    Two,
}

/// The answer with this mark.
fn marked(
    alloc: Global,
    mark: &[u8],
    words: &[String],
    contents: &[Vec<u8>],
) -> Result<Answer, AllocError>
    requires words { length words.now ≡ 3 }
    requires contents { length contents.now ≡ 1 }
    ensures answer { IfOk result (λ answer. answer_data answer
        ≡ marked mark.now (map string_bytes words.now) (map vec_items contents.now)) }
    ensures status { IfOk result (λ answer. answer.status ≡ Done) }
{
    let mut stored = Vec::new(alloc);
    stored.push(StoredText {
        name: String::from_str(alloc, words[2].as_str())?,
        text: Vec::from_slice(alloc, mark)?,
    })?;
    let mut texts = Vec::new(alloc);
    texts.push(Vec::from_slice(alloc, mark)?)?;
    texts.push(Vec::from_slice(alloc, contents[0].as_slice())?)?;
    Ok(Answer {
        stored,
        status: Status::Done,
        texts,
    })
}

impl Command for Sample {
    ghost use Rattle.command_runner.specs.Ends.{no_beginning};
    ghost use Rattle.sample_command.specs.Sample.{sample_form, IsSampleAnswer};

    ghost form = { λ _. sample_form };

    ghost meaning = { λ _. IsSampleAnswer };

    ghost begins = { λ _. no_beginning };

    fn kinds(&self) -> &'static [WordKind] {
        &[
            WordKind::Literal(Keyword::Plan),
            WordKind::Input,
            WordKind::Output,
        ]
    }

    fn answer<H: Shelf>(
        &self,
        alloc: Global,
        words: &[String],
        contents: &[Vec<u8>],
        _: &mut H,
    ) -> Result<Answer, StoreFault> {
        match self {
            Sample::One => Ok(marked(alloc, b"one\n", words, contents)?),
            Sample::Two => Ok(marked(alloc, b"two\n", words, contents)?),
        }
    }
}

/// Runs the command, whose words have its form.
pub fn run_sample<H: Shelf, K: Sink>(
    alloc: Global,
    sample: Sample,
    words: &[String],
    shelf: &mut H,
    out: &mut K,
) -> Status
    requires { IsTrue (is_form sample_form (map string_bytes words.now)) }
    ensures { Ends sample_form IsSampleAnswer no_beginning (map string_bytes words.now)
        (record { shelf = H.state shelf.old; sink = K.state out.old })
        (record { shelf = H.state shelf.new; sink = K.state out.new }) result }
{
    run(alloc, &sample, words, shelf, out)
}
