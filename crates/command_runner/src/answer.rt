//! What a command answers.
ghost use Rattle.std.specs.Prelude.{◌≡◌, ◌++◌, IfOk, OnOk};
ghost use Rattle.command_runner.specs.Answers.{answer_data, one_text, field, fields, refusal_line, refusal};

use crate::status::Status;
use brake_text::{put_number, put_word};
use std::alloc::{AllocError, Global};

/// A text, and the name under which it is stored.
#[derive(Drop)]
pub struct StoredText {
    pub name: String,
    pub text: Vec<u8>,
}

/// What a command leaves.
#[derive(Drop)]
pub struct Answer {
    /// The texts that are stored, in order.
    pub stored: Vec<StoredText>,
    /// How the run ends.
    pub status: Status,
    /// The texts that are put, in order.
    pub texts: Vec<Vec<u8>>,
}

impl Answer {
    /// An answer that stores nothing and puts one text.
    pub fn one_text(alloc: Global, status: Status, text: Vec<u8>) -> Result<Answer, AllocError>
        ensures answer { IfOk result (λ answer. answer_data answer ≡ one_text status text.items) }
        ensures status { IfOk result (λ answer. answer.status ≡ status) }
    {
        let mut texts = Vec::new(alloc);
        texts.push(text)?;
        Ok(Answer {
            stored: Vec::new(alloc),
            status,
            texts,
        })
    }
}

/// A space and a number.
#[tactic(auto, using(crate::proofs::Texts::pieces), unfolding(crate::specs::Answers::field))]
fn put_field(out: &mut Vec<u8>, number: u32) -> Result<(), AllocError>
    ensures { OnOk result (out.new.items ≡ out.old.items ++ field number) }
{
    put_word(out, b" ")?;
    put_number(out, i64::from(number))
}

/// Each number behind a space.
fn put_fields(out: &mut Vec<u8>, numbers: &[u32]) -> Result<(), AllocError>
    ensures { OnOk result (out.new.items ≡ out.old.items ++ fields numbers.now) }
{
    for number in numbers {
        put_field(out, *number)?;
    }
    Ok(())
}

/// The line of a refusal: what is refused, and its numbers.
#[tactic(auto, using(crate::proofs::Texts::pieces), unfolding(crate::specs::Answers::refusal_line))]
fn refusal_line(alloc: Global, what: &[u8], numbers: &[u32]) -> Result<Vec<u8>, AllocError>
    ensures { IfOk result (λ line. line.items ≡ refusal_line what.now numbers.now) }
{
    let mut out = Vec::new(alloc);
    put_word(&mut out, what)?;
    put_fields(&mut out, numbers)?;
    put_word(&mut out, b"\n")?;
    Ok(out)
}

/// The answer of a refusal: it ends with the status, and puts the line of what is refused and its
/// numbers.
pub fn refusal(
    alloc: Global,
    status: Status,
    what: &[u8],
    numbers: &[u32],
) -> Result<Answer, AllocError>
    ensures answer { IfOk result (λ answer. answer_data answer
        ≡ refusal status what.now numbers.now) }
    ensures status { IfOk result (λ answer. answer.status ≡ status) }
{
    let line = refusal_line(alloc, what, numbers)?;
    Answer::one_text(alloc, status, line)
}
