//! What is answered to words that fetch nothing.
ghost use Rattle.std.specs.Prelude.{◌≡◌, ◌++◌, IfOk, OnOk, map, option_map, string_bytes};
ghost use Rattle.std.specs.List.{flat_map};
ghost use Rattle.std.specs.Vec.{vec_items};
ghost use Rattle.cert_lines.specs.Lines.{spaced};
ghost use Rattle.command_runner.specs.Answers.{answer_data};
ghost use Rattle.command_runner.specs.Delivery.{IsCutShort};
ghost use Rattle.brake_draw.specs.Say.{usage_text, usage, joined, sentence_line, said, is_say, is_saying, answer_at_once};

use brake_text::put_word;
use command_runner::{Answer, Status};
use refusal_words::sentence;
use std::alloc::{AllocError, Global};

/// The usage text.
#[tactic(auto, unfolding(crate::specs::Say::usage_text))]
fn usage_text(alloc: Global) -> Result<Vec<u8>, AllocError>
    ensures { IfOk result (λ text. text.items ≡ usage_text) }
{
    let mut text = Vec::from_slice(alloc, b"usage: brake_draw CERT OUT\n")?;
    put_word(&mut text, b"usage: brake_draw say LINE\n")?;
    Ok(text)
}

/// The answer to words of no form.
fn usage(alloc: Global) -> Result<Answer, AllocError>
    ensures answer { IfOk result (λ answer. answer_data answer ≡ usage) }
    ensures status { IfOk result (λ answer. ¬ IsCutShort answer.status) }
{
    Answer::one_text(alloc, Status::Usage, usage_text(alloc)?)
}

/// Appends the words, each behind a space.
#[tactic(auto, using(cert_lines::proofs::Texts::pieces))]
fn put_spaced(out: &mut Vec<u8>, words: &[String]) -> Result<(), AllocError>
    ensures { OnOk result (out.new.items
        ≡ out.old.items ++ flat_map spaced (map string_bytes words.now)) }
{
    match words {
        [] => Ok(()),
        [word, words @ ..] => {
            put_word(out, b" ")?;
            put_word(out, word.as_bytes())?;
            put_spaced(out, words)
        }
    }
}

/// The words joined by single spaces.
fn joined(alloc: Global, words: &[String]) -> Result<Vec<u8>, AllocError>
    ensures { IfOk result (λ line. line.items ≡ joined (map string_bytes words.now)) }
{
    match words {
        [] => Ok(Vec::new(alloc)),
        [word, words @ ..] => {
            let mut line = Vec::from_slice(alloc, word.as_bytes())?;
            put_spaced(&mut line, words)?;
            Ok(line)
        }
    }
}

/// Appends a sentence as a line, where there is one.
#[tactic(auto, using(cert_lines::proofs::Texts::pieces))]
pub fn put_sentence(out: &mut Vec<u8>, words: Option<Vec<u8>>) -> Result<(), AllocError>
    ensures { OnOk result (out.new.items
        ≡ out.old.items ++ sentence_line (option_map vec_items words)) }
{
    match words {
        Some(words) => {
            put_word(out, words.as_slice())?;
            put_word(out, b"\n")
        }
        None => Ok(()),
    }
}

/// The answer to a line: its sentence, or the usage text where it has none.
fn said(alloc: Global, line: &[u8]) -> Result<Answer, AllocError>
    ensures answer { IfOk result (λ answer. answer_data answer ≡ said line.now) }
    ensures status { IfOk result (λ answer. ¬ IsCutShort answer.status) }
{
    match sentence(alloc, line)? {
        Some(mut words) => {
            put_word(&mut words, b"\n")?;
            Answer::one_text(alloc, Status::Done, words)
        }
        None => usage(alloc),
    }
}

/// Whether the word is `say`.
#[tactic(auto, unfolding(crate::specs::Say::is_say))]
fn is_say(word: &str) -> bool
    ensures { result ≡ is_say word.now }
{
    word == "say"
}

/// Whether the words ask for the sentence of a line.
pub fn is_saying(words: &[String]) -> bool
    ensures { result ≡ is_saying (map string_bytes words.now) }
{
    match words {
        [] => false,
        [first, ..] => is_say(first.as_str()),
    }
}

/// The answer to words that fetch nothing: to `say LINE`, and to words that have no form.
pub fn answer_at_once(alloc: Global, words: &[String]) -> Result<Answer, AllocError>
    ensures answer { IfOk result (λ answer.
        answer_data answer ≡ answer_at_once (map string_bytes words.now)) }
    ensures status { IfOk result (λ answer. ¬ IsCutShort answer.status) }
{
    match words {
        [] => usage(alloc),
        [first, words @ ..] => {
            if is_say(first.as_str()) {
                said(alloc, joined(alloc, words)?.as_slice())
            } else {
                usage(alloc)
            }
        }
    }
}
