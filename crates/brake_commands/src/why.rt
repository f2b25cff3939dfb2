//! What `why` answers.
ghost use Rattle.std.specs.Prelude.{◌≡◌, ◌++◌, ◌∷◌, length, map, IfOk, OnOk};
ghost use Rattle.std.specs.List.{flat_map};
ghost use Rattle.std.specs.Vec.{vec_items};
ghost use Rattle.cert_lines.specs.Lines.{spaced, action_words, back_word};
ghost use Rattle.command_runner.specs.Answers.{answer_data};
ghost use Rattle.command_runner.specs.Delivery.{IsCutShort};
ghost use Rattle.brake_commands.specs.WhyAnswer.{set_words, never_line, count_line, why_text, IsWhy, IsWhyAnswer};

use crate::job_files::job_at;
use crate::refusal::stopped;
use brake_base::{Action, Back, Mask};
use brake_text::put_word;
use command_runner::{Answer, Status};
use job_setup::Job;
use nogood_book::{Book, Nogood};
use plan_cert::{put_count, put_reason};
use std::alloc::{AllocError, Global};

/// The word for the side at the back, behind a space.
fn put_back(out: &mut Vec<u8>, back: Back) -> Result<(), AllocError>
    ensures { OnOk result (out.new.items ≡ out.old.items ++ spaced (back_word back)) }
{
    match back {
        Back::Parent => put_word(out, b" P"),
        Back::Child => put_word(out, b" C"),
    }
}

/// The words of an action.
#[tactic(auto, using(cert_lines::proofs::Texts::pieces))]
fn put_action(out: &mut Vec<u8>, action: &Action) -> Result<(), AllocError>
    ensures { OnOk result (out.new.items
        ≡ out.old.items ++ flat_map spaced (action_words action.now)) }
{
    put_count(out, u64::from(action.bend))?;
    put_back(out, action.back)?;
    put_count(out, u64::from(action.stage))
}

/// A set of bends as a number, behind a word.
#[tactic(auto, using(cert_lines::proofs::Texts::pieces))]
fn put_set(out: &mut Vec<u8>, word: &[u8], set: Mask) -> Result<(), AllocError>
    ensures { OnOk result (out.new.items
        ≡ out.old.items ++ flat_map spaced (set_words word.now set)) }
{
    put_word(out, b" ")?;
    put_word(out, word)?;
    put_count(out, u64::from(set.0))
}

/// The line of a nogood.
#[tactic(auto, using(cert_lines::proofs::Texts::pieces), unfolding(crate::specs::WhyAnswer::never_line))]
fn put_never(out: &mut Vec<u8>, nogood: &Nogood) -> Result<(), AllocError>
    ensures { OnOk result (out.new.items ≡ out.old.items ++ never_line nogood.now) }
{
    put_word(out, b"never")?;
    put_action(out, &nogood.action)?;
    put_set(out, b"folded", nogood.folded)?;
    put_set(out, b"flat", nogood.flat)?;
    put_word(out, b" reason")?;
    put_reason(out, nogood.reason)?;
    put_word(out, b"\n")
}

/// A line for each nogood.
fn put_nevers(out: &mut Vec<u8>, book: &Book) -> Result<(), AllocError>
    ensures { OnOk result (out.new.items
        ≡ out.old.items ++ flat_map never_line book.now.nogoods) }
{
    for i in 0..book.len() {
        put_never(out, &book.get(i))?;
    }
    Ok(())
}

/// How many nogoods there are.
#[tactic(auto, using(cert_lines::proofs::Texts::pieces), unfolding(crate::specs::WhyAnswer::count_line))]
fn put_how_many(out: &mut Vec<u8>, count: u32) -> Result<(), AllocError>
    ensures { OnOk result (out.new.items ≡ out.old.items ++ count_line count) }
{
    put_word(out, b"nogoods")?;
    put_count(out, u64::from(count))?;
    put_word(out, b"\n")
}

/// The lines of a book.
#[tactic(auto, using(cert_lines::proofs::Texts::pieces))]
fn why_text(alloc: Global, book: &Book) -> Result<Vec<u8>, AllocError>
    ensures { IfOk result (λ text. text.items ≡ why_text book.now.nogoods) }
{
    let mut out = Vec::new(alloc);
    put_nevers(&mut out, book)?;
    put_how_many(&mut out, book.len())?;
    Ok(out)
}

/// The answer to a job: its nogoods.
fn why_job(alloc: Global, job: &Job) -> Result<Answer, AllocError>
    ensures answer { IfOk result (λ answer. IsWhy job.now (answer_data answer)) }
    ensures status { IfOk result (λ answer. ¬ IsCutShort answer.status) }
{
    let book = Book::of(alloc, job)?;
    let text = why_text(alloc, &book)?;
    Answer::one_text(alloc, Status::Done, text)
}

/// The answer to the contents of the part's file, the tools file and the machine file.
pub fn answer(alloc: Global, contents: &[Vec<u8>]) -> Result<Answer, AllocError>
    requires { length contents.now ≡ 3 }
    ensures answer { IfOk result (λ answer.
        IsWhyAnswer (map vec_items contents.now) (answer_data answer)) }
    ensures status { IfOk result (λ answer. ¬ IsCutShort answer.status) }
{
    match job_at(alloc, contents, 0) {
        Ok(job) => why_job(alloc, &job),
        Err(stop) => stopped(alloc, stop),
    }
}
