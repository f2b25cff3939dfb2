//! The run of a command.
ghost use Rattle.std.specs.Prelude.{◌≡◌, ◌⊎◌, ◌≤◌, List, ℕ, length, map, string_bytes, IsTrue, IfOk, IfErr, OnErr, IsErrOf};
ghost use Rattle.std.specs.Vec.{vec_items};
ghost use Rattle.brake_io.specs.Rose.{Rose};
ghost use Rattle.brake_io.specs.Meanings.{NoCountFalls};
ghost use Rattle.command_runner.specs.declared.word_kind.WordKind.{WordKind};
ghost use Rattle.command_runner.specs.Kinds.{is_form};
ghost use Rattle.command_runner.specs.Answers.{answer_data, long_refused};
ghost use Rattle.command_runner.specs.Fetching.{file_words, files_of, names_of, OnlyFetches, HasCause, HasDueCall};
ghost use Rattle.command_runner.specs.Delivery.{IsCutShort, Outside};
ghost use Rattle.command_runner.specs.Ends.{Meaning, Beginning, StoresFirst, StoresBeginning, IsBegun, HasRest, Ends, IsOutcome, CountsFault, MayFault};

use crate::answer::{Answer, refusal};
use crate::delivery::deliver;
use crate::fetching::{FetchStop, fetch_all, file_words};
use crate::status::Status;
use crate::word_kind::WordKind;
use brake_io::{Shelf, Sink, StoreFault};
use std::alloc::{AllocError, Global};

/// A command, with the form of its words and what it answers.
pub trait Command {
    /// The kinds of its words.
    ghost form: { Self → List WordKind };

    /// What it answers to its words and the contents of its files. It may have several answers.
    ghost meaning: { Self → Meaning };

    /// What it may have stored where it is cut short before it has its answer. Nothing, of a command
    /// that stores no text before.
    ghost begins: { Self → Beginning };

    /// The kinds of its words, at most 16.
    fn kinds(&self) -> &'static [WordKind]
        ensures kinds { result.now ≡ form self.now }
        ensures few { length result.now ≤ 16 };

    /// An answer to words of its form and the contents of its files, in the order of their words. The
    /// first texts of the answer may be stored here, each as soon as it is made; what is given back is
    /// left to store and to put. A command that doesn't use the shelf gives its whole answer back.
    fn answer<H: Shelf>(
        &self,
        alloc: Global,
        words: &[String],
        contents: &[Vec<u8>],
        shelf: &mut H,
    ) -> Result<Answer, StoreFault>
        requires form { IsTrue (is_form (form self.now) (map string_bytes words.now)) }
        requires count { length contents.now ≡ length (file_words (form self.now)) }
        ensures answer { IfOk result (λ answer.
            StoresFirst (meaning self.now (map string_bytes words.now) (map vec_items contents.now))
            (answer_data answer) (H.state shelf.old) (H.state shelf.new)) }
        ensures status { IfOk result (λ answer. ¬ IsCutShort answer.status) }
        ensures begins { OnErr result ((H.state shelf.new ≡ H.state shelf.old)
            ⊎ StoresBeginning (begins self.now (map string_bytes words.now) (map vec_items contents.now))
            (H.state shelf.old) (H.state shelf.new)) }
        ensures never_falls { NoCountFalls (H.state shelf.old) (H.state shelf.new) }
        ensures failed { IsErrOf result StoreFault.Failed →
            Rose (H.state shelf.old).faults (H.state shelf.new).faults }
        ensures cause { IsErrOf result StoreFault.Failed →
            HasDueCall (H.state shelf.old) (H.state shelf.new) };
}

/// The answer that the file of this file word is too long.
fn long_refused(alloc: Global, number: u8) -> Result<Answer, AllocError>
    ensures answer { IfOk result (λ answer. answer_data answer ≡ long_refused number) }
    ensures status { IfOk result (λ answer. answer.status ≡ Status.Refused) }
{
    refusal(
        alloc,
        Status::Refused,
        b"refused long",
        &[u32::from(number)],
    )
}

/// The answer where the files aren't fetched for this. A refusal is the status of a run that is cut
/// short.
pub fn answer_to_stop(alloc: Global, stop: FetchStop) -> Result<Answer, Status>
    ensures answer { IfOk result (λ answer. (number : ℕ) × (stop ≡ FetchStop.TooLong number)
        × (answer_data answer ≡ long_refused number)) }
    ensures status { IfOk result (λ answer. ¬ IsCutShort answer.status) }
    ensures err { IfErr result IsCutShort }
    ensures fault { IsErrOf result Status.Fault → stop ≡ FetchStop.Fault }
{
    match stop {
        FetchStop::TooLong(number) => match long_refused(alloc, number) {
            Ok(answer) => Ok(answer),
            Err(_) => Err(Status::NoMemory),
        },
        FetchStop::Fault => Err(Status::Fault),
        FetchStop::NoMemory => Err(Status::NoMemory),
    }
}

/// Fetches the files of a command and has it answer. What is given back of the answer is left to
/// store and to put. A refusal is the status of a run that is cut short.
fn answer_of<C: Command, H: Shelf>(
    alloc: Global,
    command: &C,
    words: &[String],
    shelf: &mut H,
) -> Result<Answer, Status>
    requires { IsTrue (is_form (C.form command.now) (map string_bytes words.now)) }
    ensures never_falls { NoCountFalls (H.state shelf.old) (H.state shelf.new) }
    ensures ok { IfOk result (λ answer.
        HasRest (C.form command.now) (C.meaning command.now) (map string_bytes words.now)
        (H.state shelf.old) (H.state shelf.new) (answer_data answer)) }
    ensures status { IfOk result (λ answer. ¬ IsCutShort answer.status) }
    ensures err { IfErr result IsCutShort }
    ensures stops { OnErr result
        (OnlyFetches (length (files_of (C.form command.now) (map string_bytes words.now)))
        (H.state shelf.old) (H.state shelf.new)
        ⊎ IsBegun (C.form command.now) (C.begins command.now) (map string_bytes words.now)
        (H.state shelf.old) (H.state shelf.new)) }
    ensures fault { IsErrOf result Status.Fault →
        Rose (H.state shelf.old).faults (H.state shelf.new).faults }
    ensures cause { IsErrOf result Status.Fault →
        HasCause (names_of (files_of (C.form command.now) (map string_bytes words.now)))
        (H.state shelf.old) (H.state shelf.new) }
{
    let files = match file_words(alloc, command.kinds()) {
        Ok(files) => files,
        Err(_) => return Err(Status::NoMemory),
    };
    match fetch_all(alloc, words, files.as_slice(), shelf) {
        Ok(contents) => match command.answer(alloc, words, contents.as_slice(), shelf) {
            Ok(answer) => Ok(answer),
            Err(StoreFault::Failed) => Err(Status::Fault),
            Err(StoreFault::NoMemory) => Err(Status::NoMemory),
        },
        Err(stop) => answer_to_stop(alloc, stop),
    }
}

/// Runs a command: fetches its files in the order of their words, has it answer, stores the texts of
/// its answer and then puts the others.
pub fn run<C: Command, H: Shelf, K: Sink>(
    alloc: Global,
    command: &C,
    words: &[String],
    shelf: &mut H,
    out: &mut K,
) -> Status
    requires { IsTrue (is_form (C.form command.now) (map string_bytes words.now)) }
    ensures ends { Ends (C.form command.now) (C.meaning command.now) (C.begins command.now)
        (map string_bytes words.now)
        (record { shelf = H.state shelf.old; sink = K.state out.old })
        (record { shelf = H.state shelf.new; sink = K.state out.new }) result }
    ensures outcome { IsOutcome (C.form command.now) (C.meaning command.now) (map string_bytes words.now)
        (record { shelf = H.state shelf.old; sink = K.state out.old })
        (record { shelf = H.state shelf.new; sink = K.state out.new }) result }
    ensures fault { result ≡ Status.Fault → CountsFault
        (record { shelf = H.state shelf.old; sink = K.state out.old })
        (record { shelf = H.state shelf.new; sink = K.state out.new }) }
    ensures cause { result ≡ Status.Fault → MayFault (C.form command.now) (map string_bytes words.now)
        (record { shelf = H.state shelf.old; sink = K.state out.old })
        (record { shelf = H.state shelf.new; sink = K.state out.new }) }
{
    match answer_of(alloc, command, words, shelf) {
        Ok(answer) => deliver(&answer, shelf, out),
        Err(status) => status,
    }
}
