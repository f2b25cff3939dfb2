//! The run of a command that reads its first file itself, in pieces.
ghost use Rattle.std.specs.Prelude.{◌≡◌, ◌⊎◌, ◌+◌, ◌^◌, ◌<◌, ◌≤◌, List, ℕ, ◌∷◌, None, Err, length, map, string_bytes, IsTrue, IfOk, IfErr, OnErr, IsErrOf, OnOk};
ghost use Rattle.std.specs.Vec.{vec_items};
ghost use Rattle.brake_io.specs.Rose.{raised, Rose};
ghost use Rattle.brake_io.specs.Meanings.{NoCountFalls, MayFailAt};
ghost use Rattle.brake_io.specs.Pieces.{IsOpened, IsWhole};
ghost use Rattle.brake_io.specs.Pieces.{IsTooLong as IsTooLongText};
ghost use Rattle.command_runner.specs.declared.word_kind.WordKind.{WordKind};
ghost use Rattle.command_runner.specs.Kinds.{is_form};
ghost use Rattle.command_runner.specs.Answers.{answer_data};
ghost use Rattle.command_runner.specs.Fetching.{word_at, file_of, file_words, files_of, names_of, IsTooLong, IsFetched, OnlyFetches, HasCause};
ghost use Rattle.command_runner.specs.Stops.{OnTooLong};
ghost use Rattle.command_runner.specs.Delivery.{IsCutShort, Outside};
ghost use Rattle.command_runner.specs.Ends.{Meaning, no_beginning, HasRest, Ends, IsOutcome, CountsFault, MayFault};
ghost use Rattle.command_runner.specs.Reading.{AnswersText, AnswersFetched};

use crate::answer::Answer;
use crate::delivery::deliver;
use crate::fetching::{FetchStop, FileWord, fetch_all, file_words, word_at};
use crate::running::answer_to_stop;
use crate::status::Status;
use crate::word_kind::WordKind;
use brake_io::{FetchFault, Reader, Shelf, Sink, Window, close_window, open_window};
use std::alloc::{AllocError, Global};

/// A command whose first file is read by itself, in pieces, and which stores nothing before its
/// answer is given.
pub trait ReadingCommand {
    /// The kinds of its words.
    ghost form: { Self → List WordKind };

    /// What it answers to its words and the contents of its files. It may have several answers.
    ghost meaning: { Self → Meaning };

    /// The kinds of its words, at most 16, with a file that is fetched.
    fn kinds(&self) -> &'static [WordKind]
        ensures kinds { result.now ≡ form self.now }
        ensures few { length result.now ≤ 16 }
        ensures reads { 0 < length (file_words result.now) };

    /// An answer to words of its form, the text of its first file and the contents of the others, in
    /// the order of their words. Of the text it need not read more than its answer depends on.
    fn answer_from<R: Reader + Drop>(
        &self,
        alloc: Global,
        words: &[String],
        window: &mut Window<R>,
        contents: &[Vec<u8>],
    ) -> Result<Answer, AllocError>
        requires form { IsTrue (is_form (form self.now) (map string_bytes words.now)) }
        requires count { length contents.now + 1 ≡ length (file_words (form self.now)) }
        ensures answer { IfOk result (λ answer.
            AnswersText (meaning self.now (map string_bytes words.now)) window.old window.new
            (map vec_items contents.now) (answer_data answer)) }
        ensures status { IfOk result (λ answer. ¬ IsCutShort answer.status) };
}

/// A window on the file that a word names.
fn open<H: Shelf>(
    alloc: Global,
    words: &[String],
    file: FileWord,
    shelf: &mut H,
) -> Result<Window<H::File>, FetchStop>
    requires { file.limit + 1 < 2 ^ 64 }
    ensures only { OnlyFetches 1 (H.state shelf.old) (H.state shelf.new) }
    ensures never_falls { NoCountFalls (H.state shelf.old) (H.state shelf.new) }
    ensures window { IfOk result (IsOpened (H.state shelf.old)
        (word_at (map string_bytes words.now) file.place) file.limit) }
    ensures longs { IfOk result (λ _. (H.state shelf.new).longs ≡ (H.state shelf.old).longs) }
    ensures too_long { IfErr result (λ stop. OnTooLong stop (λ number. (number ≡ file.number)
        × IsTooLong (H.state shelf.old) (H.state shelf.new) (file_of (map string_bytes words.now) file))) }
    ensures faults { ¬ IsErrOf result FetchStop.Fault →
        (H.state shelf.new).faults ≡ (H.state shelf.old).faults }
    ensures fault { IsErrOf result FetchStop.Fault →
        Rose (H.state shelf.old).faults (H.state shelf.new).faults }
    ensures cause { IsErrOf result FetchStop.Fault →
        MayFailAt (word_at (map string_bytes words.now) file.place) (H.state shelf.old) (H.state shelf.new) }
{
    match open_window(alloc, shelf, word_at(words, file.place), file.limit) {
        Ok(window) => Ok(window),
        Err(FetchFault::Failed) => Err(FetchStop::Fault),
        Err(FetchFault::TooLong) => Err(FetchStop::TooLong(file.number)),
        Err(FetchFault::NoMemory) => Err(FetchStop::NoMemory),
    }
}

/// Reads the file of this number to its end.
fn close<H: Shelf>(number: u8, mut window: Window<H::File>, shelf: &mut H) -> Result<(), FetchStop>
    ensures only { OnlyFetches 0 (H.state shelf.old) (H.state shelf.new) }
    ensures never_falls { NoCountFalls (H.state shelf.old) (H.state shelf.new) }
    ensures whole { OnOk result (IsWhole window) }
    ensures longs { OnOk result ((H.state shelf.new).longs ≡ (H.state shelf.old).longs) }
    ensures too_long { IfErr result (λ stop. OnTooLong stop (λ at. (at ≡ number)
        × IsTooLongText window × ((H.state shelf.new).longs ≡ raised (H.state shelf.old).longs))) }
    ensures faults { ¬ IsErrOf result FetchStop.Fault →
        (H.state shelf.new).faults ≡ (H.state shelf.old).faults }
    ensures fault { IsErrOf result FetchStop.Fault →
        Rose (H.state shelf.old).faults (H.state shelf.new).faults }
    ensures cause { IsErrOf result FetchStop.Fault → window.left ≡ None }
{
    match close_window(shelf, &mut window) {
        Ok(()) => Ok(()),
        Err(FetchFault::Failed) => Err(FetchStop::Fault),
        Err(FetchFault::TooLong) => Err(FetchStop::TooLong(number)),
        Err(FetchFault::NoMemory) => Err(FetchStop::NoMemory),
    }
}

/// Why the files aren't fetched, where another than the first can't be had: where it is too long,
/// the first is read to its end, since its own fault or length comes before.
fn stop_behind<H: Shelf>(
    number: u8,
    mut window: Window<H::File>,
    stop: FetchStop,
    shelf: &mut H,
) -> FetchStop
    ensures only { OnlyFetches 0 (H.state shelf.old) (H.state shelf.new) }
    ensures never_falls { NoCountFalls (H.state shelf.old) (H.state shelf.new) }
    ensures too_long { OnTooLong result (λ at. ((H.state shelf.new).longs ≡ (H.state shelf.old).longs)
        × (((stop ≡ FetchStop.TooLong at) × IsWhole window)
        ⊎ ((at ≡ number) × ((other : ℕ) × (stop ≡ FetchStop.TooLong other)) × IsTooLongText window))) }
    ensures kept { stop ≡ FetchStop.Fault → result ≡ FetchStop.Fault }
    ensures faults { ¬ (result ≡ FetchStop.Fault) →
        (H.state shelf.new).faults ≡ (H.state shelf.old).faults }
    ensures fault { result ≡ FetchStop.Fault → (stop ≡ FetchStop.Fault)
        ⊎ (Rose (H.state shelf.old).faults (H.state shelf.new).faults × (window.left ≡ None)) }
{
    match stop {
        FetchStop::TooLong(_) => match window.finish() {
            Ok(()) => stop,
            Err(FetchFault::Failed) => {
                shelf.count_fault(FetchFault::Failed);
                FetchStop::Fault
            }
            Err(FetchFault::TooLong) => FetchStop::TooLong(number),
            Err(FetchFault::NoMemory) => FetchStop::NoMemory,
        },
        FetchStop::Fault | FetchStop::NoMemory => stop,
    }
}

/// Opens the first file, fetches the others and has the command answer, and then reads the first to
/// its end.
fn answer_to_files<C: ReadingCommand, H: Shelf>(
    alloc: Global,
    command: &C,
    words: &[String],
    first: FileWord,
    others: &[FileWord],
    shelf: &mut H,
) -> Result<Answer, FetchStop>
    requires form { IsTrue (is_form (C.form command.now) (map string_bytes words.now)) }
    requires count { length others.now + 1 ≡ length (file_words (C.form command.now)) }
    requires limit { first.limit + 1 < 2 ^ 64 }
    ensures only { OnlyFetches (length (first ∷ others.now)) (H.state shelf.old) (H.state shelf.new) }
    ensures never_falls { NoCountFalls (H.state shelf.old) (H.state shelf.new) }
    ensures answer { IfOk result (λ answer. AnswersFetched (C.meaning command.now (map string_bytes words.now))
        (H.state shelf.old) (H.state shelf.new)
        (map (file_of (map string_bytes words.now)) (first ∷ others.now)) (answer_data answer)) }
    ensures status { IfOk result (λ answer. ¬ IsCutShort answer.status) }
    ensures too_long { IfErr result (λ stop. OnTooLong stop (λ number.
        IsFetched (H.state shelf.old) (H.state shelf.new)
        (map (file_of (map string_bytes words.now)) (first ∷ others.now)) (Err number))) }
    ensures faults { ¬ IsErrOf result FetchStop.Fault →
        (H.state shelf.new).faults ≡ (H.state shelf.old).faults }
    ensures fault { IsErrOf result FetchStop.Fault →
        Rose (H.state shelf.old).faults (H.state shelf.new).faults }
    ensures cause { IsErrOf result FetchStop.Fault →
        HasCause (names_of (map (file_of (map string_bytes words.now)) (first ∷ others.now)))
        (H.state shelf.old) (H.state shelf.new) }
{
    let mut window = open(alloc, words, first, shelf)?;
    match fetch_all(alloc, words, others, shelf) {
        Ok(contents) => {
            let answer = command.answer_from(alloc, words, &mut window, contents.as_slice())?;
            close(first.number, window, shelf)?;
            Ok(answer)
        }
        Err(stop) => Err(stop_behind(first.number, window, stop, shelf)),
    }
}

/// Has a command read its first file and answer. A refusal is the status of a run that is cut short.
fn answer_of_reading<C: ReadingCommand, H: Shelf>(
    alloc: Global,
    command: &C,
    words: &[String],
    shelf: &mut H,
) -> Result<Answer, Status>
    requires { IsTrue (is_form (C.form command.now) (map string_bytes words.now)) }
    ensures never_falls { NoCountFalls (H.state shelf.old) (H.state shelf.new) }
    ensures ok { IfOk result (λ answer.
        HasRest (C.form command.now) (C.meaning command.now) (map string_bytes words.now)
        (H.state shelf.old) (H.state shelf.new) (answer_data answer)) }
    ensures status { IfOk result (λ answer. ¬ IsCutShort answer.status) }
    ensures err { IfErr result IsCutShort }
    ensures stops { OnErr result
        (OnlyFetches (length (files_of (C.form command.now) (map string_bytes words.now)))
        (H.state shelf.old) (H.state shelf.new)) }
    ensures fault { IsErrOf result Status.Fault →
        Rose (H.state shelf.old).faults (H.state shelf.new).faults }
    ensures cause { IsErrOf result Status.Fault →
        HasCause (names_of (files_of (C.form command.now) (map string_bytes words.now)))
        (H.state shelf.old) (H.state shelf.new) }
{
    let files = match file_words(alloc, command.kinds()) {
        Ok(files) => files,
        Err(_) => return Err(Status::NoMemory),
    };
    match files.as_slice() {
        [] => unreachable!(),
        [first, others @ ..] => {
            match answer_to_files(alloc, command, words, *first, others, shelf) {
                Ok(answer) => Ok(answer),
                Err(stop) => answer_to_stop(alloc, stop),
            }
        }
    }
}

/// Runs a command that reads its first file itself: opens that and fetches the others in the order of
/// their words, has it answer, reads the first file to its end, stores the texts of the answer and
/// then puts the others.
pub fn run_reading<C: ReadingCommand, H: Shelf, K: Sink>(
    alloc: Global,
    command: &C,
    words: &[String],
    shelf: &mut H,
    out: &mut K,
) -> Status
    requires { IsTrue (is_form (C.form command.now) (map string_bytes words.now)) }
    ensures ends { Ends (C.form command.now) (C.meaning command.now) no_beginning
        (map string_bytes words.now)
        (record { shelf = H.state shelf.old; sink = K.state out.old })
        (record { shelf = H.state shelf.new; sink = K.state out.new }) result }
    ensures outcome { IsOutcome (C.form command.now) (C.meaning command.now) (map string_bytes words.now)
        (record { shelf = H.state shelf.old; sink = K.state out.old })
        (record { shelf = H.state shelf.new; sink = K.state out.new }) result }
    ensures fault { result ≡ Status.Fault → CountsFault
        (record { shelf = H.state shelf.old; sink = K.state out.old })
        (record { shelf = H.state shelf.new; sink = K.state out.new }) }
    ensures cause { result ≡ Status.Fault → MayFault (C.form command.now) (map string_bytes words.now)
        (record { shelf = H.state shelf.old; sink = K.state out.old })
        (record { shelf = H.state shelf.new; sink = K.state out.new }) }
{
    match answer_of_reading(alloc, command, words, shelf) {
        Ok(answer) => deliver(&answer, shelf, out),
        Err(status) => status,
    }
}
