//! Fetching the files of a command.
ghost use Rattle.std.specs.Prelude.{◌≡◌, ◌+◌, ◌≤◌, ◌<◌, ◌++◌, length, map, All, string_bytes, IfOk, IfErr, OnOk, IsErrOf};
ghost use Rattle.brake_io.specs.Rose.{raised, Rose};
ghost use Rattle.brake_io.specs.Meanings.{NoCountFalls, MayFailAt};
ghost use Rattle.command_runner.specs.Fetching.{counted, fetched_word, file_words, word_at, file_of, names_of, IsContent, IsTooLong, IsFetched, OnlyFetches, HasCause};
ghost use Rattle.command_runner.specs.Kinds.{limit_of};
ghost use Rattle.command_runner.specs.Stops.{OnTooLong, OnFetched};

use crate::word_kind::WordKind;
use brake_io::{FetchFault, Shelf};
use std::alloc::{AllocError, AllocFailed, Global};

/// A word that names a file that is fetched.
#[derive(Clone, Copy, Debug, PartialEq, Eq)]
pub struct FileWord {
    /// Its number among the command's file words, from 1.
    pub number: u8,
    /// Its place in the list of words.
    pub place: usize,
    /// The greatest length that its file may have, in bytes.
    pub limit: u64,
}

/// Why the files aren't fetched: the file of this file word is too long, reading failed, or memory
/// ran out.
#[derive(Clone, Copy, Debug, PartialEq, Eq)]
pub enum FetchStop {
    TooLong(u8),
    Fault,
    NoMemory,
}

impl From<AllocError> for FetchStop {
    ghost use Rattle.std.specs.Prelude.{◌≡◌};
    ghost use Rattle.command_runner.specs.declared.fetching.FetchStop.TheVariants.{NoMemory};

    ghost from_gives = { λ _ stop. stop ≡ NoMemory };

    fn from(_: AllocError) -> Self {
        FetchStop::NoMemory
    }
}

impl<T: Drop> From<AllocFailed<T>> for FetchStop {
    ghost use Rattle.std.specs.Prelude.{◌≡◌};
    ghost use Rattle.command_runner.specs.declared.fetching.FetchStop.TheVariants.{NoMemory};

    ghost from_gives = { λ _ stop. stop ≡ NoMemory };

    fn from(_: AllocFailed<T>) -> Self {
        FetchStop::NoMemory
    }
}

/// The number of file words, once there is a word of this kind.
fn counted(number: u8, kind: WordKind) -> u8
    requires { number < 255 }
    ensures { result ≡ counted number kind }
{
    if kind.is_file() { number + 1 } else { number }
}

/// Adds the word to those of the files that are fetched, if its file is.
fn push_fetched(
    files: &mut Vec<FileWord>,
    place: usize,
    number: u8,
    kind: WordKind,
) -> Result<(), AllocError>
    ensures { OnOk result
        (files.new.items ≡ files.old.items ++ fetched_word place number (limit_of kind)) }
{
    match kind.limit() {
        Some(limit) => {
            files.push(FileWord {
                number,
                place,
                limit,
            })?;
            Ok(())
        }
        None => Ok(()),
    }
}

/// The words of the files that a form fetches.
pub fn file_words(alloc: Global, kinds: &[WordKind]) -> Result<Vec<FileWord>, AllocError>
    requires { length kinds.now ≤ 16 }
    ensures { IfOk result (λ files. files.items ≡ file_words kinds.now) }
{
    let mut files = Vec::new(alloc);
    let mut number = 0;
    for (place, kind) in kinds.iter().enumerate() {
        number = counted(number, *kind);
        push_fetched(&mut files, place, number, *kind)?;
    }
    Ok(files)
}

/// The word at a place, and an empty one behind the last.
pub fn word_at(words: &[String], place: usize) -> &str
    ensures { result.now ≡ word_at (map string_bytes words.now) place }
{
    match words.get(place) {
        Some(word) => word.as_str(),
        None => "",
    }
}

/// The content of the file that a word names.
fn fetch<H: Shelf>(
    alloc: Global,
    words: &[String],
    file: FileWord,
    shelf: &mut H,
) -> Result<Vec<u8>, FetchStop>
    ensures content { (H.state shelf.new).content ≡ (H.state shelf.old).content }
    ensures calls { (H.state shelf.new).calls ≡ raised (H.state shelf.old).calls }
    ensures never_falls { NoCountFalls (H.state shelf.old) (H.state shelf.new) }
    ensures read { IfOk result (λ bytes.
        IsContent (H.state shelf.old) (file_of (map string_bytes words.now) file) bytes.items) }
    ensures longs { IfOk result (λ _. (H.state shelf.new).longs ≡ (H.state shelf.old).longs) }
    ensures too_long { IfErr result (λ stop. OnTooLong stop (λ number. (number ≡ file.number)
        × IsTooLong (H.state shelf.old) (H.state shelf.new) (file_of (map string_bytes words.now) file))) }
    ensures faults { ¬ IsErrOf result FetchStop.Fault →
        (H.state shelf.new).faults ≡ (H.state shelf.old).faults }
    ensures fault { IsErrOf result FetchStop.Fault →
        Rose (H.state shelf.old).faults (H.state shelf.new).faults }
    ensures cause { IsErrOf result FetchStop.Fault →
        MayFailAt (word_at (map string_bytes words.now) file.place) (H.state shelf.old) (H.state shelf.new) }
{
    match shelf.fetch(alloc, word_at(words, file.place), file.limit) {
        Ok(bytes) => Ok(bytes),
        Err(FetchFault::Failed) => Err(FetchStop::Fault),
        Err(FetchFault::TooLong) => Err(FetchStop::TooLong(file.number)),
        Err(FetchFault::NoMemory) => Err(FetchStop::NoMemory),
    }
}

/// The contents of the files that these words name, fetched in order up to the first that can't be
/// had.
pub fn fetch_all<H: Shelf>(
    alloc: Global,
    words: &[String],
    files: &[FileWord],
    shelf: &mut H,
) -> Result<Vec<Vec<u8>>, FetchStop>
    ensures only { OnlyFetches (length files.now) (H.state shelf.old) (H.state shelf.new) }
    ensures never_falls { NoCountFalls (H.state shelf.old) (H.state shelf.new) }
    ensures fetched { OnFetched result (IsFetched (H.state shelf.old) (H.state shelf.new)
        (map (file_of (map string_bytes words.now)) files.now)) }
    ensures count { IfOk result (λ contents. length contents.items ≡ length files.now) }
    ensures faults { ¬ IsErrOf result FetchStop.Fault →
        (H.state shelf.new).faults ≡ (H.state shelf.old).faults }
    ensures fault { IsErrOf result FetchStop.Fault →
        Rose (H.state shelf.old).faults (H.state shelf.new).faults }
    ensures cause { IsErrOf result FetchStop.Fault →
        HasCause (names_of (map (file_of (map string_bytes words.now)) files.now))
        (H.state shelf.old) (H.state shelf.new) }
{
    let mut contents = Vec::new(alloc);
    for file in files {
        let bytes = fetch(alloc, words, *file, shelf)?;
        contents.push(bytes)?;
    }
    Ok(contents)
}
