//! What the tests of all commands share: files in memory, texts put together, and runs.

use brake_commands::brake;
use brake_io::{MemShelf, MemSink};
use command_runner::Status;
use std::alloc::{AllocError, Global};
use test_fixtures::{MACHINE, ROWS, STEPS, TOOLS};

/// A shelf with this part's file, a tools file and a machine file with this stage.
pub fn shelf_with(alloc: Global, part: &str, stage: &str) -> Result<MemShelf, AllocError> {
    let machine = format!(in alloc; "{MACHINE}{stage}")?;
    let mut shelf = MemShelf::new(alloc);
    shelf.add("part", part.as_bytes())?;
    shelf.add("tools", TOOLS.as_bytes())?;
    shelf.add("machine", machine.as_bytes())?;
    Ok(shelf)
}

/// The U channel's certificate whose job lines have these pieces.
pub fn certificate(alloc: Global, job: &[&str]) -> Result<String, AllocError> {
    let job = job.concat(alloc)?;
    format!(in alloc; "{job}{STEPS}{ROWS}")
}

/// The words as a list.
pub fn words_of(alloc: Global, words: &[&str]) -> Result<Vec<String>, AllocError> {
    let mut list = Vec::new(alloc);
    for word in words {
        list.push(String::from_str(alloc, word)?)?;
    }
    Ok(list)
}

/// Runs the command of these words.
pub fn run(
    alloc: Global,
    words: &[&str],
    shelf: &mut MemShelf,
    out: &mut MemSink,
) -> Result<Status, AllocError> {
    let list = words_of(alloc, words)?;
    Ok(brake(alloc, &list, shelf, out))
}
