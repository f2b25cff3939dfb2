//! Words that have no form, and words that have one.

use crate::asserts::assert_equal;
use crate::test_runs::{run, words_of};
use brake_commands::{Command, read_words};
use brake_io::{MemShelf, MemSink};
use command_runner::Status;
use std::alloc::{AllocError, Global};
use std::test::Fail;

/// Words that have no form.
const NO_FORM: [&[&str]; 48] = [
    &[],
    &[""],
    &["--help"],
    &["bend", "a", "b"],
    &["Blank", "a", "b"],
    &["blank"],
    &["blank", "a"],
    &["blank", "a", "b", "c"],
    &["blank", "", "b"],
    &["blank", "--x", "b"],
    &["blank", "a", "--"],
    &["plan", "a", "b", "c"],
    &["plan", "a", "b", "c", "a"],
    &["plan", "a", "b", "c", "b"],
    &["plan", "a", "b", "c", "c"],
    &["plan", "a", "b", "c", "--d"],
    &["plan", "a", "b", "c", "d", "e"],
    &["plan", "a", "b", "c", "d", "--budget"],
    &["plan", "a", "b", "c", "d", "--budget", ""],
    &["plan", "a", "b", "c", "d", "--budget", "0"],
    &["plan", "a", "b", "c", "d", "--budget", "01"],
    &["plan", "a", "b", "c", "d", "--budget", "-1"],
    &["plan", "a", "b", "c", "d", "--budget", "4294967296"],
    &["plan", "a", "b", "c", "d", "--limit", "1"],
    &["plan", "a", "b", "c", "d", "1", "--budget"],
    &["plan", "a", "b", "c", "a", "--budget", "1"],
    &["plan", "a", "b", "c", "d", "--budget", "1", "e"],
    &["check"],
    &["check", "--a"],
    &["check", "a", "b"],
    &["check", "a", "b", "c"],
    &["check", "a", "b", "c", "d", "e"],
    &["trial"],
    &["trial", "007"],
    &["trial", "4294967296"],
    &["trial", "1", "2"],
    &["why", "a", "b"],
    &["setups", "a", "b", "c", "d"],
    &["setups", "e.0", "b", "c", "d", "e"],
    &["setups", "a", "b", "c", "e.15", "e"],
    &["settle", "a", "b", "c", "d", "0"],
    &["settle", "a", "b", "c", "d", "0", "4096"],
    &["settle", "a", "b", "c", "d", "4096", "0", "e"],
    &["settle", "a", "b", "c", "d", "0", "1", "d"],
    &["merge", "a", "b"],
    &["merge", "a", "b", "b"],
    &["prove"],
    &["prove", "a", "b"],
];

/// Words that have a form, and what they say.
const FORMS: [(&[&str], Command); 14] = [
    (&["blank", "a", "a"], Command::Blank { part: 1, tools: 2 }),
    (
        &["plan", "a", "b", "c", "d"],
        Command::Plan {
            part: 1,
            tools: 2,
            machine: 3,
            cert: 4,
            budget: None,
        },
    ),
    (
        &["plan", "a", "b", "c", "d", "--budget", "4294967295"],
        Command::Plan {
            part: 1,
            tools: 2,
            machine: 3,
            cert: 4,
            budget: Some(4_294_967_295),
        },
    ),
    (&["check", "a"], Command::Check { cert: 1 }),
    (
        &["check", "a", "b", "c", "d"],
        Command::CheckFiles {
            cert: 1,
            part: 2,
            tools: 3,
            machine: 4,
        },
    ),
    (&["trial", "0"], Command::Trial { n: 0 }),
    (
        &["trial", "4294967295"],
        Command::Trial { n: 4_294_967_295 },
    ),
    (
        &["why", "a", "b", "c"],
        Command::Why {
            part: 1,
            tools: 2,
            machine: 3,
        },
    ),
    (
        &["setups", "e.16", "e.01", "e", "e.", "e"],
        Command::Setups {
            part: 1,
            tools: 2,
            machine: 3,
            setups: 4,
            cert: 5,
        },
    ),
    (
        &["settle", "a", "b", "c", "d", "0", "4095"],
        Command::Settle {
            part: 1,
            tools: 2,
            machine: 3,
            out: 4,
            low: 0,
            high: 4095,
            base: None,
        },
    ),
    (
        &["settle", "a", "b", "c", "d", "2", "1", "e"],
        Command::Settle {
            part: 1,
            tools: 2,
            machine: 3,
            out: 4,
            low: 2,
            high: 1,
            base: Some(7),
        },
    ),
    (
        &["merge", "a", "a", "b"],
        Command::Merge { a: 1, b: 2, out: 3 },
    ),
    (&["prove", "a"], Command::Prove { table: 1 }),
    (&["prove", "prove"], Command::Prove { table: 1 }),
];

/// What the words say.
fn read(alloc: Global, words: &[&str]) -> Result<Option<Command>, AllocError> {
    let list = words_of(alloc, words)?;
    Ok(read_words(&list))
}

#[test]
fn words_without_and_with_a_form(rt: HostRuntime) -> Result<(), Fail> {
    let alloc = rt.alloc();
    for words in NO_FORM {
        assert_equal(&rt, &read(alloc, words)?, &None);
    }
    for (words, command) in FORMS {
        assert_equal(&rt, &read(alloc, words)?, &Some(command));
    }
    Ok(())
}

#[test]
fn usage_before_anything_is_fetched(rt: HostRuntime) -> Result<(), Fail> {
    let alloc = rt.alloc();
    for words in NO_FORM {
        let mut shelf = MemShelf::new(alloc);
        shelf.fail_at(1)?;
        let mut out = MemSink::new(alloc);
        assert_equal(
            &rt,
            &run(alloc, words, &mut shelf, &mut out)?,
            &Status::Usage,
        );
        assert!(rt; out.bytes().starts_with(b"usage: brake blank PART TOOLS\n"));
    }
    Ok(())
}
