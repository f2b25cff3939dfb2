//! The runs of `blank` that the documentation names, over files in memory, and runs in which the
//! shelf or the sink fails.

use crate::asserts::assert_equal;
use crate::test_runs::run;
use brake_io::{MemShelf, MemSink};
use command_runner::Status;
use std::alloc::{AllocError, Global};
use std::test::Fail;
use test_fixtures::{FLAT_OVERLAP, L_SECTION};

/// A tools file of one row of deductions.
const TOOLS: &str = "[[allow]]\nmaterial = \"S235\"\nthickness = 2000\nradius = 2000\nk = 650\n";

const SHEET: &str =
    "blank\nsize 100000 76162\nface 0 base 0 0 100000 48081\nface 1 leg 0 48081 100000 76162\nbend 1 0 48081 100000 48081 up\n";

const USAGE: &str =
    "usage: brake blank PART TOOLS\nusage: brake plan PART TOOLS MACHINE CERT [--budget N]\nusage: brake check CERT [PART TOOLS MACHINE]\nusage: brake trial N\nusage: brake why PART TOOLS MACHINE\nusage: brake setups PART TOOLS MACHINE SETUPS CERT\nusage: brake settle PART TOOLS MACHINE OUT LOW HIGH [BASE]\nusage: brake merge TABLE TABLE OUT\nusage: brake prove TABLE\n";

/// The words of `blank`.
const WORDS: &[&str] = &["blank", "part", "tools"];

/// The words of `blank` for a part's file that isn't held.
const OF_NO_FILE: &[&str] = &["blank", "missing", "tools"];

/// A shelf with a part's file and a tools file.
fn shelf_with(alloc: Global, part: &str, tools: &str) -> Result<MemShelf, AllocError> {
    let mut shelf = MemShelf::new(alloc);
    shelf.add("part", part.as_bytes())?;
    shelf.add("tools", tools.as_bytes())?;
    Ok(shelf)
}

/// How `blank` of a part's file and a tools file ends, and what it puts.
fn blank_of(alloc: Global, part: &str, tools: &str) -> Result<(Status, MemSink), AllocError> {
    let mut shelf = shelf_with(alloc, part, tools)?;
    let mut out = MemSink::new(alloc);
    let status = run(alloc, WORDS, &mut shelf, &mut out)?;
    Ok((status, out))
}

/// A text of the L section's file, another in its place, and the line of the refusal.
const REFUSALS: [(&str, &str, &str); 8] = [
    ("length = 30000", "length = 1919", "refused job 2 1 1\n"),
    ("thickness = 2000", "thickness = 1501", "refused part 7\n"),
    ("0\nwidth = 100000", "0\nwidth = 0", "refused part 5 1\n"),
    ("on = \"base\"", "on = \"bas\"", "refused part 6 1\n"),
    ("name = \"leg\"", "name = \"base\"", "refused part 8 1\n"),
    ("material", "= 1\nmaterial", "refused part 1\n"),
    ("width", "colour = 1\nwidth", "refused part 3 1\n"),
    ("radius = 2000\n", "", "refused part 2 0 3\n"),
];

#[test]
fn refusals_of_a_part(rt: HostRuntime) -> Result<(), Fail> {
    let alloc = rt.alloc();
    for (old, new, line) in REFUSALS {
        let part = L_SECTION.replacen(alloc, old, new, 1)?;
        let (status, out) = blank_of(alloc, &part, TOOLS)?;
        assert_equal(&rt, &status, &Status::Refused);
        assert_equal(&rt, &out.bytes(), &line.as_bytes());
    }
    Ok(())
}

#[test]
fn refusals_by_rows_of_deductions(rt: HostRuntime) -> Result<(), Fail> {
    let alloc = rt.alloc();
    for (part, rows, line) in [
        (L_SECTION, 2, "refused job 1 2\n"),
        (L_SECTION, 0, "refused job 1 1\n"),
        (FLAT_OVERLAP, 0, "refused job 1 1\n"),
        (FLAT_OVERLAP, 1, "refused job 2 3 1 4\n"),
    ] {
        let tools = TOOLS.repeat(alloc, rows)?;
        let (status, out) = blank_of(alloc, part, &tools)?;
        assert_equal(&rt, &status, &Status::Refused);
        assert_equal(&rt, &out.bytes(), &line.as_bytes());
    }
    Ok(())
}

/// A part of these faces, each on the side N of the one before.
fn chain(alloc: Global, names: &str) -> Result<String, AllocError> {
    let mut file = String::from_str(
        alloc,
        "material = \"S235\"\nthickness = 2000\nradius = 2000\n",
    )?;
    let mut parent = None;
    for name in names.chars() {
        let face = format!(in alloc;
            "[[face]]\nname = \"{name}\"\nwidth = 100000\nlength = 30000\n"
        )?;
        file.push_str(&face)?;
        if let Some(parent) = parent {
            let joint = format!(in alloc;
                "on = \"{parent}\"\nside = \"N\"\nat = 0\ndir = \"up\"\n"
            )?;
            file.push_str(&joint)?;
        }
        parent = Some(name);
    }
    Ok(file)
}

#[test]
fn the_least_leg_and_the_most_faces(rt: HostRuntime) -> Result<(), Fail> {
    let alloc = rt.alloc();
    let least = L_SECTION.replacen(alloc, "length = 30000", "length = 1920", 1)?;
    let thirteen = chain(alloc, "abcdefghijklm")?;
    let fourteen = chain(alloc, "abcdefghijklmn")?;
    let chained = "blank\nsize 100000 343944\nface 0 a ";
    for (part, status, text) in [
        (&least, Status::Done, "blank\nsize 100000 48082\n"),
        (&thirteen, Status::Done, chained),
        (&fourteen, Status::Refused, "refused part 4\n"),
    ] {
        let (ended, out) = blank_of(alloc, part, TOOLS)?;
        assert_equal(&rt, &ended, &status);
        assert!(rt; out.bytes().starts_with(text.as_bytes()));
    }
    Ok(())
}

#[test]
fn the_usage_text(rt: HostRuntime) -> Result<(), Fail> {
    let mut shelf = MemShelf::new(rt.alloc());
    let mut out = MemSink::new(rt.alloc());
    let status = run(rt.alloc(), &[], &mut shelf, &mut out)?;
    assert_equal(&rt, &status, &Status::Usage);
    assert_equal(&rt, &out.bytes(), &USAGE.as_bytes());
    Ok(())
}

/// A text, made this long by a comment.
fn padded(alloc: Global, text: &str, length: usize) -> Result<String, AllocError> {
    let room = length.saturating_sub(text.len()).saturating_sub(1);
    let comment = "x".repeat(alloc, room)?;
    format!(in alloc; "{text}#{comment}")
}

#[test]
fn files_of_a_mebibyte_and_longer(rt: HostRuntime) -> Result<(), Fail> {
    let alloc = rt.alloc();
    for (part, tools, status, text) in [
        (1_048_576, 0, Status::Done, SHEET),
        (1_048_577, 0, Status::Refused, "refused long 1\n"),
        (0, 1_048_577, Status::Refused, "refused long 2\n"),
    ] {
        let part = padded(alloc, L_SECTION, part)?;
        let tools = padded(alloc, TOOLS, tools)?;
        let (ended, out) = blank_of(alloc, &part, &tools)?;
        assert_equal(&rt, &ended, &status);
        assert_equal(&rt, &out.bytes(), &text.as_bytes());
    }
    Ok(())
}

#[test]
fn no_file_is_fetched_behind_a_long_one(rt: HostRuntime) -> Result<(), Fail> {
    let alloc = rt.alloc();
    let mut shelf = MemShelf::new(alloc);
    shelf.add("part", padded(alloc, L_SECTION, 1_048_577)?.as_bytes())?;
    let mut out = MemSink::new(alloc);
    // The tools file isn't held, so a fetch of it is a fault.
    assert_equal(
        &rt,
        &run(alloc, WORDS, &mut shelf, &mut out)?,
        &Status::Refused,
    );
    assert_equal(&rt, &out.bytes(), &b"refused long 1\n".as_slice());
    Ok(())
}

#[test]
fn each_call_failing_in_turn(rt: HostRuntime) -> Result<(), Fail> {
    for (words, call, put, status, text) in [
        (OF_NO_FILE, 0, 0, Status::Fault, ""),
        (WORDS, 1, 0, Status::Fault, ""),
        (WORDS, 2, 0, Status::Fault, ""),
        (WORDS, 3, 0, Status::Done, SHEET),
        (WORDS, 0, 1, Status::Fault, "blank\nsize"),
        // The put after the text is the caller's own.
        (WORDS, 0, 2, Status::Done, SHEET),
    ] {
        let mut shelf = shelf_with(rt.alloc(), L_SECTION, TOOLS)?;
        shelf.fail_at(call)?;
        let mut out = MemSink::new(rt.alloc());
        out.fail_at(put, 10);
        assert_equal(&rt, &run(rt.alloc(), words, &mut shelf, &mut out)?, &status);
        assert_equal(&rt, &out.bytes(), &text.as_bytes());
    }
    Ok(())
}
