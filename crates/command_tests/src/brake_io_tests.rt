//! The shelves and sinks, once each.
ghost use Rattle.std.specs.Prelude.{◌+◌, ◌^◌, ◌<◌, None};

use crate::asserts::assert_equal;
use brake_io::{
    DirShelf, FetchFault, MemShelf, MemSink, PutFault, Reader, Shelf, Sink, StdSink, StoreFault,
    Window, close_window, open_window,
};
use std::alloc::{AllocError, Global};
use std::cell::RefCell;
use std::fmt::Display;
use std::fs::{self, Permissions};
use std::io::{self, ErrorKind};
use std::os::unix::fs::{PermissionsExt, symlink};
use std::test::Fail;

/// An output that takes at most two bytes at a time, and no more than so many.
#[derive(Drop)]
struct Narrow {
    taken: RefCell<Vec<u8>>,
    room: usize,
}

impl Print for Narrow {
    fn print<D: Display + Drop>(&self, _: D) -> io::Result<()> {
        Err(ErrorKind::Unsupported.into())
    }

    fn println<D: Display + Drop>(&self, _: D) -> io::Result<()> {
        Err(ErrorKind::Unsupported.into())
    }

    fn write_all(&self, _: &[u8]) -> io::Result<()> {
        Err(ErrorKind::Unsupported.into())
    }

    fn write_some(&self, bytes: &[u8]) -> io::Result<usize> {
        let mut taken = self.taken.try_borrow_mut()?;
        let room = self.room.saturating_sub(taken.len());
        let count = bytes.len().min(2).min(room);
        taken.extend_from_slice(&bytes[..count])?;
        Ok(count)
    }
}

#[test]
fn files_of_the_folder(rt: HostRuntime) -> Result<(), Fail> {
    let alloc = rt.alloc();
    let mut shelf = DirShelf::new(&rt);
    for (length, limit, fault) in [
        (5, 5, None),
        (6, 5, Some(FetchFault::TooLong)),
        (65_536, 65_536, None),
        (65_537, 65_536, Some(FetchFault::TooLong)),
        (2_097_152, 1_073_741_824, None),
    ] {
        let bytes = vec![in alloc; b'x'; length]?;
        assert_equal(&rt, &shelf.store("note", &bytes), &Ok(()));
        assert_equal(&rt, &fs::read(&rt, "note")?.as_slice(), &bytes.as_slice());
        match shelf.fetch(alloc, "note", limit) {
            Ok(held) => assert_equal(&rt, &held.as_slice(), &bytes.as_slice()),
            Err(other) => assert_equal(&rt, &Some(other), &fault),
        }
    }
    assert_equal(
        &rt,
        &shelf.fetch(alloc, "none", 4).err(),
        &Some(FetchFault::Failed),
    );
    assert_equal(
        &rt,
        &shelf.store("none/note", b"hello"),
        &Err(StoreFault::Failed),
    );
    Ok(())
}

/// The old file stays as it was for who has it open, its permissions stay with the name, and another
/// run's new file isn't touched.
#[test]
fn a_stored_file_is_a_new_one(rt: HostRuntime) -> Result<(), Fail> {
    let mut shelf = DirShelf::new(&rt);
    assert_equal(&rt, &shelf.store("cert", b"old"), &Ok(()));
    fs::set_permissions(&rt, "cert", Permissions::from_mode(0o600))?;
    fs::write(&rt, "cert.new0", "of another run")?;
    let mut before = fs::open(&rt, "cert")?;
    assert_equal(&rt, &shelf.store("cert", b"the new one"), &Ok(()));
    assert_equal(
        &rt,
        &io::read_to_string(rt.alloc(), &mut before)?.as_str(),
        &"old",
    );
    assert_equal(
        &rt,
        &fs::read(&rt, "cert")?.as_slice(),
        &b"the new one".as_slice(),
    );
    assert_equal(
        &rt,
        &(fs::metadata(&rt, "cert")?.permissions().mode() & 0o777),
        &0o600,
    );
    assert_equal(
        &rt,
        &fs::read(&rt, "cert.new0")?.as_slice(),
        &b"of another run".as_slice(),
    );
    assert_equal(&rt, &fs::exists(&rt, "cert.new1")?, &false);
    Ok(())
}

#[test]
fn links_and_devices_are_written_in_place(rt: HostRuntime) -> Result<(), Fail> {
    let mut shelf = DirShelf::new(&rt);
    symlink(&rt, "cert", "link")?;
    assert_equal(&rt, &shelf.store("link", b"by the link"), &Ok(()));
    assert_equal(&rt, &fs::symlink_metadata(&rt, "link")?.is_symlink(), &true);
    assert_equal(
        &rt,
        &fs::read(&rt, "cert")?.as_slice(),
        &b"by the link".as_slice(),
    );
    fs::hard_link(&rt, "cert", "other")?;
    assert_equal(&rt, &shelf.store("other", b"by both"), &Ok(()));
    assert_equal(
        &rt,
        &fs::read(&rt, "cert")?.as_slice(),
        &b"by both".as_slice(),
    );
    assert_equal(
        &rt,
        &shelf.store("/dev/full", b"none"),
        &Err(StoreFault::Failed),
    );
    assert_equal(&rt, &shelf.store("/dev/null", b"gone"), &Ok(()));
    Ok(())
}

#[test]
fn an_output_that_takes_part_of_a_piece(rt: HostRuntime) {
    for (room, outcome, text) in [
        (5, Ok(()), "hello"),
        (4, Err(PutFault::Failed), "hell"),
        (3, Err(PutFault::Failed), "hel"),
    ] {
        let out = Narrow {
            taken: RefCell::new(Vec::new(rt.alloc())),
            room,
        };
        assert_equal(&rt, &StdSink::new(&out).put(b"hello"), &outcome);
        assert_equal(&rt, &out.taken.into_inner().as_slice(), &text.as_bytes());
    }
}

#[test]
fn standard_output(rt: HostRuntime) {
    let mut out = StdSink::new(&rt);
    assert_equal(&rt, &out.put(b"hello\n"), &Ok(()));
}

#[test]
fn a_call_of_the_shelf_fails(rt: HostRuntime) -> Result<(), Fail> {
    let alloc = rt.alloc();
    let mut shelf = MemShelf::new(alloc);
    shelf.add("part", b"one")?;
    shelf.fail_at(2)?;
    assert_equal(&rt, &shelf.store("cert", b"two"), &Ok(()));
    assert_equal(
        &rt,
        &shelf.store("cert", b"three"),
        &Err(StoreFault::Failed),
    );
    assert_equal(&rt, &shelf.bytes_of("cert"), &Some(b"two".as_slice()));
    assert_equal(
        &rt,
        &shelf.fetch(alloc, "part", 2).err(),
        &Some(FetchFault::TooLong),
    );
    assert_equal(
        &rt,
        &shelf.fetch(alloc, "machine", 9).err(),
        &Some(FetchFault::Failed),
    );
    let part = shelf.fetch(alloc, "part", 3).ok().ok_or("a file")?;
    assert_equal(&rt, &part.as_slice(), &b"one".as_slice());
    Ok(())
}

#[test]
fn a_put_fails_midway(rt: HostRuntime) {
    let mut out = MemSink::new(rt.alloc());
    out.fail_at(2, 3);
    assert_equal(&rt, &out.put(b"one "), &Ok(()));
    assert_equal(&rt, &out.put(b"two "), &Err(PutFault::Failed));
    assert_equal(&rt, &out.put(b"\n"), &Ok(()));
    assert_equal(&rt, &out.bytes(), &b"one two\n".as_slice());
}

/// The whole text under a name, read in pieces.
fn read_text<H: Shelf>(
    alloc: Global,
    shelf: &mut H,
    name: &str,
    limit: u64,
) -> Result<Vec<u8>, FetchFault>
    requires { limit + 1 < 2 ^ 64 }
{
    let mut window = open_window(alloc, shelf, name, limit)?;
    let mut text = Vec::new(alloc);
    for _ in 0..u64::MAX {
        window.fill();
        text.extend_from_slice(window.unread())?;
        let count = window.unread().len();
        window.pass(count);
        if window.is_over() {
            break;
        }
    }
    close_window(shelf, &mut window)?;
    Ok(text)
}

/// A text of which no two long parts are alike.
fn varied(alloc: Global, length: usize) -> Result<Vec<u8>, AllocError> {
    let mut bytes = vec![in alloc; b'x'; length]?;
    for place in (0..length).step_by(997) {
        bytes[place] = (place % 251) as u8;
    }
    Ok(bytes)
}

/// Whether `text`, stored in pieces, is read back as it was.
fn is_read_back<H: Shelf>(alloc: Global, shelf: &mut H, text: &[u8]) -> Result<bool, Fail> {
    let mut pieces: &[u8] = text;
    if shelf.store_by(alloc, "note", &mut pieces) != Ok(()) {
        return Ok(false);
    }
    let read = read_text(alloc, shelf, "note", text.len() as u64);
    Ok(read.ok().ok_or("a file")?.as_slice() == text)
}

#[test]
fn a_text_in_pieces_is_the_whole_text(rt: HostRuntime) -> Result<(), Fail> {
    let alloc = rt.alloc();
    let mut shelf = DirShelf::new(&rt);
    let mut held = MemShelf::new(alloc);
    for length in [0, 8_191, 262_144, 262_145] {
        let text = varied(alloc, length)?;
        let text = text.as_slice();
        assert!(rt; is_read_back(alloc, &mut shelf, text)?);
        assert!(rt; is_read_back(alloc, &mut held, text)?);
        assert_equal(&rt, &fs::read(&rt, "note")?.as_slice(), &text);
    }
    Ok(())
}

/// How the reading of a file within a limit ends, where it is refused.
fn fault_of<H: Shelf>(alloc: Global, shelf: &mut H, name: &str, limit: u64) -> Option<FetchFault>
    requires { limit + 1 < 2 ^ 64 }
{
    read_text(alloc, shelf, name, limit).err()
}

#[test]
fn a_text_behind_the_limit_is_too_long(rt: HostRuntime) -> Result<(), Fail> {
    let alloc = rt.alloc();
    let mut shelf = DirShelf::new(&rt);
    let mut held = MemShelf::new(alloc);
    let text = varied(alloc, 262_145)?;
    assert!(rt; is_read_back(alloc, &mut shelf, text.as_slice())?);
    assert!(rt; is_read_back(alloc, &mut held, text.as_slice())?);
    let too_long = Some(FetchFault::TooLong);
    assert_equal(
        &rt,
        &fault_of(alloc, &mut shelf, "note", 262_144),
        &too_long,
    );
    assert_equal(&rt, &fault_of(alloc, &mut held, "note", 262_144), &too_long);
    assert_equal(
        &rt,
        &fault_of(alloc, &mut shelf, "none", 4),
        &Some(FetchFault::Failed),
    );
    Ok(())
}

/// A reader whose file grows behind its limit, or that fails, as it is read.
#[derive(Drop)]
struct Growing {
    parts: usize,
    fails: bool,
    faults: u64,
}

impl Reader for Growing {
    ghost left = { λ _. None };

    ghost faults = { λ reader. reader.faults };

    fn read(&mut self, to: &mut [u8]) -> Option<usize> {
        if self.parts > 0 {
            self.parts -= 1;
            return Some(to.len().min(5_000));
        }
        if self.fails {
            self.faults = self.faults.saturating_add(1);
            return None;
        }
        Some(0)
    }
}

#[test]
fn a_text_that_ends_otherwise_than_it_began(rt: HostRuntime) -> Result<(), Fail> {
    let alloc = rt.alloc();
    for (parts, fails, limit, outcome) in [
        (3, false, 15_000, Ok(())),
        (3, false, 14_999, Err(FetchFault::TooLong)),
        (3, true, 15_000, Err(FetchFault::Failed)),
        (3, true, 14_999, Err(FetchFault::TooLong)),
        (1, true, 15_000, Err(FetchFault::Failed)),
    ] {
        let growing = Growing {
            parts,
            fails,
            faults: 0,
        };
        let mut window = Window::open(alloc, growing, limit)?;
        window.fill();
        assert_equal(&rt, &window.unread().len(), &(parts * 5_000).min(10_000));
        assert_equal(&rt, &window.finish(), &outcome);
    }
    Ok(())
}

/// A line that is longer than the buffer, and the next one behind it.
#[test]
fn a_line_longer_than_the_buffer(rt: HostRuntime) -> Result<(), Fail> {
    let alloc = rt.alloc();
    let mut shelf = MemShelf::new(alloc);
    let mut text = varied(alloc, 700_000)?;
    for byte in text.iter_mut() {
        if *byte == b'\n' {
            *byte = b'x';
        }
    }
    if let Some(byte) = text.get_mut(600_000) {
        *byte = b'\n';
    }
    shelf.add("note", &text)?;
    let window = open_window(alloc, &mut shelf, "note", 700_000);
    let mut window = window.ok().ok_or("a file")?;
    window.fill();
    let begun = window.unread().len().min(5);
    window.pass(begun);
    window.fill_line(alloc)?;
    let count = window.unread().len().min(700_000);
    assert!(rt; 600_000 - 5 + 1 < count);
    assert_equal(&rt, &Some(window.unread()), &text.get(5..5 + count));
    let line = window.unread().len().min(600_000 - 5 + 1);
    window.pass(line);
    window.fill_more(alloc)?;
    window.fill_more(alloc)?;
    assert_equal(&rt, &Some(window.unread()), &text.get(600_001..));
    window.fill_line(alloc)?;
    assert!(rt; window.is_over());
    assert_equal(&rt, &close_window(&mut shelf, &mut window), &Ok(()));
    Ok(())
}

/// What is stored in place is made before the place is touched.
#[test]
fn pieces_are_stored_in_place(rt: HostRuntime) -> Result<(), Fail> {
    let alloc = rt.alloc();
    let mut shelf = DirShelf::new(&rt);
    assert_equal(&rt, &shelf.store("held", b"old"), &Ok(()));
    symlink(&rt, "held", "held-link")?;
    let text = varied(alloc, 270_000)?;
    let mut pieces: &[u8] = text.as_slice();
    assert_equal(
        &rt,
        &shelf.store_by(alloc, "held-link", &mut pieces),
        &Ok(()),
    );
    assert_equal(
        &rt,
        &fs::symlink_metadata(&rt, "held-link")?.is_symlink(),
        &true,
    );
    assert_equal(&rt, &fs::read(&rt, "held")?.as_slice(), &text.as_slice());
    let mut pieces: &[u8] = text.as_slice();
    assert_equal(
        &rt,
        &shelf.store_by(alloc, "/dev/full", &mut pieces),
        &Err(StoreFault::Failed),
    );
    Ok(())
}
