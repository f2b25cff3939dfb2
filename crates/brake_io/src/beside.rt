//! A file is stored as a new one beside its name, which then takes the name: what stands under the
//! name are the old bytes or all of the new ones, whenever the run ends.
use crate::content::Content;
use crate::shelf::StoreFault;
use arrayvec::ArrayString;
use std::fs::{self, File, Metadata, OpenFile, OpenOptions};
use std::io::{ErrorKind, Write};
use std::os::unix::fs::MetadataExt;
use std::rt::Files;

/// The longest path that the system takes, in bytes.
const LONGEST_PATH: usize = 4096;

/// Has the file `name` hold the content. A regular file and a name that isn't there get a new file.
/// A device, a pipe, a link, one of several names of a file, another owner's file, and a file in a
/// folder that takes no new one are written in place.
pub fn store_content<R: Files, C: Content>(
    rt: &R,
    name: &str,
    content: &mut C,
) -> Result<(), StoreFault> {
    match fs::symlink_metadata(rt, name) {
        Ok(old) if old.is_file() && old.nlink() < 2 => {
            OpenOptions::new()
                .write(true)
                .open(rt, name)
                .map_err(|_| StoreFault::Failed)?;
            replace(rt, name, Some(&old), content)
        }
        Ok(_) => write_in_place(rt, name, content),
        Err(e) if e.kind() == ErrorKind::NotFound => replace(rt, name, None, content),
        Err(_) => Err(StoreFault::Failed),
    }
}

/// All memory is taken before the file is opened.
fn write_in_place<R: Files, C: Content>(
    rt: &R,
    name: &str,
    content: &mut C,
) -> Result<(), StoreFault> {
    content.hold()?;
    match fs::create(rt, name) {
        Ok(mut file) => content.write_to(&mut file),
        Err(_) => Err(StoreFault::Failed),
    }
}

/// The first of ten names beside it that no file has is taken; the others are those of other runs.
fn replace<R: Files, C: Content>(
    rt: &R,
    name: &str,
    old: Option<&Metadata>,
    content: &mut C,
) -> Result<(), StoreFault> {
    for digit in '0'..='9' {
        let Some(beside) = name_beside(name, digit) else {
            return write_in_place(rt, name, content);
        };
        match File::create_new(rt, beside.as_str()) {
            Ok(file) => return fill(rt, file, beside.as_str(), name, old, content),
            Err(e) if e.kind() == ErrorKind::AlreadyExists => {}
            Err(e) if takes_no_new(e.kind()) => return write_in_place(rt, name, content),
            Err(_) => return Err(StoreFault::Failed),
        }
    }
    Err(StoreFault::Failed)
}

fn name_beside(name: &str, digit: char) -> Option<ArrayString<LONGEST_PATH>> {
    let mut beside = ArrayString::from(name).ok()?;
    beside.try_push_str(".new").ok()?;
    beside.try_push(digit).ok()?;
    Some(beside)
}

/// Whether the folder takes no new file, or none with so long a name.
fn takes_no_new(kind: ErrorKind) -> bool {
    matches!(
        kind,
        ErrorKind::PermissionDenied | ErrorKind::InvalidFilename
    )
}

/// Has the new file `beside` hold the content and take the name. Where it doesn't, it is removed.
fn fill<R: Files, C: Content>(
    rt: &R,
    mut file: R::File,
    beside: &str,
    name: &str,
    old: Option<&Metadata>,
    content: &mut C,
) -> Result<(), StoreFault> {
    if !has_owner_of(&file, old) {
        let _ = fs::remove_file(rt, beside);
        return write_in_place(rt, name, content);
    }
    let outcome = match write_as(&mut file, old, content) {
        Ok(()) => fs::rename(rt, beside, name).map_err(|_| StoreFault::Failed),
        Err(fault) => Err(fault),
    };
    if outcome.is_err() {
        let _ = fs::remove_file(rt, beside);
    }
    outcome
}

/// Whether the new file has the owner and the group of the old one.
fn has_owner_of<F: OpenFile>(file: &F, old: Option<&Metadata>) -> bool {
    match (old, file.metadata()) {
        (None, _) => true,
        (Some(old), Ok(new)) => old.uid() == new.uid() && old.gid() == new.gid(),
        (Some(_), Err(_)) => false,
    }
}

/// Writes the content to the disk itself, under the permissions of the old file.
fn write_as<F: Write + OpenFile, C: Content>(
    file: &mut F,
    old: Option<&Metadata>,
    content: &mut C,
) -> Result<(), StoreFault> {
    if let Some(old) = old {
        file.set_permissions(old.permissions())
            .map_err(|_| StoreFault::Failed)?;
    }
    content.write_to(file)?;
    file.sync_all().map_err(|_| StoreFault::Failed)
}
