//! The bytes of a file of the system, in order.
ghost use Rattle.std.specs.Prelude.{◌≡◌, None, IfOk};

use crate::reader::{HeldBytes, Reader};
use crate::shelf::FetchFault;
use crate::whole::read_whole;
use std::alloc::Global;
use std::fs::{self, OpenFile};
use std::io::Read;
use std::rt::Files;

/// What gives the bytes of a file: a regular file piece by piece, and of any other, whose length
/// isn't known, the bytes that were read.
#[derive(Drop)]
enum Source<F: Read + Drop> {
    File(F),
    Held(HeldBytes),
}

/// The bytes of a file of the system. It tells nothing of them, and counts the reads that failed.
#[derive(Drop)]
pub struct DirReader<F: Read + Drop> {
    source: Source<F>,
    faults: u64,
}

impl<F: Read + Drop> DirReader<F> {
    /// A reader of which no read has failed.
    fn new(source: Source<F>) -> DirReader<F>
        ensures { ⟦<DirReader<F> as Reader>⟧.faults result ≡ 0 }
    {
        DirReader { source, faults: 0 }
    }
}

impl<F: Read + Drop> Reader for DirReader<F> {
    ghost left = { λ _. None };

    ghost faults = { λ reader. reader.faults };

    fn read(&mut self, to: &mut [u8]) -> Option<usize> {
        let came = match &mut self.source {
            Source::File(file) => file.read(to).ok(),
            Source::Held(bytes) => bytes.read(to),
        };
        if came.is_none() {
            self.faults = self.faults.saturating_add(1);
        }
        came
    }
}

/// The reader of a file, whose bytes may be at most so many: the length of a regular file is asked,
/// any other is read.
pub fn open_reader<R: Files>(
    rt: &R,
    alloc: Global,
    name: &str,
    limit: u64,
) -> Result<DirReader<R::File>, FetchFault>
    ensures { IfOk result (λ file. ⟦<DirReader<R::File> as Reader>⟧.faults file ≡ 0) }
{
    let Ok(mut file) = fs::open(rt, name) else {
        return Err(FetchFault::Failed);
    };
    match file.metadata() {
        Ok(data) if data.is_file() && data.len() <= limit => Ok(DirReader::new(Source::File(file))),
        Ok(data) if data.is_file() => Err(FetchFault::TooLong),
        Ok(_) => {
            let bytes = read_whole(alloc, &mut file, limit)?;
            Ok(DirReader::new(Source::Held(HeldBytes::new(bytes))))
        }
        Err(_) => Err(FetchFault::Failed),
    }
}
