//! Files of the current folder as a shelf.
ghost use Rattle.std.specs.Prelude.{◌≡◌, None, IsErrOf, OnErr};
ghost use Rattle.brake_io.specs.Rose.{raised, Rose};
ghost use Rattle.brake_io.specs.Meanings.{NoCountFalls};

use crate::beside::store_content;
use crate::content::{InPieces, Whole};
use crate::dir_reader::{DirReader, open_reader};
use crate::pieces::Pieces;
use crate::shelf::{FetchFault, Shelf, StoreFault};
use crate::whole::read_whole;
use std::alloc::Global;
use std::fs;
use std::rt::Files;

/// Files of the current folder. They tell no content.
#[derive(Drop)]
pub struct DirShelf<R: Files + Drop> {
    rt: R,
    calls: u64,
    faults: u64,
    longs: u64,
}

impl<R: Files + Drop> DirShelf<R> {
    /// Over the files of this runtime, with counts of 0.
    pub fn new(rt: R) -> Self
        ensures { ⟦<DirShelf<R> as Shelf>⟧.state result
            ≡ record { content = None; calls = 0; faults = 0; longs = 0 } }
    {
        DirShelf {
            rt,
            calls: 0,
            faults: 0,
            longs: 0,
        }
    }
}

impl<R: Files + Drop> Shelf for DirShelf<R> {
    ghost state = { λ s. record {
      content = None;
      calls = s.calls;
      faults = s.faults;
      longs = s.longs;
    } };

    fn fetch(&mut self, alloc: Global, name: &str, limit: u64) -> Result<Vec<u8>, FetchFault> {
        self.calls = self.calls.saturating_add(1);
        let outcome = match fs::open(&self.rt, name) {
            Ok(mut file) => read_whole(alloc, &mut file, limit),
            Err(_) => Err(FetchFault::Failed),
        };
        match outcome {
            Err(FetchFault::Failed) => self.faults = self.faults.saturating_add(1),
            Err(FetchFault::TooLong) => self.longs = self.longs.saturating_add(1),
            _ => {}
        }
        outcome
    }

    fn store(&mut self, name: &str, bytes: &[u8]) -> Result<(), StoreFault>
        ensures calls { self.new.calls ≡ raised self.old.calls }
        ensures failed { IsErrOf result StoreFault.Failed → Rose self.old.faults self.new.faults }
        ensures faults { ¬ IsErrOf result StoreFault.Failed → self.new.faults ≡ self.old.faults }
        ensures longs { self.new.longs ≡ self.old.longs }
        ensures never_falls { NoCountFalls (⟦<DirShelf<R> as Shelf>⟧.state self.old)
            (⟦<DirShelf<R> as Shelf>⟧.state self.new) }
        // Each error of the folder is counted.
        ensures counted { OnErr result (self.new.faults ≡ raised self.old.faults) }
    {
        self.calls = self.calls.saturating_add(1);
        if store_content(&self.rt, name, &mut Whole::new(bytes)).is_ok() {
            return Ok(());
        }
        self.faults = self.faults.saturating_add(1);
        Err(StoreFault::Failed)
    }

    type File = DirReader<R::File>;

    fn open(
        &mut self,
        alloc: Global,
        name: &str,
        limit: u64,
    ) -> Result<DirReader<R::File>, FetchFault> {
        self.calls = self.calls.saturating_add(1);
        let outcome = open_reader(&self.rt, alloc, name, limit);
        match outcome {
            Err(FetchFault::Failed) => self.faults = self.faults.saturating_add(1),
            Err(FetchFault::TooLong) => self.longs = self.longs.saturating_add(1),
            _ => {}
        }
        outcome
    }

    fn count_fault(&mut self, fault: FetchFault) {
        match fault {
            FetchFault::Failed => self.faults = self.faults.saturating_add(1),
            FetchFault::TooLong => self.longs = self.longs.saturating_add(1),
            FetchFault::NoMemory => {}
        }
    }

    fn store_by<P: Pieces>(
        &mut self,
        alloc: Global,
        name: &str,
        pieces: &mut P,
    ) -> Result<(), StoreFault> {
        self.calls = self.calls.saturating_add(1);
        let outcome = match InPieces::new(alloc, pieces) {
            Ok(mut content) => store_content(&self.rt, name, &mut content),
            Err(_) => Err(StoreFault::NoMemory),
        };
        if outcome == Err(StoreFault::Failed) {
            self.faults = self.faults.saturating_add(1);
        }
        outcome
    }
}
