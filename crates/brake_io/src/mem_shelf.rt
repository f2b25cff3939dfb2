//! A shelf in memory.
ghost use Rattle.std.specs.Prelude.{◌≡◌, ◌≢◌, ◌↔◌, ◌≤◌, IsTrue, OnOk, OnErr, IfOk, IsErrOf, option_map, vec_len};
ghost use Rattle.brake_io.specs.Rose.{raised, Rose};
ghost use Rattle.brake_io.specs.Meanings.{NoCountFalls, Holds, IsLonger, MayFail, MayFailAt, WhereTold, ChangesOnly, HoldsNow, HoldsPart};
ghost use Rattle.brake_io.specs.Pieces.{GivesHeld};

use crate::pieces::{Pieces, gather};
use crate::reader::{HeldBytes, Reader};
use crate::shelf::{FetchFault, Shelf, StoreFault};
use std::alloc::{AllocError, Global};
use std::collections::BTreeMap;

/// Files in memory, with the numbers of the calls that are to fail.
#[derive(Drop)]
pub struct MemShelf {
    alloc: Global,
    files: BTreeMap<String, Vec<u8>>,
    due: Vec<u64>,
    calls: u64,
    faults: u64,
    longs: u64,
}

impl MemShelf {
    ghost use Rattle.brake_io.specs.MemShelfState.{content_of, state_of, empty, holding, failing_at, IsToFail};

    /// A shelf that holds nothing and has no call fail.
    pub fn new(alloc: Global) -> Self
        ensures { state_of result ≡ empty }
    {
        MemShelf {
            alloc,
            files: BTreeMap::new(alloc),
            due: Vec::new(alloc),
            calls: 0,
            faults: 0,
            longs: 0,
        }
    }

    /// Has `name` hold the bytes. After a refusal the shelf is as it was.
    pub fn add(&mut self, name: &str, bytes: &[u8]) -> Result<(), AllocError>
        ensures ok { OnOk result (state_of self.new ≡ holding name.now bytes.now self.old) }
        ensures err { OnErr result (state_of self.new ≡ state_of self.old) }
    {
        let name = String::from_str(self.alloc, name)?;
        let bytes = Vec::from_slice(self.alloc, bytes)?;
        self.files.insert(name, bytes)?;
        Ok(())
    }

    /// Has the call with this number fail, counted from 1. After a refusal the shelf is as it was.
    pub fn fail_at(&mut self, call: u32) -> Result<(), AllocError>
        ensures ok { OnOk result (state_of self.new ≡ failing_at call self.old) }
        ensures err { OnErr result (state_of self.new ≡ state_of self.old) }
    {
        self.due.push(u64::from(call))?;
        Ok(())
    }

    /// The bytes under `name`, or `None` where it is not held.
    pub fn bytes_of(&self, name: &str) -> Option<&[u8]>
        ensures { option_map (λ bytes. bytes.now) result ≡ (content_of self.now).held name.now }
    {
        match self.files.get(name) {
            Some(bytes) => Some(bytes.as_slice()),
            None => None,
        }
    }

    /// Counts a call, and says whether it is to fail.
    fn count_call(&mut self) -> bool
        ensures counted { self.new ≡ record self.old { calls = raised self.old.calls } }
        ensures never_falls { self.old.calls ≤ self.new.calls }
        ensures due { IsTrue result ↔ IsToFail self.old }
    {
        let before = self.calls;
        self.calls = before.saturating_add(1);
        before < self.calls && self.due.contains(&self.calls)
    }
}

impl Shelf for MemShelf {
    ghost use Rattle.brake_io.specs.MemShelfState.{content_of, state_of, IsToFail, IsToFailAt};

    ghost state = { state_of };

    fn fetch(&mut self, alloc: Global, name: &str, limit: u64) -> Result<Vec<u8>, FetchFault>
        ensures content { (state_of self.new).content ≡ (state_of self.old).content }
        ensures calls { self.new.calls ≡ raised self.old.calls }
        ensures bytes { IfOk result (λ bytes. Holds (state_of self.old) name.now bytes.items) }
        ensures within { IfOk result (λ bytes. vec_len bytes ≤ limit) }
        ensures failed { IsErrOf result FetchFault.Failed → Rose self.old.faults self.new.faults }
        ensures cause { IsErrOf result FetchFault.Failed →
            MayFailAt name.now (state_of self.old) (state_of self.new) }
        ensures longer { IsErrOf result FetchFault.TooLong →
            IsLonger (state_of self.old) name.now limit }
        ensures too_long { IsErrOf result FetchFault.TooLong
            → self.new.longs ≡ raised self.old.longs }
        ensures never_falls { NoCountFalls (state_of self.old) (state_of self.new) }
        ensures faults { ¬ IsErrOf result FetchFault.Failed → self.new.faults ≡ self.old.faults }
        ensures longs { ¬ IsErrOf result FetchFault.TooLong → self.new.longs ≡ self.old.longs }
        // But for want of memory it fails exactly where it is to fail or the name isn't held.
        ensures exactly { ¬ IsErrOf result FetchFault.NoMemory →
            (IsErrOf result FetchFault.Failed ↔ IsToFailAt self.old name.now) }
    {
        if self.count_call() {
            self.faults = self.faults.saturating_add(1);
            return Err(FetchFault::Failed);
        }
        let Some(bytes) = self.bytes_of(name) else {
            self.faults = self.faults.saturating_add(1);
            return Err(FetchFault::Failed);
        };
        if bytes.len() as u64 > limit {
            self.longs = self.longs.saturating_add(1);
            return Err(FetchFault::TooLong);
        }
        Ok(Vec::from_slice(alloc, bytes)?)
    }

    fn store(&mut self, name: &str, bytes: &[u8]) -> Result<(), StoreFault>
        ensures others { WhereTold (state_of self.old) (state_of self.new) (ChangesOnly name.now) }
        ensures ok { OnOk result
            (WhereTold (state_of self.old) (state_of self.new) (HoldsNow name.now bytes.now)) }
        ensures err { OnErr result
            (WhereTold (state_of self.old) (state_of self.new) (HoldsPart name.now bytes.now)) }
        ensures calls { self.new.calls ≡ raised self.old.calls }
        ensures failed { IsErrOf result StoreFault.Failed → Rose self.old.faults self.new.faults }
        ensures cause { IsErrOf result StoreFault.Failed →
            MayFail (state_of self.old) (state_of self.new) }
        ensures faults { ¬ IsErrOf result StoreFault.Failed → self.new.faults ≡ self.old.faults }
        ensures longs { self.new.longs ≡ self.old.longs }
        ensures never_falls { NoCountFalls (state_of self.old) (state_of self.new) }
        // But for want of memory it fails exactly where it is to fail, and then changes nothing held.
        ensures exactly { ¬ IsErrOf result StoreFault.NoMemory →
            (IsErrOf result StoreFault.Failed ↔ IsToFail self.old) }
        ensures unchanged { OnErr result (content_of self.new ≡ content_of self.old) }
    {
        if self.count_call() {
            self.faults = self.faults.saturating_add(1);
            return Err(StoreFault::Failed);
        }
        self.add(name, bytes)?;
        Ok(())
    }

    type File = HeldBytes;

    fn open(&mut self, alloc: Global, name: &str, limit: u64) -> Result<HeldBytes, FetchFault>
        ensures content { (state_of self.new).content ≡ (state_of self.old).content }
        ensures calls { self.new.calls ≡ raised self.old.calls }
        ensures bytes { IfOk result (λ file.
            GivesHeld (state_of self.old) name.now (⟦<HeldBytes as Reader>⟧.left file)) }
        ensures no_fault { IfOk result (λ file. ⟦<HeldBytes as Reader>⟧.faults file ≡ 0) }
        ensures failed { IsErrOf result FetchFault.Failed → Rose self.old.faults self.new.faults }
        ensures cause { IsErrOf result FetchFault.Failed →
            MayFailAt name.now (state_of self.old) (state_of self.new) }
        ensures longer { IsErrOf result FetchFault.TooLong →
            IsLonger (state_of self.old) name.now limit }
        ensures too_long { IsErrOf result FetchFault.TooLong
            → self.new.longs ≡ raised self.old.longs }
        ensures never_falls { NoCountFalls (state_of self.old) (state_of self.new) }
        ensures faults { ¬ IsErrOf result FetchFault.Failed → self.new.faults ≡ self.old.faults }
        ensures longs { ¬ IsErrOf result FetchFault.TooLong → self.new.longs ≡ self.old.longs }
        // But for want of memory it fails exactly where it is to fail or the name isn't held.
        ensures exactly { ¬ IsErrOf result FetchFault.NoMemory →
            (IsErrOf result FetchFault.Failed ↔ IsToFailAt self.old name.now) }
    {
        let bytes = self.fetch(alloc, name, limit)?;
        Ok(HeldBytes::new(bytes))
    }

    fn count_fault(&mut self, fault: FetchFault)
        ensures content { (state_of self.new).content ≡ (state_of self.old).content }
        ensures calls { self.new.calls ≡ self.old.calls }
        ensures failed { fault ≡ FetchFault.Failed → Rose self.old.faults self.new.faults }
        ensures too_long { fault ≡ FetchFault.TooLong → self.new.longs ≡ raised self.old.longs }
        ensures never_falls { NoCountFalls (state_of self.old) (state_of self.new) }
        ensures faults { fault ≢ FetchFault.Failed → self.new.faults ≡ self.old.faults }
        ensures longs { fault ≢ FetchFault.TooLong → self.new.longs ≡ self.old.longs }
    {
        match fault {
            FetchFault::Failed => self.faults = self.faults.saturating_add(1),
            FetchFault::TooLong => self.longs = self.longs.saturating_add(1),
            FetchFault::NoMemory => {}
        }
    }

    fn store_by<P: Pieces>(
        &mut self,
        alloc: Global,
        name: &str,
        pieces: &mut P,
    ) -> Result<(), StoreFault>
        ensures others { WhereTold (state_of self.old) (state_of self.new) (ChangesOnly name.now) }
        ensures ok { OnOk result
            (WhereTold (state_of self.old) (state_of self.new) (HoldsNow name.now (P.left pieces.old))) }
        ensures err { OnErr result
            (WhereTold (state_of self.old) (state_of self.new) (HoldsPart name.now (P.left pieces.old))) }
        ensures no_memory { IsErrOf result StoreFault.NoMemory →
            (state_of self.new).content ≡ (state_of self.old).content }
        ensures calls { self.new.calls ≡ raised self.old.calls }
        ensures failed { IsErrOf result StoreFault.Failed → Rose self.old.faults self.new.faults }
        ensures cause { IsErrOf result StoreFault.Failed →
            MayFail (state_of self.old) (state_of self.new) }
        ensures faults { ¬ IsErrOf result StoreFault.Failed → self.new.faults ≡ self.old.faults }
        ensures longs { self.new.longs ≡ self.old.longs }
        ensures never_falls { NoCountFalls (state_of self.old) (state_of self.new) }
        // But for want of memory it fails exactly where it is to fail, and then changes nothing held.
        ensures exactly { ¬ IsErrOf result StoreFault.NoMemory →
            (IsErrOf result StoreFault.Failed ↔ IsToFail self.old) }
        ensures unchanged { OnErr result (content_of self.new ≡ content_of self.old) }
    {
        match gather(alloc, pieces) {
            Ok(text) => self.store(name, text.as_slice()),
            Err(_) => {
                self.count_call();
                Err(StoreFault::NoMemory)
            }
        }
    }
}
