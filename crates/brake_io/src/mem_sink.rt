//! A sink in memory.
ghost use Rattle.std.specs.Prelude.{◌≡◌, ℕ, ◌<◌, ◌≤◌, [], ◌++◌, length, take, Some, None, IsErrOf, OnOk, OnErr};
ghost use Rattle.brake_io.specs.Rose.{raised, Rose};
ghost use Rattle.brake_io.specs.Meanings.{Puts, PutsPart};
ghost use Rattle.brake_io.specs.MemSinkState.{seen, IsToFailAfter};

use crate::sink::{PutFault, Sink};
use std::alloc::Global;
use std::marker::Model;

/// What was put, in memory, with at most one put that is to fail.
#[derive(Drop)]
pub struct MemSink {
    written: Vec<u8>,
    calls: u64,
    fails_at: Option<Failure>,
    faults: u64,
}

/// A put that is to fail: its number, and how many bytes it takes first.
#[derive(Clone, Copy)]
struct Failure {
    call: u32,
    taken: usize,
}

impl Model for MemSink {
    ghost use Rattle.std.specs.Prelude.{option_map};
    ghost use Rattle.brake_io.specs.MemSinkState.{MemSinkState};

    ghost Value = { MemSinkState };

    ghost view = { λ s. record {
      written = s.written.items;
      calls = s.calls;
      fails_at = option_map (λ f. record { call = f.call; taken = f.taken }) s.fails_at;
      faults = s.faults;
    } };
}

impl MemSink {
    /// An empty sink that has no put fail.
    pub fn new(alloc: Global) -> Self
        ensures { result ≡ record { written = []; calls = 0; fails_at = None; faults = 0 } }
    {
        MemSink {
            written: Vec::new(alloc),
            calls: 0,
            fails_at: None,
            faults: 0,
        }
    }

    /// Has the put with this number, counted from 1, fail after it took so many bytes.
    pub fn fail_at(&mut self, call: u32, taken: usize)
        ensures { self.new ≡ record self.old
            { fails_at = Some (record { call = call; taken = taken }) } }
    {
        self.fails_at = Some(Failure { call, taken });
    }

    /// What was put.
    pub fn bytes(&self) -> &[u8]
        ensures { result.now ≡ self.now.written }
    {
        &self.written
    }
}

impl Sink for MemSink {
    ghost state = { seen };

    fn put(&mut self, bytes: &[u8]) -> Result<(), PutFault>
        ensures ok { OnOk result (Puts (seen self.old) (seen self.new) bytes.now) }
        ensures err { OnErr result (PutsPart (seen self.old) (seen self.new) bytes.now) }
        ensures failed { IsErrOf result PutFault.Failed → Rose self.old.faults self.new.faults }
        ensures faults { OnOk result (self.new.faults ≡ self.old.faults) }
        ensures never_falls { self.old.faults ≤ self.new.faults }
        ensures none_taken { self.new.written ≡ self.old.written → 0 < length bytes.now →
            Rose self.old.faults self.new.faults }
        // But for want of memory it fails exactly at its place, after so many bytes or the whole piece.
        ensures calls { self.new.calls ≡ raised self.old.calls }
        ensures place { self.new.fails_at ≡ self.old.fails_at }
        ensures at_place { IsErrOf result PutFault.Failed →
            (taken : ℕ) × IsToFailAfter self.old taken × (self.new.written ≡ self.old.written ++ take taken bytes.now) }
        ensures elsewhere { OnOk result ((taken : ℕ) → ¬ IsToFailAfter self.old taken) }
    {
        self.calls = self.calls.saturating_add(1);
        if let Some(failure) = self.fails_at {
            if u64::from(failure.call) == self.calls {
                let piece = &bytes[..failure.taken.min(bytes.len())];
                self.faults = self.faults.saturating_add(1);
                return match self.written.extend_from_slice(piece) {
                    Ok(()) => Err(PutFault::Failed),
                    Err(_) => Err(PutFault::NoMemory),
                };
            }
        }
        if self.written.extend_from_slice(bytes).is_err() {
            self.faults = self.faults.saturating_add(1);
            return Err(PutFault::NoMemory);
        }
        Ok(())
    }
}
