//! Standard output as a sink.
ghost use Rattle.std.specs.Prelude.{◌≡◌, ◌≤◌, None, IsErrOf, OnOk, OnErr};
ghost use Rattle.brake_io.specs.Rose.{raised, Rose};

use crate::sink::{PutFault, Sink};
use crate::whole::write_whole;
use std::io;

/// Standard output. It does not tell what was written.
#[derive(Drop)]
pub struct StdSink<R: Print + Drop> {
    rt: R,
    faults: u64,
}

impl<R: Print + Drop> StdSink<R> {
    /// Over the standard output of this runtime, with a count of 0.
    pub fn new(rt: R) -> Self
        ensures { ⟦<StdSink<R> as Sink>⟧.state result ≡ record { written = None; faults = 0 } }
    {
        StdSink { rt, faults: 0 }
    }
}

impl<R: Print + Drop> Sink for StdSink<R> {
    ghost state = { λ s. record { written = None; faults = s.faults } };

    fn put(&mut self, bytes: &[u8]) -> Result<(), PutFault>
        ensures failed { IsErrOf result PutFault.Failed → Rose self.old.faults self.new.faults }
        ensures faults { OnOk result (self.new.faults ≡ self.old.faults) }
        ensures never_falls { self.old.faults ≤ self.new.faults }
        // Each error of the output is counted.
        ensures counted { OnErr result (self.new.faults ≡ raised self.old.faults) }
    {
        if write_whole(&mut io::writer(&self.rt), bytes) {
            return Ok(());
        }
        self.faults = self.faults.saturating_add(1);
        Err(PutFault::Failed)
    }
}
