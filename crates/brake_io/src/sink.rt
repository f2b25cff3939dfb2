//! A place where text is put.
ghost use Rattle.std.specs.Prelude.{◌≡◌, ◌<◌, ◌≤◌, length, IfSome, is_some, IsErrOf, OnOk, OnErr};
ghost use Rattle.brake_io.specs.Rose.{Rose};
ghost use Rattle.brake_io.specs.Meanings.{SinkState, Puts, PutsPart};

use std::alloc::AllocError;

/// Why a piece was not put whole: the outside failed, or memory ran out.
#[derive(Clone, Copy, Debug, PartialEq, Eq)]
pub enum PutFault {
    Failed,
    NoMemory,
}

/// Text in pieces.
pub trait Sink {
    /// What is seen of a sink: the text that was written, which it may tell or not, and how often
    /// the outside has failed. This count never falls.
    ghost state: { Self → SinkState };

    /// Puts a piece behind what was written. After a fault a part of it from its front is put.
    fn put(&mut self, bytes: &[u8]) -> Result<(), PutFault>
        ensures told { is_some (state self.new).written ≡ is_some (state self.old).written }
        ensures ok { OnOk result (Puts (state self.old) (state self.new) bytes.now) }
        ensures err { OnErr result (PutsPart (state self.old) (state self.new) bytes.now) }
        ensures failed { IsErrOf result PutFault.Failed →
            Rose (state self.old).faults (state self.new).faults }
        ensures faults { OnOk result ((state self.new).faults ≡ (state self.old).faults) }
        ensures never_falls { (state self.old).faults ≤ (state self.new).faults }
        // A sink that takes no byte of a piece counts a fault.
        ensures none_taken { IfSome (state self.old).written (λ _.
            (state self.new).written ≡ (state self.old).written → 0 < length bytes.now →
            Rose (state self.old).faults (state self.new).faults) };
}
