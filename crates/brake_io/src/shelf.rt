//! A place where files are fetched and stored.
ghost use Rattle.std.specs.Prelude.{◌≡◌, ◌≢◌, ◌≤◌, IsErrOf, IfOk, OnOk, OnErr, vec_len};
ghost use Rattle.brake_io.specs.Rose.{raised, Rose};
ghost use Rattle.brake_io.specs.Meanings.{ShelfState, NoCountFalls, Holds, IsLonger, MayFail, MayFailAt, WhereTold, ChangesOnly, HoldsNow, HoldsPart};
ghost use Rattle.brake_io.specs.Pieces.{GivesHeld};

use crate::pieces::Pieces;
use crate::reader::Reader;
use std::alloc::{AllocError, AllocFailed, Global};

/// Why a file was not fetched: the outside failed, the file is longer than the limit, or memory ran out.
#[derive(Clone, Copy, Debug, PartialEq, Eq)]
pub enum FetchFault {
    Failed,
    TooLong,
    NoMemory,
}

/// Why a file was not stored: the outside failed, or memory ran out.
#[derive(Clone, Copy, Debug, PartialEq, Eq)]
pub enum StoreFault {
    Failed,
    NoMemory,
}

/// Files under their names.
pub trait Shelf {
    /// What is seen of a shelf: its content, which it may tell or not, and three counts that never
    /// fall.
    ghost state: { Self → ShelfState };

    /// The bytes under `name`, which are at most `limit`. A name that is not held is a fault.
    fn fetch(&mut self, alloc: Global, name: &str, limit: u64) -> Result<Vec<u8>, FetchFault>
        ensures content { (state self.new).content ≡ (state self.old).content }
        ensures calls { (state self.new).calls ≡ raised (state self.old).calls }
        ensures bytes { IfOk result (λ bytes. Holds (state self.old) name.now bytes.items) }
        ensures within { IfOk result (λ bytes. vec_len bytes ≤ limit) }
        ensures failed { IsErrOf result FetchFault.Failed →
            Rose (state self.old).faults (state self.new).faults }
        ensures cause { IsErrOf result FetchFault.Failed →
            MayFailAt name.now (state self.old) (state self.new) }
        ensures longer { IsErrOf result FetchFault.TooLong
            → IsLonger (state self.old) name.now limit }
        ensures too_long { IsErrOf result FetchFault.TooLong →
            (state self.new).longs ≡ raised (state self.old).longs }
        ensures never_falls { NoCountFalls (state self.old) (state self.new) }
        // A count stands still where the answer isn't its own.
        ensures faults { ¬ IsErrOf result FetchFault.Failed →
            (state self.new).faults ≡ (state self.old).faults }
        ensures longs { ¬ IsErrOf result FetchFault.TooLong →
            (state self.new).longs ≡ (state self.old).longs };

    /// Has `name` hold the bytes.
    fn store(&mut self, name: &str, bytes: &[u8]) -> Result<(), StoreFault>
        ensures others { WhereTold (state self.old) (state self.new) (ChangesOnly name.now) }
        ensures ok { OnOk result
            (WhereTold (state self.old) (state self.new) (HoldsNow name.now bytes.now)) }
        ensures err { OnErr result
            (WhereTold (state self.old) (state self.new) (HoldsPart name.now bytes.now)) }
        ensures calls { (state self.new).calls ≡ raised (state self.old).calls }
        ensures failed { IsErrOf result StoreFault.Failed →
            Rose (state self.old).faults (state self.new).faults }
        ensures cause { IsErrOf result StoreFault.Failed
            → MayFail (state self.old) (state self.new) }
        ensures faults { ¬ IsErrOf result StoreFault.Failed →
            (state self.new).faults ≡ (state self.old).faults }
        ensures longs { (state self.new).longs ≡ (state self.old).longs }
        ensures never_falls { NoCountFalls (state self.old) (state self.new) };

    /// A file that is open to be read in pieces.
    type File: Reader + Drop;

    /// Opens the file under `name`, of which nothing is read yet: `fetch`, but that the bytes are still
    /// to come. A name that is not held is a fault.
    fn open(&mut self, alloc: Global, name: &str, limit: u64) -> Result<Self::File, FetchFault>
        ensures content { (state self.new).content ≡ (state self.old).content }
        ensures calls { (state self.new).calls ≡ raised (state self.old).calls }
        ensures bytes { IfOk result
            (λ file. GivesHeld (state self.old) name.now (Self.File.left file)) }
        ensures no_fault { IfOk result (λ file. Self.File.faults file ≡ 0) }
        ensures failed { IsErrOf result FetchFault.Failed →
            Rose (state self.old).faults (state self.new).faults }
        ensures cause { IsErrOf result FetchFault.Failed →
            MayFailAt name.now (state self.old) (state self.new) }
        ensures longer { IsErrOf result FetchFault.TooLong
            → IsLonger (state self.old) name.now limit }
        ensures too_long { IsErrOf result FetchFault.TooLong →
            (state self.new).longs ≡ raised (state self.old).longs }
        ensures never_falls { NoCountFalls (state self.old) (state self.new) }
        ensures faults { ¬ IsErrOf result FetchFault.Failed →
            (state self.new).faults ≡ (state self.old).faults }
        ensures longs { ¬ IsErrOf result FetchFault.TooLong →
            (state self.new).longs ≡ (state self.old).longs };

    /// Counts a fault that came as an open file was read.
    fn count_fault(&mut self, fault: FetchFault)
        ensures content { (state self.new).content ≡ (state self.old).content }
        ensures calls { (state self.new).calls ≡ (state self.old).calls }
        ensures failed { fault ≡ FetchFault.Failed →
            Rose (state self.old).faults (state self.new).faults }
        ensures too_long { fault ≡ FetchFault.TooLong →
            (state self.new).longs ≡ raised (state self.old).longs }
        ensures never_falls { NoCountFalls (state self.old) (state self.new) }
        ensures faults { fault ≢ FetchFault.Failed →
            (state self.new).faults ≡ (state self.old).faults }
        ensures longs { fault ≢ FetchFault.TooLong →
            (state self.new).longs ≡ (state self.old).longs };

    /// Has `name` hold the text that is made in these pieces. Without memory nothing is stored.
    fn store_by<P: Pieces>(
        &mut self,
        alloc: Global,
        name: &str,
        pieces: &mut P,
    ) -> Result<(), StoreFault>
        ensures others { WhereTold (state self.old) (state self.new) (ChangesOnly name.now) }
        ensures ok { OnOk result
            (WhereTold (state self.old) (state self.new) (HoldsNow name.now (P.left pieces.old))) }
        ensures err { OnErr result
            (WhereTold (state self.old) (state self.new) (HoldsPart name.now (P.left pieces.old))) }
        ensures no_memory { IsErrOf result StoreFault.NoMemory →
            (state self.new).content ≡ (state self.old).content }
        ensures calls { (state self.new).calls ≡ raised (state self.old).calls }
        ensures failed { IsErrOf result StoreFault.Failed →
            Rose (state self.old).faults (state self.new).faults }
        ensures cause { IsErrOf result StoreFault.Failed
            → MayFail (state self.old) (state self.new) }
        ensures faults { ¬ IsErrOf result StoreFault.Failed →
            (state self.new).faults ≡ (state self.old).faults }
        ensures longs { (state self.new).longs ≡ (state self.old).longs }
        ensures never_falls { NoCountFalls (state self.old) (state self.new) };
}

impl From<AllocError> for FetchFault {
    ghost use Rattle.brake_io.specs.declared.shelf.FetchFault.TheVariants.{NoMemory};
    ghost use Rattle.std.specs.Prelude.{◌≡◌};

    ghost from_gives = { λ _ fault. fault ≡ NoMemory };

    fn from(_: AllocError) -> Self {
        FetchFault::NoMemory
    }
}

impl<T: Drop> From<AllocFailed<T>> for FetchFault {
    ghost use Rattle.brake_io.specs.declared.shelf.FetchFault.TheVariants.{NoMemory};
    ghost use Rattle.std.specs.Prelude.{◌≡◌};

    ghost from_gives = { λ _ fault. fault ≡ NoMemory };

    fn from(_: AllocFailed<T>) -> Self {
        FetchFault::NoMemory
    }
}

impl From<AllocError> for StoreFault {
    ghost use Rattle.brake_io.specs.declared.shelf.StoreFault.TheVariants.{NoMemory};
    ghost use Rattle.std.specs.Prelude.{◌≡◌};

    ghost from_gives = { λ _ fault. fault ≡ NoMemory };

    fn from(_: AllocError) -> Self {
        StoreFault::NoMemory
    }
}
