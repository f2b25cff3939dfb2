//! The bytes of a text that were read ahead.
ghost use Rattle.std.specs.Prelude.{◌≡◌, ◌+◌, ◌-◌, ◌<◌, ◌≤◌, ◌++◌, [], List, ℕ, Some, None, length, drop, slice_range, vec_len, IfOk, IfSome, IsNone, OnOk};
ghost use Rattle.std.specs.Io.KnownBytes.{Consumes, IsAtEnd};
ghost use Rattle.brake_io.specs.Rose.{raised};

use crate::reader::Reader;
use std::alloc::{AllocError, Global};

/// How many bytes a buffer has memory for at first, and how many are read at once at most.
pub const CAPACITY: usize = 262_144;

/// Bytes that were read and not yet passed: those from `start` up to `end`.
#[derive(Drop)]
pub struct Buffer {
    bytes: Vec<u8>,
    start: usize,
    end: usize,
    ghost ordered: { start ≤ end },
    ghost in_bounds: { end ≤ vec_len bytes },
    ghost capacity: { 262144 ≤ vec_len bytes },
}

impl Buffer {
    /// A buffer with no bytes.
    pub fn new(alloc: Global) -> Result<Buffer, AllocError>
        ensures { IfOk result (λ buffer.
            slice_range buffer.bytes.items buffer.start buffer.end ≡ []) }
    {
        let mut bytes = Vec::with_capacity(alloc, CAPACITY)?;
        bytes.resize(CAPACITY, 0)?;
        Ok(Buffer {
            bytes,
            start: 0,
            end: 0,
        })
    }

    /// The bytes that it holds.
    pub fn as_slice(&self) -> &[u8]
        ensures { result.now ≡ slice_range self.now.bytes.items self.now.start self.now.end }
    {
        &self.bytes[self.start..self.end]
    }

    /// Lets the first bytes go.
    #[tactic(auto, using(crate::proofs::Parts::spans))]
    pub fn pass(&mut self, count: usize)
        requires { count ≤ length (slice_range self.old.bytes.items self.old.start self.old.end) }
        ensures { slice_range self.new.bytes.items self.new.start self.new.end
            ≡ drop count (slice_range self.old.bytes.items self.old.start self.old.end) }
    {
        self.start += count;
    }

    /// Lets all bytes go.
    pub fn clear(&mut self)
        ensures { slice_range self.new.bytes.items self.new.start self.new.end ≡ [] }
    {
        self.start = 0;
        self.end = 0;
    }

    /// Moves the bytes to the front, unless they stand there.
    fn move_front(&mut self)
        ensures start { self.new.start ≡ 0 }
        ensures end { self.new.end ≡ self.old.end - self.old.start }
        ensures memory { vec_len self.new.bytes ≡ vec_len self.old.bytes }
        ensures bytes { slice_range self.new.bytes.items self.new.start self.new.end
            ≡ slice_range self.old.bytes.items self.old.start self.old.end }
    {
        if self.start > 0 {
            self.bytes.copy_within(self.start..self.end, 0);
            self.end -= self.start;
            self.start = 0;
        }
    }

    /// Moves the bytes into twice the memory. Without it the buffer is as it was.
    fn grow(&mut self, alloc: Global) -> Result<(), AllocError>
        requires full { length (slice_range self.old.bytes.items self.old.start self.old.end)
            ≡ vec_len self.old.bytes }
        ensures bytes { slice_range self.new.bytes.items self.new.start self.new.end
            ≡ slice_range self.old.bytes.items self.old.start self.old.end }
        ensures room { OnOk result
            (length (slice_range self.new.bytes.items self.new.start self.new.end)
            < vec_len self.new.bytes) }
    {
        let held = self.as_slice();
        let mut bytes = Vec::with_capacity(alloc, 2 * held.len())?;
        bytes.extend_from_slice(held)?;
        bytes.resize(2 * held.len(), 0)?;
        self.end = held.len();
        self.start = 0;
        self.bytes = bytes;
        Ok(())
    }

    /// Has room for a byte more, in more memory where it was full. Without that it is as it was.
    pub fn make_room(&mut self, alloc: Global) -> Result<(), AllocError>
        ensures bytes { slice_range self.new.bytes.items self.new.start self.new.end
            ≡ slice_range self.old.bytes.items self.old.start self.old.end }
        ensures room { OnOk result
            (length (slice_range self.new.bytes.items self.new.start self.new.end)
            < vec_len self.new.bytes) }
    {
        if self.as_slice().len() < self.bytes.len() {
            Ok(())
        } else {
            self.grow(alloc)
        }
    }

    /// Reads once, at most so many bytes, behind those that it holds, and says how many came: none
    /// only at the end. `None` where the outside failed.
    #[tactic(auto, using(crate::proofs::Parts::spans))]
    pub fn append_from<R: Reader>(&mut self, from: &mut R, most: usize) -> Option<usize>
        requires room { length (slice_range self.old.bytes.items self.old.start self.old.end)
            < vec_len self.old.bytes }
        requires some { 0 < most }
        requires few { most ≤ 262144 }
        ensures bytes { IfSome result (λ n. (piece : List ℕ) × (length piece ≡ n) × (n ≤ most)
            × (slice_range self.new.bytes.items self.new.start self.new.end
            ≡ slice_range self.old.bytes.items self.old.start self.old.end ++ piece)
            × Consumes (R.left from.old) (R.left from.new) piece) }
        ensures end { result ≡ Some 0 → IsAtEnd (R.left from.new) }
        ensures same { IsNone result →
            slice_range self.new.bytes.items self.new.start self.new.end
            ≡ slice_range self.old.bytes.items self.old.start self.old.end }
        ensures failed { IsNone result → R.left from.old ≡ None }
        ensures untold { IsNone result → R.left from.new ≡ None }
        ensures counted { IsNone result → R.faults from.new ≡ raised (R.faults from.old) }
        ensures uncounted { IfSome result (λ _. R.faults from.new ≡ R.faults from.old) }
    {
        self.move_front();
        let end = self.end;
        let stop = (end + most).min(self.bytes.len());
        let count = from.read(&mut self.bytes[end..stop])?;
        self.end = end + count;
        Some(count)
    }
}
