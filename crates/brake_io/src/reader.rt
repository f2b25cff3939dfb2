//! What gives the bytes of a file in order.
ghost use Rattle.std.specs.Prelude.{◌≡◌, ◌<◌, ◌≤◌, ◌++◌, ℕ, List, Option, Some, None, length, min, take, drop, IfSome, IsNone};
ghost use Rattle.std.specs.Io.KnownBytes.{Consumes, IsAtEnd};
ghost use Rattle.brake_io.specs.Rose.{raised};

/// The bytes of a file, in order.
pub trait Reader {
    /// The bytes that it has still to give, which it may tell or not.
    ghost left: { Self → Option (List ℕ) };

    /// How often a read of it has failed.
    ghost faults: { Self → ℕ };

    /// Fills the front of `to` with the next bytes, and says how many they are: none only at the
    /// end, or where there is no room. `None` where the outside failed; a reader that tells its
    /// bytes doesn't fail.
    fn read(&mut self, to: &mut [u8]) -> Option<usize>
        ensures within { IfSome result (λ n. n ≤ length to.new) }
        ensures bytes { IfSome result
            (λ n. Consumes (left self.old) (left self.new) (take n to.new)) }
        ensures end { result ≡ Some 0 → 0 < length to.new → IsAtEnd (left self.new) }
        ensures failed { IsNone result → left self.old ≡ None }
        ensures untold { IsNone result → left self.new ≡ None }
        // Each failure is counted, and nothing else.
        ensures counted { IsNone result → faults self.new ≡ raised (faults self.old) }
        ensures uncounted { IfSome result (λ _. faults self.new ≡ faults self.old) };
}

/// Copies as many bytes as there are and as there is room for, and says how many.
fn copy_front(from: &[u8], to: &mut [u8]) -> usize
    ensures count { result ≡ min (length from.now) (length to.old) }
    ensures copied { to.new ≡ take result from.now ++ drop result to.old }
{
    let count = from.len().min(to.len());
    to[..count].copy_from_slice(&from[..count]);
    count
}

/// Bytes in memory as a reader.
#[derive(Drop)]
pub struct HeldBytes {
    bytes: Vec<u8>,
    at: usize,
    ghost within: { at ≤ length bytes.items },
}

impl HeldBytes {
    /// A reader of all of these bytes.
    pub fn new(bytes: Vec<u8>) -> HeldBytes
        ensures left { ⟦<HeldBytes as Reader>⟧.left result ≡ Some bytes.items }
        ensures faults { ⟦<HeldBytes as Reader>⟧.faults result ≡ 0 }
    {
        HeldBytes { bytes, at: 0 }
    }
}

impl Reader for HeldBytes {
    ghost left = { λ reader. Some (drop reader.at reader.bytes.items) };

    ghost faults = { λ _. 0 };

    fn read(&mut self, to: &mut [u8]) -> Option<usize> {
        let rest = &self.bytes[self.at..];
        let count = copy_front(rest, to);
        self.at += count;
        Some(count)
    }
}
