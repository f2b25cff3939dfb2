//! Reading to the end and writing to the end, in turns of which each moves a byte or is the last.
ghost use Rattle.std.specs.Prelude.{◌≡◌, ◌+◌, ◌<◌, ◌≤◌, ℕ, List, length, IfSome, IfOk, IsErrOf, vec_len};
ghost use Rattle.std.specs.Bool.{OnTrue, OnFalse};
ghost use Rattle.std.specs.Io.KnownBytes.{Appends, Consumes};
ghost use Rattle.brake_io.specs.Meanings.{AppendsPart};

use crate::shelf::FetchFault;
use std::alloc::Global;
use std::io::{Read, Write};

/// How many bytes are read at a time.
const CHUNK: usize = 65_536;

/// All of the bytes that the reader still gives, of which at most one more than the limit is taken.
/// An error of the reader is `Failed`.
pub fn read_whole<F: Read>(alloc: Global, from: &mut F, limit: u64) -> Result<Vec<u8>, FetchFault>
    ensures within { IfOk result (λ bytes. vec_len bytes ≤ limit) }
    ensures bytes { IfOk result
        (λ bytes. IfSome (F.remaining from.old) (λ all. all ≡ bytes.items)) }
    ensures longer { IsErrOf result FetchFault.TooLong →
        IfSome (F.remaining from.old) (λ all. limit < length all) }
    // It fails before it took more than the limit: what is too long is told as too long.
    ensures failed { IsErrOf result FetchFault.Failed → (taken : List ℕ) × (length taken ≤ limit)
        × Consumes (F.remaining from.old) (F.remaining from.new) taken }
    ensures taken { (taken : List ℕ) × (length taken ≤ limit + 1)
        × Consumes (F.remaining from.old) (F.remaining from.new) taken }
{
    let mut bytes = Vec::new(alloc);
    let mut chunk = [0u8; CHUNK];
    loop {
        let room = limit - bytes.len() as u64;
        let wanted = if room < CHUNK as u64 {
            room as usize + 1
        } else {
            CHUNK
        };
        match from.read(&mut chunk[..wanted]) {
            Ok(0) => return Ok(bytes),
            Ok(n) => bytes.extend_from_slice(&chunk[..n])?,
            Err(_) => return Err(FetchFault::Failed),
        }
        if bytes.len() as u64 > limit {
            return Err(FetchFault::TooLong);
        }
    }
}

/// Writes all of the bytes, and says whether the writer took them. An error of the writer and a
/// turn that takes no byte end it.
pub fn write_whole<W: Write>(to: &mut W, bytes: &[u8]) -> bool
    ensures all { OnTrue result (Appends (W.contents to.old) (W.contents to.new) bytes.now) }
    ensures part { OnFalse result (AppendsPart (W.contents to.old) (W.contents to.new) bytes.now) }
{
    let mut rest = bytes;
    while !rest.is_empty() {
        match to.write(rest) {
            Ok(0) | Err(_) => return false,
            Ok(n) => rest = &rest[n..],
        }
    }
    true
}
