//! Texts that are made in pieces.
ghost use Rattle.std.specs.Prelude.{◌≡◌, ◌<◌, ◌++◌, ℕ, List, [], true, false, length, IfOk, OnOk, OnErr};
ghost use Rattle.std.specs.Io.KnownBytes.{Appends};
ghost use Rattle.brake_io.specs.Meanings.{AppendsPart};

use crate::shelf::StoreFault;
use crate::whole::write_whole;
use std::alloc::{AllocError, Global};
use std::io::Write;

/// The length of a piece, in bytes, that a buffer is made for.
pub const PIECE: usize = 262_144;

/// A text that is made in pieces.
pub trait Pieces {
    /// What is left of the text.
    ghost left: { Self → List ℕ };

    /// Appends the next piece, and says whether more is left. Of a piece of at most 256 KiB the memory
    /// is there before a byte is stored. The text doesn't go on after a refusal.
    fn next(&mut self, out: &mut Vec<u8>) -> Result<bool, AllocError>
        ensures piece { OnOk result ((piece : List ℕ) × (out.new.items ≡ out.old.items ++ piece)
            × (left self.old ≡ piece ++ left self.new)) }
        ensures more { IfOk result (λ is_more. is_more ≡ true →
            length (left self.new) < length (left self.old)) }
        ensures last { IfOk result (λ is_more. is_more ≡ false → left self.new ≡ []) };
}

/// A text that is at hand, from its front.
impl Pieces for &[u8] {
    ghost left = { λ text. text.now };

    fn next(&mut self, out: &mut Vec<u8>) -> Result<bool, AllocError> {
        let all: &[u8] = *self;
        let count = all.len().min(PIECE);
        out.extend_from_slice(&all[..count])?;
        *self = &all[count..];
        Ok(count < all.len())
    }
}

/// Appends all that is left of the text.
pub fn append_all<P: Pieces>(pieces: &mut P, out: &mut Vec<u8>) -> Result<(), AllocError>
    ensures { OnOk result (out.new.items ≡ out.old.items ++ P.left pieces.old) }
{
    let mut is_more = true;
    while is_more {
        is_more = pieces.next(out)?;
    }
    Ok(())
}

/// The whole text.
pub fn gather<P: Pieces>(alloc: Global, pieces: &mut P) -> Result<Vec<u8>, AllocError>
    ensures { IfOk result (λ text. text.items ≡ P.left pieces.old) }
{
    let mut text = Vec::new(alloc);
    append_all(pieces, &mut text)?;
    Ok(text)
}

/// Writes the text piece by piece, each by way of the buffer.
pub fn write_pieces<W: Write, P: Pieces>(
    to: &mut W,
    buffer: &mut Vec<u8>,
    pieces: &mut P,
) -> Result<(), StoreFault>
    ensures all { OnOk result (Appends (W.contents to.old) (W.contents to.new) (P.left pieces.old)) }
    ensures part { OnErr result
        (AppendsPart (W.contents to.old) (W.contents to.new) (P.left pieces.old)) }
{
    let mut is_more = true;
    while is_more {
        buffer.clear();
        is_more = pieces.next(buffer)?;
        if !write_whole(to, buffer) {
            return Err(StoreFault::Failed);
        }
    }
    Ok(())
}
