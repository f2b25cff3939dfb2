//! What a file is to hold: bytes that are there, or a text that is made in pieces.
use crate::pieces::{PIECE, Pieces, append_all, write_pieces};
use crate::shelf::StoreFault;
use crate::whole::write_whole;
use std::alloc::{AllocError, Global};
use std::io::Write;

/// What a file is to hold.
pub trait Content {
    /// Makes ready to write all of it without more memory.
    fn hold(&mut self) -> Result<(), StoreFault>;

    /// Writes all of it.
    fn write_to<W: Write>(&mut self, to: &mut W) -> Result<(), StoreFault>;
}

/// Bytes that are there.
#[derive(Drop)]
pub struct Whole<'a> {
    bytes: &'a [u8],
}

impl<'a> Whole<'a> {
    pub fn new(bytes: &'a [u8]) -> Whole<'a> {
        Whole { bytes }
    }
}

impl Content for Whole<'_> {
    fn hold(&mut self) -> Result<(), StoreFault> {
        Ok(())
    }

    fn write_to<W: Write>(&mut self, to: &mut W) -> Result<(), StoreFault> {
        if write_whole(to, self.bytes) {
            Ok(())
        } else {
            Err(StoreFault::Failed)
        }
    }
}

/// A text that is made in pieces, with the buffer that they go through.
#[derive(Drop)]
pub struct InPieces<'a, P: Pieces> {
    buffer: Vec<u8>,
    is_held: bool,
    pieces: &'a mut P,
}

impl<'a, P: Pieces> InPieces<'a, P> {
    /// Takes the memory for a piece.
    pub fn new(alloc: Global, pieces: &'a mut P) -> Result<InPieces<'a, P>, AllocError> {
        Ok(InPieces {
            buffer: Vec::with_capacity(alloc, PIECE)?,
            is_held: false,
            pieces,
        })
    }
}

impl<P: Pieces> Content for InPieces<'_, P> {
    fn hold(&mut self) -> Result<(), StoreFault> {
        append_all(self.pieces, &mut self.buffer)?;
        self.is_held = true;
        Ok(())
    }

    fn write_to<W: Write>(&mut self, to: &mut W) -> Result<(), StoreFault> {
        if !self.is_held {
            return write_pieces(to, &mut self.buffer, self.pieces);
        }
        if write_whole(to, &self.buffer) {
            Ok(())
        } else {
            Err(StoreFault::Failed)
        }
    }
}
