//! A reader that cuts its bytes.
ghost use Rattle.std.specs.Prelude.{◌≡◌, ◌≤◌, Some, max};

use crate::NEVER;
use std::io;
use std::io::{ErrorKind, Read};

/// Gives at most a stated number of bytes a read, and fails at one stated read, counted from 0.
///
/// A read that fails takes nothing, and the reads after it go on as if it had not been there: whoever reads on after
/// an error gets bytes.
#[derive(Drop)]
pub struct PieceReader<'a> {
    /// What no read has taken.
    pub rest: &'a [u8],
    /// How many reads there were, failed ones among them.
    pub reads: u32,
    /// How many bytes a read gives at most.
    pub piece: usize,
    /// The read that fails, and with which error.
    pub fails_at: u32,
    pub kind: ErrorKind,
    ghost some: { 1 ≤ piece },
}

impl<'a> PieceReader<'a> {
    /// Gives at most `piece` bytes a read, or one if that is 0: a read that gives none is the end.
    pub fn new(bytes: &'a [u8], piece: usize) -> PieceReader<'a>
        ensures rest { result.rest.now ≡ bytes.now }
        ensures reads { result.reads ≡ 0 }
        ensures piece { result.piece ≡ max piece 1 }
        ensures never { result.fails_at ≡ NEVER }
    {
        PieceReader::failing(bytes, piece, NEVER, ErrorKind::Other)
    }

    /// Gives as many, with an error of the kind `kind` at read `fails_at`.
    pub fn failing(bytes: &'a [u8], piece: usize, fails_at: u32, kind: ErrorKind) -> PieceReader<'a>
        ensures rest { result.rest.now ≡ bytes.now }
        ensures reads { result.reads ≡ 0 }
        ensures piece { result.piece ≡ max piece 1 }
        ensures fails { (result.fails_at ≡ fails_at) × (result.kind ≡ kind) }
    {
        PieceReader {
            rest: bytes,
            reads: 0,
            piece: piece.max(1),
            fails_at,
            kind,
        }
    }
}

impl Read for PieceReader<'_> {
    ghost remaining = { λ r. Some r.rest.now };

    fn read(&mut self, buf: &mut [u8]) -> io::Result<usize> {
        let fails = self.reads == self.fails_at;
        self.reads = self.reads.saturating_add(1);
        if fails {
            return Err(io::Error::from(self.kind));
        }
        let count = self.piece.min(self.rest.len()).min(buf.len());
        buf[..count].copy_from_slice(&self.rest[..count]);
        self.rest = &self.rest[count..];
        Ok(count)
    }
}
