//! A writer that cuts its bytes.
ghost use Rattle.std.specs.Prelude.{◌≡◌, ◌↔◌, ◌<◌, ◌≤◌, IsTrue, false, take, true};

use crate::NEVER;
use std::io;
use std::io::{ErrorKind, Write};

/// How many bytes a writer keeps at most.
pub const ROOM: usize = 512;

/// Takes at most a stated number of bytes a write, and fails at one stated write, counted from 0, or whenever it is
/// flushed.
///
/// A write that fails takes nothing, and the writes after it go on as if it had not been there: whoever writes on
/// after an error is seen to. It asks for no memory; if it is full, a write takes nothing.
#[derive(Drop)]
pub struct PieceWriter {
    /// How many writes there were, failed ones among them.
    pub writes: u32,
    /// What the writes took, in its first `len` bytes.
    pub kept: [u8; ROOM],
    pub len: usize,
    /// How many bytes a write takes at most.
    pub piece: usize,
    /// The write that fails.
    pub fails_at: u32,
    /// Whether a flush succeeds.
    pub flushes: bool,
    ghost fits: { len ≤ 512 },
}

impl PieceWriter {
    /// Takes at most `piece` bytes a write.
    pub fn new(piece: usize) -> PieceWriter
        ensures empty { (result.writes ≡ 0) × (result.len ≡ 0) }
        ensures piece { result.piece ≡ piece }
        ensures never { (result.fails_at ≡ NEVER) × (result.flushes ≡ true) }
    {
        PieceWriter::failing(piece, NEVER)
    }

    /// Takes as many, with an error at write `fails_at`.
    pub fn failing(piece: usize, fails_at: u32) -> PieceWriter
        ensures empty { (result.writes ≡ 0) × (result.len ≡ 0) }
        ensures piece { result.piece ≡ piece }
        ensures fails { (result.fails_at ≡ fails_at) × (result.flushes ≡ true) }
    {
        PieceWriter {
            writes: 0,
            kept: [0; ROOM],
            len: 0,
            piece,
            fails_at,
            flushes: true,
        }
    }

    /// Takes all of every write, and fails whenever it is flushed.
    pub fn without_flush() -> PieceWriter
        ensures empty { (result.writes ≡ 0) × (result.len ≡ 0) }
        ensures piece { result.piece ≡ ROOM }
        ensures fails { (result.fails_at ≡ NEVER) × (result.flushes ≡ false) }
    {
        PieceWriter {
            writes: 0,
            kept: [0; ROOM],
            len: 0,
            piece: ROOM,
            fails_at: NEVER,
            flushes: false,
        }
    }

    /// What the writes took.
    pub fn taken(&self) -> &[u8]
        ensures { result.now ≡ take self.now.len self.now.kept }
    {
        &self.kept[..self.len]
    }

    /// Whether the write that is to fail has come.
    pub fn has_failed(&self) -> bool
        ensures { IsTrue result ↔ self.now.fails_at < self.now.writes }
    {
        self.fails_at < self.writes
    }
}

impl Write for PieceWriter {
    fn write(&mut self, buf: &[u8]) -> io::Result<usize> {
        let fails = self.writes == self.fails_at;
        self.writes = self.writes.saturating_add(1);
        if fails {
            return Err(io::Error::from(ErrorKind::StorageFull));
        }
        let room = &mut self.kept[self.len..];
        let count = self.piece.min(buf.len()).min(room.len());
        room[..count].copy_from_slice(&buf[..count]);
        self.len += count;
        Ok(count)
    }

    fn flush(&mut self) -> io::Result<()> {
        if self.flushes {
            Ok(())
        } else {
            Err(io::Error::from(ErrorKind::StorageFull))
        }
    }
}
