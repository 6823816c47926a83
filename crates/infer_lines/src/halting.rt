//! A writer that ends with its first failure.
ghost use Rattle.std.specs.Prelude.{◌≡◌, ◌↔◌, IsTrue, OnErr, false, true};
ghost use Rattle.std.specs.Io.KnownBytes.{Keeps, WriteAppends};
ghost use Rattle.std.specs.Io.{WritesAtMost};
ghost use Rattle.infer_lines.specs.Halting.{HasFailed};

use std::io::{self, ErrorKind, Write};

/// A writer that hands nothing on to `writer` once a write or a flush of it has failed. The buffers above try again what
/// they still hold, and so would go on in the middle of a line.
#[derive(Drop)]
pub struct HaltingWriter<W: Write + Drop> {
    writer: W,
    has_failed: bool,
}

impl<W: Write + Drop> HaltingWriter<W> {
    /// Hands on to `writer`, of which no write has failed.
    pub fn new(writer: W) -> HaltingWriter<W>
        ensures writer { result.writer ≡ writer }
        ensures going { result.has_failed ≡ false }
    {
        HaltingWriter {
            writer,
            has_failed: false,
        }
    }

    /// The writer.
    pub fn into_inner(self) -> W
        ensures { result ≡ self.writer }
    {
        self.writer
    }
}

impl<W: Write + Drop> Write for HaltingWriter<W> {
    ghost contents = { λ w. W.contents w.writer };

    fn write(&mut self, buf: &[u8]) -> io::Result<usize>
        ensures bound { WritesAtMost result buf.now }
        ensures bytes { WriteAppends (W.contents self.old.writer) (W.contents self.new.writer) result buf.now }
        ensures halted { self.old.has_failed ≡ true → self.new ≡ self.old }
        ensures halts { self.old.has_failed ≡ false → (IsTrue self.new.has_failed ↔ HasFailed buf.now result) }
    {
        if self.has_failed {
            return Err(halted());
        }
        let done = self.writer.write(buf);
        self.has_failed = has_failed(&done, buf);
        done
    }

    fn flush(&mut self) -> io::Result<()>
        ensures bytes { Keeps (W.contents self.old.writer) (W.contents self.new.writer) }
        ensures halted { self.old.has_failed ≡ true → self.new ≡ self.old }
        ensures failed { OnErr result (self.new.has_failed ≡ true) }
    {
        if !self.has_failed {
            let done = self.writer.flush();
            self.has_failed = done.is_err();
            return done;
        }
        Err(halted())
    }
}

/// Whether a write of these bytes failed: it took none of them, and was not interrupted.
fn has_failed(done: &io::Result<usize>, buf: &[u8]) -> bool
    ensures { IsTrue result ↔ HasFailed buf.now done.now }
{
    match done {
        Ok(count) => *count == 0 && !buf.is_empty(),
        Err(error) => error.kind() != ErrorKind::Interrupted,
    }
}

/// What is said of a write that was not tried.
fn halted() -> io::Error {
    io::Error::from(ErrorKind::BrokenPipe)
}
