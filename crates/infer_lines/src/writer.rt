//! A writer that remembers whether it has failed, and the two of a run.
ghost use Rattle.std.specs.Prelude.{◌≡◌, IfSome, IsTrue, OnErr, OnOk, false};
ghost use Rattle.std.specs.Bool.{OnFalse};
ghost use Rattle.std.specs.Io.KnownBytes.{Appends, Keeps};
ghost use Rattle.infer_lines.specs.Writer.{IsLater, has_failed, inner};

use std::fmt::Display;
use std::io::{self, Write};

/// A writer that remembers whether a write or a flush of it has failed.
///
/// No other code can set that, so if it is set there was a failure.
#[derive(Drop)]
pub struct WatchedWriter<'a, W: Write> {
    writer: &'a mut W,
    has_failed: bool,
}

impl<'a, W: Write> WatchedWriter<'a, W> {
    /// Watches `writer`, of which no write has failed.
    pub fn new(writer: &'a mut W) -> WatchedWriter<'a, W>
        ensures writer { inner result ≡ writer.old }
        ensures same { result.writer.ghost_name ≡ writer.entry.ghost_name }
        ensures failed { has_failed result ≡ false }
    {
        WatchedWriter {
            writer,
            has_failed: false,
        }
    }

    /// Writes a text, as `write!` and `writeln!` call it.
    pub fn write_fmt<D: Display + Drop>(&mut self, text: D)
        ensures bytes { OnFalse (has_failed self.new) (IfSome (D.output text)
            (Appends (W.contents (inner self.old)) (W.contents (inner self.new)))) }
        ensures later { IsLater self.old self.new }
    {
        let done = self.writer.write_fmt(text);
        self.note(done);
    }

    /// Writes bytes.
    pub fn write_all(&mut self, bytes: &[u8])
        ensures bytes { OnFalse (has_failed self.new)
            (Appends (W.contents (inner self.old)) (W.contents (inner self.new)) bytes.now) }
        ensures later { IsLater self.old self.new }
    {
        let done = self.writer.write_all(bytes);
        self.note(done);
    }

    /// Writes out what a buffer holds.
    pub fn flush(&mut self)
        ensures bytes { Keeps (W.contents (inner self.old)) (W.contents (inner self.new)) }
        ensures later { IsLater self.old self.new }
    {
        let done = self.writer.flush();
        self.note(done);
    }

    /// Remembers a failure, and nothing else.
    fn note(&mut self, done: io::Result<()>)
        ensures failed { OnErr done (IsTrue (has_failed self.new)) }
        ensures kept { OnOk done (has_failed self.new ≡ has_failed self.old) }
        ensures writer { inner self.new ≡ inner self.old }
        ensures same { self.new.writer.ghost_name ≡ self.old.writer.ghost_name }
    {
        if done.is_err() {
            self.has_failed = true;
        }
    }

    /// Whether a write or a flush has failed.
    pub fn has_failed(&self) -> bool
        ensures { result ≡ has_failed self.now }
    {
        self.has_failed
    }
}

/// Where a run writes: its lines to `out`, and what it reports of faults to `err`.
#[derive(Drop)]
pub struct Output<'a, W: Write, E: Write> {
    pub out: WatchedWriter<'a, W>,
    pub err: WatchedWriter<'a, E>,
}
