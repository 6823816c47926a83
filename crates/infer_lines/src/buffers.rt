//! Buffers that hand on whole lines.
ghost use Rattle.std.specs.Prelude.{◌≡◌, IfOk, IfSome, None, false, true};
ghost use Rattle.std.specs.Io.Buffered.{line_writer_contents, line_writer_inner, writer_capacity, writer_contents, writer_inner};
ghost use Rattle.std.specs.Io.KnownBytes.{Keeps};
ghost use Rattle.infer_lines.specs.Halting.{halting_contents};

use crate::halting::HaltingWriter;
use std::alloc::Allocator;
use std::io::{self, BufWriter, LineWriter, Write};

/// A line with the longest path of a system fits.
const LINE_BUFFER: usize = 8192;

/// A writer that hands whole lines on to `out`, as many at once as fit into a block, or each by itself if that is 0, and
/// nothing once a write of `out` has failed.
pub fn lines_over<A: Allocator + Copy, W: Write + Drop>(
    alloc: A,
    block: usize,
    out: W,
) -> io::Result<LineWriter<BufWriter<HaltingWriter<W>, A>, A>>
    ensures inner { IfOk result (λ lines. (writer_inner (line_writer_inner lines)).writer ≡ out) }
    ensures going { IfOk result (λ lines. (writer_inner (line_writer_inner lines)).has_failed ≡ false) }
    ensures block { IfOk result (λ lines. writer_capacity (line_writer_inner lines) ≡ block) }
    ensures bytes { IfOk result (λ lines. Keeps (W.contents out)
        (line_writer_contents (writer_contents (halting_contents W.contents)) lines)) }
{
    LineWriter::with_capacity(
        alloc,
        LINE_BUFFER,
        BufWriter::with_capacity(alloc, block, HaltingWriter::new(out))?,
    )
}

/// Writes out the last bytes and gives the writer back, or none if that failed, or a write before.
pub fn writer_of<A: Allocator, W: Write + Drop>(
    has_failed: bool,
    lines: LineWriter<BufWriter<HaltingWriter<W>, A>, A>,
) -> Option<W>
    ensures bytes { IfSome result (λ out. Keeps
        (line_writer_contents (writer_contents (halting_contents W.contents)) lines) (W.contents out)) }
    ensures failed { has_failed ≡ true → result ≡ None }
{
    let mut out = lines.into_inner().ok()?.into_inner().ok()?;
    out.flush().ok()?;
    if has_failed {
        None
    } else {
        Some(out.into_inner())
    }
}
