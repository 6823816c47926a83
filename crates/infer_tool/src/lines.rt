//! Runs whose writes go through buffers.
ghost use Rattle.std.specs.Prelude.{◌≡◌, IfOk, None, OnErr, codes, map, string_bytes};
ghost use Rattle.infer.specs.Watched.{fault_of};
ghost use Rattle.infer_tool.specs.Reader.{ReportsReader};
ghost use Rattle.infer_lines.specs.Said.{Refuses, SaysThrough};
ghost use Rattle.infer_tool.specs.Run.{Runs};

use crate::run::run_watched;
use infer::Watched;
use infer_lines::{Outcome, Output, WatchedWriter, lines_over, writer_of};
use std::alloc::Allocator;
use std::io::{self, Read, Write};
use std::rt::Files;

/// Runs through buffers for lines. A line of `err` costs one system call, and so do the lines of `out` that fit into a
/// block, or each of them if `block` is 0. It gives the writers back, and none in the place of one that has failed, to which
/// nothing is written from then on.
///
/// An error is want of memory for the buffers; then nothing was read or written.
pub fn run_lines<R: Files, A: Allocator + Copy, I: Read, W: Write + Drop, E: Write + Drop>(
    rt: &R,
    alloc: A,
    words: &[String],
    input: &mut Watched<I>,
    block: usize,
    out: W,
    err: E,
) -> io::Result<(Outcome, (Option<W>, Option<E>))>
    requires { fault_of input.old ≡ None }
    ensures refused { OnErr result (input.new ≡ input.old) }
    ensures said { IfOk result (λ done. Runs (map string_bytes words.now)
        (λ n Lost. ReportsReader I.remaining n Lost input.old input.new (codes "-"))
        (SaysThrough W.contents E.contents out err done)
        (λ refusal. SaysThrough W.contents E.contents out err done (Refuses refusal))) }
{
    let mut lines = lines_over(alloc, block, out)?;
    let mut faults = lines_over(alloc, 0, err)?;
    let mut output = Output {
        out: WatchedWriter::new(&mut lines),
        err: WatchedWriter::new(&mut faults),
    };
    let outcome = run_watched(rt, alloc, words, input, &mut output);
    let (out_failed, err_failed) = (output.out.has_failed(), output.err.has_failed());
    let writers = (writer_of(out_failed, lines), writer_of(err_failed, faults));
    Ok((outcome.failed_if(writers.0.is_none()), writers))
}
