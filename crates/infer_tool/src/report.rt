//! One line for one input.
ghost use Rattle.std.specs.Prelude.{◌≡◌, ◌≢◌, ◌≤◌, IfOk, None, OnErr};
ghost use Rattle.infer.specs.Watched.{fault_of};
ghost use Rattle.infer_lines.specs.Said.{Says};
ghost use Rattle.infer_lines.specs.Writer.{IsAfter};
ghost use Rattle.infer_tool.specs.Reader.{LosesFront, ReportsOpened, ReportsReader};
ghost use Rattle.infer_tool.specs.Report.{Reports, ReportsInput, told};

use infer::{FRONT, Fault, Infer, Type, Watched, laws};
use infer_lines::{Outcome, Output, WatchedWriter, text_of};
use infer_sniff::label;
use std::alloc::Allocator;
use std::fs::File;
use std::io::{self, Read, Write};
use std::rt::Files;

/// Writes the line of an answer to `out`, or that of a fault to `err`. It is `Failed` exactly if the answer is a
/// fault or a write to `out` failed.
pub fn report<W: Write, E: Write>(
    name: &str,
    answer: Result<Option<Type>, Fault>,
    out: &mut W,
    err: &mut E,
) -> Outcome
    ensures line { result ≢ Outcome.Failed → Reports name.now (told answer) result
        (W.contents out.old) (W.contents out.new) (E.contents err.old) (E.contents err.new) }
    ensures silent { result ≢ Outcome.Failed → err.new ≡ err.old }
    ensures fault { OnErr answer ((result ≡ Outcome.Failed) × (out.new ≡ out.old)) }
{
    let mut output = Output {
        out: WatchedWriter::new(out),
        err: WatchedWriter::new(err),
    };
    report_watched(name, answer, &mut output)
}

/// [`report`] through watched writers. A fault is reported also if a write of lines has failed.
pub fn report_watched<W: Write, E: Write>(
    name: &str,
    answer: Result<Option<Type>, Fault>,
    output: &mut Output<'_, W, E>,
) -> Outcome
    ensures said { Says W.contents E.contents output.old output.new result
        (Reports name.now (told answer)) }
    ensures later { IsAfter output.old output.new result }
    ensures fault { OnErr answer (output.new.out ≡ output.old.out) }
{
    let outcome = match answer {
        Ok(Some(found)) => {
            let (mime_type, extension) = (found.mime_type(), found.extension());
            writeln!(output.out, "{name}: {mime_type} {extension}");
            Outcome::Known
        }
        Ok(None) => {
            writeln!(output.out, "{name}: unknown");
            Outcome::Unknown
        }
        Err(fault) => {
            let text = text_of(fault);
            writeln!(output.err, "{name}: {text}");
            Outcome::Failed
        }
    };
    outcome.failed_if(output.out.has_failed())
}

/// Reads at most 8192 bytes, and reports what they are. No read follows one after which the verdict is final.
pub fn run_reader<A: Allocator, R: Read + Drop, W: Write, E: Write>(
    alloc: A,
    name: &str,
    reader: R,
    out: &mut W,
    err: &mut E,
) -> Outcome
    ensures line { result ≢ Outcome.Failed → ReportsInput FRONT (R.remaining reader) name.now result
        (W.contents out.old) (W.contents out.new) (E.contents err.old) (E.contents err.new) }
    ensures silent { result ≢ Outcome.Failed → err.new ≡ err.old }
{
    let mut output = Output {
        out: WatchedWriter::new(out),
        err: WatchedWriter::new(err),
    };
    let answer = label(alloc, &mut Watched::new(reader));
    report_watched(name, answer, &mut output)
}

/// Reads until it has `n` bytes or the input ends, and reports what they are.
pub fn run_reader_within<A: Allocator, R: Read, W: Write, E: Write>(
    alloc: A,
    name: &str,
    reader: &mut Watched<R>,
    n: usize,
    output: &mut Output<'_, W, E>,
) -> Outcome
    requires fault { fault_of reader.old ≡ None }
    requires least { 1 ≤ n }
    requires most { n ≤ 65536 }
    ensures said { Says W.contents E.contents output.old output.new result
        (ReportsReader R.remaining n (LosesFront n) reader.old reader.new name.now) }
    ensures later { IsAfter output.old output.new result }
{
    let infer = Infer::new();
    laws::built_in(&infer);
    report_watched(name, infer.get_from_reader_within(alloc, reader, n), output)
}

/// Reads at most 8192 bytes of a file, and reports what they are, under its path.
pub fn run_path<R: Files, A: Allocator, W: Write, E: Write>(
    rt: &R,
    alloc: A,
    path: &str,
    out: &mut W,
    err: &mut E,
) -> Outcome
    ensures line { result ≢ Outcome.Failed → ReportsInput FRONT None path.now result
        (W.contents out.old) (W.contents out.new) (E.contents err.old) (E.contents err.new) }
    ensures silent { result ≢ Outcome.Failed → err.new ≡ err.old }
{
    let mut output = Output {
        out: WatchedWriter::new(out),
        err: WatchedWriter::new(err),
    };
    run_path_within(rt, &mut Vec::new(alloc), path, FRONT, &mut output)
}

/// Reads at most `n` bytes of a file, and reports what they are, under its path. All of it but the opening is
/// [`run_opened`].
pub fn run_path_within<R: Files, A: Allocator, W: Write, E: Write>(
    rt: &R,
    room: &mut Vec<u8, A>,
    path: &str,
    n: usize,
    output: &mut Output<'_, W, E>,
) -> Outcome
    ensures said { Says W.contents E.contents output.old output.new result
        (ReportsInput n None path.now) }
    ensures later { IsAfter output.old output.new result }
{
    let mut opened = File::open(rt, path).map(Watched::new);
    run_opened(room, path, &mut opened, n, output)
}

/// Reads at most `n` bytes of what is opened already, or takes the error that opening gave, and reports it under this
/// name.
///
/// They are read into `room`, which is made `n` bytes long if it is shorter, so that one room serves many files. Before a
/// fault is reported, the writer of lines is flushed, so that lines and faults come in their order if both writers write to
/// the same file.
pub fn run_opened<A: Allocator, R: Read, W: Write, E: Write>(
    room: &mut Vec<u8, A>,
    name: &str,
    opened: &mut io::Result<Watched<R>>,
    n: usize,
    output: &mut Output<'_, W, E>,
) -> Outcome
    requires { IfOk opened.old (λ r. fault_of r ≡ None) }
    ensures said { Says W.contents E.contents output.old output.new result
        (ReportsOpened R.remaining n opened.old opened.new name.now) }
    ensures later { IsAfter output.old output.new result }
{
    let answer = infer::get_from_opened(room, opened, n);
    if answer.is_err() {
        output.out.flush();
    }
    report_watched(name, answer, output)
}
