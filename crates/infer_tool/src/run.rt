//! What the words of a run ask for.
ghost use Rattle.std.specs.Prelude.{◌≡◌, ◌≢◌, ◌↔◌, IsTrue, None, codes, map, string_bytes};
ghost use Rattle.infer.specs.Watched.{fault_of};
ghost use Rattle.infer_lines.specs.Said.{RefusesBy, Says};
ghost use Rattle.infer_lines.specs.Writer.{IsAfter};
ghost use Rattle.infer_tool.specs.Reader.{ReportsReader};
ghost use Rattle.infer_tool.specs.Report.{ReportsInput};
ghost use Rattle.infer_tool.specs.Run.{AsksForInput, NamesNoFile, ReportsEach, ReportsFronts, Runs, WritesAsked};
ghost use Rattle.infer_tool.specs.Words.{Asks};

use crate::report::{report_watched, run_path_within, run_reader_within};
use crate::sample::run_sample;
use infer::{FRONT, Watched};
use infer_lines::{Outcome, Output, WatchedWriter, limit_of};
use infer_sniff::label;
use std::alloc::Allocator;
use std::io::{Read, Write};
use std::rt::Files;

/// What is said of words that are wrong.
pub const USAGE: &[u8] = b"usage: infer_tool [--front N] [PATH ..] or --sample EXT\n";

const LIMITS: &[u8] = b"front must be 1 to 65536\n";

/// Reports the type of each file that a word names by its path, in the order of the words, also after a fault or a
/// failed write, and without words that of `input`, under the name `-`.
///
/// Only the first word can be an option. After `--front` stand the number of bytes to look at, from 1 to 65536 in
/// place of 8192, and then paths, or none for `input`. After `--sample` stands one extension, and the sample of the
/// first type with it is written instead. If these words are wrong, `err` is informed, nothing is read and nothing is
/// written to `out`. The outcome is the worst one, and `Failed` if a write to `out` failed.
pub fn run<R: Files, A: Allocator + Copy, I: Read + Drop, W: Write, E: Write>(
    rt: &R,
    alloc: A,
    words: &[String],
    input: I,
    out: &mut W,
    err: &mut E,
) -> Outcome
    ensures said { Runs (map string_bytes words.now)
        (λ n Lost. ReportsInput n (I.remaining input) (codes "-"))
        (λ Said. result ≢ Outcome.Failed → Said result
        (W.contents out.old) (W.contents out.new) (E.contents err.old) (E.contents err.new))
        (λ refusal. (result ≡ Outcome.Failed) × (out.new ≡ out.old)) }
    ensures silent { result ≢ Outcome.Failed → err.new ≡ err.old }
{
    let mut output = Output {
        out: WatchedWriter::new(out),
        err: WatchedWriter::new(err),
    };
    run_watched(rt, alloc, words, &mut Watched::new(input), &mut output)
}

/// [`run`] over a watched input and through watched writers: what is reported stands also once one of them has failed, and
/// a fault of the input is that of a read.
pub fn run_watched<R: Files, A: Allocator + Copy, I: Read, W: Write, E: Write>(
    rt: &R,
    alloc: A,
    words: &[String],
    input: &mut Watched<I>,
    output: &mut Output<'_, W, E>,
) -> Outcome
    requires { fault_of input.old ≡ None }
    ensures said { Runs (map string_bytes words.now)
        (λ n Lost. ReportsReader I.remaining n Lost input.old input.new (codes "-"))
        (Says W.contents E.contents output.old output.new result)
        (RefusesBy E.contents output.old output.new result) }
    ensures unread { ¬ AsksForInput (map string_bytes words.now) → input.new ≡ input.old }
    ensures later { IsAfter output.old output.new result }
{
    if words.is_empty() {
        // No read follows one after which the verdict is final.
        return report_watched("-", label(alloc, input), output);
    }
    if asks(words, "--sample") {
        return run_asked(words, output);
    }
    if asks(words, "--front") {
        return run_limited(rt, alloc, words, input, output);
    }
    run_paths(rt, alloc, words, FRONT, output)
}

/// Whether the first word is this option.
pub fn asks(words: &[String], option: &str) -> bool
    ensures { IsTrue result ↔ Asks option.now (map string_bytes words.now) }
{
    match words.first() {
        Some(word) => is_text(word.as_str(), option),
        None => false,
    }
}

fn is_text(word: &str, text: &str) -> bool
    ensures { IsTrue result ↔ (word.now ≡ text.now) }
{
    word == text
}

/// Runs after the first word, which asks for a sample.
fn run_asked<W: Write, E: Write>(words: &[String], output: &mut Output<'_, W, E>) -> Outcome
    ensures said { WritesAsked (map string_bytes words.now)
        (Says W.contents E.contents output.old output.new result)
        (RefusesBy E.contents output.old output.new result) }
    ensures later { IsAfter output.old output.new result }
{
    if words.len() != 2 {
        output.err.write_all(USAGE);
        return Outcome::Failed;
    }
    run_sample(words[1].as_str(), output)
}

/// Runs after the first word, which chooses the limit.
fn run_limited<R: Files, A: Allocator + Copy, I: Read, W: Write, E: Write>(
    rt: &R,
    alloc: A,
    words: &[String],
    input: &mut Watched<I>,
    output: &mut Output<'_, W, E>,
) -> Outcome
    requires { fault_of input.old ≡ None }
    ensures said { ReportsFronts (map string_bytes words.now)
        (λ n Lost. ReportsReader I.remaining n Lost input.old input.new (codes "-"))
        (Says W.contents E.contents output.old output.new result)
        (RefusesBy E.contents output.old output.new result) }
    ensures unread { ¬ NamesNoFile (map string_bytes words.now) → input.new ≡ input.old }
    ensures later { IsAfter output.old output.new result }
{
    if words.len() < 2 {
        output.err.write_all(USAGE);
        return Outcome::Failed;
    }
    let Some(n) = limit_of(words[1].as_str()) else {
        output.err.write_all(LIMITS);
        return Outcome::Failed;
    };
    if words.len() == 2 {
        return run_reader_within(alloc, "-", input, n, output);
    }
    run_paths(rt, alloc, &words[2..], n, output)
}

/// Reports each file, one after the other.
fn run_paths<R: Files, A: Allocator + Copy, W: Write, E: Write>(
    rt: &R,
    alloc: A,
    words: &[String],
    n: usize,
    output: &mut Output<'_, W, E>,
) -> Outcome
    ensures said { Says W.contents E.contents output.old output.new result
        (ReportsEach n (map string_bytes words.now)) }
    ensures later { IsAfter output.old output.new result }
{
    let mut room = Vec::new(alloc);
    let mut outcome = Outcome::Known;
    for word in words {
        outcome = outcome.worse(run_path_within(rt, &mut room, word.as_str(), n, output));
    }
    outcome.failed_if(output.out.has_failed())
}
