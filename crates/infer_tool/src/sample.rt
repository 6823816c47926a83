//! The sample of a type, by its extension.
ghost use Rattle.std.specs.Prelude.{◌≡◌, ◌↔◌, ◌<◌, ℕ, IsTrue};
ghost use Rattle.std.specs.Bool.{OnFalse, OnTrue};
ghost use Rattle.std.specs.List.{HoldsAt};
ghost use Rattle.infer.specs.First.{IsFirstOf};
ghost use Rattle.infer.specs.Questions.{HasExtension};
ghost use Rattle.infer.specs.Table.{table};
ghost use Rattle.infer.specs.Triple.{triple_of};
ghost use Rattle.infer_tool.specs.Line.{no_sample_line};
ghost use Rattle.infer_lines.specs.Said.{RefusesBy, Says};
ghost use Rattle.infer_tool.specs.Sample.{HasSample, WritesSample};
ghost use Rattle.infer_lines.specs.Writer.{IsAfter};

use infer::rows::{ROW_COUNT, numbers};
use infer::{SAMPLE_SIZE, Type};
use infer_lines::{Outcome, Output};
use std::io::Write;

/// Writes the sample of the first row with this extension, and nothing after it. If there is no such row, or it has no
/// sample, that is reported, and nothing else is written.
pub fn run_sample<W: Write, E: Write>(extension: &str, output: &mut Output<'_, W, E>) -> Outcome
    ensures sample { (i : ℕ) → HasSample extension.now i
        → Says W.contents E.contents output.old output.new result (WritesSample i) }
    ensures none { ((i : ℕ) → ¬ HasSample extension.now i)
        → RefusesBy E.contents output.old output.new result (no_sample_line extension.now) }
    ensures later { IsAfter output.old output.new result }
{
    numbers();
    let mut buf = [0u8; SAMPLE_SIZE];
    let Some(row) = first_with(extension) else {
        return refuse(extension, output);
    };
    match infer::sample(row, &mut buf) {
        Some(count) => {
            output.out.write_all(&buf[..count]);
            Outcome::Known.failed_if(output.out.has_failed())
        }
        None => refuse(extension, output),
    }
}

/// Tells that there is no sample.
fn refuse<W: Write, E: Write>(extension: &str, output: &mut Output<'_, W, E>) -> Outcome
    ensures told { RefusesBy E.contents output.old output.new result (no_sample_line extension.now) }
    ensures later { IsAfter output.old output.new result }
{
    writeln!(output.err, "{extension}: no sample");
    Outcome::Failed
}

/// The number of the first row with this extension.
fn first_with(extension: &str) -> Option<usize>
    ensures { IsFirstOf (HasExtension extension.now) table result }
{
    numbers();
    let has_it = |i: &usize| -> bool
        requires { i.now < ROW_COUNT }
        ensures yes { OnTrue result (HoldsAt (HasExtension extension.entry.now) table i.now) }
        ensures no { OnFalse result (HoldsAt
            (λ r. ¬ HasExtension extension.entry.now r) table i.now) }
    { has_extension(*i, extension) };
    (0..ROW_COUNT).find(has_it)
}

fn has_extension(i: usize, extension: &str) -> bool
    requires { i < ROW_COUNT }
    ensures yes { OnTrue result (HoldsAt (HasExtension extension.now) table i) }
    ensures no { OnFalse result (HoldsAt (λ r. ¬ HasExtension extension.now r) table i) }
{
    match infer::row(i) {
        Some(found) => is_extension_of(&found, extension),
        None => false,
    }
}

fn is_extension_of(found: &Type, extension: &str) -> bool
    ensures { IsTrue result ↔ ((triple_of found.now).extension ≡ extension.now) }
{
    found.extension() == extension
}
