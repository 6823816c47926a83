//! A sample of each built-in row: a short buffer that has it as its first.
ghost use Rattle.std.specs.Prelude.{◌≡◌, ◌<◌, ◌≤◌, ◌⊎◌, ◌↔◌, IfNone, IfSome, IsNone, IsTrue, length, map, take};
ghost use Rattle.std.specs.List.{HoldsAt, list_all};
ghost use Rattle.infer.specs.First.{IsFirst};
ghost use Rattle.infer.specs.Row.{Accepts};
ghost use Rattle.infer.specs.Listed.{is_short, sample_at};
ghost use Rattle.infer.specs.Samples.{HoldsSample, put, sample_of, zeros};
ghost use Rattle.infer.specs.Table.{table};
ghost use Rattle.infer.specs.declared.samples.TheConstants.{SAMPLE_SIZE};

use crate::laws;
use crate::table::rows::{DLL, EPUB_ARCHIVE, ROW_COUNT};

/// The length of the longest sample.
pub const SAMPLE_SIZE: usize = 640;

macro_rules! spans {
    ($($start:literal $count:literal),*) => {
        [$(infer_evidence::Span {
            start: $start,
            count: $count,
        }),*]
    };
}

mod generated;

use generated::{SPANS, TEXT};
use infer_evidence::Span;

/// The text of all samples, and where that of each row stands.
#[tactic(auto, unfolding(crate::specs::Table::table))]
fn samples() -> (&'static [u8], &'static [Span; ROW_COUNT])
    ensures is { map (sample_at result.0.now) result.1.now ≡ map (λ r. sample_of r.signature) table }
    ensures short { IsTrue (list_all is_short result.1.now) }
{
    (TEXT, &SPANS)
}

/// The sample of row `i`.
fn of_row(i: usize) -> &'static [u8]
    requires { i < ROW_COUNT }
    ensures is { HoldsAt (λ r. result.now ≡ sample_of r.signature) table i }
    ensures fits { length result.now ≤ SAMPLE_SIZE }
{
    let (text, spans) = samples();
    spans[i].of(text)
}

/// Writes the text over zeros.
fn write(text: &[u8], out: &mut [u8; SAMPLE_SIZE])
    requires { length text.now ≤ SAMPLE_SIZE }
    ensures { out.new ≡ put 0 text.now (zeros SAMPLE_SIZE) }
{
    *out = [0; SAMPLE_SIZE];
    out[..text.len()].copy_from_slice(text);
}

/// Writes the sample of the built-in row `i` to the front of `out`, and zeros after it, and gives its length.
///
/// Row `i` is the first that accepts the sample. Rows [`DLL`] and [`EPUB_ARCHIVE`] are first for no buffer: for these,
/// and from [`ROW_COUNT`] on, the answer is `None`, and `out` stays as it was.
pub fn sample(i: usize, out: &mut [u8; SAMPLE_SIZE]) -> Option<usize>
    ensures none { IsNone result ↔ ((i ≡ DLL) ⊎ (i ≡ EPUB_ARCHIVE) ⊎ (ROW_COUNT ≤ i)) }
    ensures unchanged { IfNone result (out.new ≡ out.old) }
    ensures fits { IfSome result (λ n. n ≤ SAMPLE_SIZE) }
    ensures holds { IfSome result (λ n. HoldsAt (HoldsSample n out.new) table i) }
    ensures first { IfSome result (λ n. IsFirst (Accepts (take n out.new)) table i) }
{
    if i == DLL || i == EPUB_ARCHIVE || i >= ROW_COUNT {
        return None;
    }
    // Tells that row `i` is the first that accepts the sample.
    laws::reach();
    let text = of_row(i);
    write(text, out);
    Some(text.len())
}
