//! A sample of each row: a short buffer that has it as its answer.
ghost use Rattle.std.specs.Prelude.{◌≡◌, ◌+◌, ◌-◌, ◌<◌, ◌≤◌, ◌⊎◌, ◌↔◌, ℕ, [], ◌++◌, IfSome, IsNone, IsSome, IsTrue, List, length, map, option_and_then, option_map, slice_get, take};
ghost use Rattle.std.specs.List.{list_all};
ghost use Rattle.infer.specs.First.{IsFirst};
ghost use Rattle.infer.specs.Row.{Accepts};
ghost use Rattle.infer.specs.Samples.{put, with_part, with_parts, zeros};
ghost use Rattle.infer.specs.Table as built_in;
ghost use Rattle.infer_more.specs.Listed.{alternative_listed, part_listed, row_listed};
ghost use Rattle.infer_more.specs.Row.{is_inside};
ghost use Rattle.infer_more.specs.Samples.{HasAnswer, HasNoSample, built_in_sample, further_sample, has_room, model, parent_sample, parts_of, prolog, sample_at, written};
ghost use Rattle.infer_formats.specs.Relation.{least_of, model_listed};
ghost use Rattle.infer_more.specs.Table.{further};
ghost use Rattle.infer_more.specs.Wider.{AcceptsAt, IsWider};
ghost use Rattle.infer.specs.declared.samples.TheConstants as built_in_samples;
ghost use Rattle.infer_more.specs.declared.samples.TheConstants.{SAMPLE_SIZE};

use crate::laws;
use crate::row_data::{
    Alternative, FurtherRow, Piece, alternatives_of, asked, pieces_of, relation_at, row_at,
};
use infer::rows::{DLL, EPUB_ARCHIVE, HTML, ROW_COUNT, XML};
use infer_formats::model::Model;

/// The most bytes that a sample has, with some to spare.
pub const SAMPLE_SIZE: usize = 32774;

/// Writes the text over `out`, from the place on.
fn put(place: usize, text: &[u8], out: &mut [u8])
    requires { place + length text.now ≤ length out.old }
    ensures { out.new ≡ put place text.now out.old }
{
    out[place..place + text.len()].copy_from_slice(text);
}

/// Writes what the piece asks for.
fn put_piece(piece: &Piece, out: &mut [u8])
    requires { IsTrue (is_inside (length out.old) (part_listed piece.now)) }
    ensures { out.new ≡ with_part (part_listed piece.now) out.old }
{
    match piece {
        Piece::At(place, text) => put(*place, asked(*text), out),
        Piece::OneOf(place, bytes) => match asked(*bytes).first() {
            Some(byte) => put(*place, &[*byte], out),
            None => put(*place, &[0], out),
        },
        Piece::Between(place, low, _) => put(*place, &[*low], out),
    }
}

/// Writes what each piece asks for.
fn put_pieces(pieces: &[Piece], out: &mut [u8])
    requires { IsTrue (list_all (is_inside (length out.old)) (map part_listed pieces.now)) }
    ensures { out.new ≡ with_parts (map part_listed pieces.now) out.old }
{
    for piece in pieces {
        put_piece(piece, out);
    }
}

/// Writes the texts of the model, each at its place.
fn put_texts(model: &Model<'_>, out: &mut [u8])
    requires few { model.now.count ≤ 5 }
    requires room { IsTrue (list_all (is_inside (length out.old))
        (parts_of (model_listed model.now))) }
    ensures { out.new ≡ with_parts (parts_of (model_listed model.now)) out.old }
{
    for placed in &model.texts[..model.count] {
        put(placed.place, placed.text.bytes(), out);
    }
}

/// What stands before the root element in a sample, so that it has this parent.
fn prolog(parent: Option<usize>) -> &'static [u8]
    ensures { result.now ≡ prolog parent }
{
    match parent {
        Some(XML) => b"<?xml?>",
        Some(HTML) => b"<!-- -->",
        _ => b"",
    }
}

/// Writes a sample of the alternative over what is there: the root element after that prolog.
fn put_model(prolog: &'static [u8], alternative: &Alternative, out: &mut [u8])
    requires least { least_of (model prolog.now (alternative_listed alternative.now)) ≤ SAMPLE_SIZE }
    requires room { IsTrue (list_all (is_inside (length out.old))
        (parts_of (model prolog.now (alternative_listed alternative.now)))) }
    ensures { out.new
        ≡ with_parts (parts_of (model prolog.now (alternative_listed alternative.now))) out.old }
{
    match alternative {
        Alternative::Bytes(bytes) => put_pieces(pieces_of(bytes), out),
        Alternative::BinaryBytes(bytes) => put_pieces(pieces_of(bytes), out),
        Alternative::Related(number) => put_texts(&relation_at(*number).model(prolog), out),
    }
}

/// The length of that sample.
fn model_length(prolog: &[u8], alternative: &Alternative) -> usize
    requires { least_of (model prolog.now (alternative_listed alternative.now)) ≤ SAMPLE_SIZE }
    ensures { result ≡ least_of (model prolog.now (alternative_listed alternative.now)) }
{
    match alternative {
        Alternative::Bytes(bytes) => bytes.least,
        Alternative::BinaryBytes(bytes) => bytes.least,
        Alternative::Related(number) => relation_at(*number).model(prolog).least,
    }
}

/// Writes the sample of built-in row `i`.
#[tactic(auto, using(crate::proofs::WrittenLemmas::none_built_in, crate::proofs::WrittenLemmas::put_front, crate::proofs::WrittenLemmas::some_built_in))]
fn built_in(i: usize, out: &mut [u8; SAMPLE_SIZE]) -> Option<usize>
    ensures none { IsNone result ↔ ((i ≡ DLL) ⊎ (i ≡ EPUB_ARCHIVE) ⊎ (ROW_COUNT ≤ i)) }
    ensures counted { result ≡ option_map length (built_in_sample i) }
    ensures written { out.new ≡ written (built_in_sample i) out.old }
    ensures fits { IfSome result (λ n. n ≤ built_in_samples.SAMPLE_SIZE) }
    ensures first { IfSome result (λ n. IsFirst (Accepts (take n out.new)) built_in.table i) }
{
    let mut bytes = [0; infer::SAMPLE_SIZE];
    let n = infer::sample(i, &mut bytes)?;
    *out = [0; SAMPLE_SIZE];
    put(0, &bytes[..n], out);
    Some(n)
}

/// Writes the sample of the parent with zeros after it, and gives its length.
#[tactic(auto, using(crate::proofs::WrittenLemmas::counted_parent, crate::proofs::WrittenLemmas::written_parent))]
fn parent(parent: Option<usize>, out: &mut [u8; SAMPLE_SIZE]) -> usize
    ensures counted { result ≡ length (parent_sample parent) }
    ensures fits { result ≤ built_in_samples.SAMPLE_SIZE }
    ensures written { out.new ≡ parent_sample parent ++ zeros (SAMPLE_SIZE - result) }
{
    *out = [0; SAMPLE_SIZE];
    match parent {
        Some(row) => built_in(row, out).unwrap_or(0),
        None => 0,
    }
}

/// Writes the sample of a further row.
fn of_row(row: &FurtherRow, out: &mut [u8; SAMPLE_SIZE]) -> Option<usize>
    requires { IsTrue (has_room (row_listed row.now)) }
    ensures counted { result ≡ option_map length (further_sample (row_listed row.now)) }
    ensures written { out.new ≡ written (further_sample (row_listed row.now)) out.old }
    ensures fits { IfSome result (λ n. n ≤ SAMPLE_SIZE) }
    ensures some { IsSome result }
{
    let alternative = alternatives_of(row).first()?;
    let prolog = prolog(row.parent);
    let n = parent(row.parent, out).max(model_length(prolog, alternative));
    put_model(prolog, alternative, &mut out[..n]);
    Some(n)
}

/// Writes the sample of further row `i`, counted among these.
fn further(i: usize, out: &mut [u8; SAMPLE_SIZE]) -> Option<usize>
    ensures none { IsNone result ↔ (length further ≤ i) }
    ensures counted { result ≡ option_map length
        (option_and_then further_sample (slice_get further i)) }
    ensures written { out.new ≡ written (option_and_then further_sample
        (slice_get further i)) out.old }
    ensures fits { IfSome result (λ n. n ≤ SAMPLE_SIZE) }
    ensures answers { IfSome result (λ n. IsWider (take n out.new) (Some (ROW_COUNT + i))) }
{
    laws::reach();
    laws::room();
    of_row(row_at(i)?, out)
}

/// Writes the sample of row `i`, built-in or further, to the front of `out`, and zeros after it, and gives its length.
///
/// A built-in row is the first that accepts its sample, and a further row is the wider answer of its own. Rows [`DLL`]
/// and [`EPUB_ARCHIVE`] are first for no buffer: for these, and where there is no row, the answer is `None`, and `out`
/// stays as it was.
#[tactic(auto, using(crate::proofs::WrittenLemmas::none_above, crate::proofs::WrittenLemmas::none_below))]
pub fn sample(i: usize, out: &mut [u8; SAMPLE_SIZE]) -> Option<usize>
    ensures none { IsNone result ↔ HasNoSample i }
    ensures counted { result ≡ option_map length (sample_at i) }
    ensures written { out.new ≡ written (sample_at i) out.old }
    ensures fits { IfSome result (λ n. n ≤ SAMPLE_SIZE) }
    ensures answers { IfSome result (λ n. HasAnswer i (take n out.new)) }
{
    if i < ROW_COUNT {
        return built_in(i, out);
    }
    further(i - ROW_COUNT, out)
}
