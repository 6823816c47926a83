//! The further rows as data. The prover reads numbers and texts at once, but references one by one: so the rows, their
//! alternatives and the pieces of these are lists of numbers, their texts are three in all, and relations alone, which
//! hold references, stand in short lists.
ghost use Rattle.std.specs.Prelude.{◌≡◌, ◌+◌, IfSome, IsAscii, IsTrue, map, option_map, slice_get};
ghost use Rattle.infer_formats.specs.Relation.{relation_listed};
ghost use Rattle.infer_more.specs.Listed.{alternatives_of, asked, ended_of, pieces_of, relation_at, relations, row_listed};
ghost use Rattle.infer_evidence.specs.Spans.{stretch};
ghost use Rattle.infer_more.specs.Ended.{ended_listed, ended_shown};
ghost use Rattle.infer_more.specs.Row.{is_row_closed};
ghost use Rattle.infer_more.specs.Table.{further};

use infer::MatcherType;
use infer_evidence::{Span, text_at};
use infer_formats::relation::Relation;

/// The texts of a row, each with a zero after it, as C wants them.
#[derive(Clone, Copy)]
pub struct EndedTexts {
    pub mime_type: &'static str,
    pub extension: &'static str,
}

/// What a signature asks of places. What it asks for there is a span of what all rows ask for.
pub(crate) enum Piece {
    /// At the place one of these bytes.
    OneOf(usize, Span),
    /// These bytes, from the place on.
    At(usize, Span),
    /// At the place a byte from the first to the second.
    Between(usize, u8, u8),
}

/// A least length, and where the pieces stand among those of all rows.
pub(crate) struct Bytes {
    pub least: usize,
    pub pieces: Span,
}

/// One of the alternatives of a signature: bytes at fixed places, these and a byte of binary data, or the relation of that
/// number.
pub(crate) enum Alternative {
    Bytes(Bytes),
    BinaryBytes(Bytes),
    Related(usize),
}

/// A further row: what it shows, the number of its parent among the built-in rows if it has one, and where its alternatives
/// stand among those of all rows. A row without an alternative accepts nothing.
pub(crate) struct FurtherRow {
    pub matcher_type: MatcherType,
    pub mime_type: Span,
    pub extension: Span,
    pub parent: Option<usize>,
    pub signature: Span,
}

macro_rules! span {
    ($start:literal $count:literal) => {
        infer_evidence::Span {
            start: $start,
            count: $count,
        }
    };
}

macro_rules! piece {
    (At $place:literal $start:literal $count:literal) => {
        At($place, span!($start $count))
    };
    (OneOf $place:literal $start:literal $count:literal) => {
        OneOf($place, span!($start $count))
    };
    (Between $place:literal $low:literal $high:literal) => {
        Between($place, $low, $high)
    };
}

macro_rules! alternative {
    (Related $number:literal) => {
        Alternative::Related($number)
    };
    ($kind:ident $least:literal $start:literal $count:literal) => {
        Alternative::$kind(Bytes {
            least: $least,
            pieces: span!($start $count),
        })
    };
}

macro_rules! parent {
    () => {
        None
    };
    ($parent:ident) => {
        Some($parent)
    };
}

// A line each.
macro_rules! pieces {
    ($($kind:ident $place:literal $first:literal $second:literal;)*) => {
        [$(piece!($kind $place $first $second)),*]
    };
}

macro_rules! alternatives {
    ($($kind:ident $($number:literal)*;)*) => {
        [$(alternative!($kind $($number)*)),*]
    };
}

macro_rules! rows {
    ($($class:ident $mime_type:literal $mime_length:literal $extension:literal $length:literal $first:literal $count:literal $($parent:ident)?;)*) => {
        [$(FurtherRow {
            matcher_type: MatcherType::$class,
            mime_type: span!($mime_type $mime_length),
            extension: span!($extension $length),
            parent: parent!($($parent)?),
            signature: span!($first $count),
        }),*]
    };
}

pub(crate) use span;

mod generated;
mod relations;

use generated::{all_alternatives, all_pieces, all_rows, asked_texts, extensions, mime_types};
use relations::list_of;

/// What stands for a relation whose number is too great.
static NO_RELATION: Relation<'static> = Relation::PlainText;

/// The MIME type of a row.
pub(crate) fn mime_type(row: &FurtherRow) -> &'static str
    ensures { result.now ≡ (row_listed row.now).shows.mime_type }
{
    row.mime_type.of_text(mime_types())
}

/// Its extension.
pub(crate) fn extension(row: &FurtherRow) -> &'static str
    ensures { result.now ≡ (row_listed row.now).shows.extension }
{
    row.extension.of_text(extensions())
}

/// What stands at a span of texts that have a zero after each, and the zero.
fn ended_text(texts: &'static str, span: Span) -> &'static str
    requires { IsAscii texts.now }
    ensures { result.now ≡ stretch texts.now span.start (span.count + 1) }
{
    text_at(texts, usize::from(span.start), usize::from(span.count) + 1)
}

/// Both, each with a zero after it.
fn ended(row: &FurtherRow) -> EndedTexts
    ensures { ended_listed result ≡ ended_of row.now }
{
    EndedTexts {
        mime_type: ended_text(mime_types(), row.mime_type),
        extension: ended_text(extensions(), row.extension),
    }
}

/// The bytes at a span of what rows ask for.
#[inline(always)]
pub(crate) fn asked(span: Span) -> &'static [u8]
    ensures { result.now ≡ asked span }
{
    span.of(asked_texts())
}

/// The pieces of an alternative.
#[inline(always)]
pub(crate) fn pieces_of(bytes: &Bytes) -> &'static [Piece]
    ensures { result.now ≡ pieces_of bytes.now }
{
    bytes.pieces.of(all_pieces())
}

/// The alternatives of a row.
#[inline(always)]
pub(crate) fn alternatives_of(row: &FurtherRow) -> &'static [Alternative]
    ensures { result.now ≡ alternatives_of row.now }
{
    row.signature.of(all_alternatives())
}

/// The relation of that number, by one look at its list.
fn relation_in_lists(number: usize) -> Option<&'static Relation<'static>>
    ensures { option_map (λ r. relation_listed r.now) result ≡ slice_get relations number }
{
    let Some((first, relations)) = list_of(number) else {
        return None;
    };
    match relations.get(number - first) {
        Some(relation) => Some(relation),
        None => None,
    }
}

/// The relation of that number, and plain text for a number too great.
pub(crate) fn relation_at(number: usize) -> &'static Relation<'static>
    ensures { relation_listed result.now ≡ relation_at number }
{
    let Some(relation) = relation_in_lists(number) else {
        return &NO_RELATION;
    };
    relation
}

/// Row `i`.
#[inline(always)]
pub(crate) fn row_at(i: usize) -> Option<&'static FurtherRow>
    ensures listed { option_map (λ row. row_listed row.now) result ≡ slice_get further i }
    ensures closed { IfSome result (λ row. IsTrue (is_row_closed (row_listed row.now))) }
{
    match all_rows().get(i) {
        Some(row) => Some(row),
        None => None,
    }
}

/// The texts of row `i`, each with a zero after it.
pub(crate) fn ended_at(i: usize) -> Option<EndedTexts>
    ensures { option_map ended_listed result
        ≡ option_map (λ r. ended_shown r.shows) (slice_get further i) }
{
    match all_rows().get(i) {
        Some(row) => Some(ended(row)),
        None => None,
    }
}
