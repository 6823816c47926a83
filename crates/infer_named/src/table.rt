//! What names say, as data: the names, and the readings of each. The prover reads numbers and texts at once, so the table is
//! lists of numbers, and one text of the keys, one of the types and one of the rows.
ghost use Rattle.std.specs.Prelude.{◌≡◌, ◌<◌, IsAscii, map};
ghost use Rattle.std.specs.List.{flat_map};
ghost use Rattle.infer_named.specs.Listed.{key_listed, leads_at, mime_type, range_listed, reading_listed, row_text, set_listed, texts};
ghost use Rattle.infer_named.specs.Slots.{keys_of_slot};

use infer_evidence::{Span, stretch};

/// What of a file's name a key is.
#[derive(Clone, Copy, Debug)]
pub enum Part {
    /// The whole name, without its folder and the ending of a copy.
    Whole,
    /// What follows the last dot, or the last but one.
    Extension,
}

/// For what a key is in use.
#[derive(Clone, Copy, Debug)]
pub enum Usage {
    /// For files of its types, as everyone expects.
    Strict,
    /// For files of its types, which few people know, so that a text or a program may have such a name for another reason.
    Plain,
    /// For other things too.
    Loose,
}

/// Who names a type.
#[derive(Clone, Copy, Debug)]
pub enum Origin {
    /// A row of `infer_more`, whose extension stands there among the texts of rows.
    Row(Span),
    /// No row, but a registry or another program.
    Known,
    /// Nobody else, so that it only distinguishes files and is not to be sent.
    Own,
}

/// A type that a name has, whose MIME type stands there among those of all.
#[derive(Clone, Copy, Debug)]
pub struct NamedType {
    pub(crate) mime_type: Span,
    pub(crate) origin: Origin,
}

/// What a type asks of bytes that no row accepts.
#[derive(Clone, Copy, Debug)]
pub enum Asks {
    /// A signature: no such bytes are of the type.
    Signature,
    /// A text: a byte 00 is not of the type.
    Text,
    /// At least one byte.
    Bytes,
    /// Nothing.
    Nothing,
}

/// What a name may mean: a type, what it asks of bytes that no row accepts, and which rows may accept its bytes. The ranges of
/// these rows stand among those of all readings, and leads have a number.
pub struct Reading {
    pub(crate) named: NamedType,
    pub(crate) asks: Asks,
    /// The rows of the type itself.
    pub(crate) agrees: Span,
    /// The rows as which a file of the type may begin.
    pub(crate) begins: Span,
    /// The rows that are finer kinds of the type.
    pub(crate) finer: Span,
    /// The beginnings of such a file.
    pub(crate) leads: u16,
}

/// What of a name stands in the table. Its text stands among those of all keys, and its readings among all.
pub struct Key {
    pub(crate) part: Part,
    pub(crate) usage: Usage,
    pub(crate) text: Span,
    pub(crate) readings: Span,
}

macro_rules! span {
    ($start:literal $count:literal) => {
        infer_evidence::Span {
            start: $start,
            count: $count,
        }
    };
}

// A line each.
macro_rules! keys {
    ($($usage:ident $part:ident $text:literal $length:literal $readings:literal $count:literal;)*) => {
        [$(Key {
            part: Part::$part,
            usage: Usage::$usage,
            text: span!($text $length),
            readings: span!($readings $count),
        }),*]
    };
}

macro_rules! origin {
    (Row $start:literal $count:literal) => {
        Row(span!($start $count))
    };
    ($origin:ident) => {
        $origin
    };
}

macro_rules! readings {
    ($($type:literal $length:literal $origin:ident $($row:literal)* $asks:ident $agrees:literal $many:literal $begins:literal $some:literal $finer:literal $few:literal $leads:literal;)*) => {
        [$(Reading {
            named: NamedType {
                mime_type: span!($type $length),
                origin: origin!($origin $($row)*),
            },
            asks: Asks::$asks,
            agrees: span!($agrees $many),
            begins: span!($begins $some),
            finer: span!($finer $few),
            leads: $leads,
        }),*]
    };
}

macro_rules! spans {
    ($($start:literal $count:literal;)*) => {
        [$(span!($start $count)),*]
    };
}

macro_rules! lists {
    ($([$($it:literal)*])*) => {
        &[$(&[$($it),*]),*]
    };
}

pub(crate) use keys;
pub(crate) use lists;
pub(crate) use origin;
pub(crate) use readings;
pub(crate) use span;
pub(crate) use spans;

mod generated;

pub(crate) use generated::{free, tame};
use generated::{
    all_keys, all_ranges, all_readings, key_texts, mime_types, row_spans, row_texts, starts,
};

/// The keys of a slot.
#[tactic(auto, using(crate::proofs::StretchLemmas::stretch_listed))]
pub(crate) fn slot(number: usize) -> &'static [Key]
    requires { number < 512 }
    ensures { map key_listed result.now ≡ keys_of_slot number }
{
    let starts = starts();
    let start = usize::from(starts[number]);
    let end = usize::from(starts[number + 1]);
    stretch(all_keys(), start, end.saturating_sub(start))
}

/// The text of a key.
pub(crate) fn key_text(key: &Key) -> &'static [u8]
    ensures { result.now ≡ (key_listed key.now).text }
{
    key.text.of(key_texts())
}

/// The readings of a key.
pub(crate) fn readings_of(key: &Key) -> &'static [Reading]
    ensures { map reading_listed result.now ≡ (key_listed key.now).readings }
{
    key.readings.of(all_readings())
}

/// The MIME type at a span.
pub(crate) fn mime_type(span: Span) -> &'static str
    ensures { result.now ≡ mime_type span }
{
    span.of_text(mime_types())
}

/// The text of a row at a span.
pub(crate) fn row_text(span: Span) -> &'static str
    ensures { result.now ≡ row_text span }
{
    span.of_text(row_texts())
}

/// The same as bytes, which takes less.
pub(crate) fn row_bytes(span: Span) -> &'static [u8]
    ensures { result.now ≡ row_text span }
{
    span.of(row_texts().as_bytes())
}

/// The ranges of a set.
pub(crate) fn ranges(set: Span) -> &'static [Span]
    ensures { flat_map range_listed result.now ≡ set_listed set }
{
    set.of(all_ranges())
}

/// Where the texts of the rows of a range stand. A row has its extension there, or its MIME type where two types have one
/// extension.
#[tactic(auto, using(crate::proofs::StretchLemmas::stretch_listed))]
pub(crate) fn rows(range: Span) -> &'static [Span]
    ensures { map row_text result.now ≡ range_listed range }
{
    range.of(row_spans())
}

/// The leads of this number, each of one or two bytes. Any is one if there are none.
pub(crate) fn leads(number: u16) -> &'static [&'static [u8]]
    ensures { texts result.now ≡ leads_at number }
{
    if let Some(leads) = generated::sets::leads().get(usize::from(number)) {
        return *leads;
    }
    &[]
}
