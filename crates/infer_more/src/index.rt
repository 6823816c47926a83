//! Which further rows are tried of a buffer, so that few are. At a spot the buffer's own byte picks entries. An entry names a
//! row and one more byte that it asks, so that a row is tried whole only where the buffer has that byte too. Rows that ask for
//! a name, or for the first key of an object, are found by it, which is read once for all of them.
ghost use Rattle.std.specs.Prelude.{◌≡◌};
ghost use Rattle.infer_more.specs.Index.{EachIsFoundByName, EachParentlessIsFound, FindsBelow, FindsByLead, FindsParentless, IsWayBelow, name_at};

use crate::row_data::span;
use infer_evidence::Span;

/// A row, by its number among the further rows, that is tried only if a buffer has the byte at the place.
pub(crate) struct Entry {
    pub place: u32,
    pub row: u16,
    pub byte: u8,
}

/// A row, by its number among the further rows, that is found by a name: that of a program, of a folder or of a root element, a
/// class id or the first key of an object. A root or a key may need one more text: in its tag, or as its value.
pub(crate) struct Named {
    pub row: u16,
    pub name: Span,
    pub text: Option<Span>,
}

/// How the rows below a built-in row are found.
pub(crate) enum Below {
    /// There are none.
    Nothing,
    /// By trying those of which a buffer has the byte, up to the first that widens the answer.
    Entries(&'static [Entry]),
    /// By trying some, and by the class id of a compound file.
    ClassIds(&'static [Entry], &'static [Named]),
    /// By trying some, and by the program of a script. The names stand in buckets, by five bits of their first byte.
    Programs(&'static [Entry], &'static [&'static [Named]]),
    /// By the root element. The names stand in buckets, too.
    Roots(&'static [&'static [Named]]),
    /// By trying some, and by the folder of an application in a package.
    Packages(&'static [Entry], &'static [Named]),
    /// By trying some, and others only if the first directory of a TIFF file has one of two tags, for which it is read once.
    Tagged(&'static [Entry], u16, u16, &'static [Entry]),
}

/// The rows of JSON lines, of JSON and of plain text, the last. A buffer is read once for the first two.
#[derive(Clone, Copy)]
pub(crate) struct Texts {
    pub lines: u16,
    pub json: u16,
    pub plain: u16,
}

/// A place at which each byte picks the entries of a span: that which stands so far after the first as the byte says.
pub(crate) struct Spot {
    pub place: u32,
    pub first: u16,
}

/// The rows without a parent that are tried, each at a spot. The spans of all spots stand in one list: where each begins among
/// the entries, and where the last ends. The texts come last.
#[derive(Clone, Copy)]
pub(crate) struct Parentless {
    pub spots: &'static [Spot],
    pub starts: &'static [u16],
    pub entries: &'static [Entry],
    pub texts: Texts,
}

/// The rows without a parent by few bytes that rule them out: the first byte picks the entries of those that allow it, and beside
/// them stand those that ask nothing of it. The texts rule out themselves.
#[derive(Clone, Copy)]
pub(crate) struct ByLead {
    pub index: Parentless,
    pub beside: &'static [Entry],
}

/// The rows without a parent that are found by the root of markup or by the first key of an object, which is looked for once
/// for all of them. A static of its own, as the check of one takes time quadratic in the lists inside it.
pub(crate) struct ByName {
    pub roots: &'static [&'static [Named]],
    pub keys: &'static [Named],
}

macro_rules! picked {
    ($($place:literal $byte:literal $row:literal),*) => {
        [$(Entry {
            place: $place,
            row: $row,
            byte: $byte,
        }),*]
    };
}

macro_rules! entries {
    ($($place:literal $byte:literal $row:literal),*) => {
        &picked![$($place $byte $row),*]
    };
}

macro_rules! named {
    ($($name:literal $length:literal ($($text:literal $long:literal)?) $row:literal),*) => {
        &[$(Named {
            row: $row,
            name: span!($name $length),
            text: text!($($text $long)?),
        }),*]
    };
}

macro_rules! buckets {
    ($(($($name:literal $length:literal ($($text:literal $long:literal)?) $row:literal),*))*) => {
        &[$(named![$($name $length ($($text $long)?) $row),*]),*]
    };
}

macro_rules! text {
    () => {
        None
    };
    ($text:literal $length:literal) => {
        Some(span!($text $length))
    };
}

macro_rules! spots {
    ($($place:literal $first:literal),*) => {
        [$(Spot {
            place: $place,
            first: $first,
        }),*]
    };
}

macro_rules! starts {
    ($($start:literal)*) => {
        [$($start),*]
    };
}

mod generated;
pub(crate) mod search;

pub use generated::FURTHER_COUNT;
use generated::{
    BESIDE, BY_NAME, ENTRIES, LEAD_ENTRIES, LEAD_SPOTS, LEAD_STARTS, SPOTS, STARTS, TEXTS,
    name_texts, way_listed,
};

/// The text at a span of those by which rows are found.
#[inline(always)]
fn name_at(span: Span) -> &'static [u8]
    ensures { result.now ≡ name_at span }
{
    span.of(name_texts())
}

/// How the rows below this built-in row are found: in a way by which just those are found that widen its answer.
#[inline(always)]
pub(crate) fn way_below(parent: usize) -> &'static Below
    ensures each { IsWayBelow parent result.now }
    ensures finds { FindsBelow parent result.now }
{
    let way = way_listed(parent);
    law_finds_below(parent, way);
    way
}

/// A law: in a way that has each row below a built-in one, just those are found that widen its answer.
#[tactic(auto, using(crate::proofs::FoundLemmas::all_below))]
fn law_finds_below(parent: usize, way: &Below)
    requires { IsWayBelow parent way.now }
    ensures { FindsBelow parent way.now }
{
    let _ = parent;
    let _ = way;
    infer_formats::laws::leads();
    infer_sig::laws::by_place();
}

/// The rows without a parent, but for those that are found by a name.
#[inline(always)]
pub(crate) fn without_parent() -> Parentless
    ensures { EachParentlessIsFound result }
{
    Parentless {
        spots: &SPOTS,
        starts: &STARTS,
        entries: &ENTRIES,
        texts: TEXTS,
    }
}

/// The rows without a parent that are found by a name.
#[inline(always)]
pub(crate) fn named_without_parent() -> &'static ByName
    ensures { EachIsFoundByName result.now }
{
    &BY_NAME
}

/// The rows without a parent, by what rules them out.
pub(crate) fn all_by_lead() -> ByLead
    ensures { FindsByLead result }
{
    infer_formats::laws::leads();
    infer_sig::laws::by_place();
    ByLead {
        index: Parentless {
            spots: &LEAD_SPOTS,
            starts: &LEAD_STARTS,
            entries: &LEAD_ENTRIES,
            texts: TEXTS,
        },
        beside: &BESIDE,
    }
}

/// A law: by an index that has each row without a parent, and by the names of those that are found by one, just those are found
/// that widen an answer below which there is none.
pub(crate) fn law_finds_parentless(index: &Parentless, names: &ByName)
    requires each { EachParentlessIsFound index.now }
    requires named { EachIsFoundByName names.now }
    ensures { FindsParentless index.now names.now }
{
    let _ = index;
    let _ = names;
    infer_formats::laws::leads();
    infer_sig::laws::by_place();
}
