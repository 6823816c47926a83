//! What the index asks of a buffer: the least row that widens its answer.
ghost use Rattle.std.specs.Prelude.{◌≡◌, ◌↔◌, ◌⊎◌, ℕ, [], IsTrue, List, None, Some, false};
ghost use Rattle.std.specs.Option.{option_map_or};
ghost use Rattle.infer_deep.specs.ClassId.{HasClassId};
ghost use Rattle.infer_deep.specs.Find.{OccursAt};
ghost use Rattle.infer_formats.specs.FirstKey.{HasValue, StandsFirst};
ghost use Rattle.infer_formats.specs.Markup.{HasInTag};
ghost use Rattle.infer_formats.specs.Json.{IsBlank, IsJson, IsJsonLines};
ghost use Rattle.infer_formats.specs.Tiff.{HasTag};
ghost use Rattle.infer_formats.specs.Zip.{IsPackageWith};
ghost use Rattle.infer_more.specs.Index.{AllApplications, AreClassIds, FindsBelow, HasText, IsFoundBelow, IsFoundByName, IsKeyed, IsLeast, IsNamed, IsNamedWith, IsOfProgram, IsRooted, IsTextRow, IsTried, IsWayBelow, MayHaveName, all_ascend, all_of, are_texts, ascends, below_at, bucket_at, bucket_of, candidate, candidates, has_byte, is_true_below, name_at, named_row, picked, tried_at};
ghost use Rattle.infer_evidence.specs.Spans.{stretch};
ghost use Rattle.infer_more.specs.Wider.{IsWidened, WidensAt};
ghost use Rattle.infer_more.specs.declared.index.generated.TheConstants.{FURTHER_COUNT};

use crate::index::{
    Below, ByName, Entry, FURTHER_COUNT, Named, Parentless, Spot, Texts, law_finds_parentless,
    name_at, named_without_parent, way_below, without_parent,
};
use crate::signature::widens;
use infer::rows::ROW_COUNT;
use infer_deep::doc::class_id;
use infer_deep::places::stands_at;
use infer_evidence::Span;
use infer_formats::json::{Json, Key, first_dark, first_key, json_of};
use infer_formats::markup::{Root, may_be_rooted, root_of};
use infer_formats::script::program;
use infer_formats::text::is_text;
use infer_formats::tiff::first_directory_has_either;
use infer_formats::zip::package_folder;

/// How many buckets of names there are.
const BUCKETS: usize = 32;

/// How rows past the last are found.
static NOTHING: Below = Below::Nothing;

/// Whether the buffer has the byte at the place.
#[inline(always)]
pub(crate) fn has_byte(buf: &[u8], place: u32, byte: u8) -> bool
    ensures { result ≡ has_byte buf.now place byte }
{
    match buf.get(place as usize) {
        Some(found) => *found == byte,
        None => false,
    }
}

/// The entry's row if it is before that number, is tried and widens the answer; that number otherwise.
#[inline(always)]
fn least_at(entry: &Entry, parent: Option<usize>, buf: &[u8], before: usize) -> usize
    ensures { IsLeast (IsTried parent buf.now (candidate buf.now entry.now)) before result }
{
    let row = usize::from(entry.row);
    if !has_byte(buf, entry.place, entry.byte) {
        return before;
    }
    if row >= before {
        return before;
    }
    if !widens(row, parent, buf) {
        return before;
    }
    row
}

/// The least of the number before and of the rows of these entries that widen the answer.
#[inline(always)]
fn least_each(entries: &[Entry], parent: Option<usize>, buf: &[u8], before: usize) -> usize
    ensures { IsLeast (IsTried parent buf.now (candidates buf.now entries.now)) before result }
{
    let mut least = before;
    for entry in entries {
        least = least_at(entry, parent, buf, least);
    }
    least
}

/// Where the entries stand that the buffer's own byte picks at the spot, if it picks some.
#[inline(always)]
pub(crate) fn span_picked(index: &Parentless, spot: &Spot, buf: &[u8]) -> Option<Span>
    ensures { option_map_or (λ s. stretch index.now.entries.now s.start s.count) result []
        ≡ picked index.now buf.now spot.now }
{
    let byte = buf.get(spot.place as usize)?;
    let i = usize::from(spot.first) + usize::from(*byte);
    let start = *index.starts.get(i)?;
    let end = *index.starts.get(i + 1)?;
    if end <= start {
        return None;
    }
    Some(Span {
        start,
        count: end - start,
    })
}

/// Whether the buffer has the byte of one of the entries.
#[inline(always)]
fn is_one_tried(entries: &[Entry], buf: &[u8]) -> bool
    ensures { result ≡ false → candidates buf.now entries.now ≡ [] }
{
    for entry in entries {
        if has_byte(buf, entry.place, entry.byte) {
            return true;
        }
    }
    false
}

/// [`least_each`] of rows without a parent. It is not inlined, since of few buffers a row is tried.
#[inline(never)]
fn least_tried(entries: &[Entry], buf: &[u8], before: usize) -> usize
    ensures { IsLeast (IsTried None buf.now (candidates buf.now entries.now)) before result }
{
    least_each(entries, None, buf, before)
}

/// The least of the number before and of the rows of these entries that widen the answer. It is not inlined, since few spots of
/// a buffer pick an entry.
#[inline(never)]
fn least_of_span(entries: &[Entry], span: Span, buf: &[u8], before: usize) -> usize
    ensures { IsLeast (IsTried None buf.now
        (candidates buf.now (stretch entries.now span.start span.count))) before result }
{
    let entries = span.of(entries);
    if !is_one_tried(entries, buf) {
        return before;
    }
    least_tried(entries, buf, before)
}

/// The least of the number before and of the rows that are picked at the spot and widen the answer.
#[inline(always)]
fn least_picked(index: &Parentless, spot: &Spot, buf: &[u8], before: usize) -> usize
    ensures { IsLeast (IsTried None buf.now (tried_at index.now buf.now spot.now)) before result }
{
    match span_picked(index, spot, buf) {
        Some(span) => least_of_span(index.entries, span, buf, before),
        None => before,
    }
}

/// The least of the number before and of the rows that are picked at these spots and widen the answer.
#[inline(always)]
fn least_spotted(index: &Parentless, spots: &[Spot], buf: &[u8], before: usize) -> usize
    ensures { IsLeast (IsTried None buf.now (all_of (tried_at index.now buf.now) spots.now))
        before result }
{
    let mut least = before;
    for spot in spots {
        least = least_picked(index, spot, buf, least);
    }
    least
}

/// [`least_spotted`] half by half: with few spots at a time their places stand in the code, and no loop is left.
#[inline(always)]
fn least_in_halves(index: &Parentless, spots: &[Spot], buf: &[u8], before: usize) -> usize
    ensures { IsLeast (IsTried None buf.now (all_of (tried_at index.now buf.now) spots.now))
        before result }
{
    let (first, last) = spots.split_at(spots.len() / 2);
    let least = least_spotted(index, first, buf, before);
    least_spotted(index, last, buf, least)
}

/// [`least_in_halves`] of either half.
#[inline(always)]
fn least_in_quarters(index: &Parentless, spots: &[Spot], buf: &[u8], before: usize) -> usize
    ensures { IsLeast (IsTried None buf.now (all_of (tried_at index.now buf.now) spots.now))
        before result }
{
    let (first, last) = spots.split_at(spots.len() / 2);
    let least = least_in_halves(index, first, buf, before);
    least_in_halves(index, last, buf, least)
}

/// The row of the text that the buffer is, or the number before if that is less or it is none.
#[inline(always)]
fn least_text(texts: &Texts, buf: &[u8], before: usize) -> usize
    requires { IsTrue (are_texts texts.now) }
    ensures { IsLeast (IsTextRow texts.now buf.now) before result }
{
    match json_of(buf) {
        Some(Json::Lines) => before.min(usize::from(texts.lines)),
        Some(Json::Text) => before.min(usize::from(texts.json)),
        None => least_plain(texts, buf, before),
    }
}

/// The row of plain text if the buffer is that, or the number before if that is less or it is none.
#[inline(always)]
fn least_plain(texts: &Texts, buf: &[u8], before: usize) -> usize
    requires json { ¬ IsJson buf.now }
    requires lines { ¬ IsJsonLines buf.now }
    ensures { IsLeast (IsTextRow texts.now buf.now) before result }
{
    if is_text(buf) {
        before.min(usize::from(texts.plain))
    } else {
        before
    }
}

/// Whether the first byte is one with which markup or an object may begin: a no is certain.
#[inline(always)]
pub(crate) fn may_have_name(buf: &[u8]) -> bool
    ensures { MayHaveName buf.now → IsTrue result }
{
    match buf.first() {
        Some(byte) => matches!(byte, b'\t' | b'\n' | b'\r' | b' ' | b'<' | b'{' | 0xEF),
        None => false,
    }
}

/// The least of the number before and of the rows that are found by the root of markup, or by the first key of an object.
#[inline(always)]
fn least_by_name(names: &ByName, buf: &[u8], before: usize) -> usize
    requires roots { IsTrue (all_ascend named_row names.now.roots.now) }
    requires keys { IsTrue (ascends named_row names.now.keys.now) }
    ensures { IsLeast (IsFoundByName names.now buf.now) before result }
{
    infer_formats::laws::leads();
    if !may_have_name(buf) {
        return before;
    }
    // Markup mostly begins so.
    if has_byte(buf, 0, b'<') {
        return least_begun_markup(names.roots, buf, before);
    }
    least_past_space(names, buf, before)
}

/// [`least_by_name`] by the first byte after white space. It is not inlined, since few buffers begin so.
#[inline(never)]
fn least_past_space(names: &ByName, buf: &[u8], before: usize) -> usize
    requires roots { IsTrue (all_ascend named_row names.now.roots.now) }
    requires keys { IsTrue (ascends named_row names.now.keys.now) }
    ensures { IsLeast (IsFoundByName names.now buf.now) before result }
{
    infer_formats::laws::leads();
    match first_dark(buf) {
        Some(dark) => least_after(dark, names, buf, before),
        None => before,
    }
}

/// [`least_by_name`] of a buffer with this byte after white space.
#[inline(always)]
fn least_after(dark: u8, names: &ByName, buf: &[u8], before: usize) -> usize
    requires roots { IsTrue (all_ascend named_row names.now.roots.now) }
    requires keys { IsTrue (ascends named_row names.now.keys.now) }
    requires first { (¬ IsBlank dark) × StandsFirst dark buf.now }
    ensures { IsLeast (IsFoundByName names.now buf.now) before result }
{
    let rooted = least_markup(dark, names.roots, buf, before);
    least_object(dark, names.keys, buf, rooted)
}

/// [`least_root`] of a buffer with this byte after white space, which need not be markup.
#[inline(always)]
fn least_markup(dark: u8, roots: &'static [&'static [Named]], buf: &[u8], before: usize) -> usize
    requires ascend { IsTrue (all_ascend named_row roots.now) }
    requires first { (¬ IsBlank dark) × StandsFirst dark buf.now }
    ensures { IsLeast (IsRooted buf.now roots.now) before result }
{
    infer_formats::laws::leads();
    if dark != b'<' && dark != 0xEF {
        return before;
    }
    least_begun_markup(roots, buf, before)
}

/// [`least_key`] of a buffer with this byte after white space, which need not be an object.
#[inline(always)]
fn least_object(dark: u8, keys: &[Named], buf: &[u8], before: usize) -> usize
    requires ascend { IsTrue (ascends named_row keys.now) }
    requires first { (¬ IsBlank dark) × StandsFirst dark buf.now }
    ensures { IsLeast (IsKeyed buf.now keys.now) before result }
{
    if dark != b'{' && dark != 0xEF {
        return before;
    }
    least_key(keys, buf, before)
}

/// What stands beside a name: the rest of a root's tag, or what follows a key.
trait Beside {
    // The text stands there.
    ghost has: { Self → List ℕ → Type 0 };

    /// Whether the text stands there.
    fn has(&self, text: &[u8]) -> bool
        ensures { IsTrue result ↔ has self.now text.now };
}

impl Beside for Root<'_> {
    ghost has = { λ root text. HasInTag text root.rest.now };

    fn has(&self, text: &[u8]) -> bool {
        self.has_in_tag(text)
    }
}

impl Beside for Key<'_> {
    ghost has = { λ key text. HasValue text key.rest.now };

    fn has(&self, text: &[u8]) -> bool {
        self.has_value(text)
    }
}

/// Whether the row has that name, and its text beside it if there is one.
#[inline(always)]
fn is_named_with<B: Beside>(named: &Named, name: &[u8], beside: &B) -> bool
    ensures { IsTrue result ↔ (name_at named.now.name ≡ name.now)
        × HasText (B.has beside.now) named.now.text }
{
    if name != name_at(named.name) {
        return false;
    }
    match named.text {
        Some(text) => beside.has(name_at(text)),
        None => true,
    }
}

/// The least of the number before and of the rows with this name, and their text beside it, which is that of the first.
#[inline(always)]
fn least_named_with<B: Beside>(names: &[Named], name: &[u8], beside: &B, before: usize) -> usize
    requires { IsTrue (ascends named_row names.now) }
    ensures { IsLeast (IsNamedWith (B.has beside.now) name.now names.now) before result }
{
    for named in names {
        if is_named_with(named, name, beside) {
            return before.min(usize::from(named.row));
        }
    }
    before
}

/// The least of the number before and of the rows with the first key of the object that begins the buffer.
#[inline(never)]
fn least_key(keys: &[Named], buf: &[u8], before: usize) -> usize
    requires { IsTrue (ascends named_row keys.now) }
    ensures { IsLeast (IsKeyed buf.now keys.now) before result }
{
    match first_key(buf) {
        Some(key) => least_named_with(keys, key.text, &key, before),
        None => before,
    }
}

/// [`least_root`] of a buffer whose first tag may be no tag. It is not inlined, since few buffers begin so.
#[inline(never)]
fn least_begun_markup(roots: &'static [&'static [Named]], buf: &[u8], before: usize) -> usize
    requires { IsTrue (all_ascend named_row roots.now) }
    ensures { IsLeast (IsRooted buf.now roots.now) before result }
{
    infer_formats::laws::leads();
    if !may_be_rooted(buf) {
        return before;
    }
    least_root(roots, buf, before)
}

/// The least row that widens an answer below which there is none, or their count.
fn least_parentless(buf: &[u8]) -> usize
    ensures { IsLeast (WidensAt None buf.now) FURTHER_COUNT result }
{
    let (index, names) = (without_parent(), named_without_parent());
    law_finds_parentless(&index, names);
    let tried = least_in_quarters(&index, index.spots, buf, FURTHER_COUNT);
    let least = least_by_name(names, buf, tried);
    if least <= usize::from(index.texts.lines) {
        return least;
    }
    least_text(&index.texts, buf, least)
}

fn is_named(named: &Named, name: &[u8]) -> bool
    ensures { IsTrue result ↔ (name_at named.now.name ≡ name.now) }
{
    name_at(named.name) == name
}

/// The least of the number before and of the rows with this name, which is that of the first.
fn least_named(names: &[Named], name: &[u8], before: usize) -> usize
    requires { IsTrue (ascends named_row names.now) }
    ensures { IsLeast (IsNamed (λ other. other ≡ name.now) names.now) before result }
{
    for named in names {
        if is_named(named, name) {
            return before.min(usize::from(named.row));
        }
    }
    before
}

/// The bucket of a name, the only one in which it can be: by five bits of its first byte, of which one distinguishes small
/// letters from others.
#[inline(always)]
fn bucket_of(buckets: &'static [&'static [Named]], name: &[u8]) -> &'static [Named]
    ensures { result.now ≡ bucket_of buckets.now name.now }
{
    match name.first() {
        Some(first) => bucket_at(buckets, usize::from(*first) / 2 % BUCKETS),
        None => &[],
    }
}

/// The bucket of that number, and an empty one past the last.
#[inline(always)]
fn bucket_at(buckets: &'static [&'static [Named]], i: usize) -> &'static [Named]
    ensures { result.now ≡ bucket_at buckets.now i }
{
    match buckets.get(i) {
        Some(names) => names,
        None => &[],
    }
}

/// The least of the number before and of the rows with the name of the script's program.
fn least_program(buckets: &'static [&'static [Named]], buf: &[u8], before: usize) -> usize
    requires { IsTrue (all_ascend named_row buckets.now) }
    ensures { IsLeast (IsOfProgram buf.now buckets.now) before result }
{
    match program(buf) {
        Some(name) => least_named(bucket_of(buckets, name), name, before),
        None => before,
    }
}

/// The least of the number before and of the rows with the class id of the compound file.
#[inline(always)]
fn least_class(ids: &[Named], buf: &[u8], before: usize) -> usize
    requires long { AreClassIds ids.now }
    requires ascend { IsTrue (ascends named_row ids.now) }
    ensures { IsLeast (IsNamed (λ id. HasClassId id buf.now) ids.now) before result }
{
    match class_id(buf) {
        Some(id) => least_named(ids, id, before),
        None => before,
    }
}

/// The least of the number before and of the rows whose folder stands at the place, which is that of the first.
fn least_folder_at(folders: &[Named], buf: &[u8], place: usize, before: usize) -> usize
    requires { IsTrue (ascends named_row folders.now) }
    ensures { IsLeast (IsNamed (λ folder. OccursAt buf.now folder place) folders.now) before
        result }
{
    for named in folders {
        if stands_at(buf, name_at(named.name), place) {
            return before.min(usize::from(named.row));
        }
    }
    before
}

/// The least of the number before and of the rows whose folder of an application the package has.
#[inline(always)]
fn least_folder(folders: &[Named], buf: &[u8], before: usize) -> usize
    requires application { AllApplications folders.now }
    requires ascend { IsTrue (ascends named_row folders.now) }
    ensures { IsLeast (IsNamed (λ folder. IsPackageWith folder buf.now) folders.now) before result }
{
    match package_folder(buf) {
        Some(place) => least_folder_at(folders, buf, place, before),
        None => before,
    }
}

/// The least of the number before and of the rows with the buffer's root.
#[inline(always)]
fn least_root(roots: &'static [&'static [Named]], buf: &[u8], before: usize) -> usize
    requires { IsTrue (all_ascend named_row roots.now) }
    ensures { IsLeast (IsRooted buf.now roots.now) before result }
{
    match root_of(buf) {
        Some(root) => least_named_with(bucket_of(roots, root.name), root.name, &root, before),
        None => before,
    }
}

/// [`least_each`] of entries that are tried only if the first directory of a TIFF file has one of the tags.
#[inline(always)]
fn least_tagged(
    tag: u16,
    other: u16,
    entries: &[Entry],
    parent: Option<usize>,
    buf: &[u8],
    before: usize,
) -> usize
    ensures { IsLeast (λ i. (HasTag tag buf.now ⊎ HasTag other buf.now)
        × IsTried parent buf.now (candidates buf.now entries.now) i) before result }
{
    if !first_directory_has_either(buf, tag, other) {
        return before;
    }
    least_each(entries, parent, buf, before)
}

/// The least row that is found below a built-in row in this way, or their count.
#[inline(always)]
fn least_found(below: &Below, row: usize, buf: &[u8]) -> usize
    requires { IsTrue (is_true_below row below.now) }
    ensures { IsLeast (IsFoundBelow below.now row buf.now) FURTHER_COUNT result }
{
    match below {
        Below::Nothing => FURTHER_COUNT,
        Below::Entries(entries) => least_each(entries, Some(row), buf, FURTHER_COUNT),
        Below::ClassIds(entries, ids) => {
            let tried = least_each(entries, Some(row), buf, FURTHER_COUNT);
            least_class(ids, buf, tried)
        }
        Below::Programs(entries, buckets) => {
            let tried = least_each(entries, Some(row), buf, FURTHER_COUNT);
            least_program(buckets, buf, tried)
        }
        Below::Roots(roots) => least_root(roots, buf, FURTHER_COUNT),
        Below::Packages(entries, folders) => {
            let tried = least_each(entries, Some(row), buf, FURTHER_COUNT);
            least_folder(folders, buf, tried)
        }
        Below::Tagged(entries, tag, other, tagged) => {
            let tried = least_each(entries, Some(row), buf, FURTHER_COUNT);
            least_tagged(*tag, *other, tagged, Some(row), buf, tried)
        }
    }
}

/// How the rows below this built-in row are found.
#[inline(always)]
pub(super) fn below_at(ways: &'static [Below], i: usize) -> &'static Below
    ensures { result.now ≡ below_at ways.now i }
{
    match ways.get(i) {
        Some(below) => below,
        None => &NOTHING,
    }
}

/// The least row that widens this answer, below which others are found in this way, or their count.
#[inline(never)]
fn least_in(way: &Below, row: usize, buf: &[u8]) -> usize
    requires each { IsWayBelow row way.now }
    requires finds { FindsBelow row way.now }
    ensures { IsLeast (WidensAt (Some row) buf.now) FURTHER_COUNT result }
{
    least_found(way, row, buf)
}

/// The least row that widens this answer, or their count.
pub(crate) fn least_widening(parent: Option<usize>, buf: &[u8]) -> usize
    ensures { IsLeast (WidensAt parent buf.now) FURTHER_COUNT result }
{
    match parent {
        Some(row) => least_in(way_below(row), row, buf),
        None => least_parentless(buf),
    }
}

/// [`found`] of a row below which others are found in this way.
#[inline(always)]
fn found_in(way: &Below, row: usize, buf: &[u8]) -> usize
    requires each { IsWayBelow row way.now }
    requires finds { FindsBelow row way.now }
    ensures { IsWidened (Some row) buf.now (Some result) }
{
    let least = least_in(way, row, buf);
    if least < FURTHER_COUNT {
        ROW_COUNT + least
    } else {
        row
    }
}

/// The number of the wider answer of a buffer whose built-in answer is this row. One below which there are no others costs no
/// call.
#[inline(always)]
pub(crate) fn found(row: usize, buf: &[u8]) -> usize
    ensures { IsWidened (Some row) buf.now (Some result) }
{
    match way_below(row) {
        Below::Nothing => row,
        way => found_in(way, row, buf),
    }
}

/// The number of the wider answer of a buffer that no built-in row accepts.
#[inline(always)]
pub(crate) fn found_parentless(buf: &[u8]) -> Option<usize>
    ensures { IsWidened None buf.now result }
{
    let least = least_parentless(buf);
    if least < FURTHER_COUNT {
        Some(ROW_COUNT + least)
    } else {
        None
    }
}
