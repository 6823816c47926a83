//! Where a text stands in a buffer.
ghost use Rattle.std.specs.Prelude.{◌≡◌, ◌↔◌, ◌+◌, ◌<◌, ◌≤◌, ℕ, length, slice_index, IsTrue};
ghost use Rattle.std.specs.Bool.{OnFalse};
ghost use Rattle.memchr.specs.Find.{OccursAt};
ghost use Rattle.infer_deep.specs.Blocks.{LacksPair};
ghost use Rattle.infer_deep.specs.Open.{AgreesAt, are_bytes};
ghost use Rattle.infer_deep.specs.Places.{IsFirstWithin};
ghost use Rattle.infer_deep.specs.Signatures.{MayBecome};
ghost use Rattle.infer_deep.specs.Windows.{StandsBy};

use crate::numbers::{le16, le32};
use memchr::arch::all::packedpair::Pair;
use memchr::arch::all::{packedpair, rabinkarp};
use memchr::memchr;

/// Whether `text` stands in `buf` from `place` on.
#[tactic(auto, using(crate::proofs::SearchLemmas::occurs_from_starts, crate::proofs::SearchLemmas::starts_from_occurs))]
pub fn stands_at(buf: &[u8], text: &[u8], place: usize) -> bool
    ensures { IsTrue result ↔ OccursAt buf.now text.now place }
{
    place <= buf.len() && buf[place..].starts_with(text)
}

/// Whether `text`, whose length is stated, stands in `buf` from `place` on. The compiler compares it by words.
#[inline(always)]
pub fn has_at<const N: usize>(buf: &[u8], text: &[u8; N], place: usize) -> bool
    ensures { IsTrue result ↔ OccursAt buf.now text.now place }
{
    place <= buf.len() && N <= buf.len() - place && same_at(buf, text, place)
}

/// Whether `text`, whose length is stated, stands in `buf` from `place` on, where `buf` has room for it.
#[inline]
pub fn same_at<const N: usize>(buf: &[u8], text: &[u8; N], place: usize) -> bool
    requires { place + N ≤ length buf.now }
    ensures { IsTrue result ↔ OccursAt buf.now text.now place }
{
    same_text(buf, text, place)
}

/// Whether `text`, of any length, stands in `buf` from `place` on, where `buf` has room for it.
///
/// What is compared are words: the compiler makes them of single bytes only if no other comparison reads these.
#[inline(always)]
pub fn same_text(buf: &[u8], text: &[u8], place: usize) -> bool
    requires { place + length text.now ≤ length buf.now }
    ensures { IsTrue result ↔ OccursAt buf.now text.now place }
{
    if text.len() < 4 {
        return same_short(buf, text, place);
    }
    same_words(buf, text, place)
}

/// [`same_text`] for a text of less than a word, by halves of one that overlap if they must.
#[inline(always)]
fn same_short(buf: &[u8], text: &[u8], place: usize) -> bool
    requires short { length text.now < 4 }
    requires fits { place + length text.now ≤ length buf.now }
    ensures { IsTrue result ↔ OccursAt buf.now text.now place }
{
    let n = text.len();
    match n {
        0 => true,
        1 => buf[place] == text[0],
        _ => same_half(buf, place, text, 0) && same_half(buf, place + (n - 2), text, n - 2),
    }
}

/// [`same_text`] for a text of a word or more.
#[inline(always)]
fn same_words(buf: &[u8], text: &[u8], place: usize) -> bool
    requires long { 4 ≤ length text.now }
    requires fits { place + length text.now ≤ length buf.now }
    ensures { IsTrue result ↔ OccursAt buf.now text.now place }
{
    let last = text.len() - 4;
    let mut i = 0;
    while i < last {
        if !same_word(buf, place + i, text, i) {
            return false;
        }
        i += 4;
    }
    // The last word overlaps the one before, if the text is no whole number of words.
    same_word(buf, place + last, text, last)
}

/// Whether the two bytes from `place` on are those of `text` from `i` on.
#[tactic(auto, using(crate::proofs::NumberLemmas::le16_same))]
#[inline]
fn same_half(buf: &[u8], place: usize, text: &[u8], i: usize) -> bool
    requires in_buf { place + 2 ≤ length buf.now }
    requires in_text { i + 2 ≤ length text.now }
    ensures { IsTrue result
        ↔ ((k : ℕ) → k < 2 → slice_index buf.now (place + k) ≡ slice_index text.now (i + k)) }
{
    le16(buf, place) == le16(text, i)
}

/// Whether the four bytes from `place` on are those of `text` from `i` on.
#[tactic(auto, using(crate::proofs::NumberLemmas::le32_same))]
#[inline]
fn same_word(buf: &[u8], place: usize, text: &[u8], i: usize) -> bool
    requires in_buf { place + 4 ≤ length buf.now }
    requires in_text { i + 4 ≤ length text.now }
    ensures { IsTrue result
        ↔ ((k : ℕ) → k < 4 → slice_index buf.now (place + k) ≡ slice_index text.now (i + k)) }
{
    le32(buf, place) == le32(text, i)
}

/// Whether `buf` and `text` agree from `place` on, as far as both go: more bytes may make `text` stand there.
#[tactic(auto, using(crate::proofs::OpenLemmas::stands_where_whole, crate::proofs::OpenLemmas::agrees_where_stands))]
#[inline(always)]
pub(crate) fn agrees_at<const N: usize>(buf: &[u8], text: &[u8; N], place: usize) -> bool
    ensures { IsTrue result ↔ AgreesAt buf.now text.now place }
{
    if place <= buf.len() && N <= buf.len() - place {
        return same_at(buf, text, place);
    }
    agrees_at_end(buf, text, place)
}

/// Whether `buf` and `text`, of any length, agree from `place` on, as far as both go: more bytes may make `text` stand
/// there.
#[tactic(auto, using(crate::proofs::OpenLemmas::stands_where_whole, crate::proofs::OpenLemmas::agrees_where_stands))]
pub fn may_stand_at(buf: &[u8], text: &[u8], place: usize) -> bool
    ensures { IsTrue result ↔ AgreesAt buf.now text.now place }
{
    if place <= buf.len() && text.len() <= buf.len() - place {
        return stands_at(buf, text, place);
    }
    agrees_at_end(buf, text, place)
}

/// [`agrees_at`] for a text that `buf` ends before or in.
#[tactic(auto, using(crate::proofs::OpenLemmas::agrees_from_end, crate::proofs::OpenLemmas::end_from_agrees))]
#[inline(never)]
fn agrees_at_end(buf: &[u8], text: &[u8], place: usize) -> bool
    requires { length buf.now < place + length text.now }
    ensures { IsTrue result ↔ AgreesAt buf.now text.now place }
{
    buf.len() <= place || text.starts_with(&buf[place..])
}

/// Whether `text` stands anywhere in `buf`, place by place: for a short `buf`.
#[inline(always)]
pub(crate) fn stands_in<const N: usize>(buf: &[u8], text: &[u8; N]) -> bool
    requires { 0 < N }
    ensures { IsTrue result ↔ ((p : ℕ) × OccursAt buf.now text.now p) }
{
    let count = (buf.len() + 1).saturating_sub(N);
    let is_place = |place: usize| -> bool
        requires { place + N ≤ length buf.now }
        ensures { IsTrue result ↔ OccursAt buf.entry.now text.entry.now place }
    { same_at(buf, text, place) };
    (0..count).any(is_place)
}

/// The least place from `start` on at which `text` stands and ends by `end`.
///
/// Most buffers lack the two bytes of `text` from `rare` on, which a look at whole blocks shows faster than the
/// search. That is a function of its own, so that a look that finds nothing saves no registers.
#[inline(always)]
pub(crate) fn find<const N: usize>(
    buf: &[u8],
    text: &[u8; N],
    rare: usize,
    start: usize,
    end: usize,
) -> Option<usize>
    requires long { 4 ≤ N }
    requires pair { rare + 2 ≤ N }
    ensures { IsFirstWithin OccursAt buf.now text.now start end result }
{
    let stop = end.min(buf.len());
    if start > stop || stop - start < N {
        return None;
    }
    let free = places_free(&buf[start + rare..stop], text[rare], text[rare + 1]);
    if stop - start - free < N {
        return None;
    }
    search_on(buf, text, rare, start + free, end)
}

/// The least place from `start` on at which `text` stands or may come to stand, and ends by `end`.
#[inline(always)]
pub(crate) fn find_open<const N: usize>(
    buf: &[u8],
    text: &[u8; N],
    rare: usize,
    start: usize,
    end: usize,
) -> Option<usize>
    requires long { 4 ≤ N }
    requires pair { rare + 2 ≤ N }
    requires room { start + N ≤ end }
    ensures { IsFirstWithin AgreesAt buf.now text.now start end result }
{
    if let Some(place) = find(buf, text, rare, start, end) {
        return Some(place);
    }
    // Before `first` the whole of it would stand in `buf`, and from the end of `buf` on it may always come to stand.
    let first = start.max((buf.len() + 1).saturating_sub(N));
    let last = start.max(buf.len()).min(end - N);
    let agrees = |place: &usize| -> bool
        ensures { IsTrue result ↔ AgreesAt buf.entry.now text.entry.now place.now }
    { agrees_at(buf, text, *place) };
    (first..last + 1).find(agrees)
}

/// Whether some bytes after `buf` make `text` stand in the first `end` bytes.
#[tactic(auto, using(crate::proofs::WindowLemmas::room_reaches, crate::proofs::WindowLemmas::found_reaches))]
#[inline(always)]
pub(crate) fn may_stand_by<const N: usize>(
    buf: &[u8],
    text: &[u8; N],
    rare: usize,
    end: usize,
) -> bool
    requires long { 4 ≤ N }
    requires pair { rare + 2 ≤ N }
    requires room { N ≤ end }
    requires bytes { IsTrue (are_bytes text.now) }
    ensures { IsTrue result ↔ MayBecome (StandsBy text.now end) buf.now }
{
    buf.len() <= end - N || find_open(buf, text, rare, 0, end).is_some()
}

#[inline(never)]
fn search_on<const N: usize>(
    buf: &[u8],
    text: &[u8; N],
    rare: usize,
    start: usize,
    end: usize,
) -> Option<usize>
    requires long { 4 ≤ N }
    requires pair { rare + 2 ≤ N }
    ensures { IsFirstWithin OccursAt buf.now text.now start end result }
{
    search(buf, text, rare, start, end)
}

/// [`find`] by the first place of the byte of `text` at `rare`, at which the whole of it mostly stands.
#[inline(always)]
pub(crate) fn search<const N: usize>(
    buf: &[u8],
    text: &[u8; N],
    rare: usize,
    start: usize,
    end: usize,
) -> Option<usize>
    requires long { 4 ≤ N }
    requires pair { rare + 2 ≤ N }
    ensures { IsFirstWithin OccursAt buf.now text.now start end result }
{
    let stop = end.min(buf.len());
    if start > stop || stop - start < N {
        return None;
    }
    let free = byte_free(&buf[start + rare..stop], text[rare], text[rare + 1]);
    if stop - start - free < N {
        return None;
    }
    if same_at(buf, text, start + free) {
        return Some(start + free);
    }
    search_pairs(buf, text, start + free + 1, end)
}

/// How often two bytes of a text may stand without the whole of it, before it is searched for byte by byte. A search for
/// the two begins anew then, which takes as long as some fifteen bytes.
const NEAR_MISSES: usize = 8;

/// [`find`] by two bytes of `text`: if they stand, the whole of it is compared.
#[tactic(auto, using(crate::proofs::SearchLemmas::first_at_pair, crate::proofs::SearchLemmas::none_past_pair, crate::proofs::SearchLemmas::none_without_pair))]
#[inline(never)]
fn search_pairs(buf: &[u8], text: &[u8], start: usize, end: usize) -> Option<usize>
    requires { 4 ≤ length text.now }
    ensures { IsFirstWithin OccursAt buf.now text.now start end result }
{
    let stop = end.min(buf.len());
    if start > stop {
        return None;
    }
    // The finder of `memmem` may own its text, and would bring in the heap.
    let pair = packedpair::Finder::with_pair(text, Pair::with_indices(text, 0, 3)?);
    let mut from = start;
    for _turn in 0..NEAR_MISSES {
        let at = from + pair.find_prefilter(&buf[from..stop])?;
        if stands_within(buf, text, at, stop) {
            return Some(at);
        }
        from = at + 1;
    }
    search_bytes(buf, text, from, end)
}

/// [`find`] byte by byte, whatever the bytes are.
#[inline(never)]
fn search_bytes(buf: &[u8], text: &[u8], start: usize, end: usize) -> Option<usize>
    ensures { IsFirstWithin OccursAt buf.now text.now start end result }
{
    let stop = end.min(buf.len());
    if start > stop {
        return None;
    }
    let at = rabinkarp::Finder::new(text).find(&buf[start..stop], text)?;
    Some(start + at)
}

/// Whether `text` stands at `place` and ends by `stop`.
#[inline(always)]
fn stands_within(buf: &[u8], text: &[u8], place: usize, stop: usize) -> bool
    requires { place ≤ stop }
    ensures { IsTrue result ↔ (OccursAt buf.now text.now place × (place + length text.now ≤ stop)) }
{
    text.len() <= stop - place && stands_at(buf, text, place)
}

/// How many places at the front of `hay` surely begin no such pair of bytes, by the first byte alone.
#[inline(always)]
fn byte_free(hay: &[u8], first: u8, second: u8) -> usize
    ensures within { result ≤ length hay.now }
    ensures lacks { LacksPair first second hay.now result }
{
    memchr(first, hay).unwrap_or(hay.len())
}

/// How many places at the front of `hay` surely begin no such pair of bytes, in whole blocks. A block with the pair
/// ends the count.
#[inline(always)]
fn places_free(hay: &[u8], first: u8, second: u8) -> usize
    ensures within { result ≤ length hay.now }
    ensures lacks { LacksPair first second hay.now result }
{
    if hay.len() < 129 {
        return 0;
    }
    // Of a known number of blocks the compiler makes no loop.
    match hay.as_array::<1024>() {
        Some(window) => blocks_free(window, first, second),
        None => pair_free(hay, first, second),
    }
}

#[inline(never)]
fn pair_free(hay: &[u8], first: u8, second: u8) -> usize
    requires { 129 ≤ length hay.now }
    ensures within { result ≤ length hay.now }
    ensures lacks { LacksPair first second hay.now result }
{
    blocks_free(hay, first, second)
}

#[tactic(auto, using(std::proofs::lemmas::Bool::OnFalse_at, crate::proofs::SearchLemmas::lacks_more))]
#[inline(always)]
fn blocks_free(hay: &[u8], first: u8, second: u8) -> usize
    requires { 129 ≤ length hay.now }
    ensures within { result ≤ length hay.now }
    ensures lacks { LacksPair first second hay.now result }
{
    for k in 0..(hay.len() - 1) / 128 {
        if has_pair(&hay[128 * k..128 * k + 129], first, second) {
            return 128 * k;
        }
    }
    // The last block overlaps the one before, so that each has the same length.
    let last = hay.len() - 129;
    if has_pair(&hay[last..last + 129], first, second) {
        return last;
    }
    hay.len() - 1
}

/// Whether the two bytes stand together at one of the first 128 places. A block without the first is seen sooner.
#[inline(always)]
fn has_pair(block: &[u8], first: u8, second: u8) -> bool
    requires { 129 ≤ length block.now }
    ensures { OnFalse result (LacksPair first second block.now 128) }
{
    has_byte(block, first) && stand_together(block, first, second)
}

/// Whether `byte` is one of the first 128.
#[inline(always)]
fn has_byte(block: &[u8], byte: u8) -> bool
    requires { 128 ≤ length block.now }
    ensures { OnFalse result ((p : ℕ) → p < 128 → ¬ (slice_index block.now p ≡ byte)) }
{
    // No early exit: of a loop whose length is known the compiler makes vectors.
    let mut any = false;
    for i in 0..128 {
        any |= block[i] == byte;
    }
    any
}

/// [`has_pair`] by both bytes at each place.
#[inline(always)]
fn stand_together(block: &[u8], first: u8, second: u8) -> bool
    requires { 129 ≤ length block.now }
    ensures { OnFalse result (LacksPair first second block.now 128) }
{
    let mut any = false;
    for i in 0..128 {
        any |= (block[i] == first) & (block[i + 1] == second);
    }
    any
}
