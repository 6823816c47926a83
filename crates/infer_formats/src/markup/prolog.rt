//! The prolog of markup, and the tag after it.
ghost use Rattle.std.specs.Prelude.{◌≡◌, ◌↔◌, Some, ◌+◌, ◌++◌, ◌<◌, ◌≤◌, ℕ, List, Option, None, length, codes, slice_index, IsTrue, MatchOption};
ghost use Rattle.infer_deep.specs.Places.{FindsPlace};
ghost use Rattle.infer_formats.specs.Runs.{IsAfterLast, IsRun};
ghost use Rattle.infer_formats.specs.Markup.{AgreesWithDoctype, BeginsAt, ClosesAfter, ClosesDeclaration, EndsProlog, EndsSubset, IsDoctype, IsEnclosed, IsMisc, IsNameByte, IsPart, IsPastPiece, IsPlainByte, IsSpaceRun, IsXmlSpace, ReachesTag, StartsElement, StartsTag};

use super::names::{begins_element, ends_type, is_name_byte, is_xml_space};
use crate::search::find_closing;
use infer_deep::places::{has_at, same_at, stands_at};
use memchr::memchr2;

/// How far the prolog has been read, whether the tag of an element starts there, and where the name of the document type
/// stands that it declares.
#[derive(Clone, Copy)]
pub(super) struct Reached {
    pub(super) place: usize,
    pub(super) starts: bool,
    pub(super) doctype: Option<usize>,
}

/// Where white space, instructions and comments end, and whether the tag of an element starts there.
#[derive(Clone, Copy)]
struct Stop {
    place: usize,
    starts: bool,
}

/// Where the name of a document type begins, and where the ">" at the end of its declaration is.
#[derive(Clone, Copy)]
struct Doctype {
    name: usize,
    close: usize,
}

/// Where the local name of an element begins and ends.
#[derive(Clone, Copy)]
pub(super) struct Tag {
    pub(super) at: usize,
    pub(super) to: usize,
}

/// Where the prolog begins: after a byte order mark, if there is one.
pub(super) fn prolog_start(buf: &[u8]) -> usize
    ensures begins { BeginsAt buf.now result }
    ensures within { result ≤ length buf.now }
{
    if has_at(buf, b"\xEF\xBB\xBF", 0) {
        3
    } else {
        0
    }
}

/// Where the prolog ends, wherever it begins. A buffer that begins with an element has none.
#[inline(always)]
pub(super) fn prolog_after(buf: &[u8]) -> Reached
    ensures tag { (p : ℕ) × BeginsAt buf.now p
        × ((at to : ℕ) → ReachesTag buf.now at to p None
        ↔ StartsTag buf.now at to result.place result.doctype) }
    ensures within { result.place ≤ length buf.now }
    ensures starts { IsTrue result.starts ↔ StartsElement buf.now result.place }
{
    if starts_element(buf, 0) {
        return Reached {
            place: 0,
            starts: true,
            doctype: None,
        };
    }
    prolog_end(buf, prolog_start(buf))
}

/// Where the prolog that begins at that place ends.
#[inline(always)]
pub(super) fn prolog_end(buf: &[u8], start: usize) -> Reached
    requires { start ≤ length buf.now }
    ensures tag { (at to : ℕ) → ReachesTag buf.now at to start None
        ↔ StartsTag buf.now at to result.place result.doctype }
    ensures grown { (more : List ℕ) (at to : ℕ)
        → ReachesTag (buf.now ++ more) at to start None
        ↔ ReachesTag (buf.now ++ more) at to result.place result.doctype }
    ensures ends { (q : ℕ) (e : Option ℕ) → ¬ IsPart buf.now result.place result.doctype q e }
    ensures within { result.place ≤ length buf.now }
    ensures starts { IsTrue result.starts ↔ StartsElement buf.now result.place }
{
    let stop = miscs_end(buf, start);
    if stop.starts {
        return Reached {
            place: stop.place,
            starts: true,
            doctype: None,
        };
    }
    past_doctype(buf, stop.place)
}

/// [`prolog_end`] where no tag starts. A function of its own, so that most buffers take nothing of what it needs.
#[inline(never)]
fn past_doctype(buf: &[u8], place: usize) -> Reached
    requires within { place ≤ length buf.now }
    requires no_misc { (q : ℕ) → ¬ IsMisc buf.now place q }
    requires no_tag { ¬ StartsElement buf.now place }
    ensures ends { EndsProlog buf.now place result.place result.doctype }
    ensures starts { IsTrue result.starts ↔ StartsElement buf.now result.place }
{
    match doctype_at(buf, place) {
        Some(doctype) => {
            let stop = miscs_end(buf, doctype.close + 1);
            Reached {
                place: stop.place,
                starts: stop.starts,
                doctype: Some(doctype.name),
            }
        }
        None => Reached {
            place,
            starts: false,
            doctype: None,
        },
    }
}

/// Where the white space, the processing instructions and the comments that begin there end.
#[inline(always)]
fn miscs_end(buf: &[u8], start: usize) -> Stop
    requires { start ≤ length buf.now }
    ensures within { result.place ≤ length buf.now }
    ensures leads { (d : Option ℕ) (more : List ℕ) (at to : ℕ)
        → ReachesTag (buf.now ++ more) at to start d
        ↔ ReachesTag (buf.now ++ more) at to result.place d }
    ensures ends { (q : ℕ) → ¬ IsMisc buf.now result.place q }
    ensures starts { IsTrue result.starts ↔ StartsElement buf.now result.place }
{
    let mut place = spaces_end(buf, start);
    while !starts_element(buf, place) {
        match misc_end(buf, place) {
            Some(next) => place = spaces_end(buf, next),
            None => {
                return Stop {
                    place,
                    starts: false,
                };
            }
        }
    }
    Stop {
        place,
        starts: true,
    }
}

/// Whether "<" stands there and a byte of an element's name after it.
#[inline(always)]
fn starts_element(buf: &[u8], place: usize) -> bool
    requires { place ≤ length buf.now }
    ensures { IsTrue result ↔ StartsElement buf.now place }
{
    let next = place + 1;
    next < buf.len() && buf[place] == b'<' && begins_element(buf[next])
}

/// Where the white space that stands there ends, of which there may be none.
#[inline(always)]
fn spaces_end(buf: &[u8], place: usize) -> usize
    requires { place ≤ length buf.now }
    ensures low { place ≤ result }
    ensures high { result ≤ length buf.now }
    ensures spaces { (k : ℕ) → place ≤ k → k < result → IsXmlSpace (slice_index buf.now k) }
    ensures ends { ¬ IsXmlSpace (slice_index buf.now result) }
{
    for end in place..buf.len() {
        if !is_xml_space(buf[end]) {
            return end;
        }
    }
    buf.len()
}

/// Where the processing instruction or the comment ends that stands there, where no white space does. The byte after
/// its "<" shows which it is.
#[inline(always)]
fn misc_end(buf: &[u8], place: usize) -> Option<usize>
    requires within { place ≤ length buf.now }
    requires no_space { ¬ IsXmlSpace (slice_index buf.now place) }
    ensures { FindsPlace (IsMisc buf.now place) result }
{
    let next = place + 1;
    if next >= buf.len() || buf[place] != b'<' {
        return None;
    }
    match buf[next] {
        b'?' => instruction_end(buf, place),
        b'!' => enclosed_end(buf, b"<!--", b"-->", place),
        _ => None,
    }
}

/// Where the white space that stands there ends, if the buffer goes on.
pub(super) fn space_end(buf: &[u8], place: usize) -> Option<usize>
    requires { place ≤ length buf.now }
    ensures { FindsPlace (IsSpaceRun buf.now place) result }
{
    let end = spaces_end(buf, place);
    if end == place || end == buf.len() {
        return None;
    }
    Some(end)
}

/// Where the processing instruction that begins there ends.
#[inline(always)]
fn instruction_end(buf: &[u8], place: usize) -> Option<usize>
    requires whole { place + 1 < length buf.now }
    requires starts { slice_index buf.now place ≡ 0x3C }
    requires begins { slice_index buf.now (place + 1) ≡ 0x3F }
    ensures { FindsPlace (IsEnclosed buf.now (codes "<?") (codes "?>") place) result }
{
    let end = find_closing(buf, b"?>", place + 2)?;
    Some(end + 2)
}

/// Where what stands there in `opening` and `closing` ends.
#[inline(always)]
fn enclosed_end<const N: usize, const M: usize>(
    buf: &[u8],
    opening: &[u8; N],
    closing: &[u8; M],
    place: usize,
) -> Option<usize>
    requires some { 0 < M }
    requires within { place ≤ length buf.now }
    ensures { FindsPlace (IsEnclosed buf.now opening.now closing.now place) result }
{
    if buf.len() - place < N {
        return None;
    }
    if !same_at(buf, opening, place) {
        return None;
    }
    let end = find_closing(buf, closing, place + N)?;
    Some(end + M)
}

/// The document type declaration that stands there.
fn doctype_at(buf: &[u8], place: usize) -> Option<Doctype>
    requires { place ≤ length buf.now }
    ensures { MatchOption result ((name close : ℕ) → ¬ IsDoctype buf.now place name close)
        (λ d. IsDoctype buf.now place d.name d.close) }
{
    if !has_at(buf, b"<!DOCTYPE", place) {
        return None;
    }
    let name = space_end(buf, place + 9)?;
    let close = declaration_close(buf, name)?;
    Some(Doctype { name, close })
}

/// Where the ">" is that closes the declaration: the first from that place on, or after an internal subset if "[" stands
/// before it.
#[tactic(auto, using(crate::proofs::SubsetLemmas::closes_after))]
fn declaration_close(buf: &[u8], from: usize) -> Option<usize>
    requires { from ≤ length buf.now }
    ensures { FindsPlace (ClosesDeclaration buf.now from) result }
{
    let stop = plain_end(buf, from)?;
    if buf[stop] == b'>' {
        return Some(stop);
    }
    subset_close(buf, stop)
}

/// Where the first ">" or "[" from that place on is.
fn plain_end(buf: &[u8], from: usize) -> Option<usize>
    requires { from ≤ length buf.now }
    ensures { FindsPlace (IsRun IsPlainByte buf.now from) result }
{
    Some(from + memchr2(b'>', b'[', &buf[from..])?)
}

/// Where the ">" is that stands after the internal subset which begins after that bracket.
#[tactic(auto, using(crate::proofs::SubsetLemmas::subset_within))]
fn subset_close(buf: &[u8], bracket: usize) -> Option<usize>
    requires { bracket < length buf.now }
    ensures { FindsPlace (ClosesAfter buf.now bracket) result }
{
    let end = subset_end(buf, bracket + 1)?;
    let close = spaces_end(buf, end + 1);
    if close == buf.len() || buf[close] != b'>' {
        return None;
    }
    Some(close)
}

/// Where the "]" is up to which an internal subset goes on from that place.
fn subset_end(buf: &[u8], from: usize) -> Option<usize>
    requires { from ≤ length buf.now }
    ensures { FindsPlace (λ end. EndsSubset buf.now end from) result }
{
    let mut place = from;
    while place < buf.len() {
        if buf[place] == b']' {
            return Some(place);
        }
        place = past_piece(buf, place)?;
    }
    None
}

/// What follows on the byte of an internal subset that stands there, or on what begins by it and has an end of its own. `None`
/// if that does not end.
#[tactic(auto, using(crate::proofs::SubsetLemmas::opens_none, crate::proofs::SubsetLemmas::past_quoted, crate::proofs::SubsetLemmas::past_ticked))]
fn past_piece(buf: &[u8], place: usize) -> Option<usize>
    requires whole { place < length buf.now }
    ensures { IsPastPiece buf.now place result }
{
    match buf[place] {
        b'"' => enclosed_end(buf, b"\"", b"\"", place),
        b'\'' => enclosed_end(buf, b"'", b"'", place),
        b'<' => past_opening(buf, place),
        _ => Some(place + 1),
    }
}

/// [`past_piece`] of a "<".
#[tactic(auto, using(crate::proofs::SubsetLemmas::opens_no_tag, crate::proofs::SubsetLemmas::past_comment, crate::proofs::SubsetLemmas::past_instruction))]
fn past_opening(buf: &[u8], place: usize) -> Option<usize>
    requires whole { place < length buf.now }
    requires opens { slice_index buf.now place ≡ 0x3C }
    ensures { IsPastPiece buf.now place result }
{
    if has_at(buf, b"<?", place) {
        return enclosed_end(buf, b"<?", b"?>", place);
    }
    if has_at(buf, b"<!--", place) {
        return enclosed_end(buf, b"<!--", b"-->", place);
    }
    Some(place + 1)
}

/// The tag of an element that starts where the prolog ends.
#[inline(always)]
pub(super) fn tag_at(buf: &[u8], reached: Reached) -> Option<Tag>
    requires { IsTrue reached.starts ↔ StartsElement buf.now reached.place }
    ensures { MatchOption result ((at to : ℕ)
        → ¬ StartsTag buf.now at to reached.place reached.doctype)
        (λ t. StartsTag buf.now t.at t.to reached.place reached.doctype) }
{
    if !reached.starts {
        return None;
    }
    let from = reached.place + 1;
    let tag = read_name(buf, from)?;
    if !is_declared(buf, reached.doctype, from, tag.to) {
        return None;
    }
    if tag.at == tag.to {
        return None;
    }
    Some(tag)
}

/// The name of an element that stands there, if the buffer goes on.
#[inline(always)]
fn read_name(buf: &[u8], from: usize) -> Option<Tag>
    requires { from ≤ length buf.now }
    ensures { MatchOption result ((to : ℕ) → ¬ IsRun IsNameByte buf.now from to)
        (λ t. IsRun IsNameByte buf.now from t.to × IsAfterLast 0x3A buf.now from t.to t.at) }
{
    let mut at = from;
    for to in from..buf.len() {
        let byte = buf[to];
        // Most bytes are decided by this test.
        if byte > b'>' {
            continue;
        }
        if byte == b':' {
            at = to + 1;
        } else if !is_name_byte(byte) {
            return Some(Tag { at, to });
        }
    }
    None
}

/// Whether the name of an element is that of the document type, if one was declared.
fn is_declared(buf: &[u8], doctype: Option<usize>, from: usize, to: usize) -> bool
    requires { IsRun IsNameByte buf.now from to }
    ensures { IsTrue result ↔ AgreesWithDoctype buf.now doctype from to }
{
    match doctype {
        Some(name) => is_doctype(buf, name, from, to),
        None => true,
    }
}

/// Whether the name of an element is that of a document type, which begins at `name`.
fn is_doctype(buf: &[u8], name: usize, from: usize, to: usize) -> bool
    requires { IsRun IsNameByte buf.now from to }
    ensures { IsTrue result ↔ AgreesWithDoctype buf.now (Some name) from to }
{
    if !stands_at(buf, &buf[from..to], name) {
        return false;
    }
    let end = name + (to - from);
    end < buf.len() && ends_type(buf[end])
}
