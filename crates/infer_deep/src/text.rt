//! Text that begins with markup.
ghost use Rattle.std.specs.Prelude.{◌≡◌, ◌↔◌, ◌⊎◌, ◌<◌, ◌≤◌, map, length, slice_index, Any, IfSome, IsTrue, MatchOption};
ghost use Rattle.std.specs.Bool.{OnTrue};
ghost use Rattle.std.specs.Char.{to_ascii_lowercase};
ghost use Rattle.infer_deep.specs.Blocks.{AllBelow};
ghost use Rattle.infer_deep.specs.Joined.{BeginsWith, LeadsTo, NoneBegins, SkipsTo};
ghost use Rattle.infer_deep.specs.Text.{BeginsInAnyCase, BeginsWithTag, IsHtml, IsMark, IsSpace, IsWhite, IsXml, tags_with};
ghost use Rattle.infer_deep.specs.Signatures.{MayBecome};

use crate::places::{agrees_at, has_at};

const BIG_MARKS: [u8; 32] = *b"\xFE\xFF\xFE\xFF\xFE\xFF\xFE\xFF\xFE\xFF\xFE\xFF\xFE\xFF\xFE\xFF\
    \xFE\xFF\xFE\xFF\xFE\xFF\xFE\xFF\xFE\xFF\xFE\xFF\xFE\xFF\xFE\xFF";

const LITTLE_MARKS: [u8; 32] = *b"\xFF\xFE\xFF\xFE\xFF\xFE\xFF\xFE\xFF\xFE\xFF\xFE\xFF\xFE\xFF\xFE\
    \xFF\xFE\xFF\xFE\xFF\xFE\xFF\xFE\xFF\xFE\xFF\xFE\xFF\xFE\xFF\xFE";

const UTF8_MARKS: [u8; 24] =
    *b"\xEF\xBB\xBF\xEF\xBB\xBF\xEF\xBB\xBF\xEF\xBB\xBF\xEF\xBB\xBF\xEF\xBB\xBF\xEF\xBB\xBF\xEF\xBB\xBF";

/// HTML: any white space (09 0A 0C 0D 20), then one of 17 tags in any ASCII case, then a space or ">".
///
/// The 17 rows of HTML in the WHATWG's MIME Sniffing Standard accept the same buffers, as a law of `mime_sniff` says.
pub fn is_html(buf: &[u8]) -> bool
    ensures { IsTrue result ↔ IsHtml buf.now }
{
    let text = trim_start_whitespaces(buf);
    if !opens_tag(text) {
        return false;
    }
    begins_with_some_tag(text, tags_with(text[1]))
}

/// XML: any white space (09 0A 0C 0D 20), then any byte order marks (EF BB BF, FE FF, FF FE), then "<?xml" in any
/// ASCII case.
///
/// The marks are only passed over, so XML in UTF-16 is not found. The WHATWG's MIME Sniffing Standard takes small letters
/// alone, and no marks.
pub fn is_xml(buf: &[u8]) -> bool
    ensures { IsTrue result ↔ IsXml buf.now }
{
    let text = trim_start_byte_order_marks(trim_start_whitespaces(buf));
    begins_in_any_case(text, b"<?xml")
}

/// Whether some bytes after `buf` make it HTML.
// A function of its own, so that a caller that asks many rows saves fewer registers.
#[inline(never)]
pub fn may_become_html(buf: &[u8]) -> bool
    ensures { IsTrue result ↔ MayBecome IsHtml buf.now }
{
    let text = trim_start_whitespaces(buf);
    if text.len() < 2 {
        return text.is_empty() || text[0] == b'<';
    }
    text[0] == b'<' && may_begin_some_tag(text, tags_with(text[1]))
}

/// Whether some bytes after `buf` make it XML.
pub fn may_become_xml(buf: &[u8]) -> bool
    ensures { IsTrue result ↔ MayBecome IsXml buf.now }
{
    let text = trim_start_byte_order_marks(trim_start_whitespaces(buf));
    may_begin_in_any_case(text, b"<?xml") || may_become_mark(text)
}

/// What follows the white space at the front of `buf`, which is HTML or XML exactly if `buf` is.
///
/// Whoever asks for both asks them of this, and pays for the white space once.
pub fn after_white_space(buf: &[u8]) -> &[u8]
    ensures skips { SkipsTo IsSpace buf.now result.now }
    ensures stops { NoneBegins IsSpace result.now }
    ensures html { IsHtml result.now ↔ IsHtml buf.now }
    ensures xml { IsXml result.now ↔ IsXml buf.now }
{
    trim_start_whitespaces(buf)
}

fn opens_tag(text: &[u8]) -> bool
    ensures { IsTrue result ↔ ((1 < length text.now) × (slice_index text.now 0 ≡ 0x3C)) }
{
    text.len() > 1 && text[0] == b'<'
}

/// The tags with this second byte, in any ASCII case. A text begins with no other tag than those with its own.
#[tactic(auto, unfolding(crate::specs::Text::tags_with))]
fn tags_with(second: u8) -> &'static [&'static [u8]]
    ensures { map (λ tag. tag.now) result.now ≡ tags_with (to_ascii_lowercase second) }
{
    match second.to_ascii_lowercase() {
        b'!' => &[b"<!DOCTYPE HTML", b"<!--"],
        b'a' => &[b"<A"],
        b'b' => &[b"<B", b"<BODY", b"<BR"],
        b'd' => &[b"<DIV"],
        b'f' => &[b"<FONT"],
        b'h' => &[b"<HTML", b"<HEAD", b"<H1"],
        b'i' => &[b"<IFRAME"],
        b'p' => &[b"<P"],
        b's' => &[b"<SCRIPT", b"<STYLE"],
        b't' => &[b"<TABLE", b"<TITLE"],
        _ => &[],
    }
}

fn trim_start_whitespaces(buf: &[u8]) -> &[u8]
    ensures skips { SkipsTo IsSpace buf.now result.now }
    ensures stops { NoneBegins IsSpace result.now }
{
    // Most text begins with little white space, for which whole blocks do not pay.
    if buf.len() < 16 || !is_white(buf[0]) || !is_white(buf[15]) {
        return after_spaces(buf);
    }
    after_spaces(after_white_blocks::<16>(after_white_blocks::<64>(buf)))
}

/// What follows the blocks of `N` white bytes at the front of `buf`.
fn after_white_blocks<const N: usize>(mut buf: &[u8]) -> &[u8]
    requires some { 0 < N }
    requires small { N ≤ 64 }
    ensures { LeadsTo IsSpace buf.entry.now result.now }
{
    while let Some((block, rest)) = buf.split_first_chunk::<N>() {
        if !all_white(block) {
            break;
        }
        buf = rest;
    }
    buf
}

/// Whether each byte of the block is white. Mostly all of them are spaces, which is seen sooner.
fn all_white<const N: usize>(block: &[u8; N]) -> bool
    requires { N ≤ 64 }
    ensures { OnTrue result (AllBelow IsWhite block.now N) }
{
    all_spaces(block) || all_of_any_white(block)
}

fn all_spaces<const N: usize>(block: &[u8; N]) -> bool
    requires { N ≤ 64 }
    ensures { OnTrue result (AllBelow IsWhite block.now N) }
{
    let mut all = true;
    for byte in block {
        all &= *byte == b' ';
    }
    all
}

fn all_of_any_white<const N: usize>(block: &[u8; N]) -> bool
    requires { N ≤ 64 }
    ensures { OnTrue result (AllBelow IsWhite block.now N) }
{
    // No early exit: of a loop whose length is known the compiler makes vectors.
    let mut all = true;
    for byte in block {
        all &= is_white(*byte);
    }
    all
}

#[tactic(auto, using(crate::proofs::JoinedLemmas::leads_past))]
fn after_spaces(mut buf: &[u8]) -> &[u8]
    ensures skips { SkipsTo IsSpace buf.entry.now result.now }
    ensures stops { NoneBegins IsSpace result.now }
{
    while let Some(rest) = after_space(buf) {
        buf = rest;
    }
    buf
}

#[tactic(auto, using(crate::proofs::TextLemmas::space_begins))]
fn after_space(buf: &[u8]) -> Option<&[u8]>
    ensures { MatchOption result (NoneBegins IsSpace buf.now)
        (λ rest. BeginsWith IsSpace buf.now rest.now) }
{
    if buf.is_empty() || !is_white(buf[0]) {
        return None;
    }
    Some(&buf[1..])
}

fn is_white(byte: u8) -> bool
    ensures { IsTrue result ↔ IsWhite byte }
{
    // Without branches, so that many bytes are tested at once.
    (byte == b' ') | ((byte >= b'\t') & (byte <= b'\r') & (byte != 0x0B))
}

fn trim_start_byte_order_marks(buf: &[u8]) -> &[u8]
    ensures skips { SkipsTo IsMark buf.now result.now }
    ensures stops { NoneBegins IsMark result.now }
{
    // Most text begins with one mark at most, for which whole blocks do not pay.
    if buf.len() < 32 || buf[31] < 0xBB {
        return after_marks(buf);
    }
    after_marks(after_mark_blocks(buf))
}

/// What follows the blocks of eight or sixteen equal marks at the front of `buf`.
#[inline(never)]
fn after_mark_blocks(mut buf: &[u8]) -> &[u8]
    ensures { LeadsTo IsMark buf.entry.now result.now }
{
    while let Some(rest) = after_mark_block(buf) {
        buf = rest;
    }
    buf
}

fn after_mark_block(buf: &[u8]) -> Option<&[u8]>
    ensures leads { IfSome result (λ rest. LeadsTo IsMark buf.now rest.now) }
    ensures shorter { IfSome result (λ rest. length rest.now < length buf.now) }
{
    if has_at(buf, &BIG_MARKS, 0) {
        return Some(&buf[32..]);
    }
    if has_at(buf, &LITTLE_MARKS, 0) {
        return Some(&buf[32..]);
    }
    if has_at(buf, &UTF8_MARKS, 0) {
        return Some(&buf[24..]);
    }
    None
}

#[tactic(auto, using(crate::proofs::JoinedLemmas::leads_past))]
fn after_marks(mut buf: &[u8]) -> &[u8]
    ensures skips { SkipsTo IsMark buf.entry.now result.now }
    ensures stops { NoneBegins IsMark result.now }
{
    while let Some(rest) = after_mark(buf) {
        buf = rest;
    }
    buf
}

#[tactic(auto, using(crate::proofs::TextLemmas::long_mark, crate::proofs::TextLemmas::short_mark))]
fn after_mark(buf: &[u8]) -> Option<&[u8]>
    ensures { MatchOption result (NoneBegins IsMark buf.now)
        (λ rest. BeginsWith IsMark buf.now rest.now) }
{
    if has_at(buf, b"\xEF\xBB\xBF", 0) {
        return Some(&buf[3..]);
    }
    if has_at(buf, b"\xFE\xFF", 0) || has_at(buf, b"\xFF\xFE", 0) {
        return Some(&buf[2..]);
    }
    None
}

#[tactic(auto, using(crate::proofs::TextLemmas::reaches_mark))]
fn may_become_mark(buf: &[u8]) -> bool
    requires { NoneBegins IsMark buf.now }
    ensures { IsTrue result ↔ MayBecome IsMark buf.now }
{
    agrees_at(buf, b"\xEF\xBB\xBF", 0)
        || agrees_at(buf, b"\xFE\xFF", 0)
        || agrees_at(buf, b"\xFF\xFE", 0)
}

fn begins_with_some_tag(buf: &[u8], tags: &[&[u8]]) -> bool
    ensures { IsTrue result ↔ Any (λ tag. BeginsWithTag tag buf.now) (map (λ t. t.now) tags.now) }
{
    tags.iter().any(|tag| begins_with_tag(buf, tag))
}

#[tactic(auto, using(crate::proofs::TextLemmas::tag_from_text, crate::proofs::TextLemmas::text_of_tag))]
fn begins_with_tag(buf: &[u8], tag: &[u8]) -> bool
    ensures { IsTrue result ↔ BeginsWithTag tag.now buf.now }
{
    if buf.len() <= tag.len() || !closes_tag(buf[tag.len()]) {
        return false;
    }
    begins_in_any_case(buf, tag)
}

fn closes_tag(byte: u8) -> bool
    ensures { IsTrue result ↔ ((byte ≡ 0x20) ⊎ (byte ≡ 0x3E)) }
{
    matches!(byte, b' ' | b'>')
}

#[tactic(auto, using(crate::proofs::TextLemmas::begins_in_any_case, crate::proofs::TextLemmas::front_in_any_case))]
fn begins_in_any_case(buf: &[u8], text: &[u8]) -> bool
    ensures { IsTrue result ↔ BeginsInAnyCase text.now buf.now }
{
    buf.len() >= text.len() && buf[..text.len()].eq_ignore_ascii_case(text)
}

fn may_begin_some_tag(buf: &[u8], tags: &[&[u8]]) -> bool
    ensures { IsTrue result
        ↔ Any (λ tag. MayBecome (BeginsWithTag tag) buf.now) (map (λ t. t.now) tags.now) }
{
    tags.iter().any(|tag| may_begin_tag(buf, tag))
}

#[tactic(auto, using(crate::proofs::TextLemmas::tag_reached, crate::proofs::TextLemmas::text_reached, crate::proofs::TextLemmas::tag_end, crate::proofs::OpenLemmas::test_from_reads))]
fn may_begin_tag(buf: &[u8], tag: &[u8]) -> bool
    ensures { IsTrue result ↔ MayBecome (BeginsWithTag tag.now) buf.now }
{
    if buf.len() > tag.len() && !closes_tag(buf[tag.len()]) {
        return false;
    }
    may_begin_in_any_case(buf, tag)
}

#[tactic(auto, using(crate::proofs::TextLemmas::known_from_reached, crate::proofs::TextLemmas::reached_from_known, crate::proofs::OpenLemmas::test_from_reads))]
fn may_begin_in_any_case(buf: &[u8], text: &[u8]) -> bool
    ensures { IsTrue result ↔ MayBecome (BeginsInAnyCase text.now) buf.now }
{
    let known = buf.len().min(text.len());
    buf[..known].eq_ignore_ascii_case(&text[..known])
}
