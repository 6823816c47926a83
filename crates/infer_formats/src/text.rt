//! Plain text, and how it is encoded: MIME Sniffing Standard (WHATWG), sections 3 and 7.2, and RFC 3629, section 4.
ghost use Rattle.std.specs.Prelude.{◌≡◌, ◌↔◌, ◌<◌, ◌≤◌, ℕ, length, take, drop, Some, IsTrue, not};
ghost use Rattle.std.specs.Bool.{OnTrue};
ghost use Rattle.std.specs.Str.{IsAscii};
ghost use Rattle.infer_deep.specs.Blocks.{AllBelow};
ghost use Rattle.infer_deep.specs.Text.{BeginsMarked};
ghost use Rattle.simdutf8.specs.Steps.{IsContinuation, least_after, most_after};
ghost use Rattle.infer_formats.specs.Text.{IsCutLen, SomeBelow, MayBeginChar, BeginsUtf8, IsBinary, IsDataByte, IsEncodingOf, IsPlainByte, IsText, encoding_name};

mod may_become;

use infer_deep::places::stands_at;
pub use may_become::{may_become_text, stays_text};
use simdutf8::is_utf8;
use std::fmt;

/// How a text is encoded. It is written by its IANA name.
#[derive(Clone, Copy, Debug, PartialEq, Eq)]
pub enum Encoding {
    /// Every byte is below 80.
    UsAscii,
    /// UTF-8, with a byte order mark or without.
    Utf8,
    /// UTF-16 with the low byte first, by the byte order mark FF FE.
    Utf16Le,
    /// UTF-16 with the high byte first, by the byte order mark FE FF.
    Utf16Be,
}

impl fmt::Display for Encoding {
    ghost output = { λ e. Some (encoding_name e) };

    fn fmt<W: fmt::Write>(&self, f: &mut fmt::Formatter<W>) -> fmt::Result {
        f.write_str(self.name())
    }
}

impl Encoding {
    /// Its name with IANA.
    pub fn name(self) -> &'static str
        ensures { result.now ≡ encoding_name self }
    {
        match self {
            Encoding::UsAscii => "us-ascii",
            Encoding::Utf8 => "utf-8",
            Encoding::Utf16Le => "utf-16le",
            Encoding::Utf16Be => "utf-16be",
        }
    }
}

/// Text: a byte order mark (FE FF, FF FE or EF BB BF) first, or at least one byte and none that only binary data has.
#[inline(always)]
pub fn is_text(buf: &[u8]) -> bool
    ensures { IsTrue result ↔ IsText buf.now }
{
    if buf.is_empty() {
        return false;
    }
    // Most binary data costs no call, and most texts no look for a mark.
    if buf[0] < b'\t' {
        return false;
    }
    buf[0] >= 0xEF && is_marked(buf) || !is_binary(buf)
}

/// Binary data: one of the bytes 00 to 08, 0B, 0E to 1A and 1C to 1F occurs.
pub fn is_binary(buf: &[u8]) -> bool
    ensures { IsTrue result ↔ IsBinary buf.now }
{
    if shows_data(buf) {
        return true;
    }
    let rest = &buf[printed_front(buf)..];
    has_data(&rest[plain_front(rest)..])
}

fn is_marked(buf: &[u8]) -> bool
    ensures { IsTrue result ↔ BeginsMarked buf.now }
{
    stands_at(buf, b"\xEF\xBB\xBF", 0)
        || stands_at(buf, b"\xFE\xFF", 0)
        || stands_at(buf, b"\xFF\xFE", 0)
}

/// [`is_binary`] byte by byte.
fn has_data(buf: &[u8]) -> bool
    ensures { IsTrue result ↔ IsBinary buf.now }
{
    buf.iter().any(|byte| is_data_byte(*byte))
}

fn is_data_byte(byte: u8) -> bool
    ensures { IsTrue result ↔ IsDataByte byte }
{
    matches!(byte, 0x00..=0x08 | 0x0B | 0x0E..=0x1A | 0x1C..=0x1F)
}

/// Whether one of the first 16 bytes is one of binary data. Most binary data has one there.
fn shows_data(buf: &[u8]) -> bool
    ensures { OnTrue result (IsBinary buf.now) }
{
    buf.len() >= 16 && !is_plain_piece(&buf[..16])
}

/// How many bytes at the front of `buf` surely are none of binary data, in blocks of 256.
fn printed_front(buf: &[u8]) -> usize
    ensures within { result ≤ length buf.now }
    ensures free { AllBelow IsPlainByte buf.now result }
{
    let count = buf.len() / 256;
    for k in 0..count {
        if !is_printed_block(&buf[256 * k..256 * k + 256]) {
            return 256 * k;
        }
    }
    256 * count
}

/// How many bytes at the front of `buf` surely are plain, in pieces of 16.
fn plain_front(buf: &[u8]) -> usize
    ensures within { result ≤ length buf.now }
    ensures free { AllBelow IsPlainByte buf.now result }
{
    let count = buf.len() / 16;
    for k in 0..count {
        if !is_plain_piece(&buf[16 * k..16 * k + 16]) {
            return 16 * k;
        }
    }
    16 * count
}

/// Whether the first 256 bytes are 20 or more, 0A or 09, as of most texts.
#[inline(always)]
fn is_printed_block(block: &[u8]) -> bool
    requires { 256 ≤ length block.now }
    ensures { OnTrue result (AllBelow IsPlainByte block.now 256) }
{
    // Only sums of what is least, so that the compiler makes vectors: past 0B, 0A and 09 are the greatest bytes.
    let mut least = 0xFF;
    let mut least_past = 0xFF;
    for i in 0..256 {
        least = block[i].min(least);
        least_past = block[i].wrapping_sub(0x0B).min(least_past);
    }
    least >= 0x09 && least_past >= 0x15
}

/// Whether none of the first 16 bytes is one of binary data.
#[inline(always)]
fn is_plain_piece(piece: &[u8]) -> bool
    requires { 16 ≤ length piece.now }
    ensures plain { OnTrue result (AllBelow IsPlainByte piece.now 16) }
    ensures data { OnTrue (not result) (SomeBelow IsDataByte piece.now 16) }
{
    // No early exit: of a loop whose length is known the compiler makes vectors.
    let mut all = true;
    for i in 0..16 {
        all &= is_plain_byte(piece[i]);
    }
    all
}

#[inline(always)]
fn is_plain_byte(byte: u8) -> bool
    ensures { IsTrue result ↔ IsPlainByte byte }
{
    // Without branches, so that many bytes are tested at once.
    (byte >= b' ') | ((byte >= b'\t') & (byte <= b'\r') & (byte != 0x0B)) | (byte == 0x1B)
}

/// How a text is encoded, and none for what is no text or whose encoding is unknown.
///
/// A byte order mark of UTF-16 says so. Bytes below 80 alone are US-ASCII. Else it is UTF-8 if some bytes can follow so
/// that the whole is well formed: a character that is cut at the end makes no difference.
pub fn encoding_of(buf: &[u8]) -> Option<Encoding>
    ensures { IsEncodingOf buf.now result }
{
    if stands_at(buf, b"\xFF\xFE", 0) {
        return Some(Encoding::Utf16Le);
    }
    if stands_at(buf, b"\xFE\xFF", 0) {
        return Some(Encoding::Utf16Be);
    }
    if !is_text(buf) {
        return None;
    }
    if buf.is_ascii() {
        return Some(Encoding::UsAscii);
    }
    if begins_utf8(buf) {
        return Some(Encoding::Utf8);
    }
    None
}

/// Whether some bytes after `buf` make it well-formed UTF-8: the characters are, and the last may be cut.
fn begins_utf8(buf: &[u8]) -> bool
    ensures { IsTrue result ↔ BeginsUtf8 buf.now }
{
    let (whole, cut) = buf.split_at(buf.len() - cut_len(buf));
    may_begin_char(cut) && is_utf8(whole)
}

/// How many bytes at the end of `buf` begin a character of more bytes.
fn cut_len(buf: &[u8]) -> usize
    ensures { IsCutLen buf.now result }
{
    let n = buf.len();
    if n >= 1 && buf[n - 1] >= 0xC0 {
        return 1;
    }
    if n >= 2 && buf[n - 2] >= 0xE0 {
        return 2;
    }
    if n >= 3 && buf[n - 3] >= 0xF0 {
        return 3;
    }
    0
}

/// Whether some bytes after these make a character, of which they are no more than three; or there are none.
fn may_begin_char(cut: &[u8]) -> bool
    ensures { IsTrue result ↔ MayBeginChar cut.now }
{
    match cut {
        [] => true,
        [first] => is_first(*first),
        [first, second] => is_first(*first) && may_follow(*first, *second),
        [first, second, third] => is_first(*first)
            && may_follow(*first, *second)
            && is_later(*third),
        _ => false,
    }
}

fn is_first(byte: u8) -> bool
    ensures { IsTrue result ↔ ((0xC2 ≤ byte) × (byte ≤ 0xF4)) }
{
    byte >= 0xC2 && byte <= 0xF4
}

fn may_follow(first: u8, byte: u8) -> bool
    ensures { IsTrue result ↔ ((least_after first ≤ byte) × (byte ≤ most_after first)) }
{
    let (least, most) = match first {
        0xE0 => (0xA0, 0xBF),
        0xED => (0x80, 0x9F),
        0xF0 => (0x90, 0xBF),
        0xF4 => (0x80, 0x8F),
        _ => (0x80, 0xBF),
    };
    byte >= least && byte <= most
}

fn is_later(byte: u8) -> bool
    ensures { IsTrue result ↔ IsContinuation byte }
{
    byte & 0xC0 == 0x80
}
