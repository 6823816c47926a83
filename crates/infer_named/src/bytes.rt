//! What is asked of the bytes beside their wider answer: their kind, and what they begin with.
ghost use Rattle.std.specs.Prelude.{◌≡◌, ◌↔◌, IsTrue, None, Some, if◌then◌else◌, take};
ghost use Rattle.infer.specs.Leads.{is_white};
ghost use Rattle.infer_named.specs.Bytes.{HasZero, IsKind, lead_bytes, lead_of, shown, without_white};

use memchr::memchr;

/// What bytes are, as far as names ask.
#[derive(Clone, Copy, Debug)]
pub enum Kind {
    /// There are none.
    Empty,
    /// A text, as `infer_more::is_text` says.
    Text,
    /// No text, with a byte 00.
    Binary,
    /// No text, without a byte 00.
    Marked,
}

/// The first two bytes that are visible, or fewer if there are no more.
#[derive(Clone, Copy, Debug)]
pub enum Lead {
    Nothing,
    One([u8; 1]),
    Two([u8; 2]),
}

impl Lead {
    /// The bytes.
    pub fn bytes(&self) -> &[u8]
        ensures { result.now ≡ lead_bytes self.now }
    {
        match self {
            Lead::Nothing => &[],
            Lead::One(bytes) => bytes,
            Lead::Two(bytes) => bytes,
        }
    }
}

/// What the bytes are, as far as names ask.
pub fn kind_of(buf: &[u8]) -> Kind
    ensures { IsKind buf.now result }
{
    if buf.is_empty() {
        return Kind::Empty;
    }
    if infer_more::is_text(buf) {
        return Kind::Text;
    }
    if has_zero(buf) {
        return Kind::Binary;
    }
    Kind::Marked
}

/// Whether a byte is 00.
fn has_zero(buf: &[u8]) -> bool
    ensures { IsTrue result ↔ HasZero buf.now }
{
    memchr(0, buf).is_some()
}

/// The first two bytes after a byte order mark and white space, or fewer if there are no more. Of UTF-16 the bytes 00 are
/// left out.
pub fn lead_of(buf: &[u8]) -> Lead
    ensures { lead_bytes result ≡ lead_of buf.now }
{
    if buf.starts_with(b"\xEF\xBB\xBF") {
        return first_visible(&buf[3..], false);
    }
    if buf.starts_with(b"\xFF\xFE") || buf.starts_with(b"\xFE\xFF") {
        return first_visible(&buf[2..], true);
    }
    first_visible(buf, false)
}

/// The first two bytes after white space, or fewer if there are no more, without the bytes 00 if these are skipped.
fn first_visible(bytes: &[u8], skips_zeros: bool) -> Lead
    ensures { lead_bytes result ≡ take 2 (without_white (shown skips_zeros bytes.now)) }
{
    let mut first = None;
    for byte in bytes {
        if skips_zeros && *byte == 0 {
            continue;
        }
        match first {
            Some(found) => return Lead::Two([found, *byte]),
            None => first = visible(*byte),
        }
    }
    match first {
        Some(found) => Lead::One([found]),
        None => Lead::Nothing,
    }
}

/// The byte, if it is no white space.
fn visible(byte: u8) -> Option<u8>
    ensures { result ≡ (if is_white byte then None else Some byte) }
{
    match byte {
        b'\t' | b'\n' | 0x0C | b'\r' | b' ' => None,
        _ => Some(byte),
    }
}
