//! The header `X-Content-Type-Options`, and what it blocks.
ghost use Rattle.std.specs.Prelude.{◌≡◌, ◌↔◌, ◌≤◌, ◌-◌, IsTrue, drop, length, take};
ghost use Rattle.std.specs.List.{prefix_len, suffix_len};
ghost use Rattle.mime_types.specs.Nosniff.{IsBlocked, IsNosniff, is_blank, ends_piece, next_place, piece_len, trim_blanks};

use crate::groups::is_same;
use crate::mime_type::MimeType;

/// What a response is fetched for.
#[derive(Clone, Copy)]
pub enum Destination {
    /// Scripts, workers and worklets.
    Script,
    /// A style sheet.
    Style,
    /// Anything else.
    Other,
}

/// Whether a response with `nosniff` is blocked, by its MIME type and what it is fetched for.
pub fn is_blocked(told: Option<MimeType<'_>>, destination: Destination) -> bool
    ensures { IsTrue result ↔ IsBlocked told.entry destination }
{
    match (told, destination) {
        (_, Destination::Other) => false,
        (None, _) => true,
        (Some(found), Destination::Script) => !found.is_javascript(),
        (Some(found), Destination::Style) => !found.is(b"text", b"css"),
    }
}

/// Whether the value of `X-Content-Type-Options` forbids to sniff. Several values are given as one, with `, ` between
/// them.
///
/// ```
/// assert!(rt; mime_types::is_nosniff(b"NoSniff, x"));
/// ```
pub fn is_nosniff(value: &[u8]) -> bool
    ensures { IsTrue result ↔ IsNosniff value.now }
{
    is_same(trim_blanks(&value[..piece_len(value)]), b"nosniff")
}

#[derive(Clone, Copy)]
enum Place {
    Outside,
    Quoted,
    Escaped,
}

/// How many bytes stand before the first comma outside of quotes, or how many there are.
pub(crate) fn piece_len(text: &[u8]) -> usize
    ensures value { result ≡ piece_len Place.Outside text.now }
    ensures bound { result ≤ length text.now }
{
    let mut place = Place::Outside;
    for at in 0..text.len() {
        if ends_piece(place, text[at]) {
            return at;
        }
        place = next_place(place, text[at]);
    }
    text.len()
}

fn ends_piece(place: Place, byte: u8) -> bool
    ensures { result ≡ ends_piece place byte }
{
    match place {
        Place::Outside => byte == b',',
        Place::Quoted | Place::Escaped => false,
    }
}

fn next_place(place: Place, byte: u8) -> Place
    ensures { result ≡ next_place place byte }
{
    match (place, byte) {
        (Place::Outside, b'"') => Place::Quoted,
        (Place::Outside, _) => Place::Outside,
        (Place::Quoted, b'"') => Place::Outside,
        (Place::Quoted, b'\\') => Place::Escaped,
        (Place::Quoted, _) => Place::Quoted,
        (Place::Escaped, _) => Place::Quoted,
    }
}

/// The text without tabs and blanks at both ends.
pub(crate) fn trim_blanks(text: &[u8]) -> &[u8]
    ensures { result.now ≡ trim_blanks text.now }
{
    blanks_after(blanks_before(text))
}

fn blanks_before(text: &[u8]) -> &[u8]
    ensures { result.now ≡ drop (prefix_len is_blank text.now) text.now }
{
    for at in 0..text.len() {
        if !is_blank(text[at]) {
            return &text[at..];
        }
    }
    &[]
}

#[tactic(auto, using(crate::proofs::BlankLemmas::all_blank, crate::proofs::BlankLemmas::ends_after))]
fn blanks_after(text: &[u8]) -> &[u8]
    ensures { result.now ≡ take (length text.now - suffix_len is_blank text.now) text.now }
{
    for end in (0..text.len()).rev() {
        if !is_blank(text[end]) {
            return &text[..end + 1];
        }
    }
    &[]
}

fn is_blank(byte: u8) -> bool
    ensures { result ≡ is_blank byte }
{
    byte == b'\t' || byte == b' '
}
