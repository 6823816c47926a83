//! JSON texts, of which a buffer may have the beginning only: RFC 8259, sections 2 to 7, and RFC 3629, section 4.
ghost use Rattle.std.specs.Prelude.{◌≡◌, ◌⊎◌, ◌↔◌, [], None, IsTrue, not};
ghost use Rattle.std.specs.Bool.{OnTrue};
ghost use Rattle.infer_formats.specs.Json.{IsBlank, IsJson, IsJsonLines, SaysJson, text};
ghost use Rattle.infer_formats.specs.JsonStates.{IsBracket, SaysJsonBefore, SaysJsonPastMark, IsPastMark, StartsLine};

mod key;
mod lines;
mod may_become;
mod reader;
mod token;

pub use key::{
    Key, first_dark, first_key, has_first_key, has_first_key_with, may_have_first_key,
    may_have_first_key_with,
};
use lines::{Line, begins_line, is_bracket, past_blanks, read_line};
pub use may_become::{may_become_json, may_become_json_lines};
use token::has_token;

/// What JSON a buffer is.
#[derive(Clone, Copy, Debug, PartialEq, Eq)]
pub enum Json {
    /// One text.
    Text,
    /// JSON lines.
    Lines,
}

/// JSON, or its beginning: an array or an object, with only white space around it.
///
/// Some bytes can follow `buf`, or none need to, so that the whole is one text, whose brackets are nested at most 128
/// deep and whose strings are UTF-8. A number, a name, an escape or a character may be cut at the end. But after the
/// first bracket at least one token is whole: a bracket, a colon, a comma, a string, a name, or a number with a byte after
/// it. A byte order mark (EF BB BF) may stand first.
pub fn is_json(buf: &[u8]) -> bool
    ensures { IsTrue result ↔ IsJson buf.now }
{
    match json_of(buf) {
        Some(Json::Text) => true,
        Some(Json::Lines) | None => false,
    }
}

/// JSON lines, or their beginning: arrays and objects as in [`is_json`], of which the second has begun, with white space
/// and at least one line end (0A) between any two.
pub fn is_json_lines(buf: &[u8]) -> bool
    ensures { IsTrue result ↔ IsJsonLines buf.now }
{
    match json_of(buf) {
        Some(Json::Lines) => true,
        Some(Json::Text) | None => false,
    }
}

/// Which of the two a buffer is, and `None` if neither: it is never both. It is read once.
pub fn json_of(buf: &[u8]) -> Option<Json>
    ensures { SaysJson buf.now result }
{
    if may_begin(buf) {
        json_begun(buf)
    } else {
        None
    }
}

/// Whether white space, a bracket or the first byte of a mark stands first. Most of what is no JSON costs no call.
fn may_begin(buf: &[u8]) -> bool
    ensures { OnTrue (not result) (SaysJson buf.now None) }
{
    if buf.is_empty() {
        return false;
    }
    begins_json(buf[0])
}

fn begins_json(byte: u8) -> bool
    ensures { IsTrue result ↔ (IsBlank byte ⊎ IsBracket byte ⊎ (byte ≡ 0xEF)) }
{
    matches!(byte, b'\t' | b'\n' | b'\r' | b' ' | b'[' | b'{' | 0xEF)
}

/// [`json_of`] what may be JSON.
#[tactic(auto, using(crate::proofs::LineLemmas::json_past))]
#[inline(never)]
fn json_begun(buf: &[u8]) -> Option<Json>
    ensures { SaysJson buf.now result }
{
    json_past_mark(past_mark(buf))
}

/// What stands after the byte order mark, if there is one.
fn past_mark(buf: &[u8]) -> &[u8]
    ensures { IsPastMark buf.now result.now }
{
    match buf.strip_prefix(b"\xEF\xBB\xBF") {
        Some(rest) => rest,
        None => buf,
    }
}

/// [`json_of`] of what stands after a mark.
fn json_past_mark(buf: &[u8]) -> Option<Json>
    ensures { SaysJsonPastMark buf.now result }
{
    let text = past_blanks(buf);
    let [first, rest @ ..] = text else {
        return None;
    };
    if !is_bracket(*first) {
        return None;
    }
    match read_line(text) {
        Line::Whole(next) => json_before(rest, next),
        Line::Cut => json_after(rest),
        Line::Wrong => None,
    }
}

/// What JSON a buffer is whose first text is whole, by what stands after its bracket and on the next lines.
fn json_before(rest: &[u8], next: &[u8]) -> Option<Json>
    requires { StartsLine next.now }
    ensures { SaysJsonBefore rest.now next.now result }
{
    if next.is_empty() {
        return json_after(rest);
    }
    if begins_line(next) {
        Some(Json::Lines)
    } else {
        None
    }
}

/// One text, if a token is whole after its bracket.
fn json_after(rest: &[u8]) -> Option<Json>
    ensures { SaysJsonBefore rest.now [] result }
{
    if has_token(rest) {
        Some(Json::Text)
    } else {
        None
    }
}
