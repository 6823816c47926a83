//! Segments: what stands between the semicolons after a subtype.
ghost use Rattle.std.specs.Prelude.{◌≡◌, ◌≢◌, ◌+◌, ◌<◌, ◌≤◌, drop, length, slice_index};
ghost use Rattle.mime_types.specs.Segment.{bare, quoted, quoted_len, stands, valued};
ghost use Rattle.mime_types.specs.Seen.{standing_seen};
ghost use Rattle.mime_types.specs.Text.{ends_name, front, onward};

use crate::parameter::{Parameter, Value};
use crate::text::{cut, rest_at, trim_end, trim_start};

/// What a segment writes, if it does, and what stands after it.
#[derive(Clone, Copy)]
pub(crate) struct Segment<'a> {
    pub written: Option<Parameter<'a>>,
    pub rest: &'a [u8],
}

/// The segment that the text begins with.
#[tactic(auto, unfolding(crate::specs::Segment::stands))]
pub(crate) fn first_segment(text: &[u8]) -> Segment<'_>
    ensures { standing_seen result ≡ stands text.now }
{
    let (name, after) = split_name(trim_start(text));
    match after {
        [] => Segment {
            written: None,
            rest: &[],
        },
        [b'=', value @ ..] => valued(name, value),
        [_, rest @ ..] => Segment {
            written: None,
            rest,
        },
    }
}

/// What stands before the first semicolon or "=", and from there on.
fn split_name(text: &[u8]) -> (&[u8], &[u8])
    ensures front { result.0.now ≡ front ends_name text.now }
    ensures onward { result.1.now ≡ onward ends_name text.now }
{
    for at in 0..text.len() {
        if text[at] == b';' || text[at] == b'=' {
            return text.split_at(at);
        }
    }
    (text, &[])
}

/// A segment with the name, of what stands after "=".
fn valued<'a>(name: &'a [u8], text: &'a [u8]) -> Segment<'a>
    ensures { standing_seen result ≡ valued name.now text.now }
{
    match text {
        [b'"', after @ ..] => quoted(name, after),
        _ => bare(name, text),
    }
}

/// A segment with a value in quotes, of what stands after the first.
fn quoted<'a>(name: &'a [u8], text: &'a [u8]) -> Segment<'a>
    ensures { standing_seen result ≡ quoted name.now text.now }
{
    let (inside, onward) = text.split_at(quoted_len(text));
    let (_, rest) = cut(onward, b';');
    let value = Value {
        text: inside,
        is_quoted: true,
    };
    Segment {
        written: Some(Parameter { name, value }),
        rest,
    }
}

/// How many bytes stand before the quote that closes the text, or how many there are.
fn quoted_len(text: &[u8]) -> usize
    ensures value { result ≡ quoted_len text.now }
    ensures bound { result ≤ length text.now }
{
    let mut at = 0;
    while at < text.len() && text[at] != b'"' {
        at += unit_len(rest_at(text, at));
    }
    at
}

/// How many bytes stand for the first byte that the text says. It does not begin with the quote that closes it.
fn unit_len(text: &[u8]) -> usize
    requires some { 0 < length text.now }
    requires inside { slice_index text.now 0 ≢ 0x22 }
    ensures value { quoted_len text.now ≡ result + quoted_len (drop result text.now) }
    ensures some { 0 < result }
    ensures bound { result ≤ length text.now }
{
    if text[0] == b'\\' && text.len() > 1 {
        return 2;
    }
    1
}

/// A segment with a value without quotes.
fn bare<'a>(name: &'a [u8], text: &'a [u8]) -> Segment<'a>
    ensures { standing_seen result ≡ bare name.now text.now }
{
    let (front, rest) = cut(text, b';');
    let inside = trim_end(front);
    if inside.is_empty() {
        return Segment {
            written: None,
            rest,
        };
    }
    let value = Value {
        text: inside,
        is_quoted: false,
    };
    Segment {
        written: Some(Parameter { name, value }),
        rest,
    }
}
