//! The lines of JSON, and the white space between its texts.
ghost use Rattle.std.specs.Prelude.{◌↔◌, ◌≤◌, ◌∷◌, [], None, drop, length, IsTrue, MatchOption};
ghost use Rattle.infer_formats.specs.Json.{blanks, CanBe, IsBlank, next_line, same_line, text};
ghost use Rattle.infer_formats.specs.JsonStates.{IsBracket, IsNextLine, IsPast, LineSays, StartsLine};

use super::reader::{Reading, read_text};

/// Whether texts begin with these bytes, each on a new line.
pub(super) fn begins_line(buf: &[u8]) -> bool
    requires { StartsLine buf.now }
    ensures { IsTrue result ↔ CanBe (next_line ∷ []) buf.now }
{
    let mut rest = buf;
    while !rest.is_empty() {
        match read_line(rest) {
            Line::Whole(next) => rest = next,
            Line::Cut => return true,
            Line::Wrong => return false,
        }
    }
    true
}

/// What a buffer has of a text, after which only the line may end.
pub(super) enum Line<'a> {
    /// All of it, and what stands on the next lines after white space.
    Whole(&'a [u8]),
    /// Its beginning: some bytes can follow.
    Cut,
    /// None goes on so.
    Wrong,
}

/// Reads the text that `buf` begins with, to the next.
pub(super) fn read_line(buf: &[u8]) -> Line<'_>
    ensures { LineSays buf.now result }
{
    match buf {
        [first, rest @ ..] if is_bracket(*first) => match read_text(*first, rest) {
            Reading::Whole(n) => match next_line(&rest[n..]) {
                Some(next) => Line::Whole(next),
                None => Line::Wrong,
            },
            Reading::Cut => Line::Cut,
            Reading::Wrong => Line::Wrong,
        },
        [] => Line::Cut,
        _ => Line::Wrong,
    }
}

/// What stands after white space that ends the line, or nothing if the buffer ends in white space.
fn next_line(buf: &[u8]) -> Option<&[u8]>
    ensures { MatchOption result ((¬ CanBe (same_line ∷ []) buf.now)
        × (¬ CanBe (blanks ∷ []) buf.now)) (λ next. IsNextLine buf.now next.now) }
{
    for at in 0..buf.len() {
        match buf[at] {
            b'\n' => return Some(past_blanks(&buf[at + 1..])),
            b' ' | b'\t' | b'\r' => {}
            _ => return None,
        }
    }
    Some(&[])
}

/// What stands after the white space at the front.
#[tactic(auto, using(std::proofs::lemmas::List::take_rest))]
pub(super) fn past_blanks(buf: &[u8]) -> &[u8]
    ensures { IsPast buf.now result.now }
{
    &buf[blanks_end(buf, 0)..]
}

/// Where the white space from that place on ends.
pub(super) fn blanks_end(buf: &[u8], at: usize) -> usize
    requires { at ≤ length buf.now }
    ensures low { at ≤ result }
    ensures high { result ≤ length buf.now }
    ensures past { IsPast (drop at buf.now) (drop result buf.now) }
{
    for i in at..buf.len() {
        if !is_blank(buf[i]) {
            return i;
        }
    }
    buf.len()
}

pub(super) fn is_bracket(byte: u8) -> bool
    ensures { IsTrue result ↔ IsBracket byte }
{
    matches!(byte, b'[' | b'{')
}

pub(super) fn is_blank(byte: u8) -> bool
    ensures { IsTrue result ↔ IsBlank byte }
{
    // Most bytes are decided by the first test or the second.
    byte == b' ' || byte < b' ' && matches!(byte, b'\t' | b'\n' | b'\r')
}
