//! Subtitles of SubRip, by their first cue. No document states the format.
ghost use Rattle.std.specs.Prelude.{◌≡◌, ◌↔◌, ◌+◌, ◌<◌, ◌≤◌, slice_index, IsTrue};
ghost use Rattle.infer_deep.specs.Places.{FindsPlace};
ghost use Rattle.infer_formats.specs.Subtitles.{AreDigits, EndsLine, IsCue, IsDigit, IsPairAt, IsSpan, IsSubRip, IsTime};

mod may_become;

use infer_deep::places::stands_at;
pub use may_become::may_become_subrip;

/// How many digits the number of a cue has at most.
const MOST_DIGITS: usize = 9;
/// The size of a time, as 00:00:00,000.
const TIME_SIZE: usize = 12;
/// Where the ":" before the minutes stands in a time, and after it the minutes.
const TO_MINUTES: usize = 2;

const MINUTES: usize = 3;
/// The same of the seconds.
const TO_SECONDS: usize = 5;

const SECONDS: usize = 6;
/// Where "," or "." stands before the thousandths, and after it their first two digits and the last one.
const TO_THOUSANDTHS: usize = 8;

const THOUSANDTHS: usize = 9;

const LAST_DIGIT: usize = 11;
/// The size of what stands between two.
const ARROW_SIZE: usize = 5;
/// The size of the byte order mark of UTF-8.
const MARK_SIZE: usize = 3;

/// Subtitles of SubRip: a number of one to nine digits, and in the next line two times with " --> " between them.
pub fn is_subrip(buf: &[u8]) -> bool
    ensures { IsTrue result ↔ IsSubRip buf.now }
{
    is_cue(buf, 0) || stands_at(buf, b"\xEF\xBB\xBF", 0) && is_cue(buf, MARK_SIZE)
}

fn is_cue(buf: &[u8], place: usize) -> bool
    requires { place ≤ 3 }
    ensures { IsTrue result ↔ IsCue buf.now place }
{
    let count = digit_count(buf, place);
    if count == 0 || count > MOST_DIGITS {
        return false;
    }
    match next_line(buf, place + count) {
        Some(line) => is_span(buf, line),
        None => false,
    }
}

/// How many digits stand at that place, up to ten.
fn digit_count(buf: &[u8], place: usize) -> usize
    requires { place ≤ 3 }
    ensures few { result ≤ 10 }
    ensures digits { AreDigits buf.now place result }
    ensures ends { result < 10 → ¬ IsDigit (slice_index buf.now (place + result)) }
{
    for n in 0..MOST_DIGITS + 1 {
        if !is_digit(byte_at(buf, place + n)) {
            return n;
        }
    }
    MOST_DIGITS + 1
}

/// Where the next line begins, if one ends at that place.
fn next_line(buf: &[u8], end: usize) -> Option<usize>
    requires { end ≤ 12 }
    ensures { FindsPlace (λ line. EndsLine buf.now end line × (line ≤ 14)) result }
{
    match byte_at(buf, end) {
        b'\n' => Some(end + 1),
        b'\r' if byte_at(buf, end + 1) == b'\n' => Some(end + 2),
        _ => None,
    }
}

fn is_span(buf: &[u8], place: usize) -> bool
    requires { place ≤ 14 }
    ensures { IsTrue result ↔ IsSpan buf.now place }
{
    is_time(buf, place)
        && stands_at(buf, b" --> ", place + TIME_SIZE)
        && is_time(buf, place + TIME_SIZE + ARROW_SIZE)
}

fn is_time(buf: &[u8], place: usize) -> bool
    requires { place ≤ 31 }
    ensures { IsTrue result ↔ IsTime buf.now place }
{
    if !is_pair(buf, place) || byte_at(buf, place + TO_MINUTES) != b':' {
        return false;
    }
    if !is_pair(buf, place + MINUTES) || byte_at(buf, place + TO_SECONDS) != b':' {
        return false;
    }
    if !is_pair(buf, place + SECONDS)
        || !matches!(byte_at(buf, place + TO_THOUSANDTHS), b',' | b'.')
    {
        return false;
    }
    is_pair(buf, place + THOUSANDTHS) && is_digit(byte_at(buf, place + LAST_DIGIT))
}

fn is_pair(buf: &[u8], place: usize) -> bool
    requires { place ≤ 40 }
    ensures { IsTrue result ↔ IsPairAt buf.now place }
{
    is_digit(byte_at(buf, place)) && is_digit(byte_at(buf, place + 1))
}

fn is_digit(byte: u8) -> bool
    ensures { IsTrue result ↔ IsDigit byte }
{
    byte >= b'0' && byte <= b'9'
}

/// The byte at that place, and 0 past the end.
fn byte_at(buf: &[u8], place: usize) -> u8
    ensures { result ≡ slice_index buf.now place }
{
    if place < buf.len() { buf[place] } else { 0 }
}
