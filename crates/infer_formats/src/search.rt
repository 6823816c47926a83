//! Where a text stands first in what is left of a buffer.
ghost use Rattle.std.specs.Prelude.{◌≡◌, ◌≢◌, ◌↔◌, ◌+◌, ◌<◌, ◌≤◌, ℕ, length, slice_index, MatchOption};
ghost use Rattle.std.specs.Int.{bit_at};
ghost use Rattle.memchr.specs.Find.{OccursAt};
ghost use Rattle.memchr.specs.Pairs.{IsPairFinderOf};
ghost use Rattle.infer_deep.specs.Places.{IsFirstWithin};
ghost use Rattle.infer_formats.specs.Runs.{IsNext};

use infer_deep::places::{same_at, stands_at};
use memchr::arch::all::{packedpair, rabinkarp};
use memchr::memchr;
use std::simd::prelude::*;

/// How many windows of 32 bytes are looked at, one comparison each, before a search that takes longer to begin.
const NEAR_WINDOWS: usize = 2;

/// How often two bytes of a text may stand without the whole of it, before it is searched for byte by byte.
const NEAR_MISSES: usize = 8;

/// Which of the 32 bytes from that place on are this one: bit `k` is for the byte `k` places on.
fn hits(buf: &[u8], byte: u8, place: usize) -> u64
    requires { place + 32 ≤ length buf.now }
    ensures { (k : ℕ) → (bit_at result k ≡ 1) ↔ (k < 32)
        × (slice_index buf.now (place + k) ≡ byte) }
{
    u8x32::from_slice(&buf[place..])
        .simd_eq(u8x32::splat(byte))
        .to_bitmask()
}

/// Where the first such byte from `start` on is, which is mostly near.
pub(crate) fn find_near(buf: &[u8], byte: u8, start: usize) -> Option<usize>
    requires { start ≤ length buf.now }
    ensures { MatchOption result ((k : ℕ) → start ≤ k → k < length buf.now
        → slice_index buf.now k ≢ byte)
        (λ at. IsNext byte buf.now start at) }
{
    let mut from = start;
    for _window in 0..NEAR_WINDOWS {
        if buf.len() - from < 32 {
            break;
        }
        let found = hits(buf, byte, from);
        if found != 0 {
            return Some(from + found.trailing_zeros() as usize);
        }
        from += 32;
    }
    find_far(buf, byte, from)
}

/// [`find_near`] of a byte that may be far.
fn find_far(buf: &[u8], byte: u8, start: usize) -> Option<usize>
    requires { start ≤ length buf.now }
    ensures { MatchOption result ((k : ℕ) → start ≤ k → k < length buf.now
        → slice_index buf.now k ≢ byte)
        (λ at. IsNext byte buf.now start at) }
{
    Some(start + memchr(byte, &buf[start..])?)
}

/// The first place from `start` on at which `text` stands: mostly the first one of its last byte.
pub(crate) fn find_closing<const N: usize>(
    buf: &[u8],
    text: &[u8; N],
    start: usize,
) -> Option<usize>
    requires some { 0 < N }
    requires within { start ≤ length buf.now }
    ensures { IsFirstWithin OccursAt buf.now text.now start (length buf.now) result }
{
    if buf.len() - start < N {
        return None;
    }
    let last = N - 1;
    let place = find_near(buf, text[last], start + last)? - last;
    if same_at(buf, text, place) {
        return Some(place);
    }
    find_later(buf, text, place + 1)
}

/// [`find_from`], out of the way of what is mostly found at once.
#[inline(never)]
fn find_later(buf: &[u8], text: &[u8], start: usize) -> Option<usize>
    requires { start ≤ length buf.now }
    ensures { IsFirstWithin OccursAt buf.now text.now start (length buf.now) result }
{
    find_from(buf, text, start)
}

/// The first place at which `text` stands: mostly the first one of its first byte. A function of its own, so that few
/// callers take what it needs.
#[inline(never)]
pub(crate) fn find_early(buf: &[u8], text: &[u8]) -> Option<usize>
    ensures { IsFirstWithin OccursAt buf.now text.now 0 (length buf.now) result }
{
    let Some(first) = text.first() else {
        return find_from(buf, text, 0);
    };
    let place = find_near(buf, *first, 0)?;
    if stands_at(buf, text, place) {
        return Some(place);
    }
    find_from(buf, text, place + 1)
}

/// The first place from `start` on at which `text` stands, by the two of its bytes that are rarest in texts: many texts
/// begin with the end of a line, which most buffers have often.
fn find_from(buf: &[u8], text: &[u8], start: usize) -> Option<usize>
    requires { start ≤ length buf.now }
    ensures { IsFirstWithin OccursAt buf.now text.now start (length buf.now) result }
{
    match packedpair::Finder::new(text) {
        Some(pair) => find_by(pair, buf, text, start),
        None => find_bytes(buf, text, start),
    }
}

/// [`find_from`] by this pair of bytes of the text: if they stand, the whole of it is compared.
fn find_by(pair: packedpair::Finder, buf: &[u8], text: &[u8], start: usize) -> Option<usize>
    requires pair { IsPairFinderOf pair text.now }
    requires within { start ≤ length buf.now }
    ensures { IsFirstWithin OccursAt buf.now text.now start (length buf.now) result }
{
    let mut from = start;
    for _turn in 0..NEAR_MISSES {
        let at = from + pair.find_prefilter(&buf[from..])?;
        if stands_at(buf, text, at) {
            return Some(at);
        }
        from = at + 1;
    }
    find_bytes(buf, text, from)
}

/// [`find_from`] byte by byte, whatever the bytes are.
fn find_bytes(buf: &[u8], text: &[u8], start: usize) -> Option<usize>
    requires { start ≤ length buf.now }
    ensures { IsFirstWithin OccursAt buf.now text.now start (length buf.now) result }
{
    let at = rabinkarp::Finder::new(text).find(&buf[start..], text)?;
    Some(start + at)
}
