//! Archives and documents in one file.
ghost use Rattle.std.specs.Prelude.{◌↔◌, ◌<◌, ◌≤◌, length, slice_index, IfSome, IsTrue, MatchOption};
ghost use Rattle.infer_deep.specs.Joined.{BeginsWith, LeadsTo, NoneBegins, SkipsTo};
ghost use Rattle.infer_deep.specs.Frames.{BeginsFrame, IsFrame, IsFramed, IsLz4, IsZst};
ghost use Rattle.infer_deep.specs.Signatures.{MayBecome};
ghost use Rattle.infer_deep.specs.Windows.{IsPdf};

use crate::numbers::le32;
use crate::places::{agrees_at, find, has_at, may_stand_by, stands_in};

/// PDF: "%PDF" somewhere in the first 1024 bytes.
#[tactic(auto, using(crate::proofs::WindowLemmas::found_stands))]
pub fn is_pdf(buf: &[u8]) -> bool
    ensures { IsTrue result ↔ IsPdf buf.now }
{
    if buf.len() < 32 {
        return stands_in(buf, b"%PDF");
    }
    find(buf, b"%PDF", 0, 0, 1024).is_some()
}

/// Whether some bytes after `buf` make it a PDF document.
pub fn may_become_pdf(buf: &[u8]) -> bool
    ensures { IsTrue result ↔ MayBecome IsPdf buf.now }
{
    may_stand_by(buf, b"%PDF", 0, 1024)
}

/// Zstandard: some skippable frames of RFC 8878, perhaps none, then 28 B5 2F FD.
pub fn is_zst(buf: &[u8]) -> bool
    ensures { IsTrue result ↔ IsZst buf.now }
{
    is_framed(buf, b"\x28\xB5\x2F\xFD")
}

/// LZ4: some skippable frames, perhaps none, then 04 22 4D 18.
pub fn is_lz4(buf: &[u8]) -> bool
    ensures { IsTrue result ↔ IsLz4 buf.now }
{
    is_framed(buf, b"\x04\x22\x4D\x18")
}

/// Whether some bytes after `buf` make it Zstandard.
pub fn may_become_zst(buf: &[u8]) -> bool
    ensures { IsTrue result ↔ MayBecome IsZst buf.now }
{
    may_become_framed(buf, b"\x28\xB5\x2F\xFD")
}

/// Whether some bytes after `buf` make it LZ4.
pub fn may_become_lz4(buf: &[u8]) -> bool
    ensures { IsTrue result ↔ MayBecome IsLz4 buf.now }
{
    may_become_framed(buf, b"\x04\x22\x4D\x18")
}

fn is_framed(buf: &[u8], magic: &[u8; 4]) -> bool
    requires { slice_index magic.now 0 < 0x50 }
    ensures { IsTrue result ↔ IsFramed magic.now buf.now }
{
    has_at(after_frames(buf), magic, 0)
}

fn may_become_framed(buf: &[u8], magic: &[u8; 4]) -> bool
    requires { slice_index magic.now 0 < 0x50 }
    ensures { IsTrue result ↔ MayBecome (IsFramed magic.now) buf.now }
{
    let rest = after_frames(buf);
    agrees_at(rest, magic, 0) || may_become_frame(rest)
}

#[tactic(auto, using(crate::proofs::FrameLemmas::frame_first, crate::proofs::FrameLemmas::frame_mark, crate::proofs::FrameLemmas::frame_reached))]
fn may_become_frame(buf: &[u8]) -> bool
    requires { NoneBegins IsFrame buf.now }
    ensures { IsTrue result ↔ MayBecome IsFrame buf.now }
{
    if !buf.is_empty() && !(0x50..=0x5F).contains(&buf[0]) {
        return false;
    }
    agrees_at(buf, b"\x2A\x4D\x18", 1)
}

/// What follows the skippable frames at the front of `buf`.
fn after_frames(buf: &[u8]) -> &[u8]
    ensures skips { SkipsTo IsFrame buf.now result.now }
    ensures stops { NoneBegins IsFrame result.now }
{
    after_any_frames(after_frame_blocks(buf))
}

/// What follows the blocks of four empty frames at the front of `buf`. No frames are more a byte.
fn after_frame_blocks(mut buf: &[u8]) -> &[u8]
    ensures { LeadsTo IsFrame buf.entry.now result.now }
{
    while let Some(rest) = after_frame_block(buf) {
        buf = rest;
    }
    buf
}

#[tactic(auto, using(crate::proofs::JoinedLemmas::leads_past))]
fn after_frame_block(buf: &[u8]) -> Option<&[u8]>
    ensures leads { IfSome result (λ rest. LeadsTo IsFrame buf.now rest.now) }
    ensures shorter { IfSome result (λ rest. length rest.now < length buf.now) }
{
    if buf.len() < 32 {
        return None;
    }
    let first = after_empty_frame(buf)?;
    let second = after_empty_frame(first)?;
    let third = after_empty_frame(second)?;
    after_empty_frame(third)
}

#[tactic(auto, using(crate::proofs::FrameLemmas::empty_frame))]
fn after_empty_frame(buf: &[u8]) -> Option<&[u8]>
    ensures begins { IfSome result (λ rest. BeginsWith IsFrame buf.now rest.now) }
    ensures shorter { IfSome result (λ rest. length rest.now < length buf.now) }
{
    if buf.len() < 8 || !begins_frame(buf) || le32(buf, 4) != 0 {
        return None;
    }
    Some(&buf[8..])
}

/// What follows the skippable frames at the front of `buf`. Each turn takes a frame away, which has at least 8 bytes.
#[tactic(auto, using(crate::proofs::JoinedLemmas::leads_past))]
fn after_any_frames(mut buf: &[u8]) -> &[u8]
    ensures skips { SkipsTo IsFrame buf.entry.now result.now }
    ensures stops { NoneBegins IsFrame result.now }
{
    while let Some(rest) = after_frame(buf) {
        buf = rest;
    }
    buf
}

/// What follows the skippable frame at the front of `buf`, if a whole one stands there.
#[tactic(auto, using(crate::proofs::FrameLemmas::begun_fits, crate::proofs::FrameLemmas::frame_begins))]
fn after_frame(buf: &[u8]) -> Option<&[u8]>
    ensures { MatchOption result (NoneBegins IsFrame buf.now)
        (λ rest. BeginsWith IsFrame buf.now rest.now) }
{
    if buf.len() < 8 || !begins_frame(buf) {
        return None;
    }
    let end = 8 + le32(buf, 4) as usize;
    if buf.len() < end {
        return None;
    }
    Some(&buf[end..])
}

#[tactic(auto, using(crate::proofs::FrameLemmas::number_of_frame))]
fn begins_frame(buf: &[u8]) -> bool
    requires { 4 ≤ length buf.now }
    ensures { IsTrue result ↔ BeginsFrame buf.now }
{
    (0x184D2A50..=0x184D2A5F).contains(&le32(buf, 0))
}
