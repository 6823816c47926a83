//! Videos.
ghost use Rattle.std.specs.Prelude.{◌↔◌, ◌≤◌, IsTrue};
ghost use Rattle.infer_deep.specs.Open.{are_bytes};
ghost use Rattle.infer_deep.specs.Signatures.{MayBecome};
ghost use Rattle.infer_deep.specs.Windows.{IsMatroska, IsMkv, IsWebm};

use crate::places::{agrees_at, has_at, may_stand_by, search};

/// Matroska: at least 257 bytes, 1A 45 DF A3 first, and 42 82 88 "matroska" somewhere in the first 256 bytes.
pub fn is_mkv(buf: &[u8]) -> bool
    ensures { IsTrue result ↔ IsMkv buf.now }
{
    is_matroska(buf, b"\x42\x82\x88matroska")
}

/// WebM: at least 257 bytes, 1A 45 DF A3 first, and 42 82 84 "webm" somewhere in the first 256 bytes.
pub fn is_webm(buf: &[u8]) -> bool
    ensures { IsTrue result ↔ IsWebm buf.now }
{
    is_matroska(buf, b"\x42\x82\x84webm")
}

#[tactic(auto, using(crate::proofs::WindowLemmas::found_stands))]
fn is_matroska<const N: usize>(buf: &[u8], doc_type: &[u8; N]) -> bool
    requires { 4 ≤ N }
    ensures { IsTrue result ↔ IsMatroska doc_type.now buf.now }
{
    buf.len() >= 257
        && has_at(buf, b"\x1A\x45\xDF\xA3", 0)
        && search(buf, doc_type, 2, 0, 256).is_some()
}

/// Whether some bytes after `buf` make it Matroska.
pub fn may_become_mkv(buf: &[u8]) -> bool
    ensures { IsTrue result ↔ MayBecome IsMkv buf.now }
{
    may_become_matroska(buf, b"\x42\x82\x88matroska")
}

/// Whether some bytes after `buf` make it WebM.
pub fn may_become_webm(buf: &[u8]) -> bool
    ensures { IsTrue result ↔ MayBecome IsWebm buf.now }
{
    may_become_matroska(buf, b"\x42\x82\x84webm")
}

#[tactic(auto, using(crate::proofs::WindowLemmas::matroska_reaches))]
fn may_become_matroska<const N: usize>(buf: &[u8], doc_type: &[u8; N]) -> bool
    requires long { 4 ≤ N }
    requires short { N ≤ 252 }
    requires bytes { IsTrue (are_bytes doc_type.now) }
    ensures { IsTrue result ↔ MayBecome (IsMatroska doc_type.now) buf.now }
{
    agrees_at(buf, b"\x1A\x45\xDF\xA3", 0) && may_stand_by(buf, doc_type, 2, 256)
}
