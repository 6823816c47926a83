//! Videos.
ghost use Rattle.std.specs.Prelude.{◌≡◌, ◌≤◌, length};
ghost use Rattle.std.specs.List.{list_any};
ghost use Rattle.infer_sig.specs.Signature.{accepts, stands};
ghost use Rattle.infer_sig.specs.Video.{avi, flv, m4v, mov, mp4, mpeg, wmv};

use crate::places::{any_matches_at, matches_at};
pub use infer_deep::video::{is_mkv, is_webm, may_become_mkv, may_become_webm};

const MP4_BRANDS: [[u8; 4]; 28] = [
    *b"avc1", *b"dash", *b"iso2", *b"iso3", *b"iso4", *b"iso5", *b"iso6", *b"isom", *b"mmp4",
    *b"mp41", *b"mp42", *b"mp4v", *b"mp71", *b"MSNV", *b"NDAS", *b"NDSC", *b"NSDC", *b"NDSH",
    *b"NDSM", *b"NDSP", *b"NDSS", *b"NDXC", *b"NDXH", *b"NDXM", *b"NDXP", *b"NDXS", *b"F4V ",
    *b"F4P ",
];

/// MP4: at least 12 bytes, "ftyp" at 4, one of 28 brands at 8, such as "isom".
#[inline(always)]
pub fn is_mp4(buf: &[u8]) -> bool
    ensures { result ≡ accepts mp4 buf.now }
{
    buf.len() >= 12 && matches_at(buf, b"ftyp", 4) && has_mp4_brand(buf)
}

fn has_mp4_brand(buf: &[u8]) -> bool
    requires { 12 ≤ length buf.now }
    ensures { result ≡ list_any (λ brand. stands 8 brand buf.now) MP4_BRANDS }
{
    any_matches_at(buf, &MP4_BRANDS, 8)
}

/// Apple's video M4V: at least 11 bytes, "ftypM4V" at 4.
#[inline(always)]
pub fn is_m4v(buf: &[u8]) -> bool
    ensures { result ≡ accepts m4v buf.now }
{
    buf.len() >= 11 && matches_at(buf, b"ftypM4V", 4)
}

/// QuickTime: at least 16 bytes, "ftypqt  ", "moov" or "mdat" at 4, or "mdat" at 12.
#[inline(always)]
pub fn is_mov(buf: &[u8]) -> bool
    ensures { result ≡ accepts mov buf.now }
{
    buf.len() >= 16
        && (matches_at(buf, b"ftypqt  ", 4)
            || matches_at(buf, b"moov", 4)
            || matches_at(buf, b"mdat", 4)
            || matches_at(buf, b"mdat", 12))
}

/// AVI: at least 11 bytes, "RIFF" first, "AVI" at 8.
pub fn is_avi(buf: &[u8]) -> bool
    ensures { result ≡ accepts avi buf.now }
{
    buf.len() >= 11 && matches_at(buf, b"RIFF", 0) && matches_at(buf, b"AVI", 8)
}

/// Windows Media: at least 10 bytes, 30 26 B2 75 8E 66 CF 11 A6 D9 first.
pub fn is_wmv(buf: &[u8]) -> bool
    ensures { result ≡ accepts wmv buf.now }
{
    buf.len() >= 10 && matches_at(buf, b"\x30\x26\xB2\x75\x8E\x66\xCF\x11\xA6\xD9", 0)
}

/// MPEG: at least 4 bytes, 00 00 01 and a byte from B0 to BF first.
pub fn is_mpeg(buf: &[u8]) -> bool
    ensures { result ≡ accepts mpeg buf.now }
{
    buf.len() >= 4 && matches_at(buf, b"\x00\x00\x01", 0) && matches!(buf[3], 0xB0..=0xBF)
}

/// Flash video: at least 4 bytes, "FLV" 01 first.
pub fn is_flv(buf: &[u8]) -> bool
    ensures { result ≡ accepts flv buf.now }
{
    buf.len() >= 4 && matches_at(buf, b"FLV\x01", 0)
}
