//! Fonts.
ghost use Rattle.std.specs.Prelude.{◌≡◌};
ghost use Rattle.infer_sig.specs.Signature.{accepts};
ghost use Rattle.infer_sig.specs.Font.{otf, ttf, woff, woff2};

use crate::places::matches_at;

/// Web font WOFF: at least 8 bytes, "wOFF" 00 01 00 00 first.
pub fn is_woff(buf: &[u8]) -> bool
    ensures { result ≡ accepts woff buf.now }
{
    buf.len() >= 8 && matches_at(buf, b"wOFF\x00\x01\x00\x00", 0)
}

/// Web font WOFF2: at least 8 bytes, "wOF2" 00 01 00 00 first.
pub fn is_woff2(buf: &[u8]) -> bool
    ensures { result ≡ accepts woff2 buf.now }
{
    buf.len() >= 8 && matches_at(buf, b"wOF2\x00\x01\x00\x00", 0)
}

/// TrueType: at least 5 bytes, 00 01 00 00 00 first.
pub fn is_ttf(buf: &[u8]) -> bool
    ensures { result ≡ accepts ttf buf.now }
{
    buf.len() >= 5 && matches_at(buf, b"\x00\x01\x00\x00\x00", 0)
}

/// OpenType: at least 5 bytes, "OTTO" 00 first.
pub fn is_otf(buf: &[u8]) -> bool
    ensures { result ≡ accepts otf buf.now }
{
    buf.len() >= 5 && matches_at(buf, b"OTTO\x00", 0)
}
