//! Books.
ghost use Rattle.std.specs.Prelude.{◌≡◌};
ghost use Rattle.infer_sig.specs.Signature.{accepts};
ghost use Rattle.infer_sig.specs.Book.{epub, mobi};

use crate::places::matches_at;

/// EPUB: at least 58 bytes, a ZIP header first, "mimetypeapplication/epub+zip" at 30.
#[inline(always)]
pub fn is_epub(buf: &[u8]) -> bool
    ensures { result ≡ accepts epub buf.now }
{
    buf.len() >= 58
        && matches_at(buf, b"PK\x03\x04", 0)
        && matches_at(buf, b"mimetypeapplication/epub+zip", 30)
}

/// Mobipocket: at least 68 bytes, "BOOKMOBI" at 60.
#[inline(always)]
pub fn is_mobi(buf: &[u8]) -> bool
    ensures { result ≡ accepts mobi buf.now }
{
    buf.len() >= 68 && matches_at(buf, b"BOOKMOBI", 60)
}
