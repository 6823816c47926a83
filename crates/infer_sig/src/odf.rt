//! OpenDocument files.
ghost use Rattle.std.specs.Prelude.{◌≡◌};
ghost use Rattle.infer_sig.specs.Signature.{accepts};
ghost use Rattle.infer_sig.specs.Odf.{odp, ods, odt};

use crate::places::matches_at;

/// OpenDocument text: at least 77 bytes, a ZIP header first, "mimetype" at 30, "vnd.oasis.opendocument.text" at 50.
#[inline(always)]
pub fn is_odt(buf: &[u8]) -> bool
    ensures { result ≡ accepts odt buf.now }
{
    buf.len() >= 77
        && matches_at(buf, b"PK\x03\x04", 0)
        && matches_at(buf, b"mimetype", 30)
        && matches_at(buf, b"vnd.oasis.opendocument.text", 50)
}

/// OpenDocument spreadsheet: at least 84 bytes, a ZIP header first, "mimetype" at 30,
/// "vnd.oasis.opendocument.spreadsheet" at 50.
#[inline(always)]
pub fn is_ods(buf: &[u8]) -> bool
    ensures { result ≡ accepts ods buf.now }
{
    buf.len() >= 84
        && matches_at(buf, b"PK\x03\x04", 0)
        && matches_at(buf, b"mimetype", 30)
        && matches_at(buf, b"vnd.oasis.opendocument.spreadsheet", 50)
}

/// OpenDocument presentation: at least 85 bytes, a ZIP header first, "mimetype" at 30,
/// "vnd.oasis.opendocument.presentation" at 50.
#[inline(always)]
pub fn is_odp(buf: &[u8]) -> bool
    ensures { result ≡ accepts odp buf.now }
{
    buf.len() >= 85
        && matches_at(buf, b"PK\x03\x04", 0)
        && matches_at(buf, b"mimetype", 30)
        && matches_at(buf, b"vnd.oasis.opendocument.presentation", 50)
}
