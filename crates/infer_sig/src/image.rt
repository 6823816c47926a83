//! Images.
ghost use Rattle.std.specs.Prelude.{◌≡◌};
ghost use Rattle.infer_sig.specs.Signature.{accepts};
ghost use Rattle.infer_sig.specs.Image.{bmp, cr2, djvu, dwg, gif, ico, jpeg, jpeg2000, jxl, jxr, ora, png, psd, tiff, webp};

use crate::places::{any_matches_at, matches_at};
pub use infer_deep::image::{is_avif, is_heif, may_become_avif, may_become_heif};

/// JPEG: at least 3 bytes, FF D8 FF first.
///
/// ```
/// assert!(rt; infer::image::is_jpeg(b"\xFF\xD8\xFF\xE0"));
/// ```
pub fn is_jpeg(buf: &[u8]) -> bool
    ensures { result ≡ accepts jpeg buf.now }
{
    buf.len() >= 3 && matches_at(buf, b"\xFF\xD8\xFF", 0)
}

/// JPEG 2000: at least 13 bytes, the signature box 00 00 00 0C "jP  " 0D 0A 87 0A and 00 first.
pub fn is_jpeg2000(buf: &[u8]) -> bool
    ensures { result ≡ accepts jpeg2000 buf.now }
{
    buf.len() >= 13 && matches_at(buf, b"\x00\x00\x00\x0CjP  \r\n\x87\n\x00", 0)
}

/// PNG: at least 4 bytes, 89 "PNG" first.
pub fn is_png(buf: &[u8]) -> bool
    ensures { result ≡ accepts png buf.now }
{
    buf.len() >= 4 && matches_at(buf, b"\x89PNG", 0)
}

/// GIF: at least 3 bytes, "GIF" first.
pub fn is_gif(buf: &[u8]) -> bool
    ensures { result ≡ accepts gif buf.now }
{
    buf.len() >= 3 && matches_at(buf, b"GIF", 0)
}

/// WebP: at least 12 bytes, "WEBP" at 8.
pub fn is_webp(buf: &[u8]) -> bool
    ensures { result ≡ accepts webp buf.now }
{
    buf.len() >= 12 && matches_at(buf, b"WEBP", 8)
}

/// Canon's raw image CR2: at least 11 bytes, a TIFF header of either byte order first, "CR" 02 at 8.
pub fn is_cr2(buf: &[u8]) -> bool
    ensures { result ≡ accepts cr2 buf.now }
{
    buf.len() >= 11
        && (matches_at(buf, b"II*\x00", 0) || matches_at(buf, b"MM\x00*", 0))
        && matches_at(buf, b"CR\x02", 8)
}

/// TIFF: at least 10 bytes, a TIFF header of either byte order first, at 8 no "C" and at 9 no "R".
///
/// A file with only one of these two bytes of a CR2 image is refused too.
pub fn is_tiff(buf: &[u8]) -> bool
    ensures { result ≡ accepts tiff buf.now }
{
    buf.len() >= 10
        && (matches_at(buf, b"II*\x00", 0) || matches_at(buf, b"MM\x00*", 0))
        && buf[8] != b'C'
        && buf[9] != b'R'
}

/// BMP: at least 2 bytes, "BM" first.
pub fn is_bmp(buf: &[u8]) -> bool
    ensures { result ≡ accepts bmp buf.now }
{
    buf.len() >= 2 && matches_at(buf, b"BM", 0)
}

/// JPEG XR: at least 3 bytes, "II" BC first.
pub fn is_jxr(buf: &[u8]) -> bool
    ensures { result ≡ accepts jxr buf.now }
{
    buf.len() >= 3 && matches_at(buf, b"II\xBC", 0)
}

/// Photoshop: at least 4 bytes, "8BPS" first.
pub fn is_psd(buf: &[u8]) -> bool
    ensures { result ≡ accepts psd buf.now }
{
    buf.len() >= 4 && matches_at(buf, b"8BPS", 0)
}

/// Windows icon: at least 4 bytes, 00 00 01 00 first.
pub fn is_ico(buf: &[u8]) -> bool
    ensures { result ≡ accepts ico buf.now }
{
    buf.len() >= 4 && matches_at(buf, b"\x00\x00\x01\x00", 0)
}

/// JPEG XL: a codestream of at least 3 bytes, FF 0A first, or a container of at least 13 bytes, the signature
/// box 00 00 00 0C "JXL " 0D 0A 87 0A first.
pub fn is_jxl(buf: &[u8]) -> bool
    ensures { result ≡ accepts jxl buf.now }
{
    buf.len() >= 3 && matches_at(buf, b"\xFF\n", 0)
        || buf.len() >= 13 && matches_at(buf, b"\x00\x00\x00\x0CJXL \r\n\x87\n", 0)
}

/// OpenRaster: at least 58 bytes, a ZIP header first, "mimetypeimage/openraster" at 30.
pub fn is_ora(buf: &[u8]) -> bool
    ensures { result ≡ accepts ora buf.now }
{
    buf.len() >= 58
        && matches_at(buf, b"PK\x03\x04", 0)
        && matches_at(buf, b"mimetypeimage/openraster", 30)
}

/// DjVu: at least 15 bytes, "AT&TFORM" first, "DJV" at 12.
pub fn is_djvu(buf: &[u8]) -> bool
    ensures { result ≡ accepts djvu buf.now }
{
    buf.len() >= 15 && matches_at(buf, b"AT&TFORM", 0) && matches_at(buf, b"DJV", 12)
}

const DWG_VERSIONS: [[u8; 6]; 24] = [
    *b"MC0.0\x00",
    *b"AC1.2\x00",
    *b"AC1.3\x00",
    *b"AC1.40",
    *b"AC1.50",
    *b"AC2.10",
    *b"AC2.21",
    *b"AC2.22",
    *b"AC1001",
    *b"AC1002",
    *b"AC1003",
    *b"AC1004",
    *b"AC1006",
    *b"AC1009",
    *b"AC1012",
    *b"AC1013",
    *b"AC1014",
    *b"AC1015",
    *b"AC1018",
    *b"AC1021",
    *b"AC1024",
    *b"AC1027",
    *b"AC1032",
    *b"AC1035",
];

/// AutoCAD's drawing DWG: at least 6 bytes, one of 24 versions first, such as "AC1032".
pub fn is_dwg(buf: &[u8]) -> bool
    ensures { result ≡ accepts dwg buf.now }
{
    buf.len() >= 6 && any_matches_at(buf, &DWG_VERSIONS, 0)
}
