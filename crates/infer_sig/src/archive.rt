//! Archives, and what goes by that class.
ghost use Rattle.std.specs.Prelude.{◌≡◌};
ghost use Rattle.infer_sig.specs.Signature.{accepts};
ghost use Rattle.infer_sig.specs.Archive.{ar, bz2, bz3, cab, cpio, crx, dcm, deb, eot, gz, lz, msi, nes, par2, ps, rar, rpm, rtf, seven_z, sqlite, swf, tar, xz, z, zip};

pub use crate::book::is_epub;
use crate::places::matches_at;
pub use infer_deep::archive::{
    is_lz4, is_pdf, is_zst, may_become_lz4, may_become_pdf, may_become_zst,
};

/// ZIP: at least 4 bytes, "PK" and one of 03 04, 05 06 and 07 08 first, or at least 8 bytes, "PK00PK" 03 04 first.
pub fn is_zip(buf: &[u8]) -> bool
    ensures { result ≡ accepts zip buf.now }
{
    buf.len() >= 4
        && (matches_at(buf, b"PK\x03\x04", 0)
            || matches_at(buf, b"PK\x05\x06", 0)
            || matches_at(buf, b"PK\x07\x08", 0))
        || buf.len() >= 8 && matches_at(buf, b"PK00PK\x03\x04", 0)
}

/// Tar: at least 262 bytes, "ustar" at 257.
#[inline(always)]
pub fn is_tar(buf: &[u8]) -> bool
    ensures { result ≡ accepts tar buf.now }
{
    buf.len() >= 262 && matches_at(buf, b"ustar", 257)
}

/// Parity archive PAR2: at least 9 bytes, "PAR2" 00 "PKT" first.
pub fn is_par2(buf: &[u8]) -> bool
    ensures { result ≡ accepts par2 buf.now }
{
    buf.len() >= 9 && matches_at(buf, b"PAR2\x00PKT", 0)
}

/// RAR: at least 7 bytes, "Rar!" 1A 07 and 00 or 01 first.
pub fn is_rar(buf: &[u8]) -> bool
    ensures { result ≡ accepts rar buf.now }
{
    buf.len() >= 7 && matches_at(buf, b"Rar!\x1A\x07", 0) && matches!(buf[6], 0x00 | 0x01)
}

/// Gzip: at least 3 bytes, 1F 8B 08 first.
pub fn is_gz(buf: &[u8]) -> bool
    ensures { result ≡ accepts gz buf.now }
{
    buf.len() >= 3 && matches_at(buf, b"\x1F\x8B\x08", 0)
}

/// Bzip2: at least 3 bytes, "BZh" first.
pub fn is_bz2(buf: &[u8]) -> bool
    ensures { result ≡ accepts bz2 buf.now }
{
    buf.len() >= 3 && matches_at(buf, b"BZh", 0)
}

/// Bzip3: at least 5 bytes, "BZ3v1" first.
pub fn is_bz3(buf: &[u8]) -> bool
    ensures { result ≡ accepts bz3 buf.now }
{
    buf.len() >= 5 && matches_at(buf, b"BZ3v1", 0)
}

/// 7-Zip: at least 6 bytes, "7z" BC AF 27 1C first.
pub fn is_7z(buf: &[u8]) -> bool
    ensures { result ≡ accepts seven_z buf.now }
{
    buf.len() >= 6 && matches_at(buf, b"7z\xBC\xAF\x27\x1C", 0)
}

/// XZ: at least 6 bytes, FD "7zXZ" 00 first.
pub fn is_xz(buf: &[u8]) -> bool
    ensures { result ≡ accepts xz buf.now }
{
    buf.len() >= 6 && matches_at(buf, b"\xFD7zXZ\x00", 0)
}

/// Flash: at least 3 bytes, "CWS" or "FWS" first.
pub fn is_swf(buf: &[u8]) -> bool
    ensures { result ≡ accepts swf buf.now }
{
    buf.len() >= 3 && matches!(buf[0], b'C' | b'F') && matches_at(buf, b"WS", 1)
}

/// Rich text: at least 5 bytes, "{\rtf" first.
pub fn is_rtf(buf: &[u8]) -> bool
    ensures { result ≡ accepts rtf buf.now }
{
    buf.len() >= 5 && matches_at(buf, b"{\\rtf", 0)
}

/// Embedded OpenType: at least 36 bytes, the version 02 00 01, 01 00 00 or 02 00 02 at 8, "LP" at 34.
#[inline(always)]
pub fn is_eot(buf: &[u8]) -> bool
    ensures { result ≡ accepts eot buf.now }
{
    buf.len() >= 36
        && (matches_at(buf, b"\x02\x00\x01", 8)
            || matches_at(buf, b"\x01\x00\x00", 8)
            || matches_at(buf, b"\x02\x00\x02", 8))
        && matches_at(buf, b"LP", 34)
}

/// PostScript: at least 2 bytes, "%!" first.
pub fn is_ps(buf: &[u8]) -> bool
    ensures { result ≡ accepts ps buf.now }
{
    buf.len() >= 2 && matches_at(buf, b"%!", 0)
}

/// SQLite: at least 4 bytes, "SQLi" first.
pub fn is_sqlite(buf: &[u8]) -> bool
    ensures { result ≡ accepts sqlite buf.now }
{
    buf.len() >= 4 && matches_at(buf, b"SQLi", 0)
}

/// Nintendo game: at least 4 bytes, "NES" 1A first.
pub fn is_nes(buf: &[u8]) -> bool
    ensures { result ≡ accepts nes buf.now }
{
    buf.len() >= 4 && matches_at(buf, b"NES\x1A", 0)
}

/// Chrome extension: at least 4 bytes, "Cr24" first.
pub fn is_crx(buf: &[u8]) -> bool
    ensures { result ≡ accepts crx buf.now }
{
    buf.len() >= 4 && matches_at(buf, b"Cr24", 0)
}

/// Cabinet: at least 4 bytes, "MSCF" or "ISc(" first.
pub fn is_cab(buf: &[u8]) -> bool
    ensures { result ≡ accepts cab buf.now }
{
    buf.len() >= 4 && (matches_at(buf, b"MSCF", 0) || matches_at(buf, b"ISc(", 0))
}

/// Debian package: at least 21 bytes, "!<arch>" 0A "debian-binary" first.
pub fn is_deb(buf: &[u8]) -> bool
    ensures { result ≡ accepts deb buf.now }
{
    buf.len() >= 21 && matches_at(buf, b"!<arch>\ndebian-binary", 0)
}

/// Unix archive: at least 7 bytes, "!<arch>" first.
pub fn is_ar(buf: &[u8]) -> bool
    ensures { result ≡ accepts ar buf.now }
{
    buf.len() >= 7 && matches_at(buf, b"!<arch>", 0)
}

/// File of `compress`: at least 2 bytes, 1F and A0 or 9D first.
pub fn is_z(buf: &[u8]) -> bool
    ensures { result ≡ accepts z buf.now }
{
    buf.len() >= 2 && buf[0] == 0x1F && matches!(buf[1], 0xA0 | 0x9D)
}

/// Lzip: at least 4 bytes, "LZIP" first.
pub fn is_lz(buf: &[u8]) -> bool
    ensures { result ≡ accepts lz buf.now }
{
    buf.len() >= 4 && matches_at(buf, b"LZIP", 0)
}

/// RPM package: at least 97 bytes, ED AB EE DB first.
pub fn is_rpm(buf: &[u8]) -> bool
    ensures { result ≡ accepts rpm buf.now }
{
    buf.len() >= 97 && matches_at(buf, b"\xED\xAB\xEE\xDB", 0)
}

/// DICOM: at least 132 bytes, "DICM" at 128.
#[inline(always)]
pub fn is_dcm(buf: &[u8]) -> bool
    ensures { result ≡ accepts dcm buf.now }
{
    buf.len() >= 132 && matches_at(buf, b"DICM", 128)
}

/// Windows installer, and any other compound file: at least 8 bytes, D0 CF 11 E0 A1 B1 1A E1 first.
pub fn is_msi(buf: &[u8]) -> bool
    ensures { result ≡ accepts msi buf.now }
{
    buf.len() >= 8 && matches_at(buf, b"\xD0\xCF\x11\xE0\xA1\xB1\x1A\xE1", 0)
}

/// Cpio: at least 2 bytes, C7 71 or 71 C7 first, or at least 7 bytes, "070701" first.
pub fn is_cpio(buf: &[u8]) -> bool
    ensures { result ≡ accepts cpio buf.now }
{
    buf.len() >= 2 && (matches_at(buf, b"\xC7\x71", 0) || matches_at(buf, b"\x71\xC7", 0))
        || buf.len() >= 7 && matches_at(buf, b"070701", 0)
}
