//! The built-in rows that ask for bytes at fixed places alone, with the alternatives of their signatures as data, each with its
//! least length and its parts. Of a row that asks for more nothing is listed. `tools/tables` makes the
//! lists from the definitions.
ghost use Rattle.std.specs.Prelude.{◌≡◌, ◌+◌, ◌<◌, ◌≤◌, IfSome, None};
ghost use Rattle.infer.specs.BuiltIn.{fixed};
ghost use Rattle.infer.specs.Evidence.{AreListed, IsSearch, fixed_of, most_of};
ghost use Rattle.infer.specs.Table.{signature_of};
ghost use Rattle.infer_evidence.specs.Listed.{signature_listed};
ghost use Rattle.infer_evidence.specs.declared.search.TheConstants.{MOST_OF_A_SEARCH};

use crate::table::rows::*;
use infer_evidence::Part::{AnyText, Byte, Text};
use infer_evidence::Set::{AllBut, AnyOf, Between};
use infer_evidence::{Alternative, Search};

/// How many rows stand in a list. The last is filled with rows of no alternative.
const ROWS_OF_A_LIST: usize = 10;

/// The alternatives of a row's signature.
#[derive(Drop)]
pub(crate) struct RowData {
    pub(crate) alternatives: &'static [Alternative],
}

macro_rules! row_data {
    ($($row:ident $([$($alternative:tt)*])*;)*) => {
        [$(row!($([$($alternative)*])*)),*]
    };
}

macro_rules! row {
    () => {
        None
    };
    ([]) => {
        Some(RowData { alternatives: &[] })
    };
    ($([$least:literal $($part:expr),*])+) => {
        Some(RowData {
            alternatives: &[$(Alternative {
                least: $least,
                parts: &[$($part),*],
            }),*],
        })
    };
}

static DATA_FROM_0: [Option<RowData>; ROWS_OF_A_LIST] = row_data! {
    Wasm [8 Text(0, b"\0asm\x01\0\0\0")];
    Elf [53 Text(0, b"\x7FELF")];
    Exe [2 Text(0, b"MZ")];
    Dll [2 Text(0, b"MZ")];
    Java [8 Text(0, b"\xCA\xFE\xBA\xBE"), Byte(7, Between(0x2D, 0xFF))] [8 Text(0, b"\xCA\xFE\xBA\xBE"), Byte(6, Between(0x01, 0xFF))];
    Llvm [2 Text(0, b"BC")];
    Mach [4 Byte(0, AnyOf(b"\xCF\xCE")), Text(1, b"\xFA\xED\xFE")] [4 Text(0, b"\xFE\xED\xFA"), Byte(3, AnyOf(b"\xCF\xCE"))] [8 Text(0, b"\xCA\xFE\xBA\xBE\0\0\0"), Byte(7, Between(0x00, 0x2C))];
    Dex [37 Text(0, b"dex\n"), Byte(36, AnyOf(b"p"))];
    Dey [101 Text(0, b"dey\n"), Text(40, b"dex\n"), Byte(76, AnyOf(b"p"))];
    Der [3 Text(0, b"0\x82")];
};

static DATA_FROM_10: [Option<RowData>; ROWS_OF_A_LIST] = row_data! {
    Coff [3 Text(0, b"d\x86")] [3 Text(0, b"L\x01")] [3 Text(0, b"\0\x02")];
    Pem [12 Text(0, b"-----BEGIN ")];
    Qcow2 [5 Text(0, b"QFI\xFB")];
    Epub [58 Text(0, b"PK\x03\x04"), Text(30, b"mimetypeapplication/epub+zip")];
    Mobi [68 Text(60, b"BOOKMOBI")];
    Jpeg [3 Text(0, b"\xFF\xD8\xFF")];
    Jpeg2000 [13 Text(0, b"\0\0\0\x0CjP  \r\n\x87\n\0")];
    Png [4 Text(0, b"\x89PNG")];
    Gif [3 Text(0, b"GIF")];
    Webp [12 Text(8, b"WEBP")];
};

static DATA_FROM_20: [Option<RowData>; ROWS_OF_A_LIST] = row_data! {
    Cr2 [11 Text(0, b"II*\0"), Text(8, b"CR\x02")] [11 Text(0, b"MM\0*"), Text(8, b"CR\x02")];
    Tiff [10 Text(0, b"II*\0"), Byte(8, AllBut(0x43)), Byte(9, AllBut(0x52))] [10 Text(0, b"MM\0*"), Byte(8, AllBut(0x43)), Byte(9, AllBut(0x52))];
    Bmp [2 Text(0, b"BM")];
    Jxr [3 Text(0, b"II\xBC")];
    Psd [4 Text(0, b"8BPS")];
    Ico [4 Text(0, b"\0\0\x01\0")];
    Heif;
    Avif;
    Jxl [3 Text(0, b"\xFF\n")] [13 Text(0, b"\0\0\0\x0CJXL \r\n\x87\n")];
    Ora [58 Text(0, b"PK\x03\x04"), Text(30, b"mimetypeimage/openraster")];
};

static DATA_FROM_30: [Option<RowData>; ROWS_OF_A_LIST] = row_data! {
    Djvu [15 Text(0, b"AT&TFORM"), Text(12, b"DJV")];
    Dwg [6 AnyText(0, &[b"MC0.0\0", b"AC1.2\0", b"AC1.3\0", b"AC1.40", b"AC1.50", b"AC2.10", b"AC2.21", b"AC2.22", b"AC1001", b"AC1002", b"AC1003", b"AC1004", b"AC1006", b"AC1009", b"AC1012", b"AC1013", b"AC1014", b"AC1015", b"AC1018", b"AC1021", b"AC1024", b"AC1027", b"AC1032", b"AC1035"])];
    Mp4 [12 Text(4, b"ftyp"), AnyText(8, &[b"avc1", b"dash", b"iso2", b"iso3", b"iso4", b"iso5", b"iso6", b"isom", b"mmp4", b"mp41", b"mp42", b"mp4v", b"mp71", b"MSNV", b"NDAS", b"NDSC", b"NSDC", b"NDSH", b"NDSM", b"NDSP", b"NDSS", b"NDXC", b"NDXH", b"NDXM", b"NDXP", b"NDXS", b"F4V ", b"F4P "])];
    M4v [11 Text(4, b"ftypM4V")];
    Mkv;
    Webm;
    Mov [16 Text(4, b"ftypqt  ")] [16 Text(4, b"moov")] [16 Text(4, b"mdat")] [16 Text(12, b"mdat")];
    Avi [11 Text(0, b"RIFF"), Text(8, b"AVI")];
    Wmv [10 Text(0, b"0&\xB2u\x8Ef\xCF\x11\xA6\xD9")];
    Mpeg [4 Text(0, b"\0\0\x01"), Byte(3, Between(0xB0, 0xBF))];
};

static DATA_FROM_40: [Option<RowData>; ROWS_OF_A_LIST] = row_data! {
    Flv [4 Text(0, b"FLV\x01")];
    Midi [4 Text(0, b"MThd")];
    Mp3 [3 Text(0, b"ID3")] [3 Byte(0, AnyOf(b"\xFF")), Byte(1, AnyOf(b"\xFB\xF3\xF2"))];
    M4a [11 Text(4, b"ftypM4A")] [11 Text(0, b"M4A ")];
    OggOpus [36 Text(0, b"OggS"), Text(28, b"OpusHead")];
    Ogg [4 Text(0, b"OggS")];
    Flac [4 Text(0, b"fLaC")];
    Wav [12 Text(0, b"RIFF"), Text(8, b"WAVE")];
    Amr [12 Text(0, b"#!AMR\n")];
    Aac [2 Byte(0, AnyOf(b"\xFF")), Byte(1, AnyOf(b"\xF1\xF9"))];
};

static DATA_FROM_50: [Option<RowData>; ROWS_OF_A_LIST] = row_data! {
    Aiff [12 Text(0, b"FORM"), Text(8, b"AIFF")];
    Dsf [5 Text(0, b"DSD ")];
    Ape [5 Text(0, b"MAC ")];
    Woff [8 Text(0, b"wOFF\0\x01\0\0")];
    Woff2 [8 Text(0, b"wOF2\0\x01\0\0")];
    Ttf [5 Text(0, b"\0\x01\0\0\0")];
    Otf [5 Text(0, b"OTTO\0")];
    Doc;
    Docx;
    Xls;
};

static DATA_FROM_60: [Option<RowData>; ROWS_OF_A_LIST] = row_data! {
    Xlsx;
    Ppt;
    Pptx;
    Odt [77 Text(0, b"PK\x03\x04"), Text(30, b"mimetype"), Text(50, b"vnd.oasis.opendocument.text")];
    Ods [84 Text(0, b"PK\x03\x04"), Text(30, b"mimetype"), Text(50, b"vnd.oasis.opendocument.spreadsheet")];
    Odp [85 Text(0, b"PK\x03\x04"), Text(30, b"mimetype"), Text(50, b"vnd.oasis.opendocument.presentation")];
    EpubArchive [58 Text(0, b"PK\x03\x04"), Text(30, b"mimetypeapplication/epub+zip")];
    Zip [4 Text(0, b"PK\x03\x04")] [4 Text(0, b"PK\x05\x06")] [4 Text(0, b"PK\x07\x08")] [8 Text(0, b"PK00PK\x03\x04")];
    Tar [262 Text(257, b"ustar")];
    Par2 [9 Text(0, b"PAR2\0PKT")];
};

static DATA_FROM_70: [Option<RowData>; ROWS_OF_A_LIST] = row_data! {
    Rar [7 Text(0, b"Rar!\x1A\x07"), Byte(6, AnyOf(b"\0\x01"))];
    Gz [3 Text(0, b"\x1F\x8B\x08")];
    Bz2 [3 Text(0, b"BZh")];
    Bz3 [5 Text(0, b"BZ3v1")];
    SevenZ [6 Text(0, b"7z\xBC\xAF'\x1C")];
    Xz [6 Text(0, b"\xFD7zXZ\0")];
    Pdf;
    Swf [3 Byte(0, AnyOf(b"CF")), Text(1, b"WS")];
    Rtf [5 Text(0, b"{\\rtf")];
    Eot [36 Text(8, b"\x02\0\x01"), Text(34, b"LP")] [36 Text(8, b"\x01\0\0"), Text(34, b"LP")] [36 Text(8, b"\x02\0\x02"), Text(34, b"LP")];
};

static DATA_FROM_80: [Option<RowData>; ROWS_OF_A_LIST] = row_data! {
    Ps [2 Text(0, b"%!")];
    Sqlite [4 Text(0, b"SQLi")];
    Nes [4 Text(0, b"NES\x1A")];
    Crx [4 Text(0, b"Cr24")];
    Cab [4 Text(0, b"MSCF")] [4 Text(0, b"ISc(")];
    Deb [21 Text(0, b"!<arch>\ndebian-binary")];
    Ar [7 Text(0, b"!<arch>")];
    Z [2 Byte(0, AnyOf(b"\x1F")), Byte(1, AnyOf(b"\xA0\x9D"))];
    Lz [4 Text(0, b"LZIP")];
    Rpm [97 Text(0, b"\xED\xAB\xEE\xDB")];
};

static DATA_FROM_90: [Option<RowData>; ROWS_OF_A_LIST] = row_data! {
    Dcm [132 Text(128, b"DICM")];
    Zst;
    Lz4;
    Msi [8 Text(0, b"\xD0\xCF\x11\xE0\xA1\xB1\x1A\xE1")];
    Cpio [2 Text(0, b"\xC7q")] [2 Text(0, b"q\xC7")] [7 Text(0, b"070701")];
    Html;
    Xml;
    Shellscript [3 Text(0, b"#!")];
    NoRow [];
    NoRow [];
};

#[tactic(auto, unfolding(crate::specs::Table::signature_of, crate::specs::Table::table))]
fn data_from_0() -> &'static [Option<RowData>; ROWS_OF_A_LIST]
    ensures { AreListed 0 10 result.now }
{
    &DATA_FROM_0
}

#[tactic(auto, unfolding(crate::specs::Table::signature_of, crate::specs::Table::table))]
fn data_from_10() -> &'static [Option<RowData>; ROWS_OF_A_LIST]
    ensures { AreListed 10 10 result.now }
{
    &DATA_FROM_10
}

#[tactic(auto, unfolding(crate::specs::Table::signature_of, crate::specs::Table::table))]
fn data_from_20() -> &'static [Option<RowData>; ROWS_OF_A_LIST]
    ensures { AreListed 20 10 result.now }
{
    &DATA_FROM_20
}

#[tactic(auto, unfolding(crate::specs::Table::signature_of, crate::specs::Table::table))]
fn data_from_30() -> &'static [Option<RowData>; ROWS_OF_A_LIST]
    ensures { AreListed 30 10 result.now }
{
    &DATA_FROM_30
}

#[tactic(auto, unfolding(crate::specs::Table::signature_of, crate::specs::Table::table))]
fn data_from_40() -> &'static [Option<RowData>; ROWS_OF_A_LIST]
    ensures { AreListed 40 10 result.now }
{
    &DATA_FROM_40
}

#[tactic(auto, unfolding(crate::specs::Table::signature_of, crate::specs::Table::table))]
fn data_from_50() -> &'static [Option<RowData>; ROWS_OF_A_LIST]
    ensures { AreListed 50 10 result.now }
{
    &DATA_FROM_50
}

#[tactic(auto, unfolding(crate::specs::Table::signature_of, crate::specs::Table::table))]
fn data_from_60() -> &'static [Option<RowData>; ROWS_OF_A_LIST]
    ensures { AreListed 60 10 result.now }
{
    &DATA_FROM_60
}

#[tactic(auto, unfolding(crate::specs::Table::signature_of, crate::specs::Table::table))]
fn data_from_70() -> &'static [Option<RowData>; ROWS_OF_A_LIST]
    ensures { AreListed 70 10 result.now }
{
    &DATA_FROM_70
}

#[tactic(auto, unfolding(crate::specs::Table::signature_of, crate::specs::Table::table))]
fn data_from_80() -> &'static [Option<RowData>; ROWS_OF_A_LIST]
    ensures { AreListed 80 10 result.now }
{
    &DATA_FROM_80
}

#[tactic(auto, unfolding(crate::specs::Table::signature_of, crate::specs::Table::table))]
fn data_from_90() -> &'static [Option<RowData>; ROWS_OF_A_LIST]
    ensures { AreListed 90 10 result.now }
{
    &DATA_FROM_90
}

/// The row with which a list begins in which this one stands, and the list.
fn list_of(row: usize) -> (usize, &'static [Option<RowData>; ROWS_OF_A_LIST])
    ensures begins { result.0 ≤ row }
    ensures ends { row < ROW_COUNT → row < result.0 + 10 }
    ensures listed { AreListed result.0 10 result.1.now }
{
    match row {
        0..=9 => (0, data_from_0()),
        10..=19 => (10, data_from_10()),
        20..=29 => (20, data_from_20()),
        30..=39 => (30, data_from_30()),
        40..=49 => (40, data_from_40()),
        50..=59 => (50, data_from_50()),
        60..=69 => (60, data_from_60()),
        70..=79 => (70, data_from_70()),
        80..=89 => (80, data_from_80()),
        90.. => (90, data_from_90()),
    }
}

/// The signature of the row as data, if it asks for bytes at fixed places alone.
pub(crate) fn row_data(row: usize) -> Option<&'static RowData>
    ensures some { IfSome result (λ k. signature_of row ≡ fixed (signature_listed k.now.alternatives.now)) }
    ensures none { result ≡ None → row < ROW_COUNT → fixed_of (signature_of row) ≡ None }
{
    let (first, rows) = list_of(row);
    match rows.get(row - first) {
        Some(Some(data)) => Some(data),
        Some(None) => None,
        None => None,
    }
}

/// What a row searches for that asks for a text somewhere at the front alone.
pub(crate) fn search_of(row: usize) -> Option<Search>
    ensures is { IfSome result (IsSearch row) }
    ensures most { IfSome result (λ s. most_of (signature_of row) ≡ MOST_OF_A_SEARCH) }
{
    if row != PDF {
        return None;
    }
    Some(Search {
        text: b"%PDF",
        end: 1024,
    })
}
