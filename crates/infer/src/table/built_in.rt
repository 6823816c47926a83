//! The built-in rows, each with what it shows and its matcher. Their names and numbers follow from this list.
ghost use Rattle.std.specs.Prelude.{◌≡◌, ◌↔◌, ◌<◌, None, Some, IsTrue, length, map, slice_get};
ghost use Rattle.infer.specs.BuiltIn.{DecidesAccepted};
ghost use Rattle.infer.specs.Decided.{DecidesMayBecome};
ghost use Rattle.infer.specs.Evidence.{fixed_of};
ghost use Rattle.infer.specs.Listed.{number_of, row_listed};
ghost use Rattle.infer.specs.Row.{Accepts};
ghost use Rattle.infer.specs.Table.{signature_of, table};
ghost use Rattle.infer.specs.Walks.{RowHas};

use crate::table::file_type::{FileType, MatcherType};
use crate::table::rows::{ROW_COUNT, RowName};
use infer_sig::{app, archive, audio, book, doc, font, image, odf, text, video};

// Hands the rows, in order, to another macro: the name, what it shows, the matcher, and what may become the type if that asks for
// more than bytes at fixed places.
macro_rules! with_rows {
    ($with:ident $($more:tt)*) => {
        $with! { [$($more)*]
            Wasm App "application/wasm" "wasm" app::is_wasm;
            Elf App "application/x-executable" "elf" app::is_elf;
            Exe App "application/vnd.microsoft.portable-executable" "exe" app::is_exe;
            Dll App "application/vnd.microsoft.portable-executable" "dll" app::is_exe;
            Java App "application/java" "class" app::is_java;
            Llvm App "application/x-llvm" "bc" app::is_llvm;
            Mach App "application/x-mach-binary" "mach" app::is_mach;
            Dex App "application/vnd.android.dex" "dex" app::is_dex;
            Dey App "application/vnd.android.dey" "dey" app::is_dey;
            Der App "application/x-x509-ca-cert" "der" app::is_der;
            Coff App "application/x-executable" "obj" app::is_coff;
            Pem App "application/x-x509-ca-cert" "pem" app::is_pem;
            Qcow2 App "application/x-qemu-disk" "qcow2" app::is_qcow2;
            Epub Book "application/epub+zip" "epub" book::is_epub;
            Mobi Book "application/x-mobipocket-ebook" "mobi" book::is_mobi;
            Jpeg Image "image/jpeg" "jpg" image::is_jpeg;
            Jpeg2000 Image "image/jp2" "jp2" image::is_jpeg2000;
            Png Image "image/png" "png" image::is_png;
            Gif Image "image/gif" "gif" image::is_gif;
            Webp Image "image/webp" "webp" image::is_webp;
            Cr2 Image "image/x-canon-cr2" "cr2" image::is_cr2;
            Tiff Image "image/tiff" "tif" image::is_tiff;
            Bmp Image "image/bmp" "bmp" image::is_bmp;
            Jxr Image "image/vnd.ms-photo" "jxr" image::is_jxr;
            Psd Image "image/vnd.adobe.photoshop" "psd" image::is_psd;
            Ico Image "image/vnd.microsoft.icon" "ico" image::is_ico;
            Heif Image "image/heif" "heif" image::is_heif, image::may_become_heif;
            Avif Image "image/avif" "avif" image::is_avif, image::may_become_avif;
            Jxl Image "image/jxl" "jxl" image::is_jxl;
            Ora Image "image/openraster" "ora" image::is_ora;
            Djvu Image "image/vnd.djvu" "djvu" image::is_djvu;
            Dwg Image "image/vnd.dwg" "dwg" image::is_dwg;
            Mp4 Video "video/mp4" "mp4" video::is_mp4;
            M4v Video "video/x-m4v" "m4v" video::is_m4v;
            Mkv Video "video/x-matroska" "mkv" video::is_mkv, video::may_become_mkv;
            Webm Video "video/webm" "webm" video::is_webm, video::may_become_webm;
            Mov Video "video/quicktime" "mov" video::is_mov;
            Avi Video "video/x-msvideo" "avi" video::is_avi;
            Wmv Video "video/x-ms-wmv" "wmv" video::is_wmv;
            Mpeg Video "video/mpeg" "mpg" video::is_mpeg;
            Flv Video "video/x-flv" "flv" video::is_flv;
            Midi Audio "audio/midi" "midi" audio::is_midi;
            Mp3 Audio "audio/mpeg" "mp3" audio::is_mp3;
            M4a Audio "audio/m4a" "m4a" audio::is_m4a;
            OggOpus Audio "audio/opus" "opus" audio::is_ogg_opus;
            Ogg Audio "audio/ogg" "ogg" audio::is_ogg;
            Flac Audio "audio/x-flac" "flac" audio::is_flac;
            Wav Audio "audio/x-wav" "wav" audio::is_wav;
            Amr Audio "audio/amr" "amr" audio::is_amr;
            Aac Audio "audio/aac" "aac" audio::is_aac;
            Aiff Audio "audio/x-aiff" "aiff" audio::is_aiff;
            Dsf Audio "audio/x-dsf" "dsf" audio::is_dsf;
            Ape Audio "audio/x-ape" "ape" audio::is_ape;
            Woff Font "application/font-woff" "woff" font::is_woff;
            Woff2 Font "application/font-woff" "woff2" font::is_woff2;
            Ttf Font "application/font-sfnt" "ttf" font::is_ttf;
            Otf Font "application/font-sfnt" "otf" font::is_otf;
            Doc Doc "application/msword" "doc" doc::is_doc, doc::may_become_doc;
            Docx Doc "application/vnd.openxmlformats-officedocument.wordprocessingml.document" "docx" doc::is_docx, doc::may_become_docx;
            Xls Doc "application/vnd.ms-excel" "xls" doc::is_xls, doc::may_become_xls;
            Xlsx Doc "application/vnd.openxmlformats-officedocument.spreadsheetml.sheet" "xlsx" doc::is_xlsx, doc::may_become_xlsx;
            Ppt Doc "application/vnd.ms-powerpoint" "ppt" doc::is_ppt, doc::may_become_ppt;
            Pptx Doc "application/vnd.openxmlformats-officedocument.presentationml.presentation" "pptx" doc::is_pptx, doc::may_become_pptx;
            Odt Doc "application/vnd.oasis.opendocument.text" "odt" odf::is_odt;
            Ods Doc "application/vnd.oasis.opendocument.spreadsheet" "ods" odf::is_ods;
            Odp Doc "application/vnd.oasis.opendocument.presentation" "odp" odf::is_odp;
            EpubArchive Archive "application/epub+zip" "epub" book::is_epub;
            Zip Archive "application/zip" "zip" archive::is_zip;
            Tar Archive "application/x-tar" "tar" archive::is_tar;
            Par2 Archive "application/x-par2" "par2" archive::is_par2;
            Rar Archive "application/vnd.rar" "rar" archive::is_rar;
            Gz Archive "application/gzip" "gz" archive::is_gz;
            Bz2 Archive "application/x-bzip2" "bz2" archive::is_bz2;
            Bz3 Archive "application/vnd.bzip3" "bz3" archive::is_bz3;
            SevenZ Archive "application/x-7z-compressed" "7z" archive::is_7z;
            Xz Archive "application/x-xz" "xz" archive::is_xz;
            Pdf Archive "application/pdf" "pdf" archive::is_pdf, archive::may_become_pdf;
            Swf Archive "application/x-shockwave-flash" "swf" archive::is_swf;
            Rtf Archive "application/rtf" "rtf" archive::is_rtf;
            Eot Archive "application/octet-stream" "eot" archive::is_eot;
            Ps Archive "application/postscript" "ps" archive::is_ps;
            Sqlite Archive "application/vnd.sqlite3" "sqlite" archive::is_sqlite;
            Nes Archive "application/x-nintendo-nes-rom" "nes" archive::is_nes;
            Crx Archive "application/x-google-chrome-extension" "crx" archive::is_crx;
            Cab Archive "application/vnd.ms-cab-compressed" "cab" archive::is_cab;
            Deb Archive "application/vnd.debian.binary-package" "deb" archive::is_deb;
            Ar Archive "application/x-unix-archive" "ar" archive::is_ar;
            Z Archive "application/x-compress" "Z" archive::is_z;
            Lz Archive "application/x-lzip" "lz" archive::is_lz;
            Rpm Archive "application/x-rpm" "rpm" archive::is_rpm;
            Dcm Archive "application/dicom" "dcm" archive::is_dcm;
            Zst Archive "application/zstd" "zst" archive::is_zst, archive::may_become_zst;
            Lz4 Archive "application/x-lz4" "lz4" archive::is_lz4, archive::may_become_lz4;
            Msi Archive "application/x-ole-storage" "msi" archive::is_msi;
            Cpio Archive "application/x-cpio" "cpio" archive::is_cpio;
            Html Text "text/html" "html" text::is_html, text::may_become_html;
            Xml Text "text/xml" "xml" text::is_xml, text::may_become_xml;
            Shellscript Text "text/x-shellscript" "sh" text::is_shellscript;
        }
    };
}

macro_rules! rows {
    ([] $($row:ident $class:ident $mime_type:literal $extension:literal $matcher:path $(, $may_become:path)?;)*) => {
        [$(BuiltInRow {
            file_type: FileType {
                matcher_type: MatcherType::$class,
                mime_type: $mime_type,
                extension: $extension,
            },
            row: RowName::$row,
        }),*]
    };
}

macro_rules! matchers {
    ([$name:ident $buf:ident] $($row:ident $class:ident $mime_type:literal $extension:literal $matcher:path $(, $may_become:path)?;)*) => {
        match $name {
            $(RowName::$row => $matcher($buf),)*
        }
    };
}

macro_rules! may_become {
    ([$name:ident $buf:ident] $($row:ident $class:ident $mime_type:literal $extension:literal $matcher:path $(, $may_become:path)?;)*) => {
        match $name {
            $(RowName::$row => may_become_deep!($buf $($may_become)?),)*
        }
    };
}

macro_rules! may_become_deep {
    ($buf:ident) => {
        false
    };
    ($buf:ident $may_become:path) => {
        $may_become($buf)
    };
}

/// A built-in row: what it shows, and its name.
#[derive(Clone, Copy)]
pub(crate) struct BuiltInRow {
    pub file_type: FileType,
    pub row: RowName,
}

static ROWS: [BuiltInRow; ROW_COUNT] = with_rows!(rows);

/// The built-in rows, in the order in which they are asked.
#[tactic(auto, unfolding(crate::specs::Table::signature_of, crate::specs::Table::table))]
pub(crate) fn rows() -> &'static [BuiltInRow]
    ensures listed { map row_listed result.now ≡ table }
    ensures many { length result.now ≡ ROW_COUNT }
{
    &ROWS
}

/// Row `i`.
#[inline(always)]
pub(crate) fn row_at(i: usize) -> &'static BuiltInRow
    requires { i < ROW_COUNT }
    ensures { slice_get table i ≡ Some (row_listed result.now) }
{
    &rows()[i]
}

/// Whether the row accepts `buf`, as its signature says. Matchers are called by name: a function pointer in a static would
/// hide what its contract says.
#[tactic(auto, unfolding(crate::specs::Table::signature_of, crate::specs::Table::table))]
#[inline(always)]
fn match_row(name: RowName, buf: &[u8]) -> bool
    ensures { DecidesAccepted (signature_of (number_of name)) buf.now result }
{
    with_rows!(matchers name buf)
}

/// Whether some bytes after `buf` make the row accept it, which asks for more than bytes at fixed places.
#[tactic(auto, unfolding(crate::specs::Table::signature_of, crate::specs::Table::table))]
#[inline(always)]
pub(crate) fn may_become_deep(name: RowName, buf: &[u8]) -> bool
    requires { fixed_of (signature_of (number_of name)) ≡ None }
    ensures { DecidesMayBecome (signature_of (number_of name)) buf.now result }
{
    with_rows!(may_become name buf)
}

impl BuiltInRow {
    /// Whether the row accepts `buf`.
    #[tactic(auto, using(crate::proofs::TableLemmas::accepted_as_told))]
    #[inline(always)]
    pub(crate) fn accepts(&self, buf: &[u8]) -> bool
        ensures { IsTrue result ↔ Accepts buf.now (row_listed self.now) }
    {
        match_row(self.row, buf)
    }
}

/// Whether row `row` accepts `buf`. From `ROW_COUNT` on there is no row, and none accepts.
#[inline(always)]
pub fn accepts(buf: &[u8], row: usize) -> bool
    ensures { IsTrue result ↔ RowHas (Accepts buf.now) row }
{
    match rows().get(row) {
        Some(row) => row.accepts(buf),
        None => false,
    }
}
