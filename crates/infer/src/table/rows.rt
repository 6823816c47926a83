//! The built-in rows by their names and numbers. Made by `tools/tables` from the rows of built_in.rt.
ghost use Rattle.std.specs.Prelude.{◌≡◌, length};
ghost use Rattle.infer.specs.Table.{table};
ghost use Rattle.infer.specs.declared.read.head.TheConstants.{FRONT};
ghost use Rattle.infer.specs.declared.samples.TheConstants.{SAMPLE_SIZE};

/// The rows, in order.
#[derive(Clone, Copy)]
pub enum RowName {
    Wasm,
    Elf,
    Exe,
    Dll,
    Java,
    Llvm,
    Mach,
    Dex,
    Dey,
    Der,
    Coff,
    Pem,
    Qcow2,
    Epub,
    Mobi,
    Jpeg,
    Jpeg2000,
    Png,
    Gif,
    Webp,
    Cr2,
    Tiff,
    Bmp,
    Jxr,
    Psd,
    Ico,
    Heif,
    Avif,
    Jxl,
    Ora,
    Djvu,
    Dwg,
    Mp4,
    M4v,
    Mkv,
    Webm,
    Mov,
    Avi,
    Wmv,
    Mpeg,
    Flv,
    Midi,
    Mp3,
    M4a,
    OggOpus,
    Ogg,
    Flac,
    Wav,
    Amr,
    Aac,
    Aiff,
    Dsf,
    Ape,
    Woff,
    Woff2,
    Ttf,
    Otf,
    Doc,
    Docx,
    Xls,
    Xlsx,
    Ppt,
    Pptx,
    Odt,
    Ods,
    Odp,
    EpubArchive,
    Zip,
    Tar,
    Par2,
    Rar,
    Gz,
    Bz2,
    Bz3,
    SevenZ,
    Xz,
    Pdf,
    Swf,
    Rtf,
    Eot,
    Ps,
    Sqlite,
    Nes,
    Crx,
    Cab,
    Deb,
    Ar,
    Z,
    Lz,
    Rpm,
    Dcm,
    Zst,
    Lz4,
    Msi,
    Cpio,
    Html,
    Xml,
    Shellscript,
}

pub const WASM: usize = RowName::Wasm as usize;

pub const ELF: usize = RowName::Elf as usize;

pub const EXE: usize = RowName::Exe as usize;

pub const DLL: usize = RowName::Dll as usize;

pub const JAVA: usize = RowName::Java as usize;

pub const LLVM: usize = RowName::Llvm as usize;

pub const MACH: usize = RowName::Mach as usize;

pub const DEX: usize = RowName::Dex as usize;

pub const DEY: usize = RowName::Dey as usize;

pub const DER: usize = RowName::Der as usize;

pub const COFF: usize = RowName::Coff as usize;

pub const PEM: usize = RowName::Pem as usize;

pub const QCOW2: usize = RowName::Qcow2 as usize;

pub const EPUB: usize = RowName::Epub as usize;

pub const MOBI: usize = RowName::Mobi as usize;

pub const JPEG: usize = RowName::Jpeg as usize;

pub const JPEG2000: usize = RowName::Jpeg2000 as usize;

pub const PNG: usize = RowName::Png as usize;

pub const GIF: usize = RowName::Gif as usize;

pub const WEBP: usize = RowName::Webp as usize;

pub const CR2: usize = RowName::Cr2 as usize;

pub const TIFF: usize = RowName::Tiff as usize;

pub const BMP: usize = RowName::Bmp as usize;

pub const JXR: usize = RowName::Jxr as usize;

pub const PSD: usize = RowName::Psd as usize;

pub const ICO: usize = RowName::Ico as usize;

pub const HEIF: usize = RowName::Heif as usize;

pub const AVIF: usize = RowName::Avif as usize;

pub const JXL: usize = RowName::Jxl as usize;

pub const ORA: usize = RowName::Ora as usize;

pub const DJVU: usize = RowName::Djvu as usize;

pub const DWG: usize = RowName::Dwg as usize;

pub const MP4: usize = RowName::Mp4 as usize;

pub const M4V: usize = RowName::M4v as usize;

pub const MKV: usize = RowName::Mkv as usize;

pub const WEBM: usize = RowName::Webm as usize;

pub const MOV: usize = RowName::Mov as usize;

pub const AVI: usize = RowName::Avi as usize;

pub const WMV: usize = RowName::Wmv as usize;

pub const MPEG: usize = RowName::Mpeg as usize;

pub const FLV: usize = RowName::Flv as usize;

pub const MIDI: usize = RowName::Midi as usize;

pub const MP3: usize = RowName::Mp3 as usize;

pub const M4A: usize = RowName::M4a as usize;

pub const OGG_OPUS: usize = RowName::OggOpus as usize;

pub const OGG: usize = RowName::Ogg as usize;

pub const FLAC: usize = RowName::Flac as usize;

pub const WAV: usize = RowName::Wav as usize;

pub const AMR: usize = RowName::Amr as usize;

pub const AAC: usize = RowName::Aac as usize;

pub const AIFF: usize = RowName::Aiff as usize;

pub const DSF: usize = RowName::Dsf as usize;

pub const APE: usize = RowName::Ape as usize;

pub const WOFF: usize = RowName::Woff as usize;

pub const WOFF2: usize = RowName::Woff2 as usize;

pub const TTF: usize = RowName::Ttf as usize;

pub const OTF: usize = RowName::Otf as usize;

pub const DOC: usize = RowName::Doc as usize;

pub const DOCX: usize = RowName::Docx as usize;

pub const XLS: usize = RowName::Xls as usize;

pub const XLSX: usize = RowName::Xlsx as usize;

pub const PPT: usize = RowName::Ppt as usize;

pub const PPTX: usize = RowName::Pptx as usize;

pub const ODT: usize = RowName::Odt as usize;

pub const ODS: usize = RowName::Ods as usize;

pub const ODP: usize = RowName::Odp as usize;

pub const EPUB_ARCHIVE: usize = RowName::EpubArchive as usize;

pub const ZIP: usize = RowName::Zip as usize;

pub const TAR: usize = RowName::Tar as usize;

pub const PAR2: usize = RowName::Par2 as usize;

pub const RAR: usize = RowName::Rar as usize;

pub const GZ: usize = RowName::Gz as usize;

pub const BZ2: usize = RowName::Bz2 as usize;

pub const BZ3: usize = RowName::Bz3 as usize;

pub const SEVEN_Z: usize = RowName::SevenZ as usize;

pub const XZ: usize = RowName::Xz as usize;

pub const PDF: usize = RowName::Pdf as usize;

pub const SWF: usize = RowName::Swf as usize;

pub const RTF: usize = RowName::Rtf as usize;

pub const EOT: usize = RowName::Eot as usize;

pub const PS: usize = RowName::Ps as usize;

pub const SQLITE: usize = RowName::Sqlite as usize;

pub const NES: usize = RowName::Nes as usize;

pub const CRX: usize = RowName::Crx as usize;

pub const CAB: usize = RowName::Cab as usize;

pub const DEB: usize = RowName::Deb as usize;

pub const AR: usize = RowName::Ar as usize;

pub const Z: usize = RowName::Z as usize;

pub const LZ: usize = RowName::Lz as usize;

pub const RPM: usize = RowName::Rpm as usize;

pub const DCM: usize = RowName::Dcm as usize;

pub const ZST: usize = RowName::Zst as usize;

pub const LZ4: usize = RowName::Lz4 as usize;

pub const MSI: usize = RowName::Msi as usize;

pub const CPIO: usize = RowName::Cpio as usize;

pub const HTML: usize = RowName::Html as usize;

pub const XML: usize = RowName::Xml as usize;

pub const SHELLSCRIPT: usize = RowName::Shellscript as usize;

/// How many rows there are.
pub const ROW_COUNT: usize = 98;

/// How many matchers there are: those of the rows, and the three of object files for one processor.
pub const MATCHER_COUNT: usize = ROW_COUNT + 3;

/// How many rows are candidates of one buffer at most.
pub const MOST_CANDIDATES: usize = 25;

/// The numbers that the names stand for, those of [`crate::FRONT`] and [`crate::SAMPLE_SIZE`] among them.
#[tactic(auto, using(crate::proofs::TableLemmas::table_rows))]
pub fn numbers()
    ensures names { (ROW_COUNT ≡ 98) × (DLL ≡ 3) × (EPUB_ARCHIVE ≡ 66) × (MOST_CANDIDATES ≡ 25) }
    ensures sizes { (FRONT ≡ 8192) × (SAMPLE_SIZE ≡ 640) }
    ensures bounds { (AVIF ≡ 27) × (PPT ≡ 61) × (PPTX ≡ 62) × (LZ4 ≡ 92) × (XML ≡ 96) }
    ensures many { length table ≡ ROW_COUNT }
{}
