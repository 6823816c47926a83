//! One buffer that has each property which the page of definitions shows, and one that has not, told by the call whose
//! contract names the property.

use crate::added::begins_10_11_12;
use crate::definitions::*;
use crate::growing::{
    begins_white_alone, breaks_at_1, is_kept_open_by_white, is_one_short, stays_unknown,
};
use crate::laws::{may_answer_first, sample_within};
use infer::archive::{is_lz4, is_pdf, is_zst};
use infer::beginnings::{
    begins_compound, begins_frame, begins_mark, begins_office, begins_white, is_open_box,
};
use infer::doc::{is_doc, is_docx, is_ppt, is_pptx, is_xls, is_xlsx};
use infer::image::{is_avif, is_heif, is_png};
use infer::rows::{DOC, DOCX, MKV, PPT, PPTX, WEBM, XLS, XLSX};
use infer::text::{is_html, is_xml, may_become_html};
use infer::texts::{is_mime_supported, is_supported};
use infer::video::{is_mkv, is_webm};
use infer::{Infer, is_decided, is_image};
use infer_deep::doc::has_office_name;
use infer_formats::dbase::is_dbase;
use infer_formats::elf::is_shared_object;
use infer_formats::json::{is_json, is_json_lines, may_become_json, may_become_json_lines};
use infer_formats::markup::{has_root, has_root_with, may_be_rooted};
use infer_formats::png::is_animated;
use infer_formats::subtitles::is_subrip;
use infer_formats::tar::has_tar_checksum;
use infer_formats::text::{is_binary, may_become_text, stays_text};
use infer_formats::tiff::first_directory_has_tag;
use infer_formats::zip::{
    first_entry_ends_in, first_entry_has_extra, first_entry_is, is_package_with,
};
use infer_more::is_text;
use infer_uses::gate::admits;
use std::alloc::AllocError;

// Each line stands on the page too: the property, the call, a buffer that has it and one that has not.
macro_rules! told {
    ($($name:literal $call:path, $has:expr, $lacks:expr;)*) => {
        [$(($name, $call($has), $call($lacks))),*]
    };
}

// Such lines for a call that is told more than the buffer.
macro_rules! told_of {
    ($($name:literal $call:ident($($with:expr),+), $has:expr, $lacks:expr;)*) => {
        [$(($name, $call($has, $($with),+), $call($lacks, $($with),+))),*]
    };
}

// Such lines for a call that is told the added rows too.
macro_rules! told_with {
    ($infer:expr; $($name:literal $call:path, $has:expr, $lacks:expr;)*) => {
        [$(($name, $call($infer, $has), $call($infer, $lacks))),*]
    };
}

/// So many zeros, with the texts at their places.
fn zeros_but<const N: usize>(texts: &[(usize, &[u8])]) -> [u8; N] {
    let mut buf = [0; N];
    for (place, text) in texts {
        buf[*place..*place + text.len()].copy_from_slice(text);
    }
    buf
}

/// What the call answers of the sample of a row, and of the sample without its last byte.
fn sample_and_less(row: usize, call: fn(&[u8]) -> bool) -> (bool, bool) {
    let mut out = [0; infer::SAMPLE_SIZE];
    let sample = sample_within(row, &mut out);
    (
        call(sample),
        call(&sample[..sample.len().saturating_sub(1)]),
    )
}

#[test]
fn signatures(rt: HostRuntime) {
    let told = told! {
        "OccursAt" has_ftyp_at_4, b"\0\0\0\0ftyp", b"ftyp";
        "head 2 buf.now" has_head_mz, b"MZP", b"M";
        "accepts png" is_png, b"\x89PNG", b"\x89PN";
        "may_become png" may_become_png, b"\x89PN", b"PN";
        "IsAccepted (fixed png)" is_accepted_by_png, b"\x89PNG", b"\x89PN";
        "le16 buf.now 0" is_one_by_le16, b"\x01\0", b"\0\x01";
        "le32 buf.now 0" is_one_by_le32, b"\x01\0\0\0", b"\0\0\0\x01";
        "be32 buf.now 0" is_one_by_be32, b"\0\0\0\x01", b"\x01\0\0\0";
        "IsPdf" is_pdf, b"\n%PDF", b"%PD";
        "IsZst" is_zst, b"P*M\x18\0\0\0\0(\xB5/\xFD", b"P*M\x18\0\0\0\0";
        "IsLz4" is_lz4, b"\x04\"M\x18", b"P*M\x18\0\0\0\0(\xB5/\xFD";
        "IsFrame" is_frame, b"P*M\x18\x01\0\0\0.", b"P*M\x18\x01\0\0\0";
        "IsHeif" is_heif, b"\0\0\0\x10ftypheic\0\0\0\0", b"\0\0\0\x11ftypheic\0\0\0\0";
        "IsAvif" is_avif, b"\0\0\0\x10ftypavif\0\0\0\0", b"\0\0\0\x10ftypheic\0\0\0\0";
        "IsBoxed" is_boxed, b"\0\0\0\x10ftyp\0\0\0\0\0\0\0\0", b"\0\0\0\x11ftyp\0\0\0\0\0\0\0\0";
        "HasMajor" has_major_heic, b"\0\0\0\0\0\0\0\0heic", b"heic";
        "HasOfficeName" has_office_name, b"..............................docProps", b".............................docProps";
        "HasFolder" has_folder_at_30, b"..............................xl/", b"xl/";
        "IsHtml" is_html, b" <p>", b"<p";
        "IsXml" is_xml, b" \xEF\xBB\xBF<?XML", b"\xEF\xBB\xBF <?xml";
        "IsSpace" is_space, b" ", b"  ";
        "IsMark" is_mark, b"\xFE\xFF", b"\xFE";
        "MayBecome IsHtml" may_become_html, b" <", b"x";
    };
    for (name, has, lacks) in told {
        assert!(rt; has && !lacks, "{name}");
    }
}

#[test]
fn beginnings(rt: HostRuntime) {
    let told = told! {
        "Begins open_box" is_open_box, b"\0\0\0\x09ftyp", b"\0\0\0\x08ftyp";
        "Begins compound" begins_compound, b"\xD0\xCF\x11\xE0\xA1\xB1\x1A\xE1", b"\xD0\xCF\x11\xE0";
        "Begins archive" begins_office, b"PK\x03\x04..........................docProps", b"PK\x03\x04.........................docProps";
        "Begins frame" begins_frame, b"P*M\x18", b"O*M\x18";
        "Begins white" begins_white, b"\n", b"\x0B";
        "Begins mark" begins_mark, b"\xFE\xFF", b"\xFE";
    };
    for (name, has, lacks) in told {
        assert!(rt; has && !lacks, "{name}");
    }
}

#[test]
fn answers(rt: HostRuntime) {
    let told = told! {
        "RowHas (Accepts buf.now) EXE" is_accepted_by_exe, b"MZ", b"M";
        "IsFirst (Accepts buf.now) table EXE" is_first_exe, b"MZ", b"M";
        "IsFirstOf (Accepts buf.now) table None" has_no_row, b"M", b"MZ";
        "IsAnswer (Accepts buf.now) table None" has_no_row, b"M", b"MZ";
        "SomeBoth (HasClass MatcherType.Image)" is_image, b"GIF", b"MZ";
        "SomeBoth" is_exe_by_extension, b"MZ", b"M";
        "SomeHas (HasExtension extension.now) table" is_supported, b"exe", b"EXE";
        "SomeHas (HasMimeType mime_type.now) table" is_mime_supported, b"image/png", b"image/PNG";
        "RowHas (MayBecomeRow buf.now) WASM" may_become_wasm, b"\0as", b"as";
        "MayAnswer buf.now WASM" may_answer_first, b"\0as", b"as";
        "IsChangeable" is_changeable, b"M", b"MZ";
        "IsDecided" is_decided, b"MZ", b"M";
        "IsDecided" is_wider_decided, &zeros_but::<53>(&[(0, b"\x7FELF")]), &zeros_but::<53>(&[(0, b"\x7FELF\x02\x01"), (16, b"\x03")]);
        "MayBecomeAt buf.now ROW_COUNT" may_become_object, b"\0\0\0\0\0", b"\0\0\0\0\0\0";
        "Begins White" begins_with_white, b" ", b"x";
        "IsSettled" is_settled, &[0; 1024], &[0; 1023];
        "IsTypeOf buf.now None" has_no_row, b"M", b"MZ";
        "IsVerdict buf.now (SoFar None)" is_unknown_so_far, b"M", b"MZ";
        "AcceptsAt buf.now ROW_COUNT" is_accepted_by_object, b"\x7FELF\0\x01\0\0\0\0\0\0\0\0\0\0\x01\0", b"\x7FELF\0\x01\0\0\0\0\0\0\0\0\0\0\x02\0";
        "IsWider buf.now (Some ROW_COUNT)" is_object, b"\x7FELF\0\x01\0\0\0\0\0\0\0\0\0\0\x01\0\0\0\0\0\0\0\0\0\0\0\0\0\0\0\0\0\0\0\0\0\0\0\0\0\0\0\0\0\0\0\0\0\0\0\0", b"\x7FELF\0\x01\0\0\0\0\0\0\0\0\0\0\x01\0";
        "HasAnswer ROW_COUNT buf.now" is_object, b"\x7FELF\0\x01\0\0\0\0\0\0\0\0\0\0\x01\0\0\0\0\0\0\0\0\0\0\0\0\0\0\0\0\0\0\0\0\0\0\0\0\0\0\0\0\0\0\0\0\0\0\0\0", b"\x7FELF\0\x01\0\0\0\0\0\0\0\0\0\0\x01\0";
        "IsWiderAnswer buf.now None" has_no_wider_answer, b"\0", b"\n\r\r\n\0\0\0\0M<+\x1A";
        "IsTypesAnswer [] buf.now None" has_no_answer_of_types, b"\0", b"\n\r\r\n\0\0\0\0M<+\x1A";
        "IsText" is_text, b"a\tb\n", b"a\0";
        "IsEncodingOf buf.now None" has_no_encoding, b"caf\xE9 ", b"caf\xC3";
        "ShowsExtension" shows_extension, "appimage", "APPIMAGE";
        "ShowsMimeType" shows_mime_type, "application/vnd.appimage", "application/appimage";
        "IsAgreed" is_exe_by_extension, b"MZ", b"M";
        "IsChoice" has_no_row, b"M", b"MZ";
        "IsOfClass MatcherType.Image" admits, b"GIF", b"MZ";
        "IsLabel" is_labelled_png, b"\x89PNG", b"\x89PN";
        "HoldsSample" is_sample_of_png, b"\x89PNG", b"\x89PN";
    };
    for (name, has, lacks) in told {
        assert!(rt; has && !lacks, "{name}");
    }
}

#[test]
fn inside(rt: HostRuntime) {
    let told = told! {
        "IsBinary" is_binary, b"a\0", b"a";
        "IsJson" is_json, b"[1,", b"[1";
        "IsJsonLines" is_json_lines, b"[1]\n[", b"[1]\n";
        "MayBecome IsJson" may_become_json, b"[1", b"x";
        "MayBecome IsJsonLines" may_become_json_lines, b"[1]", b"x";
        "MayBecome IsText" may_become_text, b"", b"\0";
        "Stays IsText" stays_text, b"\xFF\xFE", b"a";
        "IsProgram" is_program_sh, b"#!/bin/sh -e\n", b"#!/bin/sh";
        "IsRootElement" is_root_svg, b"<!-- --><s:svg>", b"<svg";
        "MayBeRooted" may_be_rooted, b"<?php <", b"<?php ";
        "IsSubRip" is_subrip, b"1\n00:00:00,000 --> 00:00:01,000", b"1\n00:00:00,000 -> 00:00:01,000";
        "IsAnimated" is_animated, b"\x89PNG\r\n\x1A\n\0\0\0\0acTL", b"\x89PNG\r\n\x1A\n\0\0\0\0IDAT";
        "IsSharedObject" is_shared_object, &zeros_but::<46>(&[(4, b"\x01\x01"), (16, b"\x03"), (42, b" \0\x01")]), &zeros_but::<46>(&[(4, b"\x01\x01"), (16, b"\x02"), (42, b" \0\x01")]);
        "IsDbase" is_dbase, &zeros_but::<65>(&[(0, b"\x02\0\x01\x01"), (8, b"A\0\x02"), (32, b"A"), (43, b"+"), (64, b"\r")]), &zeros_but::<65>(&[(0, b"\x02\0\x01\x01"), (8, b"A\0\x02"), (32, b"A"), (43, b"+")]);
        "HasTarChecksum" has_tar_checksum, &zeros_but::<512>(&[(0, b"\x01"), (148, b"401")]), &zeros_but::<512>(&[(0, b"\x01"), (148, b"400")]);
    };
    for (name, has, lacks) in told {
        assert!(rt; has && !lacks, "{name}");
    }
    let told = told_of! {
        "HasRoot" has_root(b"svg"), b"<svg>", b"<svg";
        "HasRootWith" has_root_with(b"a", b"b"), b"<a b>", b"<a>b";
        "HasTag" first_directory_has_tag(0xC612), b"MM\0*\0\0\0\x06\xC6\x12\0\0\0\0\0\0\0\0\0\0", b"MM\0*\0\0\0\x06\xC6\x12";
        "FirstEntryIs" first_entry_is(b"a"), &zeros_but::<31>(&[(0, b"PK\x03\x04"), (26, b"\x01"), (30, b"a")]), &zeros_but::<31>(&[(0, b"PK\x03\x04"), (26, b"\x01"), (30, b"b")]);
        "FirstEntryEndsIn" first_entry_ends_in(b"b"), &zeros_but::<32>(&[(0, b"PK\x03\x04"), (26, b"\x02"), (30, b"ab")]), &zeros_but::<32>(&[(0, b"PK\x03\x04"), (26, b"\x02"), (30, b"ba")]);
        "FirstEntryHasExtra" first_entry_has_extra(b"b"), &zeros_but::<32>(&[(0, b"PK\x03\x04"), (26, b"\x01"), (28, b"\x01"), (30, b"ab")]), &zeros_but::<32>(&[(0, b"PK\x03\x04"), (26, b"\x02"), (30, b"ab")]);
        "IsPackageWith" is_package_with(b"word/"), &zeros_but::<41>(&[(0, b"PK\x03\x04"), (6, b"PK\x03\x04"), (30, b"_rels/word/")]), &zeros_but::<41>(&[(0, b"PK\x03\x04"), (6, b"PK\x03\x04"), (30, b"_rels/xl/")]);
    };
    for (name, has, lacks) in told {
        assert!(rt; has && !lacks, "{name}");
    }
}

#[test]
fn added(rt: HostRuntime) -> Result<(), AllocError> {
    let mut infer = Infer::new();
    infer.add(rt.alloc(), "custom/foo", "foo", begins_10_11_12)?;
    let told = told_with! {
        &infer;
        "IsAnswerWith" has_no_answer_with, b"\0", b"\x10\x11\x12";
    };
    for (name, has, lacks) in told {
        assert!(rt; has && !lacks, "{name}");
    }
    Ok(())
}

#[test]
fn growing(rt: HostRuntime) {
    let told = told! {
        "BeginsAlone White" begins_white_alone, b" ", b" \0\0\0ftyp";
        "Breaks 1 EXE" breaks_at_1, b"MZ", b"M";
        "RowStaysFinal buf.now None" stays_unknown, &[0; 1024], &[0x20; 1024];
        "StaysFinal buf.now (Final None)" stays_unknown, &[0; 1024], &[0x20; 1024];
        "KeepsOpen" is_kept_open_by_white, &[0x20; 1024], &[0; 1024];
        "IsOneShort" is_one_short, b"%PD", b"%PE";
    };
    for (name, has, lacks) in told {
        assert!(rt; has && !lacks, "{name}");
    }
}

#[test]
fn samples(rt: HostRuntime) {
    let told = [
        ("IsMkv", sample_and_less(MKV, is_mkv)),
        ("IsWebm", sample_and_less(WEBM, is_webm)),
        ("IsDoc", sample_and_less(DOC, is_doc)),
        ("HasClassId", sample_and_less(DOC, has_word_id)),
        ("IsXls", sample_and_less(XLS, is_xls)),
        ("IsPpt", sample_and_less(PPT, is_ppt)),
        ("IsDocx", sample_and_less(DOCX, is_docx)),
        ("IsXlsx", sample_and_less(XLSX, is_xlsx)),
        ("IsPptx", sample_and_less(PPTX, is_pptx)),
    ];
    for (name, (has, lacks)) in told {
        assert!(rt; has && !lacks, "{name}");
    }
}
