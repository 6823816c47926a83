//! Documents of Microsoft Office, in compound files and in ZIP archives.
ghost use Rattle.std.specs.Prelude.{◌≡◌, ◌↔◌, ◌+◌, ◌*◌, ◌<◌, ◌≤◌, ℕ, List, Some, codes, length, option_map, IsTrue};
ghost use Rattle.infer_deep.specs.Numbers.{le32};
ghost use Rattle.memchr.specs.Find.{OccursAt};
ghost use Rattle.infer_deep.specs.Open.{AgreesAt};
ghost use Rattle.infer_deep.specs.Signatures.{MayBecome};
ghost use Rattle.infer_deep.specs.Places.{FindsPlace, IsFirstWithin};
ghost use Rattle.infer_deep.specs.ClassId.{HasClassId, IsDoc, IsPpt, IsRoot, IsXls, MayHaveRoot};
ghost use Rattle.infer_deep.specs.Office.{HasFolder, HasOfficeName, IsDecidingHeader, IsDecidingPlace, IsDocx, IsFolder, IsOffice, IsThirdHeader, IsPptx, IsXlsx, MayDecide, zip_header};

use crate::numbers::{le16, le32};
use crate::places::{agrees_at, find, find_open, has_at};

const WORD_ID: [u8; 16] = *b"\x06\x09\x02\x00\x00\x00\x00\x00\xC0\x00\x00\x00\x00\x00\x00\x46";

const OLD_EXCEL_ID: [u8; 16] = *b"\x10\x08\x02\x00\x00\x00\x00\x00\xC0\x00\x00\x00\x00\x00\x00\x46";

const EXCEL_ID: [u8; 16] = *b"\x20\x08\x02\x00\x00\x00\x00\x00\xC0\x00\x00\x00\x00\x00\x00\x46";

const POWERPOINT_ID: [u8; 16] =
    *b"\x10\x8D\x81\x64\x9B\x4F\xCF\x11\x86\xEA\x00\xAA\x00\xB9\x29\xE8";

/// Word's binary document: a compound file of MS-CFB whose root entry has the class id of Word.
///
/// Of the compound file only its header and the 128 bytes of its root entry are looked at.
pub fn is_doc(buf: &[u8]) -> bool
    ensures { IsTrue result ↔ IsDoc buf.now }
{
    has_class_id(buf, &WORD_ID)
}

/// Word's document in a ZIP archive: its folder "word/" decides.
///
/// One of the folders "word/", "ppt/" and "xl/" in the first entry decides. If the first entry's name begins with
/// "[Content_Types].xml", "_rels/.rels" or "docProps", the one in the third local header decides, and if there is
/// none, the one in the fourth. Each header is searched for in 6000 bytes.
pub fn is_docx(buf: &[u8]) -> bool
    ensures { IsTrue result ↔ IsDocx buf.now }
{
    is_office(buf, b"word/")
}

/// Excel's binary workbook: as for Word's binary document, with one of the two class ids of Excel.
pub fn is_xls(buf: &[u8]) -> bool
    ensures { IsTrue result ↔ IsXls buf.now }
{
    has_class_id(buf, &OLD_EXCEL_ID) || has_class_id(buf, &EXCEL_ID)
}

/// Excel's workbook in a ZIP archive: as for Word's, its folder "xl/" decides.
pub fn is_xlsx(buf: &[u8]) -> bool
    ensures { IsTrue result ↔ IsXlsx buf.now }
{
    is_office(buf, b"xl/")
}

/// PowerPoint's binary presentation: as for Word's binary document, with the class id of PowerPoint.
pub fn is_ppt(buf: &[u8]) -> bool
    ensures { IsTrue result ↔ IsPpt buf.now }
{
    has_class_id(buf, &POWERPOINT_ID)
}

/// PowerPoint's presentation in a ZIP archive: as for Word's, its folder "ppt/" decides.
pub fn is_pptx(buf: &[u8]) -> bool
    ensures { IsTrue result ↔ IsPptx buf.now }
{
    is_office(buf, b"ppt/")
}

/// Whether some bytes after `buf` make it Word's binary document.
pub fn may_become_doc(buf: &[u8]) -> bool
    ensures { IsTrue result ↔ MayBecome IsDoc buf.now }
{
    may_have_class_id(buf, &WORD_ID)
}

/// Whether some bytes after `buf` make it Excel's binary workbook.
pub fn may_become_xls(buf: &[u8]) -> bool
    ensures { IsTrue result ↔ MayBecome IsXls buf.now }
{
    may_have_class_id(buf, &OLD_EXCEL_ID) || may_have_class_id(buf, &EXCEL_ID)
}

/// Whether some bytes after `buf` make it PowerPoint's binary presentation.
pub fn may_become_ppt(buf: &[u8]) -> bool
    ensures { IsTrue result ↔ MayBecome IsPpt buf.now }
{
    may_have_class_id(buf, &POWERPOINT_ID)
}

/// Whether some bytes after `buf` make it a compound file whose root entry has this class id.
#[tactic(auto, using(crate::proofs::OpenLemmas::test_from_reads, crate::proofs::ClassIdLemmas::class_id_reached))]
pub fn may_have_class_id(buf: &[u8], id: &[u8; 16]) -> bool
    ensures { IsTrue result ↔ MayBecome (HasClassId id.now) buf.now }
{
    agrees_at(buf, b"\xD0\xCF\x11\xE0\xA1\xB1\x1A\xE1", 0)
        && (may_have_root(buf, b"\x03\0\xFE\xFF\x09\0", 512, id)
            || may_have_root(buf, b"\x04\0\xFE\xFF\x0C\0", 4096, id))
}

fn may_have_root(buf: &[u8], format: &[u8; 6], sector_size: usize, id: &[u8; 16]) -> bool
    requires large { 512 ≤ sector_size }
    requires small { sector_size ≤ 4096 }
    ensures { IsTrue result ↔ MayHaveRoot format.now sector_size id.now buf.now }
{
    if buf.len() < 52 {
        return agrees_at(buf, format, 26);
    }
    let root = root_place(buf, sector_size);
    agrees_at(buf, format, 26)
        && agrees_at(buf, b"\x05", root + 66)
        && agrees_at(buf, id, root + 80)
}

/// The 16 bytes of the class id of a compound file's root entry, and `None` if `buf` has no such entry whole.
///
/// Where several class ids are asked for, they are compared with this one: the header is read once.
pub fn class_id(buf: &[u8]) -> Option<&[u8]>
    ensures { (id : List ℕ) → length id ≡ 16
        → HasClassId id buf.now ↔ (option_map (λ found. found.now) result ≡ Some id) }
{
    let root = root_entry(buf)?;
    Some(&buf[root + 80..root + 96])
}

/// A compound file of MS-CFB whose root entry has this class id.
///
/// Only its header and the 128 bytes of its root entry are looked at.
pub fn has_class_id(buf: &[u8], id: &[u8; 16]) -> bool
    ensures { IsTrue result ↔ HasClassId id.now buf.now }
{
    match root_entry(buf) {
        Some(root) => has_at(buf, id, root + 80),
        None => false,
    }
}

/// Where the root entry of a compound file begins, if `buf` has it whole.
fn root_entry(buf: &[u8]) -> Option<usize>
    ensures { FindsPlace (IsRoot buf.now) result }
{
    if buf.len() < 512
        || !has_at(buf, b"\xD0\xCF\x11\xE0\xA1\xB1\x1A\xE1", 0)
        || !has_at(buf, b"\xFE\xFF", 28)
    {
        return None;
    }
    let sector_size = match (le16(buf, 26), le16(buf, 30)) {
        (3, 9) => 512,
        (4, 12) => 4096,
        _ => return None,
    };
    let root = root_place(buf, sector_size);
    if buf.len() < root + 128 || buf[root + 66] != 5 {
        return None;
    }
    Some(root)
}

/// Where the root entry begins, in sectors of that size.
fn root_place(buf: &[u8], sector_size: usize) -> usize
    requires long { 52 ≤ length buf.now }
    requires small { sector_size ≤ 4096 }
    ensures is { result ≡ (le32 buf.now 48 + 1) * sector_size }
    ensures small { result ≤ 0x100000000000 }
{
    (le32(buf, 48) as usize + 1) * sector_size
}

fn is_office<const N: usize>(buf: &[u8], folder: &[u8; N]) -> bool
    ensures { IsTrue result ↔ IsOffice folder.now buf.now }
{
    match deciding_place(buf) {
        Some(place) => has_at(buf, folder, place),
        None => false,
    }
}

/// Whether some bytes after `buf` make it Word's document in a ZIP archive.
pub fn may_become_docx(buf: &[u8]) -> bool
    ensures { IsTrue result ↔ MayBecome IsDocx buf.now }
{
    may_become_office(buf, b"word/")
}

/// Whether some bytes after `buf` make it Excel's workbook in a ZIP archive.
pub fn may_become_xlsx(buf: &[u8]) -> bool
    ensures { IsTrue result ↔ MayBecome IsXlsx buf.now }
{
    may_become_office(buf, b"xl/")
}

/// Whether some bytes after `buf` make it PowerPoint's presentation in a ZIP archive.
pub fn may_become_pptx(buf: &[u8]) -> bool
    ensures { IsTrue result ↔ MayBecome IsPptx buf.now }
{
    may_become_office(buf, b"ppt/")
}

#[tactic(auto, using(crate::proofs::OpenOfficeLemmas::office_reached, crate::proofs::OpenOfficeLemmas::office_known))]
fn may_become_office<const N: usize>(buf: &[u8], folder: &[u8; N]) -> bool
    requires { IsFolder folder.now }
    ensures { IsTrue result ↔ MayBecome (IsOffice folder.now) buf.now }
{
    if !agrees_at(buf, b"PK\x03\x04", 0) {
        return false;
    }
    if agrees_at(buf, folder, 30) {
        return true;
    }
    may_have_office_name(buf) && may_decide(buf, folder)
}

/// Whether `folder` may decide after a name of Office, as far as `buf` goes: at the third header, or if no folder
/// stands there, at the fourth.
#[tactic(auto, using(crate::proofs::OpenOfficeLemmas::decide_at))]
#[inline(never)]
fn may_decide<const N: usize>(buf: &[u8], folder: &[u8; N]) -> bool
    requires { 30 < length buf.now }
    ensures { IsTrue result ↔ MayDecide folder.now buf.now }
{
    let third = match open_third(buf) {
        Some(third) => third,
        None => return false,
    };
    if agrees_at(buf, folder, third + 30) {
        return true;
    }
    if has_folder(buf, third + 30) {
        return false;
    }
    match open_header_from(buf, third + 56) {
        Some(fourth) => agrees_at(buf, folder, fourth + 30),
        None => false,
    }
}

/// Where the third header stands or may come to stand, if anywhere.
fn open_third(buf: &[u8]) -> Option<usize>
    requires { 30 < length buf.now }
    ensures { FindsPlace (IsThirdHeader AgreesAt buf.now) result }
{
    let start = second_start(buf)?;
    let second = open_header_from(buf, start)?;
    open_header_from(buf, second + 30)
}

/// The least place from `start` on at which a header stands or may come to stand that ends in the next 6000 bytes.
fn open_header_from(buf: &[u8], start: usize) -> Option<usize>
    requires { start ≤ 0x100010000 }
    ensures { IsFirstWithin AgreesAt buf.now zip_header start (start + 6000) result }
{
    find_open(buf, b"PK\x03\x04", 0, start, start + 6000)
}

/// Where the deciding folder stands, if anywhere. It is the same place for all three kinds.
#[tactic(auto, using(crate::proofs::OfficeLemmas::no_deciding, crate::proofs::OfficeLemmas::header_decides))]
fn deciding_place(buf: &[u8]) -> Option<usize>
    ensures { FindsPlace (IsDecidingPlace buf.now) result }
{
    if !has_at(buf, b"PK\x03\x04", 0) {
        return None;
    }
    if has_folder(buf, 30) {
        return Some(30);
    }
    if !has_office_name(buf) {
        return None;
    }
    let header = deciding_header(buf)?;
    Some(header + 30)
}

/// Where the header stands whose folder decides after a name of Office: the third, or if it has no folder, the
/// fourth.
#[tactic(auto, using(crate::proofs::OfficeLemmas::no_third, crate::proofs::OfficeLemmas::fourth_from_search))]
fn deciding_header(buf: &[u8]) -> Option<usize>
    requires { 22 ≤ length buf.now }
    ensures { FindsPlace (IsDecidingHeader buf.now) result }
{
    let third = third_header(buf)?;
    if has_folder(buf, third + 30) {
        return Some(third);
    }
    header_from(buf, third + 56)
}

#[tactic(auto, using(crate::proofs::OfficeLemmas::no_second, crate::proofs::OfficeLemmas::third_from_search))]
fn third_header(buf: &[u8]) -> Option<usize>
    requires { 22 ≤ length buf.now }
    ensures { FindsPlace (IsThirdHeader OccursAt buf.now) result }
{
    let start = second_start(buf)?;
    let second = header_from(buf, start)?;
    header_from(buf, second + 30)
}

/// From where on the second header is searched for: 49 after the size that the first states.
fn second_start(buf: &[u8]) -> Option<usize>
    requires { 22 ≤ length buf.now }
    ensures { FindsPlace (λ start. (start ≡ le32 buf.now 18 + 49) × (start ≤ 0xFFFFFFFF)) result }
{
    let start = le32(buf, 18).checked_add(49)?;
    Some(start as usize)
}

/// The least place from `start` on at which a header stands that ends in the next 6000 bytes.
fn header_from(buf: &[u8], start: usize) -> Option<usize>
    ensures { IsFirstWithin OccursAt buf.now zip_header start (start + 6000) result }
{
    if start > buf.len() {
        return None;
    }
    find(buf, b"PK\x03\x04", 0, start, start + 6000)
}

fn has_folder(buf: &[u8], place: usize) -> bool
    ensures { IsTrue result ↔ HasFolder buf.now place }
{
    has_at(buf, b"word/", place) || has_at(buf, b"ppt/", place) || has_at(buf, b"xl/", place)
}

/// Whether the first entry of a ZIP archive has a name that Office gives it: "[Content_Types].xml", "_rels/.rels" or
/// one that begins with "docProps".
pub fn has_office_name(buf: &[u8]) -> bool
    ensures { IsTrue result ↔ HasOfficeName OccursAt buf.now }
{
    has_at(buf, b"[Content_Types].xml", 30)
        || has_at(buf, b"_rels/.rels", 30)
        || has_at(buf, b"docProps", 30)
}

fn may_have_office_name(buf: &[u8]) -> bool
    ensures { IsTrue result ↔ HasOfficeName AgreesAt buf.now }
{
    agrees_at(buf, b"[Content_Types].xml", 30)
        || agrees_at(buf, b"_rels/.rels", 30)
        || agrees_at(buf, b"docProps", 30)
}
