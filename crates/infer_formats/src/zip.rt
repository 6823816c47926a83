//! ZIP archives, by the names of their entries: ZIP APPNOTE, section 4.3.7, the local file header; and packages: ECMA-376,
//! part 2.
ghost use Rattle.std.specs.Prelude.{◌≡◌, ◌↔◌, ◌+◌, ◌≤◌, ℕ, length, IsTrue};
ghost use Rattle.infer_deep.specs.Numbers.{le16};
ghost use Rattle.infer_deep.specs.Places.{FindsPlace};
ghost use Rattle.infer_formats.specs.Zip.{FindsFolder, FindsPackage, FindsPart, FirstEntryBegins, FirstEntryEndsIn, FirstEntryHasExtra, FirstEntryIs, HasEntry, HasFirstName, IsEntryNamed, IsFolder, IsFolderEntry, IsJavaArchive, IsPackageWith, IsPartEntry, MayBeginAny, MayBeginPackage};

mod may_become;

use infer_deep::numbers::le16;
use infer_deep::places::{has_at, stands_at};
pub use may_become::{
    may_become_java_archive, may_become_package_with, may_have_first_entry,
    may_have_first_entry_ending, may_have_first_extra,
};
use memchr::memchr;

/// Of a local file header, where the length of the file name stands.
const NAME_LENGTH: usize = 26;
/// Behind it that of the extra field.
const EXTRA_LENGTH: usize = 28;
/// And then the file name itself.
const NAME: usize = 30;

/// The manifest of a Java archive, and the folder of it.
const MANIFEST: &[u8] = b"META-INF/MANIFEST.MF";

const MANIFEST_FOLDER: &[u8] = b"META-INF/";
/// The id of the extra field that Java writes first.
const JAVA_EXTRA: &[u8] = b"\xFE\xCA";

/// The first entry has this name.
pub fn first_entry_is(buf: &[u8], name: &[u8]) -> bool
    ensures { IsTrue result ↔ FirstEntryIs name.now buf.now }
{
    match first_name_end(buf) {
        Some(end) => end - NAME == name.len() && stands_at(buf, name, NAME),
        None => false,
    }
}

/// The first entry has a name that ends in this text, or is it.
pub fn first_entry_ends_in(buf: &[u8], text: &[u8]) -> bool
    ensures { IsTrue result ↔ FirstEntryEndsIn text.now buf.now }
{
    match first_name_end(buf) {
        Some(end) => text.len() <= end - NAME && stands_at(buf, text, end - text.len()),
        None => false,
    }
}

/// The first entry has an extra field that begins with this text.
pub fn first_entry_has_extra(buf: &[u8], text: &[u8]) -> bool
    ensures { IsTrue result ↔ FirstEntryHasExtra text.now buf.now }
{
    match first_name_end(buf) {
        Some(end) => text.len() <= le16(buf, EXTRA_LENGTH) as usize && stands_at(buf, text, end),
        None => false,
    }
}

/// The first entry has a name that begins with this text.
fn first_entry_begins(buf: &[u8], text: &[u8]) -> bool
    ensures { IsTrue result ↔ FirstEntryBegins text.now buf.now }
{
    match first_name_end(buf) {
        Some(end) => text.len() <= end - NAME && stands_at(buf, text, NAME),
        None => false,
    }
}

/// Where the name of the first entry ends, if `buf` has it whole.
fn first_name_end(buf: &[u8]) -> Option<usize>
    ensures { FindsPlace (λ end. HasFirstName buf.now × (end ≡ 30 + le16 buf.now 26)) result }
{
    if buf.len() < NAME || !stands_at(buf, b"PK\x03\x04", 0) {
        return None;
    }
    let end = NAME + le16(buf, NAME_LENGTH) as usize;
    if end > buf.len() {
        return None;
    }
    Some(end)
}

/// An archive of which some entry, wherever it stands, has this name.
pub fn has_entry(buf: &[u8], name: &[u8]) -> bool
    ensures { IsTrue result ↔ HasEntry name.now buf.now }
{
    stands_at(buf, b"PK\x03\x04", 0) && has_named(buf, name)
}

#[inline(never)]
fn has_named(buf: &[u8], name: &[u8]) -> bool
    ensures { IsTrue result ↔ ((q : ℕ) × IsEntryNamed name.now buf.now q) }
{
    let mut from = 0;
    while let Some(step) = memchr(b'P', &buf[from..]) {
        if is_entry_named(buf, name, from + step) {
            return true;
        }
        from += step + 1;
    }
    false
}

fn is_entry_named(buf: &[u8], name: &[u8], place: usize) -> bool
    requires { place ≤ length buf.now }
    ensures { IsTrue result ↔ IsEntryNamed name.now buf.now place }
{
    has_at(buf, b"PK\x03\x04", place)
        && buf.len() - place >= NAME
        && le16(buf, place + NAME_LENGTH) as usize == name.len()
        && stands_at(buf, name, place + NAME)
}

/// A Java archive, by its first entry: JAR File Specification (Oracle), and what its tool writes.
pub fn is_java_archive(buf: &[u8]) -> bool
    ensures { IsTrue result ↔ IsJavaArchive buf.now }
{
    first_entry_begins(buf, MANIFEST_FOLDER)
        && (first_entry_is(buf, MANIFEST)
            || first_entry_is(buf, MANIFEST_FOLDER) && has_entry(buf, MANIFEST)
            || first_entry_has_extra(buf, JAVA_EXTRA))
}

/// A package of the Open Packaging Conventions whose first folder of an application, by place, is this one.
#[inline(never)]
pub fn is_package_with(buf: &[u8], folder: &[u8]) -> bool
    ensures { IsTrue result ↔ IsPackageWith folder.now buf.now }
{
    if !may_begin_package(buf, folder) || !has_part(buf) {
        return false;
    }
    match first_folder(buf) {
        Some(place) => stands_at(buf, folder, place + NAME),
        None => false,
    }
}

/// Where the name of the first folder of an application, by place, stands in a package of the Open Packaging Conventions.
pub fn package_folder(buf: &[u8]) -> Option<usize>
    ensures { FindsPackage buf.now result }
{
    if !may_begin_any_package(buf) {
        return None;
    }
    if !has_part(buf) {
        return None;
    }
    match first_folder(buf) {
        Some(place) => Some(place + NAME),
        None => None,
    }
}

/// Whether `buf` begins with an entry that some package may have first.
fn may_begin_any_package(buf: &[u8]) -> bool
    ensures { IsTrue result ↔ MayBeginAny buf.now }
{
    if !has_at(buf, b"PK\x03\x04", 0) {
        return false;
    }
    has_at(buf, b"[Content_Types].xml", NAME)
        || has_at(buf, b"_rels/", NAME)
        || has_at(buf, b"docProps/", NAME)
        || is_folder(buf, NAME)
}

fn may_begin_package(buf: &[u8], folder: &[u8]) -> bool
    ensures { IsTrue result ↔ MayBeginPackage folder.now buf.now }
{
    stands_at(buf, b"PK\x03\x04", 0)
        && (stands_at(buf, b"[Content_Types].xml", NAME)
            || stands_at(buf, b"_rels/", NAME)
            || stands_at(buf, b"docProps/", NAME)
            || stands_at(buf, folder, NAME))
}

/// Whether some entry is a part that each package has.
fn has_part(buf: &[u8]) -> bool
    ensures { FindsPart buf.now result }
{
    let mut from = 0;
    while let Some(step) = memchr(b'P', &buf[from..]) {
        if is_part_entry(buf, from + step) {
            return true;
        }
        from += step + 1;
    }
    false
}

/// The place of the first entry in a folder of an application.
fn first_folder(buf: &[u8]) -> Option<usize>
    ensures { FindsFolder buf.now result }
{
    let mut from = 0;
    while let Some(step) = memchr(b'P', &buf[from..]) {
        if is_folder_entry(buf, from + step) {
            return Some(from + step);
        }
        from += step + 1;
    }
    None
}

fn is_part_entry(buf: &[u8], place: usize) -> bool
    requires { place ≤ length buf.now }
    ensures { IsTrue result ↔ IsPartEntry buf.now place }
{
    has_at(buf, b"PK\x03\x04", place)
        && (has_at(buf, b"[Content_Types].xml", place + NAME)
            || has_at(buf, b"_rels/", place + NAME))
}

fn is_folder_entry(buf: &[u8], place: usize) -> bool
    requires { place ≤ length buf.now }
    ensures { IsTrue result ↔ IsFolderEntry buf.now place }
{
    has_at(buf, b"PK\x03\x04", place) && is_folder(buf, place + NAME)
}

/// Whether the folder of an application stands at the place.
fn is_folder(buf: &[u8], place: usize) -> bool
    ensures { IsTrue result ↔ IsFolder buf.now place }
{
    has_at(buf, b"word/", place)
        || has_at(buf, b"xl/", place)
        || has_at(buf, b"ppt/", place)
        || has_at(buf, b"visio/", place)
        || has_at(buf, b"3D/", place)
}
