//! What more bytes may make the first entry of an archive, and a package.
ghost use Rattle.std.specs.Prelude.{◌↔◌, IsTrue};
ghost use Rattle.infer_formats.specs.Zip.{FirstEntryEndsIn, FirstEntryHasExtra, FirstEntryIs, IsJavaArchive, IsOneOf, IsPackageWith, MayBeginFirstName, MayHaveFirstEnding, MayHaveFirstField, MayHaveFirstName, MayBePackage, applications};
ghost use Rattle.infer_deep.specs.Signatures.{MayBecome};

use super::{EXTRA_LENGTH, MANIFEST_FOLDER, NAME, NAME_LENGTH, first_folder};
use infer_deep::numbers::le16;
use infer_deep::places::{may_stand_at, stands_at};

/// Whether some bytes after `buf`, or none, may give the first entry this name.
#[tactic(auto, using(infer_deep::proofs::OpenLemmas::test_from_reads, crate::proofs::ZipLemmas::name_known))]
pub fn may_have_first_entry(buf: &[u8], name: &[u8]) -> bool
    ensures { MayBecome (FirstEntryIs name.now) buf.now → IsTrue result }
{
    may_have_first_name(buf, name)
}

fn may_have_first_name(buf: &[u8], name: &[u8]) -> bool
    ensures { IsTrue result ↔ MayHaveFirstName name.now buf.now }
{
    let length = name.len();
    if length > 0xFFFF {
        return false;
    }
    may_stand_at(buf, b"PK\x03\x04", 0)
        && may_stand_at(
            buf,
            &[(length % 256) as u8, (length / 256) as u8],
            NAME_LENGTH,
        )
        && may_stand_at(buf, name, NAME)
}

/// Whether some bytes after `buf`, or none, may give the first entry a name that ends in this text, or is it.
#[tactic(auto, using(crate::proofs::ZipLemmas::ending_known))]
pub fn may_have_first_entry_ending(buf: &[u8], text: &[u8]) -> bool
    ensures { MayBecome (FirstEntryEndsIn text.now) buf.now → IsTrue result }
{
    may_have_first_ending(buf, text)
}

fn may_have_first_ending(buf: &[u8], text: &[u8]) -> bool
    ensures { IsTrue result ↔ MayHaveFirstEnding text.now buf.now }
{
    if !may_stand_at(buf, b"PK\x03\x04", 0) {
        return false;
    }
    if buf.len() < NAME {
        return true;
    }
    let length = le16(buf, NAME_LENGTH) as usize;
    text.len() <= length && may_stand_at(buf, text, NAME + length - text.len())
}

/// Whether some bytes after `buf`, or none, may give the first entry an extra field that begins with this text.
#[tactic(auto, using(crate::proofs::ZipLemmas::extra_known))]
pub fn may_have_first_extra(buf: &[u8], text: &[u8]) -> bool
    ensures { MayBecome (FirstEntryHasExtra text.now) buf.now → IsTrue result }
{
    may_have_first_field(buf, text)
}

fn may_have_first_field(buf: &[u8], text: &[u8]) -> bool
    ensures { IsTrue result ↔ MayHaveFirstField text.now buf.now }
{
    if !may_stand_at(buf, b"PK\x03\x04", 0) {
        return false;
    }
    if buf.len() < NAME {
        return true;
    }
    text.len() <= le16(buf, EXTRA_LENGTH) as usize
        && may_stand_at(buf, text, NAME + le16(buf, NAME_LENGTH) as usize)
}

/// Whether some bytes after `buf`, or none, may make it a Java archive.
#[tactic(auto, using(crate::proofs::ZipLemmas::java_known))]
pub fn may_become_java_archive(buf: &[u8]) -> bool
    ensures { MayBecome IsJavaArchive buf.now → IsTrue result }
{
    may_begin_first_name(buf, MANIFEST_FOLDER)
}

fn may_begin_first_name(buf: &[u8], text: &[u8]) -> bool
    ensures { IsTrue result ↔ MayBeginFirstName text.now buf.now }
{
    may_stand_at(buf, b"PK\x03\x04", 0) && may_stand_at(buf, text, NAME)
}

/// Whether some bytes after `buf`, or none, may make it a package of the Open Packaging Conventions whose first folder of
/// an application, by place, is this one.
#[tactic(auto, using(crate::proofs::ZipLemmas::begun_so))]
pub fn may_become_package_with(buf: &[u8], folder: &[u8]) -> bool
    requires { IsOneOf folder.now applications }
    ensures { MayBecome (IsPackageWith folder.now) buf.now → IsTrue result }
{
    if !may_be_package(buf, folder) {
        return false;
    }
    match first_folder(buf) {
        Some(place) => stands_at(buf, folder, place + NAME),
        None => true,
    }
}

fn may_be_package(buf: &[u8], folder: &[u8]) -> bool
    ensures { IsTrue result ↔ MayBePackage folder.now buf.now }
{
    may_stand_at(buf, b"PK\x03\x04", 0)
        && (may_stand_at(buf, b"[Content_Types].xml", NAME)
            || may_stand_at(buf, b"_rels/", NAME)
            || may_stand_at(buf, b"docProps/", NAME)
            || may_stand_at(buf, folder, NAME))
}
