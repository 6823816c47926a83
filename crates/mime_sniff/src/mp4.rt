//! MP4 files, by their brands.
ghost use Rattle.std.specs.Prelude.{◌≡◌, ◌%◌, ◌↔◌, ◌≤◌, IsTrue, length};
ghost use Rattle.mime_sniff.specs.Mp4.{HasBrand, IsMp4, IsMp4OfAnyBox, box_length};

use infer_deep::numbers::be32;
use infer_deep::places::stands_at;

/// MP4: at least 12 bytes, and first a whole box "ftyp" of whole words, in which a brand begins "mp4".
pub(crate) fn is_mp4(buf: &[u8]) -> bool
    ensures { IsTrue result ↔ IsMp4 buf.now }
{
    if buf.len() < 12 || !stands_at(buf, b"ftyp", 4) {
        return false;
    }
    let size = be32(buf, 0) as usize;
    size <= buf.len() && size % 4 == 0 && has_brand(buf, size)
}

/// The same, but that the major brand counts even if the box is said to end before it.
pub(crate) fn is_mp4_of_any_box(buf: &[u8]) -> bool
    ensures { IsTrue result ↔ IsMp4OfAnyBox buf.now }
{
    if buf.len() < 12 || !stands_at(buf, b"ftyp", 4) {
        return false;
    }
    let size = be32(buf, 0) as usize;
    size <= buf.len() && size % 4 == 0 && (stands_at(buf, b"mp4", 8) || has_brand(buf, size))
}

/// Whether a brand begins "mp4": the major brand is word 2 of the box, and the others begin with word 4.
fn has_brand(buf: &[u8], size: usize) -> bool
    requires stated { size ≡ box_length buf.now }
    requires whole { size ≤ length buf.now }
    requires words { size % 4 ≡ 0 }
    ensures { IsTrue result ↔ HasBrand buf.now }
{
    if size > 8 && stands_at(buf, b"mp4", 8) {
        return true;
    }
    for k in 4..size / 4 {
        if stands_at(buf, b"mp4", 4 * k) {
            return true;
        }
    }
    false
}
