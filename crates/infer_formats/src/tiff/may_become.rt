//! What more bytes may bring to the first directory of a TIFF file.
ghost use Rattle.std.specs.Prelude.{◌↔◌, IsTrue};
ghost use Rattle.infer_formats.specs.Tiff.{HasTag, HasTagAndMake, MayHaveEntry, MayHaveTag};
ghost use Rattle.infer_deep.specs.Signatures.{MayBecome};

use super::{COUNT_SIZE, DIRECTORY, ENTRY_SIZE, MAKE};
use crate::numbers::{bytes16, number16, number32};
use infer_deep::places::may_stand_at;

/// Whether some bytes after `buf`, or none, may give the first directory of a TIFF file an entry with this tag.
pub fn first_directory_may_have_tag(buf: &[u8], tag: u16) -> bool
    ensures { MayBecome (HasTag tag) buf.now → IsTrue result }
{
    may_have_tag(buf, tag)
}

/// Whether some bytes after `buf`, or none, may give it an entry with this tag, and one that says this make. Of the second
/// only its tag is asked.
pub fn first_directory_may_have_tag_and_make(buf: &[u8], tag: u16, make: &[u8]) -> bool
    ensures { MayBecome (HasTagAndMake tag make.now) buf.now → IsTrue result }
{
    first_directory_may_have_tag(buf, tag) && first_directory_may_have_tag(buf, MAKE)
}

fn may_have_tag(buf: &[u8], tag: u16) -> bool
    ensures { IsTrue result ↔ MayHaveTag tag buf.now }
{
    if may_stand_at(buf, b"II\x2A\x00", 0) && directory_may_have_tag(buf, tag, false) {
        return true;
    }
    may_stand_at(buf, b"MM\x00\x2A", 0) && directory_may_have_tag(buf, tag, true)
}

#[tactic(auto, using(crate::proofs::TiffLemmas::none_agrees))]
fn directory_may_have_tag(buf: &[u8], tag: u16, big: bool) -> bool
    ensures { IsTrue result ↔ MayHaveEntry big tag buf.now }
{
    if buf.len() < DIRECTORY + 4 {
        return true;
    }
    let start = number32(buf, DIRECTORY, big) as usize;
    if buf.len() < start + COUNT_SIZE {
        return true;
    }
    // An entry past the end of `buf` may have any tag, so of these one is enough.
    let count = (number16(buf, start, big) as usize).min(
        (buf.len() - start - COUNT_SIZE) / ENTRY_SIZE + 2,
    );
    let bytes = bytes16(tag, big);
    for i in 0..count {
        if may_stand_at(buf, &bytes, start + COUNT_SIZE + ENTRY_SIZE * i) {
            return true;
        }
    }
    false
}
