//! What more bytes may bring after an ID3v2 tag.
ghost use Rattle.std.specs.Prelude.{IsTrue};
ghost use Rattle.infer_formats.specs.Id3.{IsAfterId3};
ghost use Rattle.infer_deep.specs.Signatures.{MayBecome};

use super::{HEADER_SIZE, tag_size};
use infer_deep::places::may_stand_at;

/// Whether some bytes after `buf`, or none, may make the text stand right after a tag that stands first.
pub fn may_be_behind_id3(buf: &[u8], text: &[u8]) -> bool
    ensures { MayBecome (IsAfterId3 text.now) buf.now → IsTrue result }
{
    if !may_stand_at(buf, b"ID3", 0) {
        return false;
    }
    buf.len() < HEADER_SIZE || may_stand_at(buf, text, HEADER_SIZE + tag_size(buf))
}
