//! What more bytes may make a buffer begin with.
ghost use Rattle.std.specs.Prelude.{IsTrue};
ghost use Rattle.infer_deep.specs.Signatures.{MayBecome};
ghost use Rattle.infer_formats.specs.Begins.{Begins};

use super::MARK;
use infer_deep::places::may_stand_at;

/// Whether some bytes after `buf`, or none, may make the text stand first, or after a byte order mark.
pub fn may_begin(buf: &[u8], text: &[u8]) -> bool
    ensures { MayBecome (Begins text.now) buf.now → IsTrue result }
{
    may_stand_at(buf, text, 0) || may_stand_at(buf, MARK, 0) && may_stand_at(buf, text, MARK.len())
}
