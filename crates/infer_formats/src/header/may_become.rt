//! What more bytes may bring after the header of DOS.
ghost use Rattle.std.specs.Prelude.{IsTrue};
ghost use Rattle.infer_formats.specs.Header.{HasLaterHeader};
ghost use Rattle.infer_deep.specs.Signatures.{MayBecome};

use super::{DOS_SIZE, LATER, is_between};
use infer_deep::numbers::{le16, le32};
use infer_deep::places::may_stand_at;

/// Whether some bytes after `buf`, or none, may make the text stand at the place that the header names, and the number there.
#[tactic(auto, using(crate::proofs::HeaderLemmas::header_known))]
pub fn may_have_later_header(buf: &[u8], text: &[u8], far: u16, low: u16, high: u16) -> bool
    ensures { MayBecome (HasLaterHeader text.now far low high) buf.now → IsTrue result }
{
    if !may_stand_at(buf, b"MZ", 0) {
        return false;
    }
    if buf.len() < DOS_SIZE {
        return true;
    }
    let later = le32(buf, LATER) as usize;
    let place = later + usize::from(far);
    if place <= buf.len() - 2 && !is_between(le16(buf, place), low, high) {
        return false;
    }
    may_stand_at(buf, text, later)
}
