//! What more bytes may make subtitles.
ghost use Rattle.std.specs.Prelude.{◌↔◌, ◌≤◌, IsTrue};
ghost use Rattle.infer_deep.specs.Signatures.{MayBecome};
ghost use Rattle.infer_formats.specs.Subtitles.{GoesOn, IsSubRip, MayBeginCue, MayBeSubRip};

use super::{MARK_SIZE, is_digit};
use crate::numbers::byte_or;
use infer_deep::places::may_stand_at;

/// Whether some bytes after `buf`, or none, may make it subtitles of SubRip. Of the first cue two bytes are asked.
#[tactic(auto, using(crate::proofs::SubtitlesLemmas::subrip_known))]
pub fn may_become_subrip(buf: &[u8]) -> bool
    ensures { MayBecome IsSubRip buf.now → IsTrue result }
{
    may_be_subrip(buf)
}

fn may_be_subrip(buf: &[u8]) -> bool
    ensures { IsTrue result ↔ MayBeSubRip buf.now }
{
    may_begin_cue(buf, 0) || may_stand_at(buf, b"\xEF\xBB\xBF", 0) && may_begin_cue(buf, MARK_SIZE)
}

/// Whether a digit stands there, and after it another or the end of the line, as far as the buffer goes.
fn may_begin_cue(buf: &[u8], place: usize) -> bool
    requires { place ≤ 3 }
    ensures { IsTrue result ↔ MayBeginCue buf.now place }
{
    is_digit(byte_or(buf, place, b'0')) && goes_on(byte_or(buf, place + 1, b'0'))
}

fn goes_on(byte: u8) -> bool
    ensures { IsTrue result ↔ GoesOn byte }
{
    is_digit(byte) || matches!(byte, b'\n' | b'\r')
}
