//! What more bytes may make JSON.
ghost use Rattle.std.specs.Prelude.{IsTrue};
ghost use Rattle.infer_deep.specs.Signatures.{MayBecome};
ghost use Rattle.infer_formats.specs.Json.{IsJson, IsJsonLines, UpToMark};
ghost use Rattle.infer_formats.specs.Laws.{BeginsAfterBlanks};

use super::lines::past_blanks;
use super::{begins_json, past_mark};

/// Whether some bytes after `buf`, or none, may make it JSON. What stands after the first bracket is not asked.
#[tactic(auto, using(crate::proofs::JsonLeadLemmas::text_may))]
pub fn may_become_json(buf: &[u8]) -> bool
    ensures { MayBecome IsJson buf.now → IsTrue result }
{
    may_reach_bracket(buf)
}

/// Whether some bytes after `buf`, or none, may make it JSON lines. What stands after the first bracket is not asked.
#[tactic(auto, using(crate::proofs::JsonLeadLemmas::lines_may))]
pub fn may_become_json_lines(buf: &[u8]) -> bool
    ensures { MayBecome IsJsonLines buf.now → IsTrue result }
{
    may_reach_bracket(buf)
}

/// Whether a bracket stands after the byte order mark, if there is one, and white space, or `buf` ends before one does.
#[tactic(auto, using(crate::proofs::JsonLeadLemmas::first_reached))]
pub(super) fn may_reach_bracket(buf: &[u8]) -> bool
    ensures { MayBecome (UpToMark BeginsAfterBlanks) buf.now → IsTrue result }
{
    match past_blanks(past_mark(buf)) {
        [first, ..] => begins_json(*first),
        [] => true,
    }
}
