//! What more bytes may bring to a text, and what they cannot take from it.
ghost use Rattle.std.specs.Prelude.{IsTrue};
ghost use Rattle.infer_deep.specs.Signatures.{MayBecome};
ghost use Rattle.infer_formats.specs.Open.{Stays};
ghost use Rattle.infer_formats.specs.Text.{IsText};

use super::{is_marked, is_text};

/// Whether some bytes after `buf`, or none, may make it text.
pub fn may_become_text(buf: &[u8]) -> bool
    ensures { MayBecome IsText buf.now → IsTrue result }
{
    buf.is_empty() || is_text(buf)
}

/// Whether `buf` is text whatever bytes follow: a byte order mark stands first.
#[tactic(auto, using(crate::proofs::TextLemmas::marked_stays))]
pub fn stays_text(buf: &[u8]) -> bool
    ensures { IsTrue result → Stays IsText buf.now }
{
    is_marked(buf)
}
