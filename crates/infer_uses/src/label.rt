//! What a labelling proxy writes.
ghost use Rattle.std.specs.Prelude.{◌≡◌, ℕ, List, ◌++◌, IfSome, IsFalse, IsSome, IsTrue};
ghost use Rattle.infer.specs.Buffer.{head};
ghost use Rattle.infer_sniff.specs.Verdicts.{IsSettled};
ghost use Rattle.infer_uses.specs.Labels.{IsLabel};

use infer_sniff::{Sniffer, Verdict};
use std::alloc::Allocator;

/// What is written after a piece of a stream: the MIME type or "unknown" once the verdict is final, or at the end, and
/// nothing before.
///
/// The end's label is that of the first 8192 bytes of the stream. After a label the caller asks no more.
pub fn label<A: Allocator>(
    sniffer: &mut Sniffer<A>,
    piece: &[u8],
    is_end: bool,
) -> Option<&'static str>
    ensures kept { sniffer.new ≡ head 8192 (sniffer.old ++ piece.now) }
    ensures at_once { IsSettled sniffer.new → IsSome result }
    ensures certain { IsFalse is_end
        → IfSome result (λ text. (more : List ℕ) → IsLabel (sniffer.new ++ more) text.now) }
    ensures end { IsTrue is_end → IsSome result }
    ensures last { IfSome result (λ text. IsLabel sniffer.new text.now) }
{
    match sniffer.push(piece) {
        Verdict::Final(found) => Some(found.map_or("unknown", |found| found.mime_type())),
        Verdict::SoFar(found) if is_end => Some(found.map_or("unknown", |found| found.mime_type())),
        Verdict::SoFar(_) => None,
    }
}
