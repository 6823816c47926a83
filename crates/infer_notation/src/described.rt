//! Signatures as a text describes them: fixed bytes, or a relation.
ghost use Rattle.std.specs.Prelude.{◌≡◌, ◌↔◌, IfErr, IsTrue, List, Some};
ghost use Rattle.infer_notation.specs.Alternative.{Accepted, Alternative};
ghost use Rattle.infer_notation.specs.Flaws.{IsFlawOf};
ghost use Rattle.infer_notation.specs.Relations.{IsSeen};
ghost use Rattle.infer_notation.specs.Signature.{begins_relation, signature_of};
ghost use Rattle.infer_notation.specs.Words.{found_by};

use crate::reason::Flaw;
use crate::relations::is_related;
use crate::signature::{accepts_fixed, fits_fixed};
use crate::words::skip_blanks;

/// Whether the buffer fits an alternative of the signature that the text describes.
pub fn accepts(text: &[u8], buf: &[u8]) -> Result<bool, Flaw>
    ensures seen { IsSeen (signature_of text.now) buf.now (found_by result) }
    ensures flaw { IfErr result (IsFlawOf text.now) }
{
    if begins_relation(skip_blanks(text)) {
        return is_related(text, buf);
    }
    accepts_fixed(text, buf)
}

/// [`accepts`] of a text that is known to describe a signature. Of fixed bytes it may stop at what the buffer lacks.
pub fn accepts_known(text: &[u8], buf: &[u8]) -> bool
    ensures { (alternatives : List Alternative) → signature_of text.now ≡ Some alternatives
        → IsTrue result ↔ Accepted alternatives buf.now }
{
    if begins_relation(skip_blanks(text)) {
        return match is_related(text, buf) {
            Ok(is_accepted) => is_accepted,
            Err(_) => false,
        };
    }
    fits_fixed(text, buf)
}

/// Whether the text begins with a letter, as the name of each relation does.
pub fn begins_relation(text: &[u8]) -> bool
    ensures { result ≡ begins_relation text.now }
{
    match text {
        [first, ..] => first.is_ascii_alphabetic(),
        [] => false,
    }
}
