//! What the bytes after a buffer can bring a signature, and what they can take from it.
ghost use Rattle.std.specs.Prelude.{◌≡◌, IsTrue, map};
ghost use Rattle.infer_deep.specs.Signatures.{MayBecome};
ghost use Rattle.infer_formats.specs.Open.{Stays};
ghost use Rattle.infer_sig.specs.Open.{may_fit, may_have};
ghost use Rattle.infer_more.specs.Listed.{alternative_listed, bytes_listed, part_listed, signature_listed};
ghost use Rattle.infer_more.specs.Open.{are_fixed, are_sound, is_fixed, is_one_or_lasts, is_sound};
ghost use Rattle.infer_notation.specs.Alternative.{Accepted, Fits};

use crate::laws::lasting;
use crate::row_data::{Alternative, Bytes, Piece, asked, pieces_of, relation_at};
use crate::signature::{is_among, is_between};
use infer_deep::places::may_stand_at;

/// Whether some bytes after the buffer, or none, may make the signature accept it: a no is certain, and so is a yes of
/// bytes at fixed places.
pub(super) fn may_become_accepted(signature: &[Alternative], buf: &[u8]) -> bool
    requires { IsTrue (are_sound (signature_listed signature.now)) }
    ensures may { MayBecome (Accepted (signature_listed signature.now)) buf.now → IsTrue result }
    ensures exact { IsTrue (are_fixed (signature_listed signature.now)) → IsTrue result
        → MayBecome (Accepted (signature_listed signature.now)) buf.now }
{
    for alternative in signature {
        if may_fit(alternative, buf) {
            return true;
        }
    }
    false
}

/// Whether some may make it have what this alternative asks.
fn may_fit(alternative: &Alternative, buf: &[u8]) -> bool
    requires { IsTrue (is_sound (alternative_listed alternative.now)) }
    ensures may { MayBecome (Fits (alternative_listed alternative.now)) buf.now → IsTrue result }
    ensures exact { IsTrue (is_fixed (alternative_listed alternative.now)) → IsTrue result
        → MayBecome (Fits (alternative_listed alternative.now)) buf.now }
{
    infer_sig::laws::growth();
    infer_sig::laws::open();
    match alternative {
        Alternative::Bytes(bytes) => may_have_bytes(bytes, buf),
        Alternative::BinaryBytes(bytes) => may_have_bytes(bytes, buf),
        Alternative::Related(number) => relation_at(*number).may_fit(buf),
    }
}

/// Whether the buffer has every piece as far as it goes.
#[tactic(auto, using(std::proofs::lemmas::List::Folds::list_all_at, crate::proofs::ListLemmas::all_of_all, infer_evidence::proofs::ListedLemmas::list_all_map, crate::proofs::ListLemmas::one_more))]
fn may_have_bytes(bytes: &Bytes, buf: &[u8]) -> bool
    ensures { result ≡ may_fit buf.now (bytes_listed bytes.now) }
{
    for piece in pieces_of(bytes) {
        if !may_have(piece, buf) {
            return false;
        }
    }
    true
}

/// Whether it has what the piece asks as far as it goes.
fn may_have(piece: &Piece, buf: &[u8]) -> bool
    ensures { result ≡ may_have buf.now (part_listed piece.now) }
{
    match piece {
        Piece::OneOf(place, bytes) => {
            buf.len() <= *place || is_among(buf[*place], asked(*bytes))
        }
        Piece::At(place, text) => may_stand_at(buf, asked(*text), *place),
        Piece::Between(place, low, high) => {
            buf.len() <= *place || is_between(buf[*place], *low, *high)
        }
    }
}

/// Whether the signature, which accepts the buffer, does so whatever bytes follow, as far as this can say: a yes is certain.
pub(super) fn stays_accepted(signature: &[Alternative], buf: &[u8]) -> bool
    requires accepts { Accepted (signature_listed signature.now) buf.now }
    requires known { IsTrue (is_one_or_lasts (signature_listed signature.now)) }
    ensures { IsTrue result → Stays (Accepted (signature_listed signature.now)) buf.now }
{
    lasting();
    match signature {
        [alternative] => stays(alternative, buf),
        _ => true,
    }
}

/// Whether the buffer, which has what the alternative asks, has it whatever bytes follow.
#[tactic(auto, using(crate::proofs::OpenLemmas::fit_stays))]
fn stays(alternative: &Alternative, buf: &[u8]) -> bool
    requires { Fits (alternative_listed alternative.now) buf.now }
    ensures { IsTrue result → Stays (Fits (alternative_listed alternative.now)) buf.now }
{
    lasting();
    match alternative {
        Alternative::Bytes(_) => true,
        Alternative::BinaryBytes(_) => true,
        Alternative::Related(number) => relation_at(*number).stays(buf),
    }
}
