//! One function that decides all signatures, and whether a further row widens an answer.
ghost use Rattle.std.specs.Prelude.{◌≡◌, ◌↔◌, IsTrue, length, map};
ghost use Rattle.std.specs.List.{list_all};
ghost use Rattle.infer_sig.specs.Signature.{allows, any_of, between, fits, has_part};
ghost use Rattle.infer_more.specs.Listed.{alternative_listed, bytes_listed, part_listed, signature_listed};
ghost use Rattle.infer_more.specs.Row.{is_closed, is_closed_alternative, is_inside};
ghost use Rattle.infer_more.specs.Wider.{WidensAt};
ghost use Rattle.infer_notation.specs.Alternative.{Accepted, Fits};

use crate::row_data::{
    Alternative, Bytes, Piece, alternatives_of, asked, pieces_of, relation_at, row_at,
};
use infer_deep::places::same_text;
use infer_formats::text::is_binary;

/// Whether further row `i` has this parent and accepts the buffer.
pub(crate) fn widens(i: usize, parent: Option<usize>, buf: &[u8]) -> bool
    ensures { IsTrue result ↔ WidensAt parent buf.now i }
{
    match row_at(i) {
        Some(row) => row.parent == parent && accepts(alternatives_of(row), buf),
        None => false,
    }
}

/// Whether the buffer has what one of the alternatives asks.
pub(crate) fn accepts(signature: &[Alternative], buf: &[u8]) -> bool
    requires { IsTrue (list_all is_closed_alternative (signature_listed signature.now)) }
    ensures { IsTrue result ↔ Accepted (signature_listed signature.now) buf.now }
{
    for alternative in signature {
        if fits(alternative, buf) {
            return true;
        }
    }
    false
}

/// Whether the buffer has what this one asks.
#[inline(always)]
fn fits(alternative: &Alternative, buf: &[u8]) -> bool
    requires { IsTrue (is_closed_alternative (alternative_listed alternative.now)) }
    ensures { IsTrue result ↔ Fits (alternative_listed alternative.now) buf.now }
{
    match alternative {
        Alternative::Bytes(bytes) => has_bytes(bytes, buf),
        Alternative::BinaryBytes(bytes) => has_bytes(bytes, buf) && is_binary(buf),
        Alternative::Related(number) => relation_at(*number).fits(buf),
    }
}

/// Whether the buffer has the least length and every piece.
#[inline(always)]
#[tactic(auto, using(infer_evidence::proofs::ListedLemmas::list_all_map))]
fn has_bytes(bytes: &Bytes, buf: &[u8]) -> bool
    requires { IsTrue (is_closed (bytes_listed bytes.now)) }
    ensures { result ≡ fits buf.now (bytes_listed bytes.now) }
{
    bytes.least <= buf.len() && has_every(pieces_of(bytes), buf)
}

/// Whether it has what each piece asks, all of it within the buffer.
#[tactic(auto, using(std::proofs::lemmas::List::Folds::list_all_at, crate::proofs::ListLemmas::all_of_all, crate::proofs::ListLemmas::one_more, crate::proofs::ListLemmas::passed_by))]
fn has_every(pieces: &[Piece], buf: &[u8]) -> bool
    requires { IsTrue (list_all (is_inside (length buf.now)) (map part_listed pieces.now)) }
    ensures { result ≡ list_all (λ piece. has_part buf.now (part_listed piece)) pieces.now }
{
    for piece in pieces {
        if !has_piece(piece, buf) {
            return false;
        }
    }
    true
}

/// Whether it has what this piece asks.
#[tactic(auto, using(crate::proofs::PieceLemmas::range_inside, crate::proofs::PieceLemmas::range_read))]
#[inline(always)]
fn has_piece(piece: &Piece, buf: &[u8]) -> bool
    requires { IsTrue (is_inside (length buf.now) (part_listed piece.now)) }
    ensures { result ≡ has_part buf.now (part_listed piece.now) }
{
    match piece {
        Piece::At(place, text) => same_text(buf, asked(*text), *place),
        Piece::OneOf(place, bytes) => is_among(buf[*place], asked(*bytes)),
        Piece::Between(place, low, high) => is_between(buf[*place], *low, *high),
    }
}

/// Whether the byte is in the range.
#[inline(always)]
pub(super) fn is_between(byte: u8, low: u8, high: u8) -> bool
    ensures { result ≡ allows (between low high) byte }
{
    low <= byte && byte <= high
}

/// Whether the byte is one of these.
#[tactic(auto, using(std::proofs::lemmas::Bool::ne_eqb, std::proofs::lemmas::List::Folds::list_any_at, crate::proofs::ListLemmas::any_of_all, crate::proofs::ListLemmas::no_more))]
#[inline(always)]
pub(super) fn is_among(byte: u8, bytes: &[u8]) -> bool
    ensures { result ≡ allows (any_of bytes.now) byte }
{
    for other in bytes {
        if byte == *other {
            return true;
        }
    }
    false
}
