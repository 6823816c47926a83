//! What more bytes can change of a wider answer.
ghost use Rattle.std.specs.Prelude.{◌≡◌, ◌⊎◌, IsTrue, MatchOption, length, slice_get};
ghost use Rattle.infer_formats.specs.Open.{Stays};
ghost use Rattle.infer_more.specs.Decided.{AsksForRelation, IsAwaited, IsDecided, IsWidenedForGood, MayBecomeAt, MayWiden, NoneMayWiden};
ghost use Rattle.infer_more.specs.Listed.{row_listed};
ghost use Rattle.infer_more.specs.Open.{is_row_sound};
ghost use Rattle.infer_more.specs.Row.{is_row_closed};
ghost use Rattle.infer_notation.specs.Alternative.{Accepted};
ghost use Rattle.infer_more.specs.Table.{further};

use crate::index::FURTHER_COUNT;
use crate::more_bytes::{may_become_accepted, stays_accepted};
use crate::row_data::{FurtherRow, alternatives_of, row_at};
use crate::signature;
use infer::rows::ROW_COUNT;

/// Whether no bytes after `buf` change its wider answer, which is the number of the row or that there is none. A yes is
/// certain. A no is not: where a row asks for a relation, it may be that none do.
///
/// ```
/// assert!(rt; infer_more::is_decided(b"\0asm\x01\0\0\0") && !infer_more::is_decided(b"\0asm"));
/// ```
pub fn is_decided(buf: &[u8]) -> bool
    ensures { IsTrue result → IsDecided buf.now }
{
    match infer::position_for_good(buf) {
        Some(parent) => is_widened_for_good(parent, buf),
        None => false,
    }
}

/// Whether none changes the first further row that widens this answer. A function of its own, so that a buffer whose
/// built-in answer may change costs no more than that answer.
#[inline(never)]
fn is_widened_for_good(parent: Option<usize>, buf: &[u8]) -> bool
    ensures { IsTrue result → IsWidenedForGood parent buf.now }
{
    match first_open(parent, buf) {
        Some(i) => is_first_for_good(i, parent, buf),
        None => true,
    }
}

/// Whether the first row that may widen the answer does so, whatever bytes follow.
fn is_first_for_good(i: usize, parent: Option<usize>, buf: &[u8]) -> bool
    requires { IsAwaited parent buf.now i }
    ensures { IsTrue result → IsWidenedForGood parent buf.now }
{
    match row_at(i) {
        Some(row) => is_stable(row, buf),
        None => true,
    }
}

/// Whether the row accepts the buffer, whatever bytes follow.
pub(super) fn is_stable(row: &FurtherRow, buf: &[u8]) -> bool
    requires closed { IsTrue (is_row_closed (row_listed row.now)) }
    requires sound { IsTrue (is_row_sound (row_listed row.now)) }
    ensures { IsTrue result → Stays (Accepted (row_listed row.now).signature) buf.now }
{
    let signature = alternatives_of(row);
    signature::accepts(signature, buf) && stays_accepted(signature, buf)
}

/// The first row that may widen the answer.
fn first_open(parent: Option<usize>, buf: &[u8]) -> Option<usize>
    ensures { MatchOption result (NoneMayWiden parent buf.now (length further))
        (IsAwaited parent buf.now) }
{
    let may_widen = |i: &usize| -> bool
        ensures may { MatchOption (slice_get further i.now) ⊥ (MayWiden parent buf.entry.now)
            → IsTrue result }
        ensures below { IsTrue result
            → MatchOption (slice_get further i.now) ⊥ (λ r. r.parent ≡ parent) }
    { may_widen(*i, parent, buf) };
    (0..FURTHER_COUNT).find(may_widen)
}

/// Whether row `i` has this parent, and some bytes after the buffer may make it accept.
#[tactic(auto, using(crate::proofs::NamedLemmas::row_passes, crate::proofs::TableLemmas::all_sound))]
fn may_widen(i: usize, parent: Option<usize>, buf: &[u8]) -> bool
    ensures may { MatchOption (slice_get further i) ⊥ (MayWiden parent buf.now) → IsTrue result }
    ensures below { IsTrue result → MatchOption (slice_get further i) ⊥ (λ r. r.parent ≡ parent) }
{
    match row_at(i) {
        Some(row) => row_may_widen(row, parent, buf),
        None => false,
    }
}

fn row_may_widen(row: &FurtherRow, parent: Option<usize>, buf: &[u8]) -> bool
    requires { IsTrue (is_row_sound (row_listed row.now)) }
    ensures may { MayWiden parent buf.now (row_listed row.now) → IsTrue result }
    ensures below { IsTrue result → (row_listed row.now).parent ≡ parent }
{
    row.parent == parent && may_become_accepted(alternatives_of(row), buf)
}

/// Whether some bytes after `buf`, or none, may make the signature of row `i`, built-in or further, accept it. A further
/// row's parent is not asked. A no is certain, and so is a yes but of a further row that asks for a relation.
#[tactic(auto, using(std::proofs::lemmas::Bool::and_parts, crate::proofs::NamedLemmas::row_passes, crate::proofs::TableLemmas::all_sound))]
pub fn may_become(buf: &[u8], i: usize) -> bool
    ensures may { MayBecomeAt buf.now i → IsTrue result }
    ensures exact { IsTrue result → MayBecomeAt buf.now i ⊎ AsksForRelation i }
{
    if i < ROW_COUNT {
        return infer::may_become(buf, i);
    }
    match row_at(i - ROW_COUNT) {
        Some(row) => may_become_accepted(alternatives_of(row), buf),
        None => false,
    }
}
