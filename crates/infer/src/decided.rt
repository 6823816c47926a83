//! What more bytes can change of an answer.
ghost use Rattle.std.specs.Prelude.{◌≡◌, ◌↔◌, ◌<◌, IfSome, IsFalse, IsTrue, None, length};
ghost use Rattle.infer.specs.Decided.{CanBeDecided, IsAnswerForGood, IsChangeable, IsDecided, MayBecomeRow};
ghost use Rattle.infer.specs.Walks.{IsFirstAmong, RowHas};

use crate::candidates::dispatch::{blank, candidates_at, leads};
use crate::table::built_in::{accepts, may_become_deep, row_at};
use crate::table::row_data::row_data;
use crate::table::rows::ROW_COUNT;

/// Whether no bytes after `buf` change its answer. If this is false, some bytes do. The empty buffer is never decided, and
/// every other can be: some bytes after it make a buffer that is.
///
/// The first candidate that may still accept `buf` is the answer of some longer buffer. So `buf` is decided exactly if
/// that row accepts it already, or if there is none.
///
/// ```
/// assert!(rt; infer::is_decided(b"MZ") && !infer::is_decided(b"M"));
/// ```
pub fn is_decided(buf: &[u8]) -> bool
    ensures exact { IsTrue result ↔ IsDecided buf.now }
    ensures open { IsFalse result → IsChangeable buf.now }
    ensures can_be { 0 < length buf.now → CanBeDecided buf.now }
{
    leads();
    blank();
    infer_sig::laws::growth();
    infer_deep::laws::growth();
    let Some(first) = buf.first() else {
        return false;
    };
    match first_open(candidates_at(*first), buf) {
        Some(row) => accepts(buf, row),
        None => true,
    }
}

/// The answer of `buf` if no bytes after it change it: the number of its row, or that it has none. If this is `None`, some
/// bytes change it.
///
/// ```
/// assert_eq!(rt; infer::position_for_good(b"MZ"), Some(Some(rows::EXE)));
/// assert_eq!(rt; infer::position_for_good(b"M"), None);
/// ```
#[inline(always)]
pub fn position_for_good(buf: &[u8]) -> Option<Option<usize>>
    ensures decided { IfSome result (IsAnswerForGood buf.now) }
    ensures open { result ≡ None → IsChangeable buf.now }
{
    leads();
    blank();
    infer_sig::laws::growth();
    infer_deep::laws::growth();
    let first = buf.first()?;
    match first_open(candidates_at(*first), buf) {
        Some(row) => accepts(buf, row).then_some(Some(row)),
        None => Some(None),
    }
}

/// The first of the rows that may still accept `buf`.
fn first_open(rows: &[usize], buf: &[u8]) -> Option<usize>
    ensures { IsFirstAmong (RowHas (MayBecomeRow buf.now)) rows.now result }
{
    let may_become_row = |row: &&usize| -> bool
        ensures { IsTrue result ↔ RowHas (MayBecomeRow buf.entry.now) row.now.now }
    { may_become(buf, **row) };
    rows.iter().find(may_become_row).copied()
}

/// Whether some bytes after `buf` make row `row` accept it. From `ROW_COUNT` on there is no row, and no bytes do.
///
/// ```
/// assert!(rt; infer::may_become(b"\x89P", rows::PNG) && !infer::may_become(b"\x89X", rows::PNG));
/// ```
#[inline(always)]
pub fn may_become(buf: &[u8], row: usize) -> bool
    ensures { IsTrue result ↔ RowHas (MayBecomeRow buf.now) row }
{
    row < ROW_COUNT && may_become_at(row, buf)
}

#[inline(always)]
fn may_become_at(row: usize, buf: &[u8]) -> bool
    requires { row < ROW_COUNT }
    ensures { IsTrue result ↔ RowHas (MayBecomeRow buf.now) row }
{
    infer_sig::laws::open();
    match row_data(row) {
        Some(own) => infer_evidence::may_become(own.alternatives, buf),
        None => may_become_deep(row_at(row).row, buf),
    }
}
