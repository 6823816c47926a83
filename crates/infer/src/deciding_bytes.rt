//! The bytes of a buffer that decide its answer.
ghost use Rattle.std.specs.Prelude.{◌≡◌, ◌↔◌, ◌+◌, ◌<◌, ◌≤◌, List, ℕ, IfSome, IsTrue, Some};
ghost use Rattle.infer.specs.Buffer.{IsBuffer};
ghost use Rattle.infer.specs.Evidence.{Decides, IsHeld, IsSearch, IsRowDecided, ProvesFirst, ProvesRow, most_of, most_of_all};
ghost use Rattle.infer.specs.First.{IsFirstOf};
ghost use Rattle.infer.specs.Row.{Accepts};
ghost use Rattle.infer.specs.Table.{signature_of, table};
ghost use Rattle.infer.specs.declared.deciding_bytes.TheConstants.{MOST_OF_CANDIDATES};
ghost use Rattle.infer_evidence.specs.declared.search.TheConstants.{MOST_OF_A_SEARCH};
ghost use Rattle.infer.specs.Walks.{IsFirstAmong, RowHas};
ghost use Rattle.infer_evidence.specs.Evidence.{AgreesOn, IsOf};

use crate::answers::position;
use crate::candidates::dispatch::{blank, candidates_at, leads};
use crate::decided::may_become;
use crate::table::built_in::accepts;
use crate::table::row_data::{row_data, search_of};
use crate::table::rows::ROW_COUNT;
use infer_evidence::{
    Claim, Evidence, MOST_OF_A_SEARCH, Range, Search, accept_search, refuse_search, shortest_front,
    weigh,
};

/// For how many ranges all candidates of a first byte ask at most.
pub const MOST_OF_CANDIDATES: usize = 67;

/// A claim about a row: of one that accepts the buffer that it does, and of another that no more bytes bring it.
#[derive(Drop)]
struct Acceptance {
    row: usize,
    accepts: bool,
}

impl Claim for Acceptance {
    ghost decides = { λ s front. IsRowDecided front s.row };

    fn is_decided_by(&self, front: &[u8]) -> bool {
        if self.accepts {
            return accepts(front, self.row);
        }
        !may_become(front, self.row)
    }
}

/// Whether the bytes at the front that are asked for already decide that a row does not accept the buffer.
fn refused_already(told: &Acceptance, buf: &[u8], evidence: &Evidence) -> bool
    ensures { IsTrue result → (c : List ℕ) → IsBuffer c → AgreesOn evidence.now buf.now c
        → (RowHas (Accepts c) told.now.row ↔ RowHas (Accepts buf.now) told.now.row) }
{
    infer_sig::laws::growth();
    infer_deep::laws::growth();
    !told.accepts && told.is_decided_by(&buf[..evidence.front().min(buf.len())])
}

/// Asks for the shortest front that decides the claim, and for the whole buffer if none does.
fn weigh_front(told: &Acceptance, buf: &[u8], evidence: &mut Evidence)
    ensures proves { ProvesRow evidence.old evidence.new buf.now told.now.row }
    ensures inside { IsOf evidence.old buf.now → IsOf evidence.new buf.now }
    ensures few { evidence.new.count ≤ evidence.old.count + 1 }
{
    infer_sig::laws::growth();
    infer_deep::laws::growth();
    if refused_already(told, buf, evidence) {
        return;
    }
    match shortest_front(told, buf) {
        Some(len) => evidence.ask_front(Range::new(0, len, Some(told.row)), told.accepts),
        None => {
            evidence.ask_front(Range::new(0, buf.len(), Some(told.row)), told.accepts);
            evidence.ask_exact();
        }
    }
}

/// Whether a row that asks for a text somewhere at the front accepts the buffer, and asks for what decides it.
fn weigh_search(search: &Search, row: usize, buf: &[u8], evidence: &mut Evidence) -> bool
    requires { IsSearch row search.now }
    ensures answer { IsTrue result ↔ RowHas (Accepts buf.now) row }
    ensures proves { ProvesRow evidence.old evidence.new buf.now row }
    ensures inside { IsOf evidence.old buf.now → IsOf evidence.new buf.now }
    ensures few { evidence.new.count ≤ evidence.old.count + MOST_OF_A_SEARCH }
{
    let accepts = accepts(buf, row);
    if accepts {
        accept_search(search, buf, Some(row), evidence);
    } else {
        refuse_search(search, buf, Some(row), evidence);
    }
    accepts
}

/// Whether the row accepts the buffer, and asks for what decides it.
fn weigh_row(row: usize, buf: &[u8], evidence: &mut Evidence) -> bool
    ensures answer { IsTrue result ↔ RowHas (Accepts buf.now) row }
    ensures proves { ProvesRow evidence.old evidence.new buf.now row }
    ensures inside { IsOf evidence.old buf.now → IsOf evidence.new buf.now }
    ensures few { evidence.new.count ≤ evidence.old.count + most_of (signature_of row) }
{
    if let Some(own) = row_data(row) {
        return weigh(own.alternatives, buf, Some(row), evidence);
    }
    if let Some(search) = search_of(row) {
        return weigh_search(&search, row, buf, evidence);
    }
    let accepts = accepts(buf, row);
    weigh_front(&Acceptance { row, accepts }, buf, evidence);
    accepts
}

/// The first of the rows that accepts the buffer, and asks for what decides that it is. That `held` accepts is asked for already.
fn weigh_rows(
    rows: &[usize],
    held: Option<usize>,
    buf: &[u8],
    evidence: &mut Evidence,
) -> Option<usize>
    requires { IfSome held (IsHeld evidence.old buf.now) }
    ensures first { IsFirstAmong (RowHas (Accepts buf.now)) rows.now result }
    ensures proves { ProvesFirst evidence.old evidence.new buf.now rows.now result }
    ensures inside { IsOf evidence.old buf.now → IsOf evidence.new buf.now }
    ensures few { evidence.new.count ≤ evidence.old.count + most_of_all rows.now }
    ensures fewer { IfSome held (λ i. result ≡ Some i
        → evidence.new.count + most_of (signature_of i) ≤ evidence.old.count + most_of_all rows.now) }
{
    for row in rows {
        if held == Some(*row) {
            return held;
        }
        if weigh_row(*row, buf, evidence) {
            return Some(*row);
        }
    }
    None
}

/// The first of the candidates that accepts the buffer, and asks for what decides that it is. That `held` accepts is asked for
/// already.
fn weigh_candidates(held: Option<usize>, buf: &[u8], evidence: &mut Evidence) -> Option<usize>
    requires { IfSome held (IsHeld evidence.old buf.now) }
    ensures first { IsFirstOf (Accepts buf.now) table result }
    ensures decides { Decides evidence.new buf.now result }
    ensures inside { IsOf evidence.old buf.now → IsOf evidence.new buf.now }
    ensures few { evidence.new.count ≤ evidence.old.count + 1 + MOST_OF_CANDIDATES }
    ensures fewer { IfSome held (λ i. result ≡ Some i
        → evidence.new.count + most_of (signature_of i) ≤ evidence.old.count + 1 + MOST_OF_CANDIDATES) }
{
    leads();
    blank();
    let Some(first) = buf.first() else {
        evidence.ask_exact();
        return None;
    };
    evidence.ask(Range::new(0, 1, None));
    weigh_rows(candidates_at(*first), held, buf, evidence)
}

/// The number of the first built-in row that accepts `buf`, as [`position`](crate::position) answers, and what decides it: the
/// bytes of at most [`MOST_RANGES`](infer_evidence::MOST_RANGES) ranges, and what is needed of the length. Every buffer with
/// the same bytes in these ranges and such a length has the same answer.
///
/// A range says which row it decides: the answer, which accepts by these bytes, or a row before it, which they rule
/// out. A row that asks for bytes at fixed places has the bytes that it asks for, or one that is another. A text that may
/// stand anywhere at the front does, or each place of it lacks a byte: most often one in as many as the text has. Of a row
/// that reads deeper they are the shortest front that decides it.
pub fn evidence(buf: &[u8], evidence: &mut Evidence) -> Option<usize>
    ensures first { IsFirstOf (Accepts buf.now) table result }
    ensures bound { IfSome result (λ i. i < ROW_COUNT) }
    ensures decides { Decides evidence.new buf.now result }
    ensures inside { IsOf evidence.new buf.now }
    ensures few { evidence.new.count ≤ 1 + MOST_OF_CANDIDATES }
{
    evidence.clear();
    match position(buf) {
        Some(row) => {
            // Its own bytes rule out most of the others.
            weigh_row(row, buf, evidence);
            weigh_candidates(Some(row), buf, evidence)
        }
        None => weigh_candidates(None, buf, evidence),
    }
}
